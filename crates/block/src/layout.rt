// The layout of a block.
use crate::entries::ENTRY;

// How many entries a block has room for.
pub const PER_BLOCK: usize = 31;

// Where the count, the number, the eight zeros and the checksum stand.
pub(crate) const COUNT: usize = ENTRY * PER_BLOCK;

pub(crate) const NUMBER: usize = COUNT + 2;

pub(crate) const ZEROS: usize = NUMBER + 4;

pub(crate) const SUM: usize = ZEROS + 8;

// How many bytes a block has.
pub const BLOCK: usize = SUM + 2;

pub(crate) type Block = [u8; BLOCK];

// A register has at most this many blocks.
pub const MOST_BLOCKS: usize = 128;
