// Packing the entries of a register into blocks.
ghost use Rattle.std.specs.Prelude.{◌≡◌, ◌*◌, ◌≤◌, ◌++◌, length, take, drop, if◌then◌else◌, Ok, Err, IfOk};
ghost use Rattle.std.specs.List.{flat_map, AllByRecursion};
ghost use Rattle.block.specs.Entries.{entry_size, entry_bytes, Fits};
ghost use Rattle.block.specs.Blocks.{per_block, block_size, block};
ghost use Rattle.block.specs.Packing.{most_blocks, needed, packed, fits, told};
ghost use Rattle.block.specs.Unpacking.{unpacked};

use crate::entries::{ENTRY, entry_bytes};
use crate::layout::{BLOCK, COUNT, MOST_BLOCKS, NUMBER, PER_BLOCK, SUM, ZEROS};
use common::refusal::Refusal;
use framing::checksum::checksum_of;
use register::entry::Entry;

// Why nothing is packed.
#[derive(Clone, Copy, PartialEq, Eq, Debug)]
pub enum PackFault {
    // The entries need more blocks than a register has, or the space is too short for their blocks.
    NoSpace,
}

impl From<PackFault> for Refusal {
    ghost from_gives = { λ fault refusal. refusal ≡ told fault };

    fn from(fault: PackFault) -> Refusal {
        let number = match fault {
            PackFault::NoSpace => 27,
        };
        Refusal {
            number,
            layer: 4,
            place: 0,
        }
    }
}

// Each of the next three calls says that the entries' numbers fit: tried without, and it is known of an entry only where it is read.
// Writes entries to the front of a block, one behind the other.
fn write_entries(entries: &[Entry], area: &mut [u8])
    requires { entry_size * length entries.now ≤ length area.old }
    ensures writes { area.new ≡ flat_map entry_bytes entries.now ++ drop (entry_size * length entries.now) area.old }
    ensures fit { AllByRecursion Fits entries.now }
{
    for (k, entry) in entries.iter().enumerate() {
        let place = ENTRY * k;
        area[place..place + ENTRY].copy_from_slice(&entry_bytes(*entry));
    }
}

// Writes a block, whatever the space held before.
fn write_block(number: u32, entries: &[Entry], space: &mut [u8])
    requires few { length entries.now ≤ per_block }
    requires size { length space.old ≡ block_size }
    ensures writes { space.new ≡ block number entries.now }
    ensures fit { AllByRecursion Fits entries.now }
{
    space.fill(0);
    write_entries(entries, space);
    space[COUNT..NUMBER].copy_from_slice(&(entries.len() as u16).to_le_bytes());
    space[NUMBER..ZEROS].copy_from_slice(&number.to_le_bytes());
    let sum = checksum_of(&space[0..SUM]);
    space[SUM..BLOCK].copy_from_slice(&sum.to_le_bytes());
}

// Writes the blocks of some entries to the front of a space. What is written through `chunks_mut` is not known afterwards, so the written side is
// indexed, here and in `write_entries`.
fn write_blocks(entries: &[Entry], space: &mut [u8])
    requires few { needed entries.now ≤ most_blocks }
    requires room { block_size * needed entries.now ≤ length space.old }
    ensures writes { space.new ≡ packed entries.now ++ drop (block_size * needed entries.now) space.old }
    ensures fit { AllByRecursion Fits entries.now }
{
    for (i, part) in entries.chunks(PER_BLOCK).enumerate() {
        let start = BLOCK * i;
        write_block(i as u32, part, &mut space[start..start + BLOCK]);
    }
}

// Writes the blocks of a register's entries to the front of a space, and answers how many bytes they are.
pub fn pack(entries: &[Entry], space: &mut [u8]) -> Result<usize, PackFault>
    ensures says { result ≡ (if fits entries.now (length space.old) then Ok (length (packed entries.now)) else Err PackFault.NoSpace) }
    ensures leaves { space.new ≡ (if fits entries.now (length space.old) then packed entries.now ++ drop (length (packed entries.now)) space.old else space.old) }
    ensures within { IfOk result (λ n. n ≤ length space.old) }
    ensures back { IfOk result (λ n. unpacked (take n space.new) ≡ Ok entries.now) }
{
    let count = entries.len().div_ceil(PER_BLOCK);
    if count > MOST_BLOCKS || space.len() < BLOCK * count {
        return Err(PackFault::NoSpace);
    }
    write_blocks(entries, space);
    Ok(BLOCK * count)
}
