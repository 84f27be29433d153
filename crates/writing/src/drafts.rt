// The calls of a draft.
ghost use Rattle.std.specs.Prelude.{◌≡◌, ◌+◌, ◌-◌, ◌≤◌, true, [], ◌++◌, length, take, drop, replicate, Ok};
ghost use Rattle.writing.specs.Drafts.{content, put_at, fits, has_room, Adds, Seals, told};
ghost use Rattle.framing.specs.Binary.{header_of};

use crate::draft::Draft;
use common::refusal::Refusal;
use framing::checksum::checksum_of;

const HEADER: usize = 10;

const MOST_DATA: usize = 8182;

const SYNC: u8 = 0xA5;

const HEADER_BYTE: u8 = 10;

const FAMILY: u8 = 0x10;

// The data do not fit: behind the header and the data so far, or into a frame.
#[derive(Clone, Copy, PartialEq, Eq, Debug)]
pub struct DraftFull;

impl From<DraftFull> for Refusal {
    ghost from_gives = { λ f r. r ≡ told f };

    fn from(_full: DraftFull) -> Refusal {
        Refusal {
            number: 25,
            layer: 3,
            place: 0,
        }
    }
}

// Whether a space of this many bytes has room for a frame with this many data bytes.
pub(crate) fn has_room(space: usize, size: usize) -> bool
    ensures { result ≡ fits space size }
{
    space >= HEADER && size <= (space - HEADER).min(MOST_DATA)
}

// Copies some bytes over those of a space from a place on.
fn put(space: &mut [u8], place: usize, bytes: &[u8])
    requires { place + length bytes.now ≤ length space.old }
    ensures { space.new ≡ put_at place bytes.now space.old }
{
    space[place..place + bytes.len()].copy_from_slice(bytes);
}

// The header of some data.
fn header_of(series: u8, data: &[u8]) -> [u8; HEADER]
    requires { length «data».now ≤ 8182 }
    ensures { result ≡ header_of series «data».now }
{
    let [size_low, size_high] = (data.len() as u16).to_le_bytes();
    let [sum_low, sum_high] = checksum_of(data).to_le_bytes();
    let mut header = [
        SYNC,
        HEADER_BYTE,
        series,
        FAMILY,
        size_low,
        size_high,
        sum_low,
        sum_high,
        0,
        0,
    ];
    let sum = checksum_of(&header[..8]).to_le_bytes();
    header[8..].copy_from_slice(&sum);
    header
}

// Writes the header in front of the first `len` data bytes of a space, if there is room for a header; answers the frame's length.
fn write_header(space: &mut [u8], series: u8, len: usize) -> usize
    requires { (len ≤ length space.old - 10) × (len ≤ 8182) }
    ensures { Seals series (take len (drop 10 space.old)) space.old space.new result }
{
    if space.len() < HEADER {
        return 0;
    }
    let header = header_of(series, &space[HEADER..HEADER + len]);
    put(space, 0, &header);
    HEADER + len
}

fn zero(bytes: &mut [u8])
    ensures { bytes.new ≡ replicate (length bytes.old) 0 }
{
    bytes.fill(0);
}

// Zeroes the first `len` data bytes of a space.
fn zero_data(space: &mut [u8], len: usize)
    requires { len ≤ length space.old - 10 }
    ensures { space.new ≡ put_at 10 (replicate len 0) space.old }
{
    if len > 0 {
        zero(&mut space[HEADER..HEADER + len]);
    }
}

impl<'a> Draft<'a> {
    // A draft without data over a space, which it keeps until it ends.
    pub fn start(space: &'a mut [u8], series: u8) -> Draft<'a>
        ensures content { content result ≡ [] }
        ensures space { result.space.now ≡ space.old }
        ensures series { result.series ≡ series }
        ensures lends { result.space.ghost_name ≡ space.entry.ghost_name }
    {
        Draft {
            space,
            series,
            len: 0,
        }
    }

    // Copies data behind those so far, where there is room for them.
    fn copy_in(&mut self, data: &[u8])
        requires { has_room self.old «data».now ≡ true }
        ensures does { Adds self.old «data».now self.new (Ok tt) }
        ensures lends { self.new.space.ghost_name ≡ self.old.space.ghost_name }
    {
        put(self.space, HEADER + self.len, data);
        self.len += data.len();
    }

    // Puts data behind those so far, or refuses them and leaves all as it was.
    pub fn add(&mut self, data: &[u8]) -> Result<(), DraftFull>
        ensures does { Adds self.old «data».now self.new result }
        ensures lends { self.new.space.ghost_name ≡ self.old.space.ghost_name }
    {
        if !has_room(self.space.len(), self.len.saturating_add(data.len())) {
            return Err(DraftFull);
        }
        self.copy_in(data);
        Ok(())
    }

    // Ends the draft: writes the header in front of the data, and answers the frame's length; 0 where the space has no room for a header. Its
    // contract has promised that number, so it is no `Option`.
    pub fn seal(self) -> usize
        ensures { Seals self.entry.series (content self.entry) self.entry.space.now self.exit.0.now result }
    {
        let Draft { space, series, len } = self;
        write_header(space, series, len)
    }

    // Ends the draft: zeroes what was written.
    pub fn scrap(self)
        ensures { self.exit.0.now ≡ put_at 10 (replicate (length (content self.entry)) 0) self.entry.space.now }
    {
        let Draft {
            space,
            series: _,
            len,
        } = self;
        zero_data(space, len);
    }
}
