// The reading of a stream: its records, one after the other, and where it stops or ends.
ghost use Rattle.std.specs.Prelude.{◌≡◌};
ghost use Rattle.reading.specs.Reading.{NextOf, OneReading, PrefixStable};

use framing::verdict::{Framing, Verdict};

// What comes next in a reading. Each case has its place and neither is a failure, so that an `Option` or a `Result` would say less.
#[derive(Clone, Copy, PartialEq, Eq, Debug)]
pub enum Next {
    // A record of `len` bytes, with `place` bytes of the stream before it.
    Record { place: usize, len: usize, kind: u8 },
    // No record: the reading stops or ends at this place.
    End { place: usize },
}

// Searches for the next record from a place on, byte by byte. Not inlined: its loop takes a turn for each byte of noise, and is short only where a
// caller's values do not take its registers.
#[inline(never)]
fn search<F: Framing>(framing: &F, bytes: &[u8], from: usize, closed: bool) -> Next
    ensures { NextOf (F.Framing.verdict framing.now) closed bytes.now from result }
{
    for place in from..bytes.len() {
        match framing.look(&bytes[place..]) {
            Verdict::NoFrame => {}
            Verdict::Short if closed => {}
            Verdict::Short => return Next::End { place },
            Verdict::Frame { len, kind } => return Next::Record { place, len, kind },
        }
    }
    Next::End {
        place: from.max(bytes.len()),
    }
}

// Works the reading of the bytes on from a place, to the next record or to where it stops or ends. Mostly one record stands behind the other, and
// nothing has to be searched for.
pub fn next_record<F: Framing>(framing: &F, bytes: &[u8], from: usize, closed: bool) -> Next
    ensures { NextOf (F.Framing.verdict framing.now) closed bytes.now from result }
{
    if from >= bytes.len() {
        return Next::End { place: from };
    }
    match framing.look(&bytes[from..]) {
        Verdict::Frame { len, kind } => Next::Record {
            place: from,
            len,
            kind,
        },
        Verdict::Short if !closed => Next::End { place: from },
        Verdict::Short => search(framing, bytes, from + 1, closed),
        Verdict::NoFrame => search(framing, bytes, from + 1, closed),
    }
}

// Every stream has exactly one reading.
pub fn one_reading() -> bool
    ensures { OneReading }
{
    true
}

// What an open reading has found stays found, and what it has passed over stays passed over.
pub fn prefix_stable() -> bool
    ensures { PrefixStable }
{
    true
}
