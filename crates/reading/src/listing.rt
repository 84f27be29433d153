// The frames of a stream that is held whole.
ghost use Rattle.std.specs.Prelude.{◌≡◌, ◌+◌, ◌≤◌, length, IfOk, Some};
ghost use Rattle.reading.specs.Reading.{found, series_of};
ghost use Rattle.reading.specs.Listed.{Listed, line_of, frame_text, totals_text};

use crate::steps::{Next, next_record};
use framing::verdict::Framing;
use std::alloc::{AllocError, Global};
use std::fmt;

// A frame: the number of bytes before it, its length, its kind, and its series, which is 0 for what is no binary frame.
#[derive(Clone, Copy, PartialEq, Eq, Debug)]
pub struct Line {
    pub place: usize,
    pub len: usize,
    pub kind: u8,
    pub series: u8,
}

// The frames of a stream, how many bytes it has, and how many of them are in frames and passed over.
#[derive(Drop)]
pub struct Listing {
    pub bytes: usize,
    pub frames: Vec<Line>,
    pub in_frames: usize,
    pub passed: usize,
}

// The series of a record.
pub fn series_of(kind: u8, bytes: &[u8]) -> u8
    ensures { result ≡ series_of kind bytes.now }
{
    if kind == 1 && bytes.len() >= 3 {
        bytes[2]
    } else {
        0
    }
}

// What is listed of the record of `len` bytes at a place.
fn line_at(bytes: &[u8], place: usize, len: usize, kind: u8) -> Line
    requires { place + len ≤ length bytes.now }
    ensures { result ≡ line_of (found bytes.now place len kind) }
{
    let record = &bytes[place..place + len];
    Line {
        place,
        len: record.len(),
        kind,
        series: series_of(kind, record),
    }
}

// The frames of all these bytes, as those of a closed stream.
pub fn list_frames<F: Framing>(
    heap: Global,
    framing: &F,
    bytes: &[u8],
) -> Result<Listing, AllocError>
    ensures { IfOk result (Listed (F.Framing.verdict framing.now) bytes.now) }
{
    let mut frames = Vec::new(heap);
    let mut in_frames = 0;
    let mut passed = 0;
    let mut place = 0;
    while let Next::Record {
        place: start,
        len,
        kind,
    } = next_record(framing, bytes, place, true)
    {
        frames.push(line_at(bytes, start, len, kind))?;
        in_frames += len;
        passed += start - place;
        place = start + len;
    }
    passed += bytes.len() - place;
    Ok(Listing {
        bytes: bytes.len(),
        frames,
        in_frames,
        passed,
    })
}

// A frame's line of text.
impl fmt::Display for Line {
    ghost output = { λ f. Some (frame_text f) };

    fn fmt<W: fmt::Write>(&self, f: &mut fmt::Formatter<W>) -> fmt::Result {
        let Line {
            place,
            len,
            kind,
            series,
        } = *self;
        write!(f, "{place} {len} {kind} {series}")
    }
}

// The line of a listing's totals.
impl fmt::Display for Listing {
    ghost output = { λ l. Some (totals_text l) };

    fn fmt<W: fmt::Write>(&self, f: &mut fmt::Formatter<W>) -> fmt::Result {
        let bytes = self.bytes;
        let frames = self.frames.len();
        let framed = self.in_frames;
        let passed = self.passed;
        write!(
            f,
            "bytes {bytes} frames {frames} framed {framed} passed {passed}"
        )
    }
}
