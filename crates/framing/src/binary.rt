// Binary frames, kind 1: a header of ten bytes and its data.
ghost use Rattle.std.specs.Prelude.{◌≡◌, ◌+◌, length, if◌then◌else◌, Some, None, nat_eq};
ghost use Rattle.framing.specs.Checksum.{checksum};
ghost use Rattle.framing.specs.Plan.{judged};
ghost use Rattle.framing.specs.Binary.{binary as binary_plan, headed, word, ExactlyFrames};
ghost use Rattle.framing.specs.BinaryPlan.{binary_lawful};

use crate::checksum::checksum_of;
use crate::verdict::{Framing, Verdict};

const SYNC: u8 = 0xA5;

const HEADER: usize = 10;

const HEADER_BYTE: u8 = 10;

const FAMILY: u8 = 0x10;

const MOST_DATA: usize = 8182;

const KIND: u8 = 1;

#[derive(Clone, Copy, Debug)]
pub struct Binary;

// The number of data bytes that a header announces, where family, checksum and size are right.
fn data_size(header: &[u8; HEADER]) -> Option<usize>
    ensures { result ≡ (if headed header.now then Some (word header.now 4) else None) }
{
    let size = u16::from_le_bytes([header[4], header[5]]) as usize;
    let sum = u16::from_le_bytes([header[8], header[9]]);
    if header[3] != FAMILY || sum != checksum_of(&header[0..8]) || size > MOST_DATA {
        return None;
    }
    Some(size)
}

// The checksum of a frame's data. Not inlined: a search for the next record would step the pointers of its loop at each byte.
#[inline(never)]
fn data_sum(body: &[u8]) -> u16
    ensures { result ≡ checksum body.now }
{
    checksum_of(body)
}

// The verdict once the data are there: a frame, if they have the checksum that the header says.
fn data_verdict(header: &[u8; HEADER], body: &[u8]) -> Verdict
    ensures { result ≡ (if nat_eq (checksum body.now) (word header.now 6) then Verdict.Frame (10 + length body.now) 1 else Verdict.NoFrame) }
{
    let sum = u16::from_le_bytes([header[6], header[7]]);
    if data_sum(body) != sum {
        return Verdict::NoFrame;
    }
    Verdict::Frame {
        len: HEADER + body.len(),
        kind: KIND,
    }
}

// The verdict on some bytes, step by step.
#[inline(always)]
fn judge(bytes: &[u8]) -> Verdict
    ensures { result ≡ judged binary_plan bytes.now }
{
    if bytes.is_empty() {
        return Verdict::Short;
    }
    if bytes[0] != SYNC {
        return Verdict::NoFrame;
    }
    if bytes.len() < 2 {
        return Verdict::Short;
    }
    if bytes[1] != HEADER_BYTE {
        return Verdict::NoFrame;
    }
    let Some((header, data)) = bytes.split_first_chunk() else {
        return Verdict::Short;
    };
    let Some(size) = data_size(header) else {
        return Verdict::NoFrame;
    };
    if data.len() < size {
        return Verdict::Short;
    }
    data_verdict(header, &data[..size])
}

impl Framing for Binary {
    ghost verdict = { λ _. judged binary_plan };

    ghost reach = { λ _. 8192 };

    ghost lawful = { λ f. binary_lawful };

    #[inline(always)]
    fn look(&self, bytes: &[u8]) -> Verdict
        ensures verdict { result ≡ judged binary_plan bytes.now }
        ensures frames { ExactlyFrames bytes.now result }
    {
        judge(bytes)
    }

    fn limit(&self) -> usize {
        HEADER + MOST_DATA
    }
}
