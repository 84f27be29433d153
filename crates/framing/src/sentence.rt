// Sentences, kind 2: `$`, a payload, `*`, its exclusive-or in two hex digits, CR and LF.
ghost use Rattle.std.specs.Prelude.{◌≡◌, ◌+◌, ◌<◌, ◌≤◌, ◌∷◌, ◌++◌, length, if◌then◌else◌};
ghost use Rattle.std.specs.List.{prefix_len};
ghost use Rattle.framing.specs.Plan.{judged};
ghost use Rattle.framing.specs.Sentence.{sentence as sentence_plan, payload, xor_of, hex_value, finished, closing, ExactlySentences};
ghost use Rattle.framing.specs.SentencePlan.{sentence_lawful};

use crate::verdict::{Framing, Verdict};

const MOST_PAYLOAD: usize = 506;

const KIND: u8 = 2;

#[derive(Clone, Copy, Debug)]
pub struct Sentence;

fn is_payload(b: u8) -> bool
    ensures { result ≡ payload b }
{
    matches!(b, 0x20..=0x7E) && b != b'$' && b != b'*'
}

// How many payload bytes stand in front. Not inlined, as the checksum of a frame's data is not.
#[inline(never)]
fn payload_run(bytes: &[u8]) -> usize
    ensures value { result ≡ prefix_len payload bytes.now }
    ensures bound { result ≤ length bytes.now }
{
    bytes.iter().take_while(|b| is_payload(**b)).count()
}

// The same. In noise mostly none does, which is seen here.
fn payload_len(bytes: &[u8]) -> usize
    ensures value { result ≡ prefix_len payload bytes.now }
    ensures bound { result ≤ length bytes.now }
{
    match bytes {
        [first, ..] if is_payload(*first) => payload_run(bytes),
        _ => 0,
    }
}

// Not inlined either.
#[inline(never)]
fn xor_of(bytes: &[u8]) -> u8
    ensures { result ≡ xor_of bytes.now }
{
    bytes.iter().fold(0, |sum, b| sum ^ *b)
}

// The value of an upper-case hex digit.
fn hex_value(c: char) -> Option<u8>
    ensures { result ≡ hex_value c }
{
    match c {
        '0'..='9' => Some(c as u8 - b'0'),
        'A'..='F' => Some(c as u8 - b'A' + 10),
        _ => None,
    }
}

// Whether the four bytes behind `*` are the digits of `sum`, CR and LF.
fn is_finished(sum: u8, end: &[u8; 4]) -> bool
    ensures { result ≡ finished sum end.now }
{
    let [high, low, cr, lf] = *end;
    match (hex_value(high as char), hex_value(low as char)) {
        (Some(high), Some(low)) => {
            16 * (high as u16) + low as u16 == sum as u16 && cr == b'\r' && lf == b'\n'
        }
        _ => false,
    }
}

// The verdict once the four bytes behind `*` are there: a frame, if they are the end of this payload.
fn end_verdict(text: &[u8], end: &[u8; 4]) -> Verdict
    ensures { result ≡ (if finished (xor_of text.now) end.now then Verdict.Frame (length text.now + 6) 2 else Verdict.NoFrame) }
{
    if !is_finished(xor_of(text), end) {
        return Verdict::NoFrame;
    }
    Verdict::Frame {
        len: text.len() + 6,
        kind: KIND,
    }
}

// The verdict on `$`, these payload bytes, the first other byte and what stands behind it.
#[tactic(auto, using(crate::specs::SentencePlan::closing_is))]
fn close(text: &[u8], mark: u8, rest: &[u8]) -> Verdict
    ensures { result ≡ judged (closing (length text.now)) (36 ∷ (text.now ++ (mark ∷ rest.now))) }
{
    if text.is_empty() || mark != b'*' {
        return Verdict::NoFrame;
    }
    let Some(end) = rest.first_chunk() else {
        return Verdict::Short;
    };
    end_verdict(text, end)
}

// The verdict on some bytes, step by step.
#[inline(always)]
#[tactic(auto, using(crate::specs::SentencePlan::near_count, crate::specs::SentencePlan::too_many, crate::specs::SentencePlan::open_ended, crate::specs::SentencePlan::closes))]
fn judge(bytes: &[u8]) -> Verdict
    ensures { result ≡ judged sentence_plan bytes.now }
{
    if bytes.is_empty() {
        return Verdict::Short;
    }
    if bytes[0] != b'$' {
        return Verdict::NoFrame;
    }
    let near = bytes.len().min(MOST_PAYLOAD + 2);
    let k = 1 + payload_len(&bytes[1..near]);
    if k > MOST_PAYLOAD + 1 {
        return Verdict::NoFrame;
    }
    let Some((mark, rest)) = bytes[k..].split_first() else {
        return Verdict::Short;
    };
    close(&bytes[1..k], *mark, rest)
}

impl Framing for Sentence {
    ghost verdict = { λ _. judged sentence_plan };

    ghost reach = { λ _. 512 };

    ghost lawful = { λ f. sentence_lawful };

    #[inline(always)]
    fn look(&self, bytes: &[u8]) -> Verdict
        ensures verdict { result ≡ judged sentence_plan bytes.now }
        ensures sentences { ExactlySentences bytes.now result }
    {
        judge(bytes)
    }

    fn limit(&self) -> usize {
        MOST_PAYLOAD + 6
    }
}
