// Lines of text, written to a caller's space.
ghost use Rattle.std.specs.Prelude.{◌≡◌, ◌+◌, ◌<◌, ◌≤◌, [], ◌∷◌, ◌++◌, length, decimal};
ghost use Rattle.arrayvec.specs.ArrayString.{array_string_len};
ghost use Rattle.register.specs.Lines.{entry_text, totals_text, Written, told};

use crate::entry::{Entry, Totals};
use arrayvec::ArrayString;
use common::refusal::Refusal;
use itoa::Buffer;

// Room for either line: six numbers of up to 20 digits with a byte behind each, or four with their labels.
const ROOM: usize = 160;

// The line does not fit its space.
#[derive(Clone, Copy, PartialEq, Eq, Debug)]
pub struct LineShort;

impl From<LineShort> for Refusal {
    ghost from_gives = { λ short refusal. refusal ≡ told short };

    fn from(_short: LineShort) -> Refusal {
        Refusal {
            number: 26,
            layer: 3,
            place: 0,
        }
    }
}

// Adds the decimal digits of a number.
fn number(line: &mut ArrayString<ROOM>, n: u64)
    requires { array_string_len line.old + 20 ≤ 160 }
    ensures text { line.new.bytes ≡ line.old.bytes ++ decimal n }
    ensures room { array_string_len line.new ≤ array_string_len line.old + 20 }
{
    let mut buffer = Buffer::new();
    line.push_str(buffer.format(n));
}

// Adds a number, and the character behind it.
fn column(line: &mut ArrayString<ROOM>, n: u64, end: char)
    requires room { array_string_len line.old + 21 ≤ 160 }
    requires ascii { end < 128 }
    ensures text { line.new.bytes ≡ line.old.bytes ++ decimal n ++ end ∷ [] }
    ensures room { array_string_len line.new ≤ array_string_len line.old + 21 }
{
    number(line, n);
    line.push(end);
}

// Adds the words before a number, and the number.
fn labelled(line: &mut ArrayString<ROOM>, label: &str, n: u64)
    requires { array_string_len line.old + (length label.now + 20) ≤ 160 }
    ensures text { line.new.bytes ≡ line.old.bytes ++ label.now ++ decimal n }
    ensures room { array_string_len line.new ≤ array_string_len line.old + (length label.now + 20) }
{
    line.push_str(label);
    number(line, n);
}

// Copies a text to the front of a space, if it fits.
fn write(text: &str, space: &mut [u8]) -> Result<usize, LineShort>
    ensures { Written text.now space.old space.new result }
{
    let len = text.len();
    if space.len() < len {
        return Err(LineShort);
    }
    space[..len].copy_from_slice(text.as_bytes());
    Ok(len)
}

fn entry_string(entry: Entry) -> ArrayString<ROOM>
    ensures { result.bytes ≡ entry_text entry }
{
    let mut line = ArrayString::new();
    column(&mut line, entry.place, ' ');
    column(&mut line, entry.len.into(), ' ');
    column(&mut line, entry.kind.into(), ' ');
    column(&mut line, entry.series.into(), ' ');
    column(&mut line, entry.verdict.into(), ' ');
    column(&mut line, entry.fault.into(), '\n');
    line
}

fn totals_string(totals: Totals) -> ArrayString<ROOM>
    ensures { result.bytes ≡ totals_text totals }
{
    let mut line = ArrayString::new();
    labelled(&mut line, "accepted ", totals.accepted);
    labelled(&mut line, " records ", totals.records);
    labelled(&mut line, " passed ", totals.passed);
    labelled(&mut line, " waiting ", totals.waiting);
    line.push('\n');
    line
}

// An entry's line.
pub fn entry_line(entry: Entry, space: &mut [u8]) -> Result<usize, LineShort>
    ensures { Written (entry_text entry) space.old space.new result }
{
    write(entry_string(entry).as_str(), space)
}

// The line of an intake's totals.
pub fn totals_line(totals: Totals, space: &mut [u8]) -> Result<usize, LineShort>
    ensures { Written (totals_text totals) space.old space.new result }
{
    write(totals_string(totals).as_str(), space)
}
