// The bytes of an entry.
ghost use Rattle.std.specs.Prelude.{◌≡◌};
ghost use Rattle.block.specs.Entries.{entry_bytes, entry_of, Fits};

use crate::numbers::array_at;
use register::entry::Entry;

// How many bytes an entry has.
pub const ENTRY: usize = 16;

// The bytes of the fields, one behind the other, each with its lowest byte first.
// No `From`: the entry and the array are both types of other crates.
pub fn entry_bytes(entry: Entry) -> [u8; ENTRY]
    ensures bytes { result ≡ entry_bytes entry }
    ensures fits { Fits entry }
{
    let Entry {
        place,
        len,
        kind,
        series,
        verdict,
        fault,
    } = entry;
    let [p0, p1, p2, p3, p4, p5, p6, p7] = place.to_le_bytes();
    let [l0, l1] = len.to_le_bytes();
    let [v0, v1] = verdict.to_le_bytes();
    let [f0, f1] = fault.to_le_bytes();
    [
        p0, p1, p2, p3, p4, p5, p6, p7, l0, l1, kind, series, v0, v1, f0, f1,
    ]
}

pub fn entry_of(bytes: [u8; ENTRY]) -> Entry
    ensures { result ≡ entry_of bytes }
{
    Entry {
        place: u64::from_le_bytes(array_at(&bytes, 0)),
        len: u16::from_le_bytes(array_at(&bytes, 8)),
        kind: bytes[10],
        series: bytes[11],
        verdict: u16::from_le_bytes(array_at(&bytes, 12)),
        fault: u16::from_le_bytes(array_at(&bytes, 14)),
    }
}
