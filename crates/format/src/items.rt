// What is taken from a part of a record: its bytes, and its items as numbers.
ghost use Rattle.std.specs.Prelude.{◌≡◌, ◌+◌, ◌*◌, ◌<◌, ◌≤◌, true, false, ◌⊎◌, length, pos, if◌then◌else◌, Ok, Err, nat_le, slice_index};
ghost use Rattle.std.specs.Int.{w8, w16, w32};
ghost use Rattle.std.proofs.Common.{to_z};
ghost use Rattle.common.specs.declared.refusal.Refusal.{Refusal};
ghost use Rattle.format.specs.Meaning.{size, bytes_of};
ghost use Rattle.format.specs.Items.{inside, value, number_in, item_of, told};

use crate::format::Part;
use common::refusal::Refusal;

// Why nothing is taken from a part.
#[derive(Clone, Copy, PartialEq, Eq, Debug)]
pub enum ItemFault {
    // The part does not lie inside the record.
    Outside,
    // The part has no such item, or its items are not numbers of 1, 2 or 4 bytes.
    NoItem,
}

impl From<ItemFault> for Refusal {
    ghost from_gives = { λ f r. r ≡ told f };

    fn from(fault: ItemFault) -> Refusal {
        let number = match fault {
            ItemFault::Outside => 21,
            ItemFault::NoItem => 22,
        };
        Refusal {
            number,
            layer: 2,
            place: 0,
        }
    }
}

// Whether a part lies inside a record of this many bytes.
fn lies_inside(part: Part, all: usize) -> bool
    ensures { result ≡ nat_le (part.place + size part) all }
{
    part.place as u128 + part.width as u128 * part.count as u128 <= all as u128
}

// The bytes of a part, as a part of the record handed in.
pub fn view(bytes: &[u8], part: Part) -> Result<&[u8], ItemFault>
    ensures { elim result [ Ok x ↦ (inside bytes.now part ≡ true) × (x.now ≡ bytes_of bytes.now part) | Err e ↦ (inside bytes.now part ≡ false) × (e ≡ ItemFault.Outside) ] }
{
    if !lies_inside(part, bytes.len()) {
        return Err(ItemFault::Outside);
    }
    let start = part.place;
    let end = start + part.width as usize * part.count;
    Ok(&bytes[start..end])
}

// The number that 1, 2 or 4 bytes are, the lowest first; two's complement where it is signed.
fn read_number(bytes: &[u8], signed: bool) -> Option<i64>
    ensures { result ≡ number_in signed bytes.now }
{
    match *bytes {
        [a] if signed => Some(i64::from(i8::from_le_bytes([a]))),
        [a] => Some(i64::from(a)),
        [a, b] if signed => Some(i64::from(i16::from_le_bytes([a, b]))),
        [a, b] => Some(i64::from(u16::from_le_bytes([a, b]))),
        [a, b, c, d] if signed => Some(i64::from(i32::from_le_bytes([a, b, c, d]))),
        [a, b, c, d] => Some(i64::from(u32::from_le_bytes([a, b, c, d]))),
        _ => None,
    }
}

// An item of a part, counted from 0, as a number.
pub fn item(bytes: &[u8], part: Part, i: usize) -> Result<i64, ItemFault>
    ensures { result ≡ item_of bytes.now part i }
{
    let items = view(bytes, part)?;
    if i >= part.count {
        return Err(ItemFault::NoItem);
    }
    let width = part.width as usize;
    let start = width * i;
    read_number(&items[start..start + width], part.signed).ok_or(ItemFault::NoItem)
}
