// Fields at fixed positions, listed as parts in front of the parts whose sizes the record tells.
ghost use Rattle.std.specs.Prelude.{◌≡◌, ◌+◌, ◌-◌, ◌^◌, ◌<◌, ◌≤◌, true, false, [], ◌∷◌, ◌++◌, length};
ghost use Rattle.common.specs.Lists.{items, room};
ghost use Rattle.format.specs.Meaning.{Leaves, accepted};
ghost use Rattle.common.specs.Added.{Added};
ghost use Rattle.velocity.specs.Layout.{field_at, near, field_part, field_parts, word};

use common::list::List;
use format::format::{Part, PartsFault};

// The kind of a velocity record, and how many bytes are in front of its data.
pub(crate) const KIND: u8 = 1;

pub(crate) const HEADER: usize = 10;

// A field: items of `width` bytes from a position on, counted from the first byte of the data.
#[derive(Clone, Copy, Debug)]
pub(crate) struct Field {
    pub position: usize,
    pub width: u8,
    pub count: usize,
    pub signed: bool,
}

// A line of a table of fields: position, width, count, and whether the items are signed.
macro_rules! field_at {
    ($position:literal, $width:literal, $count:literal, $signed:literal) => {
        Field {
            position: $position,
            width: $width,
            count: $count,
            signed: $signed,
        }
    };
}

pub(crate) use field_at;

// The little-endian word at a place.
pub(crate) fn word_at(bytes: &[u8], place: usize) -> u16
    requires { place + 1 < length bytes.now }
    ensures { result ≡ word bytes.now place }
{
    u16::from_le_bytes([bytes[place], bytes[place + 1]])
}

// Some unsigned bytes.
pub(crate) fn plain_field(position: usize, count: usize) -> Field
    ensures { result ≡ field_at position 1 count false }
{
    Field {
        position,
        width: 1,
        count,
        signed: false,
    }
}

// The bytes from a position up to another.
pub(crate) fn bytes_between(start: usize, end: usize) -> Field
    requires { start ≤ end }
    ensures { result ≡ field_at start 1 (end - start) false }
{
    plain_field(start, end - start)
}

// A field as a part of the record.
pub(crate) fn field_part(code: u16, field: Field) -> Part
    requires { field.position + 10 < 2 ^ 64 }
    ensures { result ≡ field_part code field }
{
    Part {
        code,
        place: field.position + HEADER,
        width: field.width,
        count: field.count,
        signed: field.signed,
    }
}

// Puts the fields of a table behind the other parts, where there is room for all.
#[tactic(auto, using(crate::specs::Layouts::near_at))]
fn add_fields(fields: &[Field], out: &mut List<'_, Part>)
    requires { (length fields.now ≤ 64) × ((near fields.now ≡ true) × (length (items out.old) + length fields.now ≤ room out.old)) }
    ensures { Added out.old (field_parts 1 fields.now) out.new }
{
    for (i, field) in fields.iter().enumerate() {
        let _ = out.push(field_part(i as u16 + 1, *field));
    }
}

// The fields of a table as parts, and the others behind them; none of them where there is not room for all.
#[tactic(auto, using(crate::proofs::Fields::others_fit, common::proofs::Additions::items_fit))]
pub(crate) fn list_layout(
    fields: &[Field],
    others: &[Part],
    out: &mut List<'_, Part>,
) -> Result<(), PartsFault>
    requires { (length fields.now ≤ 64) × ((length others.now ≤ 8) × (near fields.now ≡ true)) }
    ensures { Leaves (accepted (field_parts 1 fields.now ++ others.now)) out.old out.new result }
{
    if out.room() - out.len() < fields.len() + others.len() {
        return Err(PartsFault::TableShort);
    }
    add_fields(fields, out);
    out.extend_from_slice(others)?;
    Ok(())
}
