// A record written again from its parts.
ghost use Rattle.std.specs.Prelude.{◌≡◌, ◌+◌, ◌-◌, ◌^◌, ◌≤◌, min, true, ◌++◌, length, if◌then◌else◌, Ok, Err};
ghost use Rattle.format.specs.Meaning.{joined_parts};
ghost use Rattle.writing.specs.Drafts.{content, put_at, fits};
ghost use Rattle.writing.specs.Again.{all_inside, series, Rewrites, SameBytes, told};

use crate::draft::Draft;
use crate::drafts::{DraftFull, has_room};
use common::refusal::Refusal;
use format::format::Part;
use format::items::{ItemFault, view};
use reading::listing::series_of;

const KIND: u8 = 1;

// Why a record is not written again.
#[derive(Clone, Copy, PartialEq, Eq, Debug)]
pub enum AgainFault {
    // A part does not lie inside the record.
    Outside,
    // The parts together do not fit the space behind a header, or into a frame.
    Full,
}

impl From<AgainFault> for Refusal {
    ghost from_gives = { λ f r. r ≡ told f };

    fn from(fault: AgainFault) -> Refusal {
        match fault {
            AgainFault::Outside => Refusal::from(ItemFault::Outside),
            AgainFault::Full => Refusal::from(DraftFull),
        }
    }
}

// How many bytes the parts of a record have together, or the largest number where they have more.
fn total_size(record: &[u8], parts: &[Part]) -> Result<usize, AgainFault>
    ensures { result ≡ (if all_inside «record».now parts.now then Ok (min (length (joined_parts «record».now parts.now)) (2 ^ 64 - 1)) else Err AgainFault.Outside) }
{
    let mut total = 0usize;
    for part in parts {
        let Ok(bytes) = view(record, *part) else {
            return Err(AgainFault::Outside);
        };
        total = total.saturating_add(bytes.len());
    }
    Ok(total)
}

// Adds the parts of a record to a draft that has room for them.
fn add_parts(record: &[u8], parts: &[Part], draft: &mut Draft<'_>)
    requires { (all_inside «record».now parts.now ≡ true) × (fits (length draft.old.space.now) (length (content draft.old) + length (joined_parts «record».now parts.now)) ≡ true) }
    ensures content { content draft.new ≡ content draft.old ++ joined_parts «record».now parts.now }
    ensures space { draft.new.space.now ≡ put_at (10 + length (content draft.old)) (joined_parts «record».now parts.now) draft.old.space.now }
    ensures series { draft.new.series ≡ draft.old.series }
    ensures lends { draft.new.space.ghost_name ≡ draft.old.space.ghost_name }
{
    for part in parts {
        if let Ok(bytes) = view(record, *part) {
            let _ = draft.add(bytes);
        }
    }
}

// The series of a binary record.
fn binary_series(record: &[u8]) -> u8
    ensures { result ≡ series «record».now }
{
    series_of(KIND, record)
}

// Asks all, and then writes the parts through a draft.
fn rewrite(record: &[u8], parts: &[Part], space: &mut [u8]) -> Result<usize, AgainFault>
    ensures { Rewrites «record».now parts.now space.old space.new result }
{
    let size = total_size(record, parts)?;
    if !has_room(space.len(), size) {
        return Err(AgainFault::Full);
    }
    let mut draft = Draft::start(space, binary_series(record));
    add_parts(record, parts, &mut draft);
    Ok(draft.seal())
}

// Writes a record again from its parts, part by part, to the front of a space, and answers how many bytes it has.
pub fn write_again(record: &[u8], parts: &[Part], space: &mut [u8]) -> Result<usize, AgainFault>
    ensures does { Rewrites «record».now parts.now space.old space.new result }
    ensures same { SameBytes «record».now parts.now space.old space.new result }
{
    rewrite(record, parts, space)
}
