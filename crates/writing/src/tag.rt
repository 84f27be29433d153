// Tags: string records that mark a moment of a survey.
ghost use Rattle.std.specs.Prelude.{◌++◌};
ghost use Rattle.writing.specs.Drafts.{Writes};
ghost use Rattle.writing.specs.Tag.{tag_series, tag_data};

use crate::draft::Draft;
use crate::drafts::{DraftFull, has_room};

const SERIES: u8 = 0xA0;

// What marks a string record as a tag.
const IDENTIFIER: u8 = 0x13;

// Writes a frame of some series and three pieces of data, through a draft.
fn write_three(
    series: u8,
    first: &[u8],
    second: &[u8],
    third: &[u8],
    space: &mut [u8],
) -> Result<usize, DraftFull>
    ensures { Writes series (first.now ++ (second.now ++ third.now)) space.old space.new result }
{
    let size = first
        .len()
        .saturating_add(second.len())
        .saturating_add(third.len());
    if !has_room(space.len(), size) {
        return Err(DraftFull);
    }
    let mut draft = Draft::start(space, series);
    let _ = draft.add(first);
    let _ = draft.add(second);
    let _ = draft.add(third);
    Ok(draft.seal())
}

// Writes the string record of a tag with this text, a zero byte behind it, to the front of a space, and answers how many bytes it has.
pub fn write_tag(text: &[u8], space: &mut [u8]) -> Result<usize, DraftFull>
    ensures { Writes tag_series (tag_data text.now) space.old space.new result }
{
    write_three(SERIES, &[IDENTIFIER], text, &[0], space)
}
