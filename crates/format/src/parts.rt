// Parts of bytes, and parts put behind those of a list.
ghost use Rattle.std.specs.Prelude.{◌≡◌, ◌<◌, [], ◌∷◌, length};
ghost use Rattle.common.specs.Lists.{items, room};
ghost use Rattle.format.specs.Meaning.{Leaves, accepted};
ghost use Rattle.common.specs.Added.{Added};
ghost use Rattle.format.specs.Text.{plain};

use crate::format::{Part, PartsFault};
use common::list::List;

// Some unsigned bytes.
pub(crate) fn plain_part(code: u16, place: usize, count: usize) -> Part
    ensures { result ≡ plain code place count }
{
    Part {
        code,
        place,
        width: 1,
        count,
        signed: false,
    }
}

// Puts a part behind the others, where there is room for it.
pub(crate) fn add(part: Part, out: &mut List<'_, Part>)
    requires { length (items out.old) < room out.old }
    ensures { Added out.old (part ∷ []) out.new }
{
    let _ = out.push(part);
}

// Puts parts behind the others, or none of them where the table has not room for all.
pub(crate) fn add_all(parts: &[Part], out: &mut List<'_, Part>) -> Result<(), PartsFault>
    ensures { Leaves (accepted parts.now) out.old out.new result }
{
    out.extend_from_slice(parts)?;
    Ok(())
}
