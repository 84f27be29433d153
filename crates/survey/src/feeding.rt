// Standard input, fed to an intake.
ghost use Rattle.std.specs.Prelude.{◌≡◌, ◌≤◌, length, drop, nat_lt, IfOk};
ghost use Rattle.common.specs.Lists.{items, room};
ghost use Rattle.common.specs.Tables.{SameTable};
ghost use Rattle.stream.specs.View.{view, terms};
ghost use Rattle.survey.specs.Pieces.{asked};
ghost use Rattle.survey.specs.Registered.{Registers, WithoutBytes};
ghost use Rattle.survey.specs.Terms.{survey_terms};

use crate::setup::{SPACE, all_formats, both_framings};
use anyhow::anyhow;
use common::list::List;
use common::refusal::Refusal;
use console::fill;
use format::format::Format;
use framing::verdict::Framing;
use register::entry::Entry;
use stream::answers::Taken;
use stream::intake::Intake;

// Reads the next piece of standard input into a space, at most as many bytes as may wait: how many they are, and whether the input ends with them,
// since there were fewer than were asked for.
pub fn next_piece(
    rt: &HostRuntime,
    intake: &Intake,
    piece: &mut [u8],
) -> anyhow::Result<(usize, bool)>
    ensures few { IfOk result (λ p. p.0 ≤ asked (view intake.now) (length piece.old)) }
    ensures last { IfOk result (λ p. p.1 ≡ nat_lt p.0 (asked (view intake.now) (length piece.old))) }
    ensures rest { drop (asked (view intake.now) (length piece.old)) piece.new ≡ drop (asked (view intake.now) (length piece.old)) piece.old }
{
    let free = intake.free().min(piece.len());
    let n = fill(rt, &mut piece[0..free])?;
    Ok((n, n < free))
}

// Takes what waits, where no piece has room for a byte: a refusal is told, and else that reading on would bring nothing.
fn take_what_waits<F: Framing, G: Format>(
    framing: &F,
    formats: &G,
    intake: &mut Intake,
    register: &mut List<'_, Entry>,
    space: &mut [u8],
) -> anyhow::Result<Option<Refusal>>
    ensures law { Registers (terms (F.Framing.verdict framing.now) (F.Framing.reach framing.now) (G.Format.meaning formats.now) (room register.old)) (view intake.old) (view intake.new) (items register.old) (items register.new) result }
    ensures does { WithoutBytes (terms (F.Framing.verdict framing.now) (F.Framing.reach framing.now) (G.Format.meaning formats.now) (room register.old)) (view intake.old) (view intake.new) (items register.old) (items register.new) space.old space.new result }
    ensures table { SameTable register.old register.new }
{
    match intake.feed(framing, formats, register, space, &[], false) {
        Err(fault) => Ok(Some(Refusal::from(fault))),
        Ok(_) => Err(anyhow!("a piece without room brings no byte")),
    }
}

// Feeds standard input to an intake, piece by piece, by any framing and formats, until it ends or a call is refused. The loop has a bound that no
// input reaches, since a loop must be seen to end. A refusal is no failure of reading, so it is answered beside the errors. What is lent to each take
// is lent here, each by itself.
pub fn feed_all<F: Framing, G: Format>(
    rt: &HostRuntime,
    framing: &F,
    formats: &G,
    intake: &mut Intake,
    register: &mut List<'_, Entry>,
    piece: &mut [u8],
    space: &mut [u8],
) -> anyhow::Result<Option<Refusal>>
    ensures law { Registers (terms (F.Framing.verdict framing.now) (F.Framing.reach framing.now) (G.Format.meaning formats.now) (room register.old)) (view intake.old) (view intake.new) (items register.old) (items register.new) result }
    ensures room { room register.new ≡ room register.old }
    ensures no_piece { length piece.old ≡ 0 → WithoutBytes (terms (F.Framing.verdict framing.now) (F.Framing.reach framing.now) (G.Format.meaning formats.now) (room register.old)) (view intake.old) (view intake.new) (items register.old) (items register.new) space.old space.new result }
    ensures lends { register.new.table.ghost_name ≡ register.old.table.ghost_name }
{
    if piece.is_empty() {
        return take_what_waits(framing, formats, intake, register, space);
    }
    for _ in 0..u64::MAX {
        let (n, last) = next_piece(rt, intake, piece)?;
        match intake.feed(framing, formats, register, space, &piece[0..n], last) {
            Err(fault) => return Ok(Some(Refusal::from(fault))),
            Ok(Taken::Drained) => return Ok(None),
            Ok(_) => {}
        }
    }
    Err(anyhow!("the input does not end"))
}

// Space for a record.
fn record_space(rt: &HostRuntime) -> anyhow::Result<Vec<u8>> {
    Ok(vec![in rt.alloc(); 0u8; SPACE]?)
}

// Feeds standard input to an intake, by the framings and formats of a survey, until it ends or a call is refused.
pub fn register_all(
    rt: &HostRuntime,
    intake: &mut Intake,
    register: &mut List<'_, Entry>,
) -> anyhow::Result<Option<Refusal>>
    ensures law { Registers (survey_terms (room register.old)) (view intake.old) (view intake.new) (items register.old) (items register.new) result }
    ensures room { room register.new ≡ room register.old }
    ensures lends { register.new.table.ghost_name ≡ register.old.table.ghost_name }
{
    let framings = both_framings();
    let formats = all_formats();
    let (Ok(mut piece), Ok(mut space)) = (record_space(rt), record_space(rt)) else {
        return Err(anyhow!("there is no memory for a record"));
    };
    feed_all(
        rt, &framings, &formats, intake, register, &mut piece, &mut space,
    )
}
