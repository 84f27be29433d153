// Lists of requests, run one after the other.
ghost use Rattle.std.specs.Prelude.{◌≡◌, ◌≤◌, min, [], ◌∷◌, length, take, drop};
ghost use Rattle.common.specs.Lists.{items, room};
ghost use Rattle.common.specs.Tables.{SameTable};
ghost use Rattle.stream.specs.View.{view, terms};
ghost use Rattle.stream.specs.Requests.{Carries, Ran};

use crate::intake::Intake;
use common::list::List;
use format::format::Format;
use framing::verdict::Framing;
use register::entry::{Entry, Totals};

// One turn that is asked for. Turns are values, since the law speaks of lists of them; closures would hide which call each makes.
#[derive(Clone, Copy, PartialEq, Eq, Debug)]
pub enum Request {
    // Deliver as many of the bytes from `start` on as there are, at most `len`.
    Deliver { start: usize, len: usize },
    // Take, with the first `room` bytes of the space, or all where it is shorter.
    Take { room: usize },
    Close,
    Tell,
}

// The part of some bytes that a delivery asks for.
fn part(bytes: &[u8], start: usize, len: usize) -> &[u8]
    ensures { result.now ≡ take len (drop start bytes.now) }
{
    let from = start.min(bytes.len());
    let to = from + len.min(bytes.len() - from);
    &bytes[from..to]
}

// How much of a space is lent.
fn lent(asked: usize, all: usize) -> usize
    ensures { result ≡ min asked all }
{
    asked.min(all)
}

// Runs one request.
fn turn<F: Framing, G: Format>(
    framing: &F,
    formats: &G,
    intake: &mut Intake,
    register: &mut List<'_, Entry>,
    space: &mut [u8],
    bytes: &[u8],
    request: Request,
)
    ensures law { Carries (terms (F.Framing.verdict framing.now) (F.Framing.reach framing.now) (G.Format.meaning formats.now) (room register.old)) bytes.now (request ∷ []) (view intake.old) (view intake.new) (items register.old) (items register.new) space.old space.new }
    ensures more { length (items register.old) ≤ length (items register.new) }
    ensures table { SameTable register.old register.new }
{
    match request {
        Request::Deliver { start, len } => {
            let _ = intake.deliver(part(bytes, start, len));
        }
        Request::Take { room } => {
            let n = lent(room, space.len());
            let _ = intake.take(framing, formats, register, &mut space[0..n]);
        }
        Request::Close => {
            let _ = intake.close();
        }
        Request::Tell => {
            let _ = intake.tell();
        }
    }
}

// Runs any list of requests, in their order: whatever history stood before, the history that these turns make of it stands after.
pub fn run<F: Framing, G: Format>(
    framing: &F,
    formats: &G,
    intake: &mut Intake,
    register: &mut List<'_, Entry>,
    space: &mut [u8],
    bytes: &[u8],
    requests: &[Request],
)
    ensures law { Carries (terms (F.Framing.verdict framing.now) (F.Framing.reach framing.now) (G.Format.meaning formats.now) (room register.old)) bytes.now requests.now (view intake.old) (view intake.new) (items register.old) (items register.new) space.old space.new }
    ensures more { length (items register.old) ≤ length (items register.new) }
    ensures table { SameTable register.old register.new }
{
    for request in requests {
        turn(framing, formats, intake, register, space, bytes, *request);
    }
}

// Runs any list of requests on a new intake and an empty register over a table, and tells the totals: the law holds of every such list.
pub fn run_new<F: Framing, G: Format>(
    framing: &F,
    formats: &G,
    table: &mut [Entry],
    space: &mut [u8],
    bytes: &[u8],
    requests: &[Request],
) -> Totals
    ensures ran { Ran (terms (F.Framing.verdict framing.now) (F.Framing.reach framing.now) (G.Format.meaning formats.now) (length table.old)) bytes.now requests.now space.old space.new result (take result.records table.new) }
    ensures rest { drop result.records table.new ≡ drop result.records table.old }
{
    let mut intake = Intake::new();
    let mut register = List::new(table);
    run(
        framing,
        formats,
        &mut intake,
        &mut register,
        space,
        bytes,
        requests,
    );
    intake.tell()
}
