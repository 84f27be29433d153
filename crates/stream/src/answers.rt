// What the calls of an intake answer.
ghost use Rattle.std.specs.Prelude.{◌≡◌};
ghost use Rattle.stream.specs.Answers.{told};

use common::refusal::Refusal;
use register::entry::Entry;

// Why a call is refused.
#[derive(Clone, Copy, PartialEq, Eq, Debug)]
pub enum Fault {
    // The stream is closed.
    Closed,
    // More than 2^40 bytes would have been accepted.
    TooMany,
    // More than 8,192 bytes would wait.
    NoRoom,
    // The space is shorter than the framing's reach.
    SpaceShort,
    // The register has no free place.
    RegisterFull,
}

impl From<Fault> for Refusal {
    ghost from_gives = { λ f r. r ≡ told f };

    fn from(fault: Fault) -> Refusal {
        let number = match fault {
            Fault::Closed => 1,
            Fault::TooMany => 2,
            Fault::NoRoom => 3,
            Fault::SpaceShort => 4,
            Fault::RegisterFull => 5,
        };
        Refusal {
            number,
            layer: 1,
            place: 0,
        }
    }
}

// What a take says.
#[derive(Clone, Copy, PartialEq, Eq, Debug)]
pub enum Taken {
    // The next record: it is in the space and in the register.
    Record(Entry),
    // There is no record yet; the stream is open.
    NotYet,
    // There is none, and none will come.
    Drained,
}
