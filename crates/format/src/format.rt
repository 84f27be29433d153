// What a format answers of a record, and what every format owes.
ghost use Rattle.std.specs.Prelude.{◌≡◌, ℕ, List as Sequence};
ghost use Rattle.format.specs.declared.format.PartsFault.TheVariants.{Judged, TableShort};
ghost use Rattle.format.specs.Meaning.{Meaning, Laws, Leaves, told};

use common::list::List;
use common::lists::Full;
use common::refusal::Refusal;

// A part of a record: items of `width` bytes from a place on, counted from the record's first byte. Codes and widths are numbers, since each format has its own.
#[derive(Clone, Copy, PartialEq, Eq, Debug, Default)]
pub struct Part {
    pub code: u16,
    pub place: usize,
    pub width: u8,
    pub count: usize,
    pub signed: bool,
}

// What does not hold of a record: a number that says what, never 0, and a place in the record. It is no enum, since any format may tell numbers of
// its own.
#[derive(Clone, Copy, PartialEq, Eq, Debug)]
pub struct RecordFault {
    pub number: u16,
    pub place: usize,
}

// Why parts are not listed.
#[derive(Clone, Copy, PartialEq, Eq, Debug)]
pub enum PartsFault {
    // The record is not accepted: its own fault.
    Judged(RecordFault),
    // The table has not room for all parts.
    TableShort,
}

impl From<RecordFault> for PartsFault {
    ghost from_gives = { λ f r. r ≡ Judged f };

    fn from(fault: RecordFault) -> PartsFault {
        Self::Judged(fault)
    }
}

impl From<Full> for PartsFault {
    ghost from_gives = { λ f r. r ≡ TableShort };

    fn from(_full: Full) -> PartsFault {
        Self::TableShort
    }
}

impl From<PartsFault> for Refusal {
    ghost from_gives = { λ f r. r ≡ told f };

    fn from(fault: PartsFault) -> Refusal {
        match fault {
            PartsFault::Judged(RecordFault { number, place }) => Refusal {
                number,
                layer: 2,
                place,
            },
            PartsFault::TableShort => Refusal {
                number: 20,
                layer: 2,
                place: 0,
            },
        }
    }
}

// A format. Kind and bytes stay two parameters, since a struct of both would ask more of each caller. Its calls answer its meaning; only the listing of parts may refuse, and then list and table are as before.
pub trait Format {
    ghost meaning: { Self → ℕ → Sequence ℕ → Meaning };

    fn claims(&self, kind: u8, bytes: &[u8]) -> bool
        ensures { result ≡ (meaning self.now kind bytes.now).claims };

    fn judge(&self, kind: u8, bytes: &[u8]) -> Result<(), RecordFault>
        ensures { result ≡ (meaning self.now kind bytes.now).judgement };

    fn list(&self, kind: u8, bytes: &[u8], out: &mut List<'_, Part>) -> Result<(), PartsFault>
        ensures { Leaves (meaning self.now kind bytes.now) out.old out.new result };

    ghost lawful: { (f : Self) → Laws (meaning f) };
}
