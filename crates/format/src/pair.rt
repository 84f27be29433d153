// Two formats as one.
ghost use Rattle.format.specs.Meaning.{or_else};
ghost use Rattle.format.specs.Pairs.{pair_lawful};

use crate::format::{Format, Part, PartsFault, RecordFault};
use common::list::List;
use common::pair::Pair;

impl<A: Format, B: Format> Format for Pair<A, B> {
    ghost meaning = { λ f k s. or_else (A.Format.meaning f.first k s) (B.Format.meaning f.second k s) };

    ghost lawful = { λ f. pair_lawful (A.Format.lawful f.first) (B.Format.lawful f.second) };

    fn claims(&self, kind: u8, bytes: &[u8]) -> bool {
        self.first.claims(kind, bytes) || self.second.claims(kind, bytes)
    }

    fn judge(&self, kind: u8, bytes: &[u8]) -> Result<(), RecordFault> {
        if self.first.claims(kind, bytes) {
            self.first.judge(kind, bytes)
        } else {
            self.second.judge(kind, bytes)
        }
    }

    fn list(&self, kind: u8, bytes: &[u8], out: &mut List<'_, Part>) -> Result<(), PartsFault> {
        if self.first.claims(kind, bytes) {
            self.first.list(kind, bytes, out)
        } else {
            self.second.list(kind, bytes, out)
        }
    }
}
