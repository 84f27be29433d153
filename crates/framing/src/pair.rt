// Two framings as one.
ghost use Rattle.std.specs.Prelude.{max};
ghost use Rattle.framing.specs.Verdicts.{or_else};
ghost use Rattle.framing.specs.Pairs.{pair_lawful};

use crate::verdict::{Framing, Verdict};
use common::pair::Pair;

impl<A: Framing, B: Framing> Framing for Pair<A, B> {
    ghost verdict = { λ f s. or_else (A.Framing.verdict f.first s) (B.Framing.verdict f.second s) };

    ghost reach = { λ f. max (A.Framing.reach f.first) (B.Framing.reach f.second) };

    ghost lawful = { λ f. pair_lawful (A.Framing.lawful f.first) (B.Framing.lawful f.second) };

    #[inline(always)]
    fn look(&self, bytes: &[u8]) -> Verdict {
        match self.first.look(bytes) {
            Verdict::NoFrame => self.second.look(bytes),
            verdict => verdict,
        }
    }

    fn limit(&self) -> usize {
        self.first.limit().max(self.second.limit())
    }
}
