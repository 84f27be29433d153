// What a framing says of some bytes, and what every framing owes.
ghost use Rattle.std.specs.Prelude.{◌≡◌, ℕ, List};
ghost use Rattle.framing.specs.Verdicts.{Laws};
ghost use Rattle.framing.specs.declared.verdict.Verdict.{Verdict};

// A framing's answer on some bytes.
#[derive(Clone, Copy, PartialEq, Eq, Debug)]
pub enum Verdict {
    // No frame begins with these bytes, whatever comes behind them.
    NoFrame,
    // More bytes are needed to tell.
    Short,
    // The first `len` bytes are a frame of this kind: a number, since any framing may have kinds of its own.
    Frame { len: usize, kind: u8 },
}

// A framing: a verdict on every list of bytes, and a reach, the number of bytes that always suffice to tell.
pub trait Framing {
    ghost verdict: { Self → List ℕ → Verdict };

    ghost reach: { Self → ℕ };

    fn look(&self, bytes: &[u8]) -> Verdict
        ensures { result ≡ verdict self.now bytes.now };

    fn limit(&self) -> usize
        ensures { result ≡ reach self.now };

    ghost lawful: { (f : Self) → Laws (verdict f) (reach f) };
}
