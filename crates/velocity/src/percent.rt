// A percentage, never above 100.
ghost use Rattle.std.specs.Prelude.{◌≡◌, ◌<◌, ◌≤◌, MatchOption};

#[derive(Clone, Copy, PartialEq, Eq, Debug)]
pub struct Percent {
    pub(crate) value: u8,
    ghost most: { value ≤ 100 },
}

impl Percent {
    // A number as a percentage, where it is at most 100: an `Option` and no `TryFrom`, whose error would say nothing more.
    pub fn new(value: u8) -> Option<Percent>
        ensures { MatchOption result (100 < value) (λ p. p.value ≡ value) }
    {
        if value > 100 {
            return None;
        }
        Some(Percent { value })
    }

    pub fn value(self) -> u8
        ensures is { result ≡ self.value }
        ensures most { result ≤ 100 }
    {
        self.value
    }
}
