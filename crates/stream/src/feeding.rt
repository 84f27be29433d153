// A stream fed piece by piece, each piece followed by all takes that bring a record.
ghost use Rattle.std.specs.Prelude.{◌≡◌, ◌-◌, [], length, drop};
ghost use Rattle.common.specs.Lists.{items, room};
ghost use Rattle.common.specs.Tables.{SameTable};
ghost use Rattle.stream.specs.View.{view, terms};
ghost use Rattle.stream.specs.Feeding.{Feeds, Accepts, brings_record, TakesAll, Feeding};

use crate::answers::{Fault, Taken};
use crate::intake::{Intake, MOST_WAITING};
use common::list::List;
use format::format::Format;
use framing::verdict::Framing;
use register::entry::Entry;

impl Intake {
    // How many more bytes may wait.
    pub fn free(&self) -> usize
        ensures { result ≡ 8192 - length (view self.now).waiting }
    {
        MOST_WAITING - self.waiting()
    }

    // Takes until there is no record, and says whether one may still come; or stops at a refusal.
    pub fn take_all<F: Framing, G: Format>(
        &mut self,
        framing: &F,
        formats: &G,
        register: &mut List<'_, Entry>,
        space: &mut [u8],
    ) -> Result<Taken, Fault>
        ensures does { TakesAll (terms (F.Framing.verdict framing.now) (F.Framing.reach framing.now) (G.Format.meaning formats.now) (room register.old)) (view self.old) (view self.new) (items register.old) (items register.new) space.old space.new result }
        ensures law { Feeds (terms (F.Framing.verdict framing.now) (F.Framing.reach framing.now) (G.Format.meaning formats.now) (room register.old)) [] (λ c. c) (view self.old) (view self.new) (items register.old) (items register.new) result }
        ensures table { SameTable register.old register.new }
    {
        loop {
            let answer = self.take(framing, formats, register, space);
            if !is_record(&answer) {
                return answer;
            }
        }
    }

    // Delivers a piece of the stream, closes the stream where it is the last, and takes until there is no record.
    pub fn feed<F: Framing, G: Format>(
        &mut self,
        framing: &F,
        formats: &G,
        register: &mut List<'_, Entry>,
        space: &mut [u8],
        bytes: &[u8],
        last: bool,
    ) -> Result<Taken, Fault>
        ensures does { Feeding (terms (F.Framing.verdict framing.now) (F.Framing.reach framing.now) (G.Format.meaning formats.now) (room register.old)) bytes.now last (view self.old) (view self.new) (items register.old) (items register.new) space.old space.new result }
        ensures law { Feeds (terms (F.Framing.verdict framing.now) (F.Framing.reach framing.now) (G.Format.meaning formats.now) (room register.old)) bytes.now (λ _. last) (view self.old) (view self.new) (items register.old) (items register.new) result }
        ensures table { SameTable register.old register.new }
    {
        self.accept(bytes, last)?;
        self.take_all(framing, formats, register, space)
    }

    // Delivers a piece of the stream, and closes the stream where it is the last.
    fn accept(&mut self, bytes: &[u8], last: bool) -> Result<(), Fault>
        ensures { Accepts bytes.now last (view self.old) (view self.new) result }
    {
        self.deliver(bytes)?;
        if last {
            self.close()?;
        }
        Ok(())
    }
}

// Whether a take brought a record.
fn is_record(answer: &Result<Taken, Fault>) -> bool
    ensures { result ≡ brings_record answer.now }
{
    matches!(answer, Ok(Taken::Record(_)))
}
