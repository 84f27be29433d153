// Taking the next record.
ghost use Rattle.std.specs.Prelude.{◌≡◌, ℕ, ◌+◌, ◌-◌, ◌<◌, ◌≤◌, List as Sequence, ◌∷◌, ◌++◌, length, take, drop};
ghost use Rattle.common.specs.Lists.{items, room};
ghost use Rattle.common.specs.Tables.{SameTable};
ghost use Rattle.register.specs.declared.entry.Entry.{Entry};
ghost use Rattle.reading.specs.Reading.{NextOf};
ghost use Rattle.stream.specs.Answers.{nothing};
ghost use Rattle.stream.specs.View.{View, view, Terms, terms, entry_by, found_at, advanced, rested, NextWithin, Takes};
ghost use Rattle.stream.specs.History.{History, took};
ghost use Rattle.stream.specs.Law.{Tied};

use crate::answers::{Fault, Taken};
use crate::intake::Intake;
use common::list::List;
use format::format::Format;
use framing::verdict::Framing;
use reading::listing::series_of;
use reading::steps::{Next, next_record};
use register::entry::Entry;

// A register holds at most this many entries.
const MOST_ENTRIES: usize = 3968;

// The entry of a record.
fn entry_of<G: Format>(formats: &G, place: u64, kind: u8, bytes: &[u8]) -> Entry
    requires { length bytes.now ≤ 8192 }
    ensures { result ≡ entry_by (G.Format.meaning formats.now) (record { place = place; bytes = bytes.now; kind = kind }) }
{
    let (verdict, fault) = match formats.judge(kind, bytes) {
        Ok(()) => (0, 0),
        Err(fault) => (fault.number, fault.place as u16),
    };
    Entry {
        place,
        len: bytes.len() as u16,
        kind,
        series: series_of(kind, bytes),
        verdict,
        fault,
    }
}

// What a take says where there is no record.
fn without_record(closed: bool) -> Taken
    ensures { result ≡ nothing closed }
{
    if closed {
        Taken::Drained
    } else {
        Taken::NotYet
    }
}

impl Intake {
    // What comes next in the reading of the waiting bytes, and that it lies among them.
    #[tactic(auto, using(crate::proofs::Views::next_within))]
    fn seek<F: Framing>(&self, framing: &F) -> Next
        ensures next { NextOf (F.Framing.verdict framing.now) (view self.now).closed (view self.now).waiting 0 result }
        ensures within { NextWithin self.now.start self.now.end (F.Framing.reach framing.now) result }
    {
        next_record(framing, &self.bytes[self.start..self.end], 0, self.closed)
    }

    // Copies a record of the waiting bytes to the front of a space. That it lies among them is asked here and in the next calls: what was found is a
    // `Next`, and a type of found records would be one more.
    fn copy_out(&self, place: usize, len: usize, space: &mut [u8])
        requires { (self.now.start + (place + len) ≤ self.now.end) × (len ≤ length space.old) }
        ensures { space.new ≡ take len (drop place (view self.now).waiting) ++ drop len space.old }
    {
        let waiting = &self.bytes[self.start..self.end];
        space[0..len].copy_from_slice(&waiting[place..place + len]);
    }

    // Goes on behind some of the waiting bytes.
    #[tactic(auto, using(crate::proofs::Views::off_front))]
    fn skip(&mut self, n: usize)
        requires { self.old.start + n ≤ self.old.end }
        ensures view { view self.new ≡ rested (view self.old) n }
        ensures left { (self.new.start ≡ self.old.start + n) × (self.new.end ≡ self.old.end) }
    {
        self.start += n;
    }

    // Goes on behind a record, and counts it.
    fn advance(&mut self, place: usize, len: usize)
        requires { (self.old.start + (place + len) ≤ self.old.end) × (1 ≤ len) }
        ensures { view self.new ≡ advanced (view self.old) place len }
    {
        self.skip(place + len);
        self.registered += len as u64;
        self.records += 1;
    }

    // The entry of a record of the waiting bytes.
    fn entry_at<G: Format>(&self, formats: &G, place: usize, len: usize, kind: u8) -> Entry
        requires { self.now.start + (place + len) ≤ self.now.end }
        ensures { result ≡ entry_by (G.Format.meaning formats.now) (found_at (view self.now) place len kind) }
    {
        let waiting = &self.bytes[self.start..self.end];
        let base = self.accepted - waiting.len() as u64;
        entry_of(
            formats,
            base + place as u64,
            kind,
            &waiting[place..place + len],
        )
    }

    // Works the reading on to the next record, and brings it.
    fn work_on<F: Framing, G: Format>(
        &mut self,
        framing: &F,
        formats: &G,
        register: &mut List<'_, Entry>,
        space: &mut [u8],
    ) -> Result<Taken, Fault>
        ensures does { Takes (terms (F.Framing.verdict framing.now) (F.Framing.reach framing.now) (G.Format.meaning formats.now) (room register.old)) (view self.old) (view self.new) (items register.old) (items register.new) space.old space.new result }
        ensures table { SameTable register.old register.new }
    {
        if space.len() < framing.limit() {
            return Err(Fault::SpaceShort);
        }
        if register.len() >= register.room().min(MOST_ENTRIES) {
            return Err(Fault::RegisterFull);
        }
        match self.seek(framing) {
            Next::Record { place, len, kind } => {
                let entry = self.entry_at(formats, place, len, kind);
                self.copy_out(place, len, space);
                self.advance(place, len);
                let _ = register.push(entry);
                Ok(Taken::Record(entry))
            }
            Next::End { place } => {
                let answer = without_record(self.closed);
                self.skip(place);
                Ok(answer)
            }
        }
    }

    // Brings the next record: copies it to the front of the space, registers it and answers its entry. Where there is none, says whether
    // one may still come. Framing, formats, register and space stay four parameters, by the rule that each is lent to each call and an intake keeps none.
    pub fn take<F: Framing, G: Format>(
        &mut self,
        framing: &F,
        formats: &G,
        register: &mut List<'_, Entry>,
        space: &mut [u8],
    ) -> Result<Taken, Fault>
        ensures does { Takes (terms (F.Framing.verdict framing.now) (F.Framing.reach framing.now) (G.Format.meaning formats.now) (room register.old)) (view self.old) (view self.new) (items register.old) (items register.new) space.old space.new result }
        ensures table { SameTable register.old register.new }
        ensures law { (h : History) → Tied (terms (F.Framing.verdict framing.now) (F.Framing.reach framing.now) (G.Format.meaning formats.now) (room register.old)) h (view self.old) (items register.old) → Tied (terms (F.Framing.verdict framing.now) (F.Framing.reach framing.now) (G.Format.meaning formats.now) (room register.old)) (took space.old space.new result ∷ h) (view self.new) (items register.new) }
    {
        self.work_on(framing, formats, register, space)
    }
}
