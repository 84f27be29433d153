// The calls of an intake: deliver, close, take, tell.
ghost use Rattle.std.specs.Prelude.{◌≡◌, ℕ, ◌+◌, ◌-◌, ◌<◌, ◌≤◌, true, List as Sequence, [], ◌∷◌, ◌++◌, length, take, is_ok};
ghost use Rattle.register.specs.declared.entry.Entry.{Entry};
ghost use Rattle.stream.specs.Answers.{ask_deliver};
ghost use Rattle.stream.specs.View.{View, view, new_view, Terms, Lawful, with_bytes, Delivers, Closes, totals};
ghost use Rattle.stream.specs.History.{History, delivered, closing, looked};
ghost use Rattle.stream.specs.Law.{Tied};

use crate::answers::Fault;
use crate::intake::{BUFFER, Intake, MOST_WAITING};
use register::entry::Totals;

// How many bytes may be accepted in all.
const MOST_ACCEPTED: u64 = 1 << 40;

impl Intake {
    // An intake that has accepted nothing, of a stream that is open.
    pub fn new() -> Intake
        ensures is { view result ≡ new_view }
        ensures law { (t : Terms) → Lawful t → Tied t [] (view result) [] }
    {
        Intake {
            bytes: [0; BUFFER],
            start: 0,
            end: 0,
            accepted: 0,
            registered: 0,
            records: 0,
            closed: false,
        }
    }

    // How many bytes wait.
    pub(crate) fn waiting(&self) -> usize
        ensures value { result ≡ length (view self.now).waiting }
        ensures bound { (result ≡ self.now.end - self.now.start) × (result ≤ 8192) }
    {
        self.end - self.start
    }

    // Moves the waiting bytes to the front of the buffer, where fewer than `n` places are left behind them.
    fn make_room(&mut self, n: usize)
        requires { self.old.end + n ≤ self.old.start + 8192 }
        ensures same { view self.new ≡ view self.old }
        ensures room { (self.new.end + n ≤ 16384) × (self.new.end + n ≤ self.new.start + 8192) }
    {
        if BUFFER - self.end < n {
            let waiting = self.end - self.start;
            self.bytes.copy_within(self.start..self.end, 0);
            self.start = 0;
            self.end = waiting;
        }
    }

    // Puts bytes behind those that wait.
    #[tactic(auto, using(crate::proofs::Views::behind_them))]
    fn append(&mut self, bytes: &[u8])
        requires { (self.old.end + length bytes.now ≤ 16384) × ((self.old.end + length bytes.now ≤ self.old.start + 8192) × (self.old.accepted + length bytes.now ≤ 1099511627776)) }
        ensures { view self.new ≡ with_bytes (view self.old) bytes.now }
    {
        let end = self.end + bytes.len();
        self.bytes[self.end..end].copy_from_slice(bytes);
        self.end = end;
        self.accepted += bytes.len() as u64;
    }

    // Keeps all these bytes, or refuses them and keeps none.
    pub fn deliver(&mut self, bytes: &[u8]) -> Result<(), Fault>
        ensures does { Delivers (view self.old) (view self.new) bytes.now result }
        ensures law { (t : Terms) (h : History) (es : Sequence Entry) → Tied t h (view self.old) es → Tied t (delivered bytes.now result ∷ h) (view self.new) es }
    {
        self.keep(bytes)
    }

    fn keep(&mut self, bytes: &[u8]) -> Result<(), Fault>
        ensures { Delivers (view self.old) (view self.new) bytes.now result }
    {
        self.room_for(bytes.len())?;
        self.make_room(bytes.len());
        self.append(bytes);
        Ok(())
    }

    // Whether a delivery of `n` bytes would be accepted.
    fn room_for(&self, n: usize) -> Result<(), Fault>
        ensures fits { is_ok result ≡ true → (self.now.end + n ≤ self.now.start + 8192) × (self.now.accepted + n ≤ 1099511627776) }
        ensures says { result ≡ ask_deliver (view self.now).closed (view self.now).accepted (length (view self.now).waiting) n }
    {
        if self.closed {
            return Err(Fault::Closed);
        }
        if n as u64 > MOST_ACCEPTED - self.accepted {
            return Err(Fault::TooMany);
        }
        if n > MOST_WAITING - self.waiting() {
            return Err(Fault::NoRoom);
        }
        Ok(())
    }

    // Closes the stream: no bytes will come any more.
    pub fn close(&mut self) -> Result<(), Fault>
        ensures does { Closes (view self.old) (view self.new) result }
        ensures law { (t : Terms) (h : History) (es : Sequence Entry) → Tied t h (view self.old) es → Tied t (closing result ∷ h) (view self.new) es }
    {
        self.mark_closed()
    }

    fn mark_closed(&mut self) -> Result<(), Fault>
        ensures { Closes (view self.old) (view self.new) result }
    {
        if self.closed {
            return Err(Fault::Closed);
        }
        self.closed = true;
        Ok(())
    }

    // The totals: accepted bytes are registered, passed over or waiting.
    #[tactic(auto, using(crate::proofs::Turns::look_tied))]
    pub fn tell(&self) -> Totals
        ensures does { result ≡ totals (view self.now) }
        ensures law { (t : Terms) (h : History) (es : Sequence Entry) → Tied t h (view self.now) es → Tied t (looked result ∷ h) (view self.now) es }
    {
        self.count()
    }

    fn count(&self) -> Totals
        ensures { result ≡ totals (view self.now) }
    {
        let waiting = self.waiting() as u64;
        Totals {
            accepted: self.accepted,
            registered: self.registered,
            passed: self.accepted - self.registered - waiting,
            waiting,
            records: self.records,
            open: !self.closed,
        }
    }
}
