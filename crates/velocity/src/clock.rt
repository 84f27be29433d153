// The clock of a velocity record: a Gregorian date and a time of day.
ghost use Rattle.std.specs.Prelude.{◌≡◌, ◌+◌, ◌<◌, ◌≤◌, ◌||◌, length, ◌==◌, nat_lt, Ok, Err, MatchOption};
ghost use Rattle.calendar.specs.Calendar.{days};
ghost use Rattle.format.specs.declared.defect.Defect.TheVariants.{NoDateTime};
ghost use Rattle.format.specs.Defects.{fault_at};
ghost use Rattle.velocity.specs.Clock.{clock_fault, clock_at};

use crate::layout::word_at;
use calendar::dates::days_of;
use format::defect::Defect;
use format::format::RecordFault;

const FIRST_YEAR: u16 = 1900;

// The fields of a clock: the year since 1900, the month from 0, and parts of a second in hundreds of microseconds.
#[derive(Clone, Copy)]
struct Clock {
    year: u8,
    month: u8,
    day: u8,
    hour: u8,
    minute: u8,
    second: u8,
    hundred: u16,
}

impl Clock {
    // Whether the month has no such day.
    fn day_wrong(self) -> bool
        ensures { result ≡ (self.day == 0 || nat_lt (days (self.year + 1900) self.month) self.day) }
    {
        self.day == 0 || self.day > days_of(u16::from(self.year) + FIRST_YEAR, self.month)
    }

    // The place of the first wrong field of the clock, which begins at a place.
    fn fault(self, at: usize) -> Option<usize>
        requires { at < 1000 }
        ensures { result ≡ clock_fault at self.year self.month self.day self.hour self.minute self.second self.hundred }
    {
        if self.month > 11 {
            return Some(at + 1);
        }
        if self.day_wrong() {
            return Some(at + 2);
        }
        if self.hour > 23 {
            return Some(at + 3);
        }
        if self.minute > 59 {
            return Some(at + 4);
        }
        if self.second > 59 {
            return Some(at + 5);
        }
        if self.hundred > 9999 {
            return Some(at + 6);
        }
        None
    }
}

// Refuses a record whose clock, at a place, is not a date and time.
pub(crate) fn judge_clock(at: usize, bytes: &[u8]) -> Result<(), RecordFault>
    requires { (at < 1000) × (at + 8 ≤ length bytes.now) }
    ensures { MatchOption (clock_at at bytes.now) (result ≡ Ok tt) (λ place. result ≡ Err (fault_at NoDateTime place)) }
{
    let clock = Clock {
        year: bytes[at],
        month: bytes[at + 1],
        day: bytes[at + 2],
        hour: bytes[at + 3],
        minute: bytes[at + 4],
        second: bytes[at + 5],
        hundred: word_at(bytes, at + 6),
    };
    match clock.fault(at) {
        Some(place) => Err(Defect::NoDateTime.at(place)),
        None => Ok(()),
    }
}
