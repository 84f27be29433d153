// Months, years and the date of a day.
ghost use Rattle.std.specs.Prelude.{◌≡◌, ◌+◌, ◌<◌, ◌≤◌, Some, None};
ghost use Rattle.calendar.specs.Calendar.{leap, days, year_days, years_days, Dated, IsDay};

// A day of the calendar: its year, its month from 1, and its day of the month from 1.
#[derive(Clone, Copy, PartialEq, Eq, Debug)]
pub struct Date {
    pub year: u16,
    pub month: u8,
    pub day: u8,
}

fn is_leap(year: u16) -> bool
    ensures { result ≡ leap year }
{
    year % 4 == 0 && (year % 100 != 0 || year % 400 == 0)
}

// The days of a month, counted from 0, of a year.
pub fn days_of(year: u16, month: u8) -> u8
    ensures { result ≡ days year month }
{
    match month {
        1 if is_leap(year) => 29,
        1 => 28,
        3 | 5 | 8 | 10 => 30,
        _ => 31,
    }
}

fn days_of_year(year: u16) -> u16
    ensures { result ≡ year_days year }
{
    if is_leap(year) { 366 } else { 365 }
}

// The date of a day of a year, counted from 0.
#[tactic(auto, using(crate::proofs::Counting::month_steps))]
fn date_in(year: u16, day: u16) -> Date
    requires { day < year_days year }
    ensures { Dated year day result }
{
    let mut rest = day;
    for month in 1..=12 {
        let length = u16::from(days_of(year, month - 1));
        if rest < length {
            let day = rest as u8 + 1;
            return Date { year, month, day };
        }
        rest -= length;
    }
    unreachable!()
}

// The date of a day, counted from 0 at 1 January 1970; none past the year 9999.
#[tactic(auto, using(crate::proofs::Counting::year_steps))]
pub fn date_of(day: u64) -> Option<Date>
    ensures { elim result [ Some d ↦ IsDay day d | None ↦ years_days 8030 ≤ day ] }
{
    let mut rest = day;
    for year in 1970..=9999 {
        let length = u64::from(days_of_year(year));
        if rest < length {
            return Some(date_in(year, rest as u16));
        }
        rest -= length;
    }
    None
}
