// The text of a moment, as `2017-01-24 08:42:57.449`.
ghost use Rattle.std.specs.Prelude.{◌≡◌, ◌+◌, ◌/◌, ◌%◌, ◌<◌, ◌≤◌, Some, None};
ghost use Rattle.calendar.specs.Calendar.{years_days};
ghost use Rattle.calendar.specs.Stamp.{digit, two, three, four, stamp_text, Stamped};

use crate::dates::{Date, date_of};

const MILLIS_OF_A_DAY: u64 = 86_400_000;

// How many bytes a moment's text has.
const STAMP: usize = 23;

// The last decimal digit of a number.
fn last_digit(n: u32) -> u8
    ensures { result ≡ digit n }
{
    b'0' + (n % 10) as u8
}

// The last two digits of a number, and three and four: one line each, where any number of them would take a loop.
fn two(n: u32) -> [u8; 2]
    ensures { result ≡ two n }
{
    [last_digit(n / 10), last_digit(n)]
}

fn three(n: u32) -> [u8; 3]
    ensures { result ≡ three n }
{
    [last_digit(n / 100), last_digit(n / 10), last_digit(n)]
}

fn four(n: u32) -> [u8; 4]
    ensures { result ≡ four n }
{
    [
        last_digit(n / 1000),
        last_digit(n / 100),
        last_digit(n / 10),
        last_digit(n),
    ]
}

// A date, and a time of day in milliseconds.
fn stamp_text(date: Date, millis: u32) -> [u8; STAMP]
    ensures { result ≡ stamp_text date millis }
{
    let mut text = *b"YYYY-MM-DD hh:mm:ss.mmm";
    text[0..4].copy_from_slice(&four(date.year.into()));
    text[5..7].copy_from_slice(&two(date.month.into()));
    text[8..10].copy_from_slice(&two(date.day.into()));
    text[11..13].copy_from_slice(&two(millis / 3_600_000));
    text[14..16].copy_from_slice(&two(millis / 60_000 % 60));
    text[17..19].copy_from_slice(&two(millis / 1000 % 60));
    text[20..23].copy_from_slice(&three(millis));
    text
}

// The text of a moment, in milliseconds since 1 January 1970; none past the year 9999.
pub fn stamp_of(millis: u64) -> Option<[u8; STAMP]>
    ensures { elim result [ Some t ↦ Stamped millis t | None ↦ years_days 8030 ≤ millis / 86400000 ] }
{
    let date = date_of(millis / MILLIS_OF_A_DAY)?;
    Some(stamp_text(date, (millis % MILLIS_OF_A_DAY) as u32))
}
