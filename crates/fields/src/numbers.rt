// Numbers written as people write them: exact decimals, patterns, dates and times.
use anyhow::anyhow;
use std::fmt;
use std::io::{BufWriter, Stdout, Write};

// A number times ten to an exponent, written exactly.
#[derive(Clone, Copy, Debug)]
pub(crate) struct Decimal {
    pub number: i64,
    pub exponent: i8,
}

fn write_zeros<W: fmt::Write>(f: &mut fmt::Formatter<W>, count: u32) -> fmt::Result {
    for _ in 0..count {
        f.write_str("0")?;
    }
    Ok(())
}

// How many decimal digits a number has.
fn digits(number: u64) -> u32 {
    match number.checked_ilog10() {
        Some(n) => n.saturating_add(1),
        None => 1,
    }
}

// A number divided by ten so many times, with all its digits.
fn write_fraction<W: fmt::Write>(
    f: &mut fmt::Formatter<W>,
    number: u64,
    places: u32,
) -> fmt::Result {
    let (whole, rest) = match 10u64.checked_pow(places) {
        Some(power) if power > 0 => (number / power, number % power),
        _ => (0, number),
    };
    write!(f, "{whole}.")?;
    write_zeros(f, places.saturating_sub(digits(rest)))?;
    write!(f, "{rest}")
}

impl fmt::Display for Decimal {
    fn fmt<W: fmt::Write>(&self, f: &mut fmt::Formatter<W>) -> fmt::Result {
        let size = self.number.unsigned_abs();
        let places = u32::from(self.exponent.unsigned_abs());
        if self.number < 0 {
            f.write_str("-")?;
        }
        if self.exponent < 0 {
            return write_fraction(f, size, places);
        }
        write!(f, "{size}")?;
        if size == 0 {
            return Ok(());
        }
        write_zeros(f, places)
    }
}

// A 32-bit pattern in hexadecimal digits.
pub(crate) fn print_pattern(out: &mut BufWriter<Stdout>, number: i64) -> anyhow::Result<()> {
    let Ok(pattern) = u32::try_from(number) else {
        return Err(anyhow!("an item is no 32-bit pattern"));
    };
    write!(out, "0x{pattern:08X}")?;
    Ok(())
}

// The clock whose eight bytes begin at a place: date, time of day, and hundreds of microseconds as decimals.
pub(crate) fn print_clock(
    out: &mut BufWriter<Stdout>,
    bytes: &[u8],
    place: usize,
) -> anyhow::Result<()> {
    let Some([year, month, day, hour, minute, second, low, high, ..]) = bytes.get(place..) else {
        return Err(anyhow!("the clock is outside its record"));
    };
    let year = u32::from(*year) + 1900;
    let month = u32::from(*month) + 1;
    let hundred = u16::from_le_bytes([*low, *high]);
    writeln!(
        out,
        "  clock, {place}: {year}-{month:02}-{day:02} {hour:02}:{minute:02}:{second:02}.{hundred:04}"
    )?;
    Ok(())
}
