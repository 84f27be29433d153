// Prints records: entries, guides, parts and verdicts.
ghost use Rattle.std.specs.Prelude.{◌<◌, IfSome};

use crate::names::{Shown, Style, is_array, part_shown};
use crate::numbers::{Decimal, print_clock, print_pattern};
use anyhow::anyhow;
use common::list::List;
use common::refusal::Refusal;
use format::format::{Format, Part};
use format::items::{item, view};
use guides::{Guide, RecordFormat, guide_for};
use register::entry::Entry;
use std::io::{BufWriter, Stdout, Write};
use survey::printing::print_entry;
use velocity::percent::Percent;

const LAYOUT: usize = 40;

const SCALING: usize = 68;

// A line with the format's name and its guide.
fn print_guide(out: &mut BufWriter<Stdout>, guide: Guide) -> anyhow::Result<()> {
    let Guide {
        format,
        title,
        edition,
    } = guide;
    match format {
        RecordFormat::Unknown => writeln!(out, "  {format}: no guide")?,
        _ => writeln!(out, "  {format}: {title} ({edition})")?,
    }
    Ok(())
}

// A byte as itself, or as its number if it is not printable or a backslash.
fn print_byte(out: &mut BufWriter<Stdout>, byte: u8) -> anyhow::Result<()> {
    if byte >= 0x20 && byte <= 0x7E && byte != b'\\' {
        out.write_all(&[byte])?;
    } else {
        write!(out, "\\x{byte:02X}")?;
    }
    Ok(())
}

// A blank and the bytes of a part as text; nothing if it has none.
fn print_text(out: &mut BufWriter<Stdout>, bytes: &[u8], part: Part) -> anyhow::Result<()> {
    let Ok(text) = view(bytes, part) else {
        return Err(anyhow!("a part is outside its record"));
    };
    if !text.is_empty() {
        write!(out, " ")?;
    }
    for byte in text {
        print_byte(out, *byte)?;
    }
    Ok(())
}

// The item of a part as a number.
fn number_of(bytes: &[u8], part: Part, i: usize) -> anyhow::Result<i64> {
    item(bytes, part, i).map_err(|_| anyhow!("an item is outside its record"))
}

// The item of a part as a byte.
fn byte_of(bytes: &[u8], part: Part, i: usize) -> anyhow::Result<u8> {
    u8::try_from(number_of(bytes, part, i)?).map_err(|_| anyhow!("an item is no byte"))
}

// The exponent of the velocities of a DF3 record.
fn scaling_of(bytes: &[u8]) -> i8 {
    match bytes.get(SCALING) {
        Some(b) => i8::from_le_bytes([*b]),
        None => 0,
    }
}

// The cells of a DF3 record, where it has some.
fn cells_of(bytes: &[u8]) -> Option<usize>
    ensures { IfSome result (λ cells. 0 < cells) }
{
    let Some([low, high, ..]) = bytes.get(LAYOUT..) else {
        return None;
    };
    let cells = usize::from(u16::from_le_bytes([*low, *high]) % 1024);
    if cells > 0 { Some(cells) } else { None }
}

// A percentage; no number above 100 is written as one.
fn print_percent(out: &mut BufWriter<Stdout>, byte: u8) -> anyhow::Result<()> {
    let Some(percent) = Percent::new(byte) else {
        return Err(anyhow!("a correlation is above 100"));
    };
    let value = percent.value();
    write!(out, "{value}")?;
    Ok(())
}

// An item as a decimal, in a style that scales it; none in any other style.
fn decimal_of(style: Style, bytes: &[u8], part: Part, i: usize) -> anyhow::Result<Option<Decimal>> {
    let (number, exponent) = match style {
        Style::Scaled(exponent) => (number_of(bytes, part, i)?, exponent),
        Style::Velocity => (number_of(bytes, part, i)?, scaling_of(bytes)),
        Style::Halves => (i64::from(byte_of(bytes, part, i)?) * 5, -1),
        Style::SensorTemperature => (i64::from(byte_of(bytes, part, i)?) * 2 - 40, -1),
        _ => return Ok(None),
    };
    Ok(Some(Decimal { number, exponent }))
}

// An item, in the part's style.
fn print_item(
    out: &mut BufWriter<Stdout>,
    style: Style,
    bytes: &[u8],
    part: Part,
    i: usize,
) -> anyhow::Result<()> {
    if let Some(decimal) = decimal_of(style, bytes, part, i)? {
        write!(out, "{decimal}")?;
        return Ok(());
    }
    match style {
        Style::Percentage => print_percent(out, byte_of(bytes, part, i)?),
        Style::Pattern => print_pattern(out, number_of(bytes, part, i)?),
        _ => {
            let number = number_of(bytes, part, i)?;
            write!(out, "{number}")?;
            Ok(())
        }
    }
}

// The items of a part on one line, each behind a blank.
fn print_items(
    out: &mut BufWriter<Stdout>,
    shown: Shown,
    bytes: &[u8],
    part: Part,
) -> anyhow::Result<()> {
    let unit = shown.unit;
    for i in 0..part.count {
        write!(out, " ")?;
        print_item(out, shown.style, bytes, part, i)?;
        write!(out, "{unit}")?;
    }
    Ok(())
}

// The items of an array, a line for each beam, cell after cell.
fn print_beams(
    out: &mut BufWriter<Stdout>,
    shown: Shown,
    bytes: &[u8],
    part: Part,
) -> anyhow::Result<()> {
    let unit = shown.unit;
    let Some(cells) = cells_of(bytes) else {
        return Err(anyhow!("an accepted record has no cells"));
    };
    for i in 0..part.count {
        if i % cells == 0 {
            let before = i / cells;
            write!(out, "\n    beam {}:", before.saturating_add(1))?;
        }
        write!(out, " ")?;
        print_item(out, shown.style, bytes, part, i)?;
        write!(out, "{unit}")?;
    }
    Ok(())
}

// The name and the place of a part; a field of a sentence has its number behind its name.
fn print_name(
    out: &mut BufWriter<Stdout>,
    format: RecordFormat,
    name: &str,
    part: Part,
) -> anyhow::Result<()> {
    let code = part.code;
    let place = part.place;
    match format {
        RecordFormat::Sentence => write!(out, "  {name} {code}, {place}:")?,
        _ => write!(out, "  {name}, {place}:")?,
    }
    Ok(())
}

// A part, but for those that the clock's line tells.
fn print_part(
    out: &mut BufWriter<Stdout>,
    format: RecordFormat,
    bytes: &[u8],
    part: Part,
) -> anyhow::Result<()> {
    let shown = part_shown(format, part.code);
    match shown.style {
        Style::InClock => return Ok(()),
        Style::Clock => return print_clock(out, bytes, part.place),
        _ => {}
    }
    print_name(out, format, shown.name, part)?;
    if shown.style == Style::Text {
        print_text(out, bytes, part)?;
    } else if is_array(format, part.code) {
        print_beams(out, shown, bytes, part)?;
    } else {
        print_items(out, shown, bytes, part)?;
    }
    writeln!(out, "")?;
    Ok(())
}

// A line for each part of an accepted record.
fn print_parts<G: Format>(
    out: &mut BufWriter<Stdout>,
    formats: &G,
    kind: u8,
    format: RecordFormat,
    bytes: &[u8],
    table: &mut [Part],
) -> anyhow::Result<()> {
    let mut parts = List::new(table);
    if formats.list(kind, bytes, &mut parts).is_err() {
        return Err(anyhow!("the parts of an accepted record are not listed"));
    }
    for part in parts.as_slice() {
        print_part(out, format, bytes, *part)?;
    }
    Ok(())
}

// The verdict on a record that is not accepted, in words, with the place of its fault in the middle, which the text of a refusal has not.
fn print_verdict(out: &mut BufWriter<Stdout>, entry: Entry) -> anyhow::Result<()> {
    let number = entry.verdict;
    let place = entry.fault;
    let refusal = Refusal {
        number,
        layer: 2,
        place: place as usize,
    };
    let words = refusal.meaning();
    writeln!(out, "  refused, {number} at {place}: {words}")?;
    Ok(())
}

// A record, which stands at the front of a space: its entry, its guide, and its parts or its verdict.
pub(crate) fn print_record<G: Format>(
    out: &mut BufWriter<Stdout>,
    formats: &G,
    entry: Entry,
    space: &[u8],
    table: &mut [Part],
) -> anyhow::Result<()> {
    print_entry(out, entry)?;
    let guide = guide_for(entry.kind, entry.series);
    print_guide(out, guide)?;
    if entry.verdict != 0 {
        return print_verdict(out, entry);
    }
    let len = entry.len as usize;
    if len > space.len() {
        return Err(anyhow!("a record is longer than its space"));
    }
    print_parts(
        out,
        formats,
        entry.kind,
        guide.format,
        &space[0..len],
        table,
    )
}
