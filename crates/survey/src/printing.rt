// What the programs print: the lines of entries and totals, and refusals.
ghost use Rattle.std.specs.Prelude.{◌≡◌, not, is_some, is_ok};

use anyhow::anyhow;
use common::refusal::Refusal;
use register::entry::{Entry, Totals};
use register::lines::{LineShort, entry_line, totals_line};
use std::io::{BufWriter, Stdout, Write};

const LINE: usize = 160;

// Writes a line, unless it did not fit. The call that makes it writes to any space that it is lent, so the line is a buffer and a length.
fn put(
    out: &mut BufWriter<Stdout>,
    line: &[u8; LINE],
    written: Result<usize, LineShort>,
) -> anyhow::Result<()> {
    match written {
        Ok(n) if n <= LINE => {
            out.write_all(&line[0..n])?;
            Ok(())
        }
        _ => Err(anyhow!("a line does not fit its space")),
    }
}

pub fn print_entry(out: &mut BufWriter<Stdout>, entry: Entry) -> anyhow::Result<()> {
    let mut line = [0u8; LINE];
    let written = entry_line(entry, &mut line);
    put(out, &line, written)
}

pub fn print_entries(out: &mut BufWriter<Stdout>, entries: &[Entry]) -> anyhow::Result<()> {
    for entry in entries {
        print_entry(out, *entry)?;
    }
    Ok(())
}

pub fn print_totals(out: &mut BufWriter<Stdout>, totals: Totals) -> anyhow::Result<()> {
    let mut line = [0u8; LINE];
    let written = totals_line(totals, &mut line);
    put(out, &line, written)
}

// Tells a refusal on standard error, and ends a program that met one with what that leaves undone.
pub fn conclude(rt: &HostRuntime, refused: Option<Refusal>, undone: &str) -> anyhow::Result<()>
    ensures { is_ok result ≡ not (is_some refused) }
{
    if let Some(refusal) = refused {
        eprintln!(rt; "refused, {refusal}")?;
        return Err(anyhow!("{undone}"));
    }
    Ok(())
}
