// Prints the records of a stream on standard input, each with its guide and its parts, and the totals.
#![tactic(auto)]

use crate::printing::print_record;
use anyhow::anyhow;
use common::list::List;
use common::refusal::Refusal;
use console::starts;
use format::format::{Format, Part};
use register::entry::Entry;
use std::io::{BufWriter, Stdout, Write};
use stream::answers::{Fault, Taken};
use stream::intake::Intake;
use survey::feeding::next_piece;
use survey::printing::{conclude, print_totals};
use survey::setup::{SPACE, all_formats, both_framings, entry_table};

mod names;
mod numbers;
mod printing;

const USAGE: &str = "usage: fields < FILE
Prints the records of a byte stream: a line with the place, length, kind, series, verdict (0 where it is accepted) and the place of the fault of
each, a line with its format and the guide that describes it, and a line for each part of an accepted record, or the verdict on a refused one;
then the totals of accepted bytes, records, bytes passed over and bytes that wait. The number of records is not limited.";

const ENTRIES: usize = 64;

const PARTS: usize = 128;

// Takes records and prints each, until there is none or a take is refused. Writer, formats, intake and spaces are lent each by itself, as to a take.
fn take_some<G: Format>(
    out: &mut BufWriter<Stdout>,
    formats: &G,
    intake: &mut Intake,
    register: &mut List<'_, Entry>,
    space: &mut [u8],
    parts: &mut [Part],
) -> anyhow::Result<Result<Taken, Fault>> {
    let framings = both_framings();
    // No register reaches the bound: a loop must be seen to end.
    for _ in 0..u64::MAX {
        match intake.take(&framings, formats, register, space) {
            Ok(Taken::Record(entry)) => print_record(out, formats, entry, space, parts)?,
            answer => return Ok(answer),
        }
    }
    Err(anyhow!("the records do not end"))
}

// Takes and prints records, with an empty register each time that it is full.
fn take_all<G: Format>(
    out: &mut BufWriter<Stdout>,
    formats: &G,
    intake: &mut Intake,
    table: &mut [Entry],
    space: &mut [u8],
    parts: &mut [Part],
) -> anyhow::Result<Result<Taken, Fault>> {
    // The same bound.
    for _ in 0..u64::MAX {
        let mut register = List::new(&mut table[..]);
        match take_some(out, formats, intake, &mut register, space, parts)? {
            Err(Fault::RegisterFull) => {}
            answer => return Ok(answer),
        }
    }
    Err(anyhow!("the records do not end"))
}

// Delivers a piece of the stream, and closes the stream where it is the last. The like of it in the intake's crate is private: public it would have to
// carry the law over two turns.
fn accept(intake: &mut Intake, bytes: &[u8], last: bool) -> Result<(), Fault> {
    intake.deliver(bytes)?;
    if last {
        intake.close()?;
    }
    Ok(())
}

// Prints the records of standard input until it ends, or until a call is refused.
fn print_all(
    rt: &HostRuntime,
    out: &mut BufWriter<Stdout>,
    intake: &mut Intake,
    table: &mut [Entry],
    parts: &mut [Part],
) -> anyhow::Result<Option<Refusal>> {
    let formats = all_formats();
    let mut piece = vec![in rt.alloc(); 0u8; SPACE]?;
    let mut space = vec![in rt.alloc(); 0u8; SPACE]?;
    // No input reaches the bound: a loop must be seen to end.
    for _ in 0..u64::MAX {
        let (n, last) = next_piece(rt, intake, &mut piece)?;
        if let Err(fault) = accept(intake, &piece[0..n], last) {
            return Ok(Some(Refusal::from(fault)));
        }
        match take_all(out, &formats, intake, table, &mut space, parts)? {
            Err(fault) => return Ok(Some(Refusal::from(fault))),
            Ok(Taken::Drained) => return Ok(None),
            Ok(_) => {}
        }
    }
    Err(anyhow!("the input does not end"))
}

// Prints the records and the totals, and answers what was refused.
fn print_stream(rt: &HostRuntime) -> anyhow::Result<Option<Refusal>> {
    let mut table = entry_table(rt, ENTRIES)?;
    let mut parts = vec![in rt.alloc(); Part::default(); PARTS]?;
    let mut intake = Intake::new();
    let mut out = BufWriter::new(rt.alloc(), rt.stdout())?;
    let refused = print_all(rt, &mut out, &mut intake, &mut table, &mut parts)?;
    print_totals(&mut out, intake.tell())?;
    out.flush()?;
    Ok(refused)
}

fn run(rt: &HostRuntime) -> anyhow::Result<()> {
    if !starts(rt, USAGE)? {
        return Ok(());
    }
    let refused = print_stream(rt)?;
    conclude(rt, refused, "the whole stream is not printed")
}

fn main(rt: HostRuntime) -> anyhow::Result<()> {
    run(&rt)
}
