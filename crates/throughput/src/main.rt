// Registers a stream of any length on standard input, in registers one after the other, and prints the totals: for measuring.
#![tactic(auto)]

use anyhow::anyhow;
use common::list::List;
use std::env;
use std::io::{BufWriter, Write};
use stream::answers::Taken;
use stream::intake::Intake;
use survey::feeding::next_piece;
use survey::printing::print_totals;
use survey::setup::{ENTRIES, SPACE, all_formats, both_framings, entry_table};

const USAGE: &str = "usage: throughput [SIZE] < FILE
Registers the records of a byte stream of any length, delivered in pieces of at most SIZE bytes (8,192 if it is not given), with an empty register for
each piece, and prints the totals of accepted bytes, records, bytes passed over and bytes that wait. It is for measuring; `intake` prints a register.";

// How long the pieces may be, from the arguments; none where they only ask for the usage.
fn piece_size(rt: &HostRuntime) -> anyhow::Result<Option<usize>> {
    let mut size = SPACE;
    for arg in env::args(rt)?.skip(1) {
        match arg.as_str() {
            "--help" | "-h" => return Ok(None),
            number => size = number.parse()?,
        }
    }
    Ok(Some(size.max(1)))
}

// Feeds standard input to an intake until it ends. A piece has fewer records than a register has room for, so no take is refused.
fn drain(rt: &HostRuntime, intake: &mut Intake, size: usize) -> anyhow::Result<()> {
    let framings = both_framings();
    let formats = all_formats();
    let mut table = entry_table(rt, ENTRIES)?;
    let mut piece = vec![in rt.alloc(); 0u8; size.min(SPACE)]?;
    let mut space = vec![in rt.alloc(); 0u8; SPACE]?;
    // No input reaches the bound: a loop must be seen to end.
    for _ in 0..u64::MAX {
        let (n, last) = next_piece(rt, intake, &mut piece)?;
        let mut register = List::new(&mut table);
        match intake.feed(
            &framings,
            &formats,
            &mut register,
            &mut space,
            &piece[0..n],
            last,
        ) {
            Err(_) => return Err(anyhow!("a call was refused")),
            Ok(Taken::Drained) => return Ok(()),
            Ok(_) => {}
        }
    }
    Err(anyhow!("the input does not end"))
}

fn run(rt: &HostRuntime) -> anyhow::Result<()> {
    let Some(size) = piece_size(rt)? else {
        rt.println(USAGE)?;
        return Ok(());
    };
    let mut intake = Intake::new();
    drain(rt, &mut intake, size)?;
    let mut out = BufWriter::new(rt.alloc(), rt.stdout())?;
    print_totals(&mut out, intake.tell())?;
    out.flush()?;
    Ok(())
}

fn main(rt: HostRuntime) -> anyhow::Result<()> {
    run(&rt)
}
