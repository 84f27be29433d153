// Registers the records of a stream on standard input, and prints the register and the totals.
#![tactic(auto)]

use common::list::List;
use console::starts;
use std::io::{BufWriter, Write};
use stream::intake::Intake;
use survey::feeding::register_all;
use survey::printing::{conclude, print_entries, print_totals};
use survey::setup::{ENTRIES, entry_table};

const USAGE: &str = "usage: intake < FILE
Registers the records of a byte stream: place, length, kind, series, verdict (0 where it is accepted) and the place of its fault of each,
then the totals of accepted bytes, records, bytes passed over and bytes that wait. A register holds 3,968 records; a longer stream is refused
where its register is full, with status 1.";

fn run(rt: &HostRuntime) -> anyhow::Result<()> {
    if !starts(rt, USAGE)? {
        return Ok(());
    }
    let mut table = entry_table(rt, ENTRIES)?;
    let mut register = List::new(&mut table);
    let mut intake = Intake::new();
    let refused = register_all(rt, &mut intake, &mut register)?;
    let mut out = BufWriter::new(rt.alloc(), rt.stdout())?;
    print_entries(&mut out, register.as_slice())?;
    print_totals(&mut out, intake.tell())?;
    out.flush()?;
    conclude(rt, refused, "the register does not list the whole stream")
}

fn main(rt: HostRuntime) -> anyhow::Result<()> {
    run(&rt)
}
