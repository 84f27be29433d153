// Registers the records of a stream on standard input, and writes the register's blocks to standard output.
#![tactic(auto)]

use block::layout::{BLOCK, MOST_BLOCKS};
use block::packing::pack;
use common::list::List;
use console::starts;
use register::entry::Entry;
use std::io::Write;
use stream::intake::Intake;
use survey::feeding::register_all;
use survey::printing::conclude;
use survey::setup::{ENTRIES, entry_table};

const USAGE: &str = "usage: pack < FILE > BLOCKS
Registers the records of a byte stream, and writes the register as blocks of 512 bytes, 31 entries to a block; `unpack` prints them again. A register
holds 3,968 records; of a longer stream the blocks hold the first 3,968, and the status is 1.";

const SPACE: usize = BLOCK * MOST_BLOCKS;

fn write_blocks(rt: &HostRuntime, entries: &[Entry]) -> anyhow::Result<()> {
    let mut space = vec![in rt.alloc(); 0u8; SPACE]?;
    match pack(entries, &mut space) {
        Ok(n) => {
            let mut out = rt.stdout();
            out.write_all(&space[0..n])?;
            out.flush()?;
            Ok(())
        }
        Err(fault) => conclude(rt, Some(fault.into()), "the register has too many entries"),
    }
}

fn run(rt: &HostRuntime) -> anyhow::Result<()> {
    if !starts(rt, USAGE)? {
        return Ok(());
    }
    let mut table = entry_table(rt, ENTRIES)?;
    let mut register = List::new(&mut table);
    let mut intake = Intake::new();
    let refused = register_all(rt, &mut intake, &mut register)?;
    write_blocks(rt, register.as_slice())?;
    conclude(rt, refused, "the blocks do not hold the whole stream")
}

fn main(rt: HostRuntime) -> anyhow::Result<()> {
    run(&rt)
}
