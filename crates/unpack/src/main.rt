// Reads a register's blocks on standard input, and prints its entries.
#![tactic(auto)]

use anyhow::anyhow;
use block::layout::{BLOCK, MOST_BLOCKS};
use block::unpacking::unpack;
use common::list::List;
use common::refusal::Refusal;
use console::{fill, starts};
use std::io::{BufWriter, Write};
use survey::printing::print_entries;
use survey::setup::{ENTRIES, entry_table};

const USAGE: &str = "usage: unpack < BLOCKS
Prints the entries of a register from the blocks that `pack` wrote: place, length, kind, series, verdict (0 where it is accepted) and the place of its
fault of each. Damaged blocks are refused, with the number of the first wrong block as place, and the status is 1.";

// One byte more than the blocks of a register have, so that longer input is refused.
const SPACE: usize = BLOCK * MOST_BLOCKS + 1;

// Told with its place in the middle, which the text of a refusal has not.
fn refuse(rt: &HostRuntime, refusal: Refusal) -> anyhow::Result<()> {
    let number = refusal.number;
    let place = refusal.place;
    let words = refusal.meaning();
    eprintln!(rt; "refused, {number}, place {place}: {words}")?;
    Err(anyhow!("the blocks are not unpacked"))
}

fn run(rt: &HostRuntime) -> anyhow::Result<()> {
    if !starts(rt, USAGE)? {
        return Ok(());
    }
    let mut space = vec![in rt.alloc(); 0u8; SPACE]?;
    let n = fill(rt, &mut space)?;
    let mut table = entry_table(rt, ENTRIES)?;
    let mut register = List::new(&mut table);
    if let Err(fault) = unpack(&space[0..n], &mut register) {
        return refuse(rt, fault.into());
    }
    let mut out = BufWriter::new(rt.alloc(), rt.stdout())?;
    print_entries(&mut out, register.as_slice())?;
    out.flush()?;
    Ok(())
}

fn main(rt: HostRuntime) -> anyhow::Result<()> {
    run(&rt)
}
