// Lists the frames of a stream on standard input, and how many bytes are in frames and passed over.
#![tactic(auto)]

use common::pair::Pair;
use console::{read_all, starts};
use framing::binary::Binary;
use framing::sentence::Sentence;
use reading::listing::list_frames;
use std::io::{BufWriter, Write};

const USAGE: &str = "usage: frames < FILE
Lists the binary frames and the sentences of a byte stream: place, length, kind (1 binary, 2 sentence) and series of each,
then the numbers of bytes, frames, bytes in frames and bytes passed over.";

fn run(rt: &HostRuntime) -> anyhow::Result<()> {
    if !starts(rt, USAGE)? {
        return Ok(());
    }
    let heap = rt.alloc();
    let bytes = read_all(rt)?;
    let framing = Pair {
        first: Binary,
        second: Sentence,
    };
    let listing = list_frames(heap, &framing, &bytes)?;
    let mut out = BufWriter::new(heap, rt.stdout())?;
    for frame in listing.frames.iter() {
        writeln!(out, "{frame}")?;
    }
    writeln!(out, "{listing}")?;
    out.flush()?;
    Ok(())
}

fn main(rt: HostRuntime) -> anyhow::Result<()> {
    run(&rt)
}
