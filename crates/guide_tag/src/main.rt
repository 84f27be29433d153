// Makes the tag frame that Nortek's guide prints, and shows its bytes, its verdict, and that it is the same when it is written again from its parts.
#![tactic(auto)]

use anyhow::anyhow;
use common::list::List;
use format::format::{Format, Part};
use format::text::Text;
use framing::binary::Binary;
use framing::verdict::{Framing, Verdict};
use writing::again::write_again;
use writing::draft::Draft;
use writing::drafts::DraftFull;
use writing::tag::write_tag;

const SPACE: usize = 64;

// The tag of the guide, written piece by piece through a draft.
fn draft_tag(space: &mut [u8]) -> Result<usize, DraftFull> {
    let mut draft = Draft::start(space, 0xA0);
    let identifier = draft.add(&[0x13]);
    let text = draft.add(b"2017-01-24 08:42:57.449 - This is a test tag.");
    let end = draft.add(&[0]);
    if identifier.is_err() || text.is_err() || end.is_err() {
        draft.scrap();
        return Err(DraftFull);
    }
    Ok(draft.seal())
}

// The record written again from the parts that its format lists.
fn again(record: &[u8], space: &mut [u8]) -> anyhow::Result<usize> {
    let mut table = [Part::default(); 4];
    let mut parts = List::new(&mut table);
    if Text.list(1, record, &mut parts).is_err() {
        return Err(anyhow!("the record is not accepted"));
    }
    write_again(record, parts.as_slice(), space).map_err(|_| anyhow!(
        "the record is not written again"
    ))
}

fn print_hex(rt: &HostRuntime, bytes: &[u8]) -> anyhow::Result<()> {
    for row in bytes.chunks(16) {
        let mut blank = "";
        for b in row {
            print!(rt; "{blank}{b:02x}")?;
            blank = " ";
        }
        println!(rt; "")?;
    }
    Ok(())
}

fn run(rt: &HostRuntime) -> anyhow::Result<()> {
    let mut space = [0u8; SPACE];
    let Ok(n) = draft_tag(&mut space) else {
        return Err(anyhow!("the space is too short"));
    };
    if n > SPACE {
        return Err(anyhow!("the frame is longer than its space"));
    }
    print_hex(rt, &space[0..n])?;
    match Binary.look(&space) {
        Verdict::Frame { len, kind } => println!(rt; "frame of {len} bytes, kind {kind}")?,
        Verdict::Short => println!(rt; "short")?,
        Verdict::NoFrame => println!(rt; "no frame")?,
    }
    let mut other = [0u8; SPACE];
    let written = write_tag(b"2017-01-24 08:42:57.449 - This is a test tag.", &mut other);
    let same = written.is_ok() && other == space;
    println!(rt; "as a tag, the same: {same}")?;
    let mut copy = [0u8; SPACE];
    let m = again(&space[0..n], &mut copy)?;
    let same = m == n && copy == space;
    println!(rt; "written again, the same: {same}")?;
    Ok(())
}

fn main(rt: HostRuntime) -> anyhow::Result<()> {
    run(&rt)
}
