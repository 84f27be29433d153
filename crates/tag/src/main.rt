// Writes the string record of a tag to standard output.
#![tactic(auto)]

use anyhow::anyhow;
use calendar::stamps::stamp_of;
use common::refusal::Refusal;
use std::env;
use std::io::Write;
use std::time::SystemTime;
use writing::tag::write_tag;

const USAGE: &str = "usage: tag [--clock] [--] TEXT
Writes one string record to standard output: the identifier of a tag, the text, and a final zero byte. With --clock, the date and time (UTC)
stand in front of the text, as `2017-01-24 08:42:57.449 - TEXT`.";

// The longest frame.
const SPACE: usize = 8192;

// The tag that the arguments ask for.
#[derive(Drop)]
struct Wanted {
    clock: bool,
    text: String,
}

// Tells the usage on standard error, as an error.
fn misused(rt: &HostRuntime) -> anyhow::Result<Option<Wanted>> {
    rt.eprintln(USAGE)?;
    Err(anyhow!("one text is wanted"))
}

// The tag that is asked for; none where only the usage is.
fn read_arguments(rt: &HostRuntime) -> anyhow::Result<Option<Wanted>> {
    let mut clock = false;
    let mut options = true;
    let mut text = None;
    for arg in env::args(rt)?.skip(1) {
        match arg.as_str() {
            "--help" | "-h" if options => return Ok(None),
            "--clock" if options => clock = true,
            "--" if options => options = false,
            _ => {
                if text.is_some() {
                    return misused(rt);
                }
                options = false;
                text = Some(arg);
            }
        }
    }
    match text {
        Some(text) => Ok(Some(Wanted { clock, text })),
        None => misused(rt),
    }
}

// The date and time now.
fn clock_text(rt: &HostRuntime) -> anyhow::Result<[u8; 23]> {
    let span = SystemTime::now(rt)?.duration_since(SystemTime::UNIX_EPOCH);
    let Ok(span) = span else {
        return Err(anyhow!("the clock stands before 1970"));
    };
    let millis = u64::try_from(span.as_millis())?;
    stamp_of(millis).ok_or(anyhow!("the clock stands past the year 9999"))
}

// The text of the tag's record.
fn record_text(rt: &HostRuntime, clock: bool, text: &str) -> anyhow::Result<Vec<u8>> {
    let mut bytes = Vec::new(rt.alloc());
    if clock {
        bytes.extend_from_slice(&clock_text(rt)?)?;
        bytes.extend_from_slice(b" - ")?;
    }
    bytes.extend_from_slice(text.as_bytes())?;
    Ok(bytes)
}

fn write_record(rt: &HostRuntime, text: &[u8]) -> anyhow::Result<()> {
    let mut space = vec![in rt.alloc(); 0u8; SPACE]?;
    match write_tag(text, &mut space) {
        Ok(n) if n <= space.len() => {
            let mut out = rt.stdout();
            out.write_all(&space[0..n])?;
            out.flush()?;
            Ok(())
        }
        Ok(_) => Err(anyhow!("the record is longer than its space")),
        Err(full) => {
            let refusal = Refusal::from(full);
            eprintln!(rt; "refused, {refusal}")?;
            Err(anyhow!("the text is too long for one record"))
        }
    }
}

fn run(rt: &HostRuntime) -> anyhow::Result<()> {
    let Some(Wanted { clock, text }) = read_arguments(rt)? else {
        rt.println(USAGE)?;
        return Ok(());
    };
    let bytes = record_text(rt, clock, text.as_str())?;
    write_record(rt, &bytes)
}

fn main(rt: HostRuntime) -> anyhow::Result<()> {
    run(&rt)
}
