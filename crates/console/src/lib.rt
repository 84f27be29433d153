// What the programs share: their arguments and their standard input.
#![tactic(auto)]

ghost use Rattle.std.specs.Prelude.{◌≤◌, length, IfOk};

use anyhow::anyhow;
use std::env;
use std::io::Read;

// Whether a program that takes no argument should do its work: `--help` only prints its usage, and any other argument is an error.
pub fn starts(rt: &HostRuntime, usage: &str) -> anyhow::Result<bool> {
    let Some(arg) = env::args(rt)?.nth(1) else {
        return Ok(true);
    };
    match arg.as_str() {
        "--help" | "-h" => {
            rt.println(usage)?;
            Ok(false)
        }
        _ => {
            rt.eprintln(usage)?;
            Err(anyhow!("an argument that is not known"))
        }
    }
}

// Fills a space from standard input, reading again until it is full or the input ends; answers how many bytes it holds then.
pub fn fill(rt: &HostRuntime, space: &mut [u8]) -> anyhow::Result<usize>
    ensures { IfOk result (λ n. n ≤ length space.old) }
{
    let len = space.len();
    let mut rest = space;
    while !rest.is_empty() {
        let n = rt.stdin().read(rest)?;
        if n == 0 {
            break;
        }
        rest = &mut rest[n..];
    }
    Ok(len - rest.len())
}

// All of standard input.
pub fn read_all(rt: &HostRuntime) -> anyhow::Result<Vec<u8>> {
    let mut bytes = Vec::new(rt.alloc());
    rt.stdin().read_to_end(&mut bytes)?;
    Ok(bytes)
}
