#![tactic(auto)]
// A plan on standard input, what the planner made of it in words on standard output (docs/EXPLAIN.md).
ghost use Rattle.std.specs.Prelude.{◌≤◌};

use input::run;
use std::io;
use std::process::ExitCode;

// How many bytes of the text are printed at a time, and more of such parts than a text can have.
const PART: usize = 262144;

const PARTS: usize = 1024;

// Prints a part of the text, and answers whether another may follow.
fn print_part(rt: &impl Print, bytes: &[u8], part: usize) -> io::Result<bool>
    requires { part ≤ 1024 }
{
    let mut out = [0u8; PART];
    let length = explanation::explain(bytes, part * PART, &mut out);
    rt.write_all(&out[..length])?;
    Ok(length == PART)
}

// Prints the text of a plan file.
fn print_all(rt: &impl Print, bytes: &[u8]) -> io::Result<()> {
    for part in 0..PARTS {
        if !print_part(rt, bytes, part)? {
            return Ok(());
        }
    }
    Ok(())
}

fn main(rt: HostRuntime) -> ExitCode {
    // one byte more than a plan may have
    let mut bytes = [0u8; 60001];
    run(
        &rt,
        "explain",
        &mut rt.stdin(),
        &mut bytes,
        |plan| print_all(&rt, plan),
    )
}
