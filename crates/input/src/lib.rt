#![tactic(auto)]
// The input of the programs, read whole, and the main that they share.
ghost use Rattle.std.specs.Prelude.{◌≡◌, ◌≤◌, ◌<◌, ℕ, IfOk, Ok, length, take};
ghost use Rattle.std.specs.Io.KnownBytes.{Consumes, IsAtEnd};
ghost use Rattle.std.specs.Fn.{FnOnceReturnsAt};
ghost use Rattle.std.specs.Process.{exit_status};
ghost use Rattle.input.specs.Count.{count_of};

pub mod records;

use std::io::{self, Eprint, Read};
use std::process::ExitCode;

// A read failed, after `count` bytes had been read.
#[derive(Clone, Copy)]
pub struct ReadFailed {
    pub count: usize,
}

// Reads the input to its end, or until the buffer is full or a read fails, into the front of the buffer, and answers how
// many bytes it read.
pub fn read_input<R: Read>(reader: &mut R, buf: &mut [u8]) -> Result<usize, ReadFailed>
    ensures within { count_of result ≤ length buf.new }
    ensures front { count_of result ≡ length (take (count_of result) buf.new) }
    ensures taken { Consumes (R.remaining reader.old) (R.remaining reader.new) (take (count_of result) buf.new) }
    ensures whole { IfOk result (λ count. count < length buf.new → IsAtEnd (R.remaining reader.new)) }
{
    let mut count = 0;
    // By count: a reader is no iterator, and each read goes behind what was read before.
    while count < buf.len() {
        match reader.read(&mut buf[count..]) {
            Ok(0) => break,
            Ok(more) => count += more,
            Err(_) => return Err(ReadFailed { count }),
        }
    }
    Ok(count)
}

// Has the input of the program `name` answered, which is read into the buffer. Answers the status to end with, and says
// on standard error what the trouble is.
pub fn run<R: Read, F: FnOnce(&[u8]) -> io::Result<()>>(
    rt: &impl Eprint,
    name: &str,
    reader: &mut R,
    buf: &mut [u8],
    answer: F,
) -> ExitCode
    requires { F.IsAlwaysCallable answer }
    ensures { exit_status result ≡ 0 → (count : ℕ) × Consumes (R.remaining reader.old) (R.remaining reader.new) (take count buf.new) × (count < length buf.new → IsAtEnd (R.remaining reader.new)) × FnOnceReturnsAt F.FnOnce answer (take count buf.new) (Ok tt) }
{
    let Ok(count) = read_input(reader, buf) else {
        return trouble_of(rt, name, "standard input cannot be read");
    };
    match answer(&buf[..count]) {
        Ok(()) => ExitCode::SUCCESS,
        Err(_) => trouble_of(rt, name, "standard output cannot be written"),
    }
}

// Says on standard error what the trouble is, and answers the status to end with.
pub fn trouble(rt: &impl Eprint, what: &str) -> ExitCode
    ensures { exit_status result ≡ 1 }
{
    let _ = rt.eprintln(what);
    ExitCode::FAILURE
}

// The same of the trouble of the program `name`, in one write.
fn trouble_of(rt: &impl Eprint, name: &str, what: &str) -> ExitCode
    ensures { exit_status result ≡ 1 }
{
    let _ = eprintln!(rt; "{name}: {what}");
    ExitCode::FAILURE
}
