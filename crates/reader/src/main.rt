#![tactic(auto)]
// Reads a stored set of plan files and prints what each says: its refusal, or the plan with its activities by place.
// Standard input has each file behind a line with its length in bytes.
ghost use Rattle.std.specs.Prelude.{◌<◌, IfSome, length};

mod show;

use input::records::Records;
use input::run;
use plan::Plan;
use show::{ActivityLine, FirstLine};
use std::io;
use std::process::ExitCode;
use text::number::read_number;

// Prints a plan.
fn show_plan(rt: &impl Print, plan: &Plan) -> io::Result<()> {
    println!(rt; "{}", FirstLine(&plan.header))?;
    // By place: an activity is read from its line when it is asked for, so that there is no slice of them.
    for place in 0..plan.count() {
        println!(rt; "{}", ActivityLine(&plan.activity(place)))?;
    }
    Ok(())
}

// Prints what a file says.
fn show_reading(rt: &impl Print, file: &[u8]) -> io::Result<()> {
    match plan::read(file) {
        Ok(plan) => show_plan(rt, &plan),
        Err(refusal) => println!(rt; "{refusal}"),
    }
}

// The next file, if there is one.
fn next_file<'a>(files: &mut Records<'a>) -> Option<&'a [u8]>
    ensures { IfSome result (λ _. length files.new < length files.old) }
{
    let n = read_number(files.line()?)?;
    files.bytes(n)
}

// Prints what each file of s says.
fn show_files(rt: &impl Print, s: &[u8]) -> io::Result<()> {
    let mut files = Records::of(s);
    // No iterator: a file is taken in two steps, its length and its bytes, and either of them may end the files.
    while let Some(file) = next_file(&mut files) {
        show_reading(rt, file)?;
    }
    Ok(())
}

fn main(rt: HostRuntime) -> ExitCode {
    let mut space = [0u8; 262144];
    run(
        &rt,
        "reader",
        &mut rt.stdin(),
        &mut space,
        |s| show_files(&rt, s),
    )
}
