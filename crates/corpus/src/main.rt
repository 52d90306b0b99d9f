#![tactic(auto)]
// Goes through a stored stream of plans and prints the answers of every call (tests/README.md, The corpus).
// What a call must leave as it was is checked on the way: a line `wrong` says where it is not.
ghost use Rattle.std.specs.Prelude.{◌-◌, ◌≤◌, IfOk, length};

mod answer;
mod reports;
mod starts;

use input::records::Records;
use input::run;
use std::io;
use std::process::ExitCode;
use text::field::field_at;
use text::number::read_number;

// The first line of a record: how long the plan is, the places asked (from `first` to before `last`), how many sets.
#[derive(Clone, Copy)]
struct Asked {
    length: u64,
    first: u64,
    last: u64,
    sets: u64,
}

// The number in field k of a line; 0 where there is none, and so a line without numbers asks nothing.
fn number_in(line: &[u8], k: usize) -> u64 {
    read_number(field_at(line, k)).unwrap_or(0)
}

// What a record's first line asks.
fn asked_in(line: &[u8]) -> Asked {
    Asked {
        length: number_in(line, 0),
        first: number_in(line, 1),
        last: number_in(line, 2),
        sets: number_in(line, 3),
    }
}

// Prints the answers of the calls that take a place. The arguments stay apart, as the calls take them.
fn answer_place(rt: &impl Print, plan: &[u8], place: usize, sets: u64) -> io::Result<()> {
    answer::put_outcome(rt, place, calls::outcome(plan, place))?;
    starts::answer_sets(rt, plan, place, sets)?;
    starts::answer_short(rt, plan, place)
}

// Prints them for each place asked.
fn answer_places(rt: &impl Print, plan: &[u8], asked: Asked) -> io::Result<()> {
    for place in asked.first..asked.last {
        answer_place(rt, plan, place as usize, asked.sets)?;
    }
    Ok(())
}

// Prints the answers to the next record.
fn answer_record(rt: &impl Print, records: &mut Records) -> io::Result<()>
    ensures { IfOk result (λ _. length records.new ≤ length records.old - 1) }
{
    let Some(line) = records.line() else {
        return answer::wrong(rt, "a record without a first line");
    };
    let asked = asked_in(line);
    let Some(plan) = records.bytes(asked.length) else {
        return answer::wrong(rt, "a record that is cut off");
    };
    reports::answer_reports(rt, plan)?;
    answer_places(rt, plan, asked)
}

// Prints the answers to each record of s.
fn answer_records(rt: &impl Print, s: &[u8]) -> io::Result<()> {
    let mut records = Records::of(s);
    let mut number = 0u64;
    // Counted by hand: a record that is cut off is answered too, so that the loop ends with the bytes.
    while !records.is_empty() {
        println!(rt; "plan\t{number}")?;
        answer_record(rt, &mut records)?;
        number += 1;
    }
    Ok(())
}

fn main(rt: HostRuntime) -> ExitCode {
    let mut space = [0u8; 262144];
    run(
        &rt,
        "corpus",
        &mut rt.stdin(),
        &mut space,
        |s| answer_records(&rt, s),
    )
}
