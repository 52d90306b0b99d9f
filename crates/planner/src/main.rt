#![tactic(auto)]
// The planner: a plan on standard input, its report or its `no` line on standard output (document 01, Calls).
use input::run;
use std::io::Print;
use std::process::ExitCode;

fn main(rt: HostRuntime) -> ExitCode {
    // one byte more than a plan may have
    let mut bytes = [0u8; 60001];
    run(
        &rt,
        "planner",
        &mut rt.stdin(),
        &mut bytes,
        |plan| rt.write_all(calls::output(plan).as_slice()),
    )
}
