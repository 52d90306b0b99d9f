// What the planner prints for a plan, and the calls of report.
ghost use Rattle.std.specs.Prelude.{◌≤◌, length};

use super::answer::{self, fault_of, left_from};
use report::lines::REPORT;
use rules::Fault;
use std::io;

// What a lent byte holds before a call; no report has it.
const MARK: u8 = b'#';

// Checks that a refused report leaves the lent bytes.
fn check_left(rt: &impl Print, out: &[u8]) -> io::Result<()> {
    if left_from(out, 0, MARK) {
        return Ok(());
    }
    answer::wrong(rt, "the bytes of a refused report")
}

// Checks that the printed report stands at the front of the lent bytes, and nothing behind it.
fn check_written(rt: &impl Print, out: &[u8], printed: &[u8]) -> io::Result<()> {
    if !out.starts_with(printed) {
        answer::wrong(rt, "the report is not what is printed")?;
    }
    if !left_from(out, printed.len(), MARK) {
        answer::wrong(rt, "the bytes behind the report")?;
    }
    Ok(())
}

// Checks the report into fewer bytes than it has.
fn check_short(rt: &impl Print, plan: &[u8], room: usize) -> io::Result<()>
    requires { room ≤ REPORT }
{
    let mut out = [MARK; REPORT];
    let answer = calls::report(plan, &mut out[..room]);
    if fault_of(answer) != Some(Fault::NoRoom) {
        answer::wrong(rt, "the refusal of a report")?;
    }
    check_left(rt, &out)
}

// Checks the report into as many bytes as it has.
fn check_exact(rt: &impl Print, plan: &[u8], printed: &[u8]) -> io::Result<()>
    requires { length printed.now ≤ REPORT }
{
    let mut out = [MARK; REPORT];
    let answer = calls::report(plan, &mut out[..printed.len()]);
    if answer.ok() != Some(printed.len()) {
        answer::wrong(rt, "the length of a report that just fits")?;
    }
    check_written(rt, &out, printed)
}

// Checks the report into more bytes than it has.
fn check_report(rt: &impl Print, plan: &[u8], printed: &[u8]) -> io::Result<()>
    requires { length printed.now ≤ REPORT }
{
    let mut out = [MARK; REPORT];
    let Ok(length) = calls::report(plan, &mut out) else {
        return check_left(rt, &out);
    };
    if length != printed.len() {
        answer::wrong(rt, "the report's length")?;
    }
    check_written(rt, &out, printed)?;
    check_exact(rt, plan, printed)?;
    check_short(rt, plan, printed.len().saturating_sub(1))
}

// Prints the answer of report into no bytes.
fn answer_no_room(rt: &impl Print, plan: &[u8]) -> io::Result<()> {
    let mut out = [MARK; REPORT];
    let answer = calls::report(plan, &mut out[..0]);
    print!(rt; "report")?;
    answer::put_count(rt, answer)?;
    println!(rt; "")?;
    check_left(rt, &out)
}

// Prints what the planner prints, and the answer of report into no bytes.
pub fn answer_reports(rt: &impl Print, plan: &[u8]) -> io::Result<()> {
    let printed = calls::output(plan);
    let printed = printed.as_slice();
    rt.write_all(printed)?;
    check_report(rt, plan, printed)?;
    answer_no_room(rt, plan)
}
