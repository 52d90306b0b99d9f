#![tactic(auto)]
// The planner's calls on a plan's bytes (document 01, Calls), for Rattle programs.
ghost use Rattle.std.specs.Prelude.{◌≡◌, ◌<◌, min, length};
ghost use Rattle.rules.specs.Calls.{filling, runs};
ghost use Rattle.plan.specs.View.{plan_view};
ghost use Rattle.calls.specs.Called.{OutcomeCalled, SliceFilled, ReportCalled, ColumnsFilled, StartsCalled, OutputCalled};

use plan::Plan;
pub use report::lines::REPORT;
use report::lines::Report;
use report::whole::{no_line_of, report_of};
use rules::{ALL_CONDITIONS, Fault, Outcome, Refusal, TICKS};
use schedule::runs::{count_runs, write_runs};
use schedule::table::Table;

// The outcome of the activity at a place: placed with its start, or refused with its letters. By `match`, here and below: of
// a plan, which can be copied and holds a reference, the kit's borrow checker does not cover `?`.
pub fn outcome(bytes: &[u8], place: usize) -> Result<Outcome, Refusal>
    ensures { OutcomeCalled bytes.now place result }
{
    let plan = match plan::read(bytes) {
        Ok(plan) => plan,
        Err(refused) => return Err(refused),
    };
    if place < plan.count() {
        Ok(placing::outcome_at(&plan, place))
    } else {
        Err(Fault::NoPlace.into())
    }
}

// Copies a text to the front of a slice and answers its length; a slice too short for it remains.
fn hand_over(text: &[u8], out: &mut [u8]) -> Result<usize, Refusal>
    ensures { SliceFilled (filling (length out.old) text.now) out.old result out.new }
{
    let length = text.len();
    if out.len() < length {
        return Err(Fault::NoRoom.into());
    }
    out[..length].copy_from_slice(text);
    Ok(length)
}

// The report, written to the front of `out`; answers its length.
pub fn report(bytes: &[u8], out: &mut [u8]) -> Result<usize, Refusal>
    ensures { ReportCalled bytes.now out.old result out.new }
{
    let plan = match plan::read(bytes) {
        Ok(plan) => plan,
        Err(refused) => return Err(refused),
    };
    hand_over(report_of(&plan).as_slice(), out)
}

// Writes the runs of starts at a place that meet a set of conditions, and answers their count. The arguments are those
// of the call, as document 01 and C have it.
fn runs_at(
    plan: &Plan,
    place: usize,
    set: u16,
    firsts: &mut [u32],
    lasts: &mut [u32],
) -> Result<usize, Refusal>
    requires { place < length (plan_view plan.now).activities }
    ensures { ColumnsFilled (filling (min (length firsts.old) (length lasts.old)) (runs (plan_view plan.now) place set)) firsts.old lasts.old result firsts.new lasts.new }
{
    let mut table = [0; TICKS];
    let count = placing::fill_at(plan, place, &mut table);
    let table = Table {
        sets: &table[..count as usize],
    };
    let runs = count_runs(&table, set);
    if firsts.len().min(lasts.len()) < runs {
        return Err(Fault::NoRoom.into());
    }
    write_runs(&table, set, firsts, lasts);
    Ok(runs)
}

// The runs of starts of the activity at a place that meet a set of conditions: the first start of each is written to
// the front of `firsts`, the last to the front of `lasts`, and their count answered. Document 01 wants two slices of
// numbers first, and over them a slice of structs (crate `station`).
pub fn starts(
    bytes: &[u8],
    place: usize,
    set: u32,
    firsts: &mut [u32],
    lasts: &mut [u32],
) -> Result<usize, Refusal>
    ensures { StartsCalled bytes.now place set firsts.old lasts.old result firsts.new lasts.new }
{
    let plan = match plan::read(bytes) {
        Ok(plan) => plan,
        Err(refused) => return Err(refused),
    };
    if plan.count() <= place {
        return Err(Fault::NoPlace.into());
    }
    if u32::from(ALL_CONDITIONS) < set {
        return Err(Fault::NoSet.into());
    }
    runs_at(&plan, place, set as u16, firsts, lasts)
}

// What the program prints: the report, or the `no` line.
pub fn output(bytes: &[u8]) -> Report
    ensures { OutputCalled bytes.now result }
{
    match plan::read(bytes) {
        Ok(plan) => report_of(&plan),
        Err(refused) => no_line_of(refused),
    }
}
