#![tactic(auto)]
// The calls of `station`, exported for C and Rust (include/planner.h).
ghost use Rattle.std.specs.Prelude.{◌≡◌};
ghost use Rattle.station.specs.Exported.{OutcomeExported, ReportExported, StartsExported};
ghost use Rattle.station.specs.Version.{version};

use rules::Interval;

// The version of the library.
#[unsafe(no_mangle)]
pub extern "C" fn planner_version() -> u32
    ensures { result ≡ version }
{
    station::planner_version()
}

// The outcome of the activity at a place: placed with its start, or refused with its letters.
#[unsafe(no_mangle)]
pub extern "C" fn planner_outcome(plan: &[u8], place: usize) -> u64
    ensures { OutcomeExported plan.now place result }
{
    station::planner_outcome(plan, place)
}

// The report, written to the front of `out`; answers its length.
#[unsafe(no_mangle)]
pub extern "C" fn planner_report(plan: &[u8], out: &mut [u8]) -> u64
    ensures { ReportExported plan.now out.old result out.new }
{
    station::planner_report(plan, out)
}

// The runs of starts of the activity at a place that meet a set of conditions, written to the front of `out`; answers
// their count.
#[unsafe(no_mangle)]
pub extern "C" fn planner_starts(plan: &[u8], place: usize, set: u32, out: &mut [Interval]) -> u64
    ensures { StartsExported plan.now place set out.old result out.new }
{
    station::planner_starts(plan, place, set, out)
}
