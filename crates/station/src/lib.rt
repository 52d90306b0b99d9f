#![tactic(auto)]
// The calls for a station's own software: each answers with one number (crate `packing`). Crate `station_c` exports them.
ghost use Rattle.std.specs.Prelude.{◌≡◌};
ghost use Rattle.station.specs.Exported.{OutcomeExported, ReportExported, StartsExported};
ghost use Rattle.station.specs.Version.{version};

mod intervals;

use intervals::{RUNS, columns, put_runs};
use rules::Interval;

const VERSION: u32 = 3;

// The version of the library (specs/Version.antt).
pub fn planner_version() -> u32
    ensures { result ≡ version }
{
    VERSION
}

// The outcome of the activity at a place: placed with its start, or refused with its letters.
pub fn planner_outcome(plan: &[u8], place: usize) -> u64
    ensures { OutcomeExported plan.now place result }
{
    packing::pack_outcome(calls::outcome(plan, place))
}

// The report, written to the front of `out`; answers its length.
pub fn planner_report(plan: &[u8], out: &mut [u8]) -> u64
    ensures { ReportExported plan.now out.old result out.new }
{
    packing::pack_count(calls::report(plan, out))
}

// The runs of starts of the activity at a place that meet a set of conditions, written to the front of `out`; answers
// their count. They are asked for in two columns, as many as `out` has room for.
pub fn planner_starts(plan: &[u8], place: usize, set: u32, out: &mut [Interval]) -> u64
    ensures { StartsExported plan.now place set out.old result out.new }
{
    let mut firsts = [0; RUNS];
    let mut lasts = [0; RUNS];
    let answer = columns(plan, place, set, out.len(), &mut firsts, &mut lasts);
    if let Ok(count) = answer {
        put_runs(out, &firsts[..count], &lasts[..count]);
    }
    packing::pack_count(answer)
}
