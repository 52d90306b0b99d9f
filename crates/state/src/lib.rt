#![tactic(auto)]
// Condition S: the needs of the candidate and of the placed, with the candidate's sets added, for each start.
mod judged;
mod own;
mod spoils;
mod standing;

ghost use Rattle.std.specs.Prelude.{◌≡◌, ◌+◌, ◌<◌, ◌≤◌};
ghost use Rattle.sets.specs.Table.{Marked, Markable};
ghost use Rattle.state.specs.Judging.{JudgedRight};
ghost use Rattle.state.specs.State.{needs_met, state_met};

use judged::{Judged, judge_all};
use own::own_needs_met;
use placed::Placed;
use rules::PLACES;
use sets::table::mark_where;
use spoils::{placed_needs_met, rows_spoilt};

// Whether every need is met with the candidate at `start`; of the placed, those of the `spoilt` are judged.
// `placed` and `entries`, which `JudgedRight` ties, stay apart: a struct of them would be taken apart again in `own_needs_met`.
fn needs_met(
    placed: &Placed,
    entries: &[Judged],
    spoilt: &[Judged],
    duration: u32,
    start: u32,
) -> bool
    requires n_bound { placed.now.count < 64 }
    requires judged_right { JudgedRight placed.now.rows placed.now.count entries.now × (start + duration ≤ 4096) }
    ensures { result ≡ needs_met placed.now.rows placed.now.count spoilt.now duration start }
{
    let end = start + duration;
    own_needs_met(placed, entries, start as u16, end as u16) && placed_needs_met(spoilt, end as u16)
}

// Adds `by` at each start below `count` that meets S.
pub fn mark_state(placed: &Placed, duration: u32, count: u32, by: u16, table: &mut [u16])
    requires n_bound { placed.now.count < 64 }
    requires duration_bound { (count + duration ≤ 4097) × Markable by count table.old }
    ensures { Marked (state_met placed.now.rows placed.now.count duration) by count table.old table.new }
{
    let mut judged = [Judged::default(); PLACES];
    judge_all(placed, &mut judged);
    let entries = &judged[..placed.count];
    let spoilt = &entries[..rows_spoilt(entries)];
    mark_where(
        |start| needs_met(placed, entries, spoilt, duration, start),
        count,
        by,
        table,
    );
}
