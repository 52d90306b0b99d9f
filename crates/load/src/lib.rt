#![tactic(auto)]
// U, E and P: the load of the placed in each tick, and the starts from which each tick of the candidate has it within the limit.
mod clear;
mod loads;
mod sharing;

ghost use Rattle.std.specs.Prelude.{ℕ, ◌+◌, ◌<◌, ◌≤◌};
ghost use Rattle.sets.specs.Table.{Marked, Markable};
ghost use Rattle.placed.specs.Tables.{engines_at, peak_at};
ghost use Rattle.placed.specs.Bounds.{AmountsBounded};
ghost use Rattle.load.specs.Loads.{load_in, sharing, Weighs, WeighsLittle};
ghost use Rattle.load.specs.Clear.{clear_for, fits};

use placed::{Placed, Row};
use rules::TICKS;

// Marks the starts from which what is placed, as it is weighed, and `weight` are within the limit in each tick of the candidate.
// `limit`, `duration`, `count` and `by` stay numbers, of the header, the candidate and the condition: a struct of them would
// be taken apart where it is made. So it is asked for here, and wherever they come, that the last start ends with the ticks.
fn mark_load<W: Fn(&Row) -> u32>(
    placed: &Placed,
    weigh: W,
    weight: u32,
    limit: u32,
    duration: u32,
    count: u32,
    by: u16,
    table: &mut [u16],
)
    requires callable { W.IsAlwaysCallable weigh }
    requires weighs { WeighsLittle (W.post weigh) placed.now.rows placed.now.count }
    requires le_duration { (1 ≤ duration) × (count + duration ≤ 4097) × Markable by count table.old }
    ensures { (weights : ℕ → ℕ) → Weighs (W.post weigh) placed.now.rows placed.now.count weights → Marked (clear_for (fits (load_in placed.now.rows weights placed.now.count) weight limit) duration) by count table.old table.new }
{
    let mut loads = [0u32; TICKS];
    loads::fill_loads(placed, weigh, &mut loads);
    clear::mark_clear(&loads, duration, weight, limit, count, by, table);
}

// Marks the starts that meet U: no tick of the candidate is held by one that shares a unit.
pub fn mark_units(placed: &Placed, duration: u32, count: u32, by: u16, table: &mut [u16])
    requires n_bound { placed.now.count < 64 }
    requires le_duration { (1 ≤ duration) × (count + duration ≤ 4097) × Markable by count table.old }
    ensures { Marked (clear_for (fits (load_in placed.now.rows (sharing placed.now.rows placed.now.count) placed.now.count) 0 0) duration) by count table.old table.new }
{
    let candidate = placed.candidate();
    mark_load(
        placed,
        |row| u32::from(sharing::share_units(row, candidate)),
        0,
        0,
        duration,
        count,
        by,
        table,
    );
}

// Marks the starts that meet E. This and `mark_peaks` are two functions: the clause of `mark_load` is of any weights, and
// each of the two says which.
pub fn mark_engines(
    placed: &Placed,
    duration: u32,
    limit: u32,
    count: u32,
    by: u16,
    table: &mut [u16],
)
    requires n_bound { (placed.now.count < 64) × AmountsBounded placed.now.rows (placed.now.count + 1) }
    requires le_duration { (1 ≤ duration) × (count + duration ≤ 4097) × Markable by count table.old }
    ensures { Marked (clear_for (fits (load_in placed.now.rows (engines_at placed.now.rows) placed.now.count) (engines_at placed.now.rows placed.now.count) limit) duration) by count table.old table.new }
{
    let own = placed.candidate().engines;
    mark_load(
        placed,
        |row| row.engines,
        own,
        limit,
        duration,
        count,
        by,
        table,
    );
}

// Marks the starts that meet P.
pub fn mark_peaks(
    placed: &Placed,
    duration: u32,
    limit: u32,
    count: u32,
    by: u16,
    table: &mut [u16],
)
    requires n_bound { (placed.now.count < 64) × AmountsBounded placed.now.rows (placed.now.count + 1) }
    requires le_duration { (1 ≤ duration) × (count + duration ≤ 4097) × Markable by count table.old }
    ensures { Marked (clear_for (fits (load_in placed.now.rows (peak_at placed.now.rows) placed.now.count) (peak_at placed.now.rows placed.now.count) limit) duration) by count table.old table.new }
{
    let own = placed.candidate().peak;
    mark_load(
        placed,
        |row| row.peak,
        own,
        limit,
        duration,
        count,
        by,
        table,
    );
}
