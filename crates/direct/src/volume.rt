// V: the volumes of the placed and the candidate, at every start or at none.
ghost use Rattle.std.specs.Prelude.{◌+◌, ◌≤◌, leb, length};
ghost use Rattle.sets.specs.Table.{Marked, Markable};
ghost use Rattle.placed.specs.Tables.{volumes_in};

use placed::{Row, total_volume};
use sets::table::mark_where;

// Marks the starts that meet V, beside entries of any ticks.
pub fn mark_volume(
    candidate: &Row,
    entries: &[Row],
    limit: u32,
    count: u32,
    by: u16,
    table: &mut [u16],
)
    requires { (length entries.now ≤ 64) × Markable by count table.old }
    ensures { Marked (λ _. leb (candidate.now.volume + volumes_in entries.now (length entries.now)) limit) by count table.old table.new }
{
    let volume = u64::from(candidate.volume) + total_volume(entries);
    let fits = volume <= u64::from(limit);
    mark_where(|_| fits, count, by, table);
}
