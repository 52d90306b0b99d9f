// H: the starts that leave time for the warm-up.
ghost use Rattle.std.specs.Prelude.{leb};
ghost use Rattle.rules.specs.Warmup.{warmup_at};
ghost use Rattle.sets.specs.Table.{Marked, Markable};

use rules::warmup_at;
use sets::table::mark_where;

// Marks the starts that meet H: the warm-up begins at tick 0 or later. What it goes by stays numbers, as in
// `load::mark_load`.
pub fn mark_warmup(minute: u32, warm: u32, count: u32, by: u16, table: &mut [u16])
    requires { Markable by count table.old }
    ensures { Marked (λ s. leb (warmup_at minute s warm) s) by count table.old table.new }
{
    mark_where(|s| warmup_at(minute, s, warm) <= s, count, by, table);
}
