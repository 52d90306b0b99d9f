// The starts from which each tick of the candidate has its load within the limit.
ghost use Rattle.std.specs.Prelude.{◌≡◌, cond, ◌+◌, ◌<◌, ◌≤◌, leb, length};
ghost use Rattle.sets.specs.Table.{Marked, Markable};
ghost use Rattle.load.specs.Loads.{number_at};
ghost use Rattle.load.specs.Clear.{clear_since, fits, clear_for};

use rules::TICKS;
use sets::table::raise;

// The tick from which the weight fits in all up to the tick t, given that from which it fits in all before t.
fn clear_since(load: u32, weight: u32, limit: u32, t: u32, since: u32) -> u32
    requires { t < 4096 }
    ensures { result ≡ cond (leb (weight + load) limit) since (t + 1) }
{
    if u64::from(weight) + u64::from(load) <= u64::from(limit) {
        since
    } else {
        t + 1
    }
}

// The tick from which the weight fits in all before `to`.
fn clear_before(loads: &[u32], to: usize, weight: u32, limit: u32) -> u32
    requires { (to ≤ length loads.now) × (to ≤ 4096) }
    ensures { result ≡ clear_since (fits (number_at loads.now) weight limit) to }
{
    let mut since = 0;
    for (t, load) in loads[..to].iter().enumerate() {
        since = clear_since(*load, weight, limit, t as u32, since);
    }
    since
}

// Marks the starts from which the weight fits in each of `duration` ticks.
pub fn mark_clear(
    loads: &[u32; TICKS],
    duration: u32,
    weight: u32,
    limit: u32,
    count: u32,
    by: u16,
    table: &mut [u16],
)
    requires le_duration { (1 ≤ duration) × (count + duration ≤ 4097) }
    requires markable { Markable by count table.old }
    ensures { Marked (clear_for (fits (number_at loads.now) weight limit) duration) by count table.old table.new }
{
    let last = duration - 1;
    let mut since = clear_before(loads, last as usize, weight, limit);
    // By the start, which is marked and compared; an `enumerate` of the loads would widen and narrow it.
    for s in 0..count {
        let t = s + last;
        since = clear_since(loads[t as usize], weight, limit, t, since);
        raise(s, since <= s, by, table);
    }
}
