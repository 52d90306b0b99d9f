#![tactic(auto)]
// The nine conditions of document 01, tested for every start of a candidate beside the activities placed.

ghost use Rattle.std.specs.Prelude.{◌≡◌, ℕ, ◌^◌, ◌<◌, ◌≤◌, length, get_or};
ghost use Rattle.rules.specs.Plan.{Schedule};
ghost use Rattle.rules.specs.Conditions.{condition_count, all_conditions, meets};
ghost use Rattle.rules.specs.Outcomes.{starts};
ghost use Rattle.rules.specs.WellFormed.{HeaderFormed, ActivityFormed};
ghost use Rattle.activity.specs.View.{header_view, activity_view};
ghost use Rattle.sets.specs.Table.{Marked, Table};
ghost use Rattle.conditions.specs.Ready.{Beside, Ready};

use activity::{Activity, Header};
use placed::Placed;
use rules::{CONDITIONS, TICKS};
use sets::bit;

// How many starts a candidate has: those from 0 to T − d.
pub fn start_count(header: Header, candidate: &Activity) -> u32
    requires { HeaderFormed (header_view header) × ActivityFormed (header_view header) (activity_view candidate.now) }
    ensures { (result ≡ starts (header_view header) (activity_view candidate.now)) × (result ≤ 4096) }
{
    header.horizon + 1 - candidate.duration
}

// Adds the bit of condition number c to the entries of the starts that meet it, by a match as document 01 asks. What is
// given stays apart, with `Ready` asked for: it names a schedule, and a struct can only say what has no more than one proof.
fn mark(
    c: u32,
    header: Header,
    candidate: &Activity,
    placed: &Placed,
    count: u32,
    table: &mut [u16],
)
    requires ready { (c < condition_count) × Ready header candidate.now placed.now.rows placed.now.count × (count ≡ starts (header_view header) (activity_view candidate.now)) }
    requires table_in_bounds { (count ≤ length table.old) × ((k : ℕ) → get_or table.old k 0 ≤ all_conditions) }
    ensures { (entries : Schedule) → Beside header candidate.now placed.now.rows placed.now.count entries → Marked (meets (header_view header) entries (activity_view candidate.now) c) (2 ^ c) count table.old table.new }
{
    let by = bit(c);
    let duration = candidate.duration;
    match c {
        0 => direct::windows::mark_windows(candidate.windows.as_slice(), count, by, table),
        1 => direct::after::mark_after(
            placed.entries(),
            candidate.after.as_slice(),
            count,
            by,
            table,
        ),
        2 => load::mark_units(placed, duration, count, by, table),
        3 => state::mark_state(placed, duration, count, by, table),
        4 => load::mark_engines(placed, duration, header.engines, count, by, table),
        5 => load::mark_peaks(placed, duration, header.peak, count, by, table),
        6 => trial::mark_charge(header, placed, duration, candidate.warm, count, by, table),
        7 => direct::volume::mark_volume(
            placed.candidate(),
            placed.entries(),
            header.volume,
            count,
            by,
            table,
        ),
        8 => direct::warmup::mark_warmup(header.minute, candidate.warm, count, by, table),
        _ => {}
    }
}

// Sets the table's entry at each start of the candidate to the set of conditions that the start meets, and every other entry to 0.
pub fn fill(header: Header, candidate: &Activity, placed: &Placed, table: &mut [u16; TICKS])
    requires { Ready header candidate.now placed.now.rows placed.now.count }
    ensures { (entries : Schedule) → Beside header candidate.now placed.now.rows placed.now.count entries → Table (meets (header_view header) entries (activity_view candidate.now)) (starts (header_view header) (activity_view candidate.now)) table.new }
{
    sets::table::clear(table);
    let count = start_count(header, candidate);
    for c in 0..CONDITIONS {
        mark(c, header, candidate, placed, count, table);
    }
}
