// The charges of a trial, run on from tick to tick.
ghost use Rattle.std.specs.Prelude.{◌≡◌, ℕ, ℤ, true, false, ◌⊎◌, ◌<◌, ◌≤◌, pos, length, get_or, ◌≤ℤ◌};
ghost use Rattle.std.specs.Int.Signed.{le_z};
ghost use Rattle.charge.specs.Charge.{own_view, at_tick};
ghost use Rattle.trial.specs.Trial.{draw_more, draw_with, Ran};

use crate::base::Base;
use activity::Header;
use charge::own::OwnDraw;
use charge::run::step;
use charge::sums::Drawn;

// Runs the charge on from tick `from`, with `by` drawn beside the placed, to tick `to`, the first tick under the floor, or the first whose charge ends the run. Answers the tick reached.
// Beside charge's `project`, which stops nowhere. That the first charge is not over the capacity is asked in each run: the
// charges are lent, and each run begins at another tick.
fn run_until<E: Fn(usize, i64) -> bool>(
    drawn: &Drawn,
    by: u32,
    from: usize,
    to: usize,
    charges: &mut [i64],
    ends: E,
) -> usize
    requires callable { (t : ℕ) (c : ℤ) → t < to → E.pre ends t c }
    requires from_le_to { (from ≤ to) × (to ≤ length drawn.now.draws.now) × (to < length charges.old) }
    requires under_capacity { get_or charges.old from (pos 0) ≤ℤ pos drawn.now.header.capacity }
    ensures ran_to { (result ≤ to) × Ran drawn.now.header (draw_more (at_tick drawn.now.draws.now) by) from result charges.old charges.new }
    ensures left_early { result < to → (le_z (pos drawn.now.header.floor) (get_or charges.new result (pos 0)) ≡ false) ⊎ E.post ends result (get_or charges.new result (pos 0)) true }
{
    let Header {
        capacity,
        rate,
        floor,
        ..
    } = drawn.header;
    let draws = drawn.draws;
    let floor = i64::from(floor);
    let more = u64::from(by);
    let mut c = charges[from];
    // By the tick, which is answered, and which is the place of two arrays' numbers.
    for t in from..to {
        if c < floor || ends(t, c) {
            return t;
        }
        c = step(c, capacity, rate, u64::from(draws[t]) + more);
        charges[t + 1] = c;
    }
    to
}

// The same with no other end.
fn run_ticks(drawn: &Drawn, by: u32, from: usize, to: usize, charges: &mut [i64]) -> usize
    requires from_le_to { (from ≤ to) × (to ≤ length drawn.now.draws.now) × (to < length charges.old) }
    requires under_capacity { get_or charges.old from (pos 0) ≤ℤ pos drawn.now.header.capacity }
    ensures ran_to { (result ≤ to) × Ran drawn.now.header (draw_more (at_tick drawn.now.draws.now) by) from result charges.old charges.new }
    ensures left_early { result < to → le_z (pos drawn.now.header.floor) (get_or charges.new result (pos 0)) ≡ false }
{
    run_until(drawn, by, from, to, charges, |_, _| false)
}

// Runs the charge on from tick `from`, with the placed alone, to the horizon, the first tick under the floor, or the first where the charge is the base's again.
// A slice, of which it is only asked that it has the charge at the horizon. Not inlined: by itself, its loop keeps its numbers
// in registers.
#[inline(never)]
pub fn run_back(base: &Base, from: usize, charges: &mut [i64]) -> usize
    requires from_le_horizon { (from ≤ base.now.drawn.header.horizon) × (base.now.drawn.header.horizon < length charges.old) }
    requires under_capacity { get_or charges.old from (pos 0) ≤ℤ pos base.now.drawn.header.capacity }
    ensures ran_to { (result ≤ base.now.drawn.header.horizon) × Ran base.now.drawn.header (at_tick base.now.drawn.draws.now) from result charges.old charges.new }
    ensures left_early { result < base.now.drawn.header.horizon → (le_z (pos base.now.drawn.header.floor) (get_or charges.new result (pos 0)) ≡ false) ⊎ (get_or charges.new result (pos 0) ≡ get_or base.now.charges.now result (pos 0)) }
{
    let to = base.drawn.header.horizon as usize;
    let base_charges = base.charges;
    run_until(
        &base.drawn,
        0,
        from,
        to,
        charges,
        |t, c| c == base_charges[t],
    )
}

// Runs the charge on through the ticks in which one activity draws, to its end or the first tick under the floor.
pub fn run_own(drawn: &Drawn, own: OwnDraw, charges: &mut [i64]) -> usize
    requires in_time { (own.end ≤ length drawn.now.draws.now) × (own.end < length charges.old) }
    requires under_capacity { get_or charges.old own.heat (pos 0) ≤ℤ pos drawn.now.header.capacity }
    ensures ran_to { (result ≤ own.end) × Ran drawn.now.header (draw_with (at_tick drawn.now.draws.now) (own_view own)) own.heat result charges.old charges.new }
    ensures left_early { result < own.end → le_z (pos drawn.now.header.floor) (get_or charges.new result (pos 0)) ≡ false }
{
    let heated = run_ticks(drawn, own.heater, own.heat, own.start, charges);
    if heated < own.start {
        return heated;
    }
    run_ticks(drawn, own.draw, own.start, own.end, charges)
}
