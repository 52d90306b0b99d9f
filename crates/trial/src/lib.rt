#![tactic(auto)]
// Condition B: with the candidate added, the charge is at least the floor at each tick and at least the handover charge at the horizon. The charge differs from the base, with the placed alone, only from where the candidate begins to draw to where it is the base's again.
mod base;
mod own;
mod run;
mod spare;

ghost use Rattle.std.specs.Prelude.{◌≡◌, true, ◌+◌, ◌<◌, ◌≤◌};
ghost use Rattle.rules.specs.WellFormed.{HeaderFormed};
ghost use Rattle.activity.specs.View.{header_view};
ghost use Rattle.placed.specs.Tables.{draw_at};
ghost use Rattle.placed.specs.Bounds.{AmountsBounded};
ghost use Rattle.sets.specs.Table.{Marked, Markable};
ghost use Rattle.charge.specs.Charge.{own_view, drawn_in, at_tick, kept_by};
ghost use Rattle.trial.specs.Trial.{draw_with, kept_at};

use activity::Header;
use base::Base;
use charge::draws::add_placed;
use charge::own::OwnDraw;
use charge::run::{CHARGES, project};
use charge::sums::Drawn;
use own::{energy, own_draw};
use placed::Placed;
use rules::TICKS;
use run::{run_back, run_own};
use sets::table::raise;
use spare::spare_charge;

// A trial: whether the charge keeps to the floor and the handover charge with one activity more. It begins with the base where the activity begins to draw.
fn trial_keeps(base: &Base, own: OwnDraw, trial: &mut [i64; CHARGES]) -> bool
    requires in_time { own.end ≤ base.now.drawn.header.horizon }
    ensures { result ≡ kept_by base.now.drawn.header (draw_with (at_tick base.now.drawn.draws.now) (own_view own)) }
{
    trial[own.heat] = base.charges[own.heat];
    let ended = run_own(&base.drawn, own, trial);
    if ended < own.end {
        return false;
    }
    let t = run_back(base, own.end, trial);
    let header = base.drawn.header;
    let last = trial[t];
    last == base.charges[t] || i64::from(header.floor) <= last && i64::from(header.handover) <= last
}

// The same for any activity: one that draws no more than the base can spare needs no trial.
fn keeps_charge(base: &Base, own: OwnDraw, trial: &mut [i64; CHARGES]) -> bool
    requires in_time { own.end ≤ base.now.drawn.header.horizon }
    ensures { result ≡ kept_by base.now.drawn.header (draw_with (at_tick base.now.drawn.draws.now) (own_view own)) }
{
    energy(own) as i64 <= base.spare || trial_keeps(base, own, trial)
}

// Adds `by` at each of the first `count` starts at which the charge is kept. What it goes by stays numbers, as in
// `load::mark_load`.
fn mark_kept(
    drawn: &Drawn,
    duration: u32,
    draw: u32,
    warm: u32,
    count: u32,
    by: u16,
    table: &mut [u16],
)
    requires in_time { count + duration ≤ drawn.now.header.horizon + 1 }
    requires kept { (drawn.now.header.first ≤ drawn.now.header.capacity) × (kept_by drawn.now.header (at_tick drawn.now.draws.now) ≡ true) }
    requires markable { Markable by count table.old }
    ensures { Marked (kept_at drawn.now.header (at_tick drawn.now.draws.now) duration draw warm) by count table.old table.new }
{
    let mut charges = [0i64; CHARGES];
    let projection = project(drawn, &mut charges);
    let base = Base {
        drawn: *drawn,
        charges: &charges,
        spare: spare_charge(drawn.header, projection),
    };
    // Not by `mark_where`, whose test is an Fn, while a trial writes its charges: with an FnMut its contract would have to go
    // by the state that each call leaves, which no other test has.
    let mut trial = [0i64; CHARGES];
    for s in 0..count {
        let own = own_draw(drawn.header, s, duration, draw, warm);
        raise(s, keeps_charge(&base, own, &mut trial), by, table);
    }
}

// Adds `by` at each of the first `count` starts at which the candidate and the placed keep the charge.
pub fn mark_charge(
    header: Header,
    placed: &Placed,
    duration: u32,
    warm: u32,
    count: u32,
    by: u16,
    table: &mut [u16],
)
    requires n_bound { (placed.now.count < 64) × AmountsBounded placed.now.rows (placed.now.count + 1) }
    requires header_formed { HeaderFormed (header_view header) × (kept_by header (drawn_in header placed.now.rows placed.now.count) ≡ true) }
    requires duration_bound { (count + duration ≤ header.horizon + 1) × Markable by count table.old }
    ensures { Marked (kept_at header (drawn_in header placed.now.rows placed.now.count) duration (draw_at placed.now.rows placed.now.count) warm) by count table.old table.new }
{
    let mut draws = [0u32; TICKS];
    add_placed(header, placed, &mut draws);
    let drawn = Drawn {
        header,
        draws: &draws,
    };
    let draw = placed.candidate().draw;
    mark_kept(&drawn, duration, draw, warm, count, by, table);
}
