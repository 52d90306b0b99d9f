// What is drawn in each tick: by one activity and its heater, and by the placed.
ghost use Rattle.std.specs.Prelude.{◌≡◌, ℕ, ◌+◌, ◌<◌, ◌≤◌, length, get_or};
ghost use Rattle.placed.specs.Bounds.{AmountsBounded};
ghost use Rattle.charge.specs.Charge.{own_view, row_draw, draw_of, drawn_in};

pub use crate::own::OwnDraw;
use activity::Header;
use placed::{Placed, Row, raise_ticks};

// What the activity of a row draws.
fn row_draw(header: Header, row: &Row) -> OwnDraw
    requires { (row.now.heat ≤ row.now.start) × (row.now.start ≤ row.now.end) }
    ensures { own_view result ≡ row_draw header row.now }
{
    OwnDraw {
        heat: usize::from(row.heat),
        start: usize::from(row.start),
        end: usize::from(row.end),
        draw: row.draw,
        heater: header.heater,
    }
}

// Adds what one activity draws to the draws in its ticks.
#[tactic(auto, using(crate::proofs::Drawn::raised_own))]
fn add_draw(draws: &mut [u32], own: OwnDraw)
    requires known { own.end ≤ length draws.old }
    requires small_draws { (t : ℕ) → get_or draws.old t 0 + own.draw + own.heater < 4294967296 }
    ensures { (t : ℕ) → get_or draws.new t 0 ≡ draw_of (own_view own) t + get_or draws.old t 0 }
{
    raise_ticks(draws, own.heat, own.start, own.heater);
    raise_ticks(draws, own.start, own.end, own.draw);
}

// Writes the draws of the placed in each tick over zeros: to a slice, since an array would ask more of callers.
#[tactic(auto, using(crate::proofs::Drawn::drawn_none))]
pub fn add_placed(header: Header, placed: &Placed, draws: &mut [u32])
    requires amounts_bounded { AmountsBounded placed.now.rows placed.now.count × (header.heater ≤ 1000000) }
    requires draws_len { (length draws.old ≡ 4096) × ((t : ℕ) → get_or draws.old t 0 ≡ 0) }
    ensures { (t : ℕ) → get_or draws.new t 0 ≡ drawn_in header placed.now.rows placed.now.count t }
{
    for row in placed.entries() {
        add_draw(draws, row_draw(header, row));
    }
}
