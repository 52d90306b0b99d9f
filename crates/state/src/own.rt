// The candidate's own needs, at its start and wherever a placed activity ends inside it.
ghost use Rattle.std.specs.Prelude.{◌≡◌, ◌<◌, ◌&&◌, not, eqb, leb, ltb};
ghost use Rattle.state.specs.Standing.{standing_by};
ghost use Rattle.state.specs.Own.{code_of_need, own_met};
ghost use Rattle.state.specs.Judging.{JudgedRight};

use crate::judged::Judged;
use crate::standing::standing_at;
use placed::{Need, Placed};

// The code that stands of the variable of a need; 0 where there is no such need.
#[tactic(auto, unfolding(crate::specs::Own::code_of_need))]
pub fn code_of_need(placed: &Placed, need: Need, tick: u16) -> u16
    ensures { result ≡ code_of_need placed.now.rows placed.now.count need tick }
{
    if need.code == 0 {
        return 0;
    }
    standing_at(placed, need.variable, tick).code
}

// Whether a need of this code is unmet at a tick at which another may stand, if that is before `end` and not before `start`.
fn is_unmet(need: u16, standing: u16, tick: u16, start: u16, end: u16) -> bool
    ensures { result ≡ (leb start tick && ltb tick end && not (eqb standing need)) }
{
    start <= tick && tick < end && standing != need
}

// Whether a need of the candidate is unmet at its start.
fn unmet_at_start(placed: &Placed, need: Need, start: u16, end: u16) -> bool
    ensures { result ≡ (ltb start end && not (eqb (standing_by placed.now.rows need.variable start placed.now.count).code need.code)) }
{
    start < end && standing_at(placed, need.variable, start).code != need.code
}

// Whether the needs of the candidate are met from `start` to before `end`, by loops left by label as document 01 names them.
pub fn own_needs_met(placed: &Placed, entries: &[Judged], start: u16, end: u16) -> bool
    requires { (placed.now.count < 64) × JudgedRight placed.now.rows placed.now.count entries.now }
    ensures { result ≡ own_met placed.now.rows placed.now.count start end }
{
    let mut met = true;
    'needs: for (j, need) in placed.candidate().needs.iter().enumerate() {
        if need.code == 0 {
            continue 'needs;
        }
        'ticks: for entry in entries {
            if is_unmet(need.code, entry.codes[j], entry.end, start, end) {
                met = false;
                break 'needs;
            }
        }
        if unmet_at_start(placed, *need, start, end) {
            met = false;
            break 'needs;
        }
    }
    met
}
