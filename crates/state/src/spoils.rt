// The needs of the placed, and the ticks of effect at which the candidate's sets spoil them.
ghost use Rattle.std.specs.Prelude.{◌≡◌, ℕ, ◌<◌, ◌≤◌, length};
ghost use Rattle.placed.specs.Bounds.{never};
ghost use Rattle.state.specs.Judging.{end_in, spoil_in, can_be_spoilt};
ghost use Rattle.state.specs.Spoils.{can_spoil, spoils_from, placed_met};

use crate::judged::Judged;
use crate::standing::standing_at;
use placed::{NEVER, Need, Placed};

// Whether a set can spoil a need: both are there, and of different values.
#[tactic(auto, unfolding(crate::specs::Spoils::can_spoil))]
fn can_spoil(set: u16, need: u16) -> bool
    ensures { result ≡ can_spoil set need }
{
    set != 0 && need != 0 && set != need
}

// The first tick of effect at which the candidate's sets spoil a need of an entry that starts at `start`; `NEVER` where
// they spoil it at none.
#[tactic(auto, unfolding(crate::specs::Spoils::spoils_from))]
pub fn spoils_from(placed: &Placed, need: Need, start: u16) -> u16
    requires { placed.now.count < 64 }
    ensures { result ≡ spoils_from placed.now.rows placed.now.count need start }
{
    let set = placed.candidate().sets[usize::from(need.variable)];
    if can_spoil(set, need.code) {
        return standing_at(placed, need.variable, start).since;
    }
    NEVER
}

// Whether a need of the entry can be spoilt.
fn can_be_spoilt(entry: &Judged) -> bool
    ensures { result ≡ can_be_spoilt entry.now }
{
    entry.spoils.iter().any(|from| *from < NEVER)
}

// How many entries matter: one more than the last with a need that can be spoilt.
pub fn rows_spoilt(entries: &[Judged]) -> usize
    ensures within { result ≤ length entries.now }
    ensures same { (ends : ℕ → ℕ) (e : ℕ) → e < never → placed_met (spoil_in entries.now) ends (length entries.now) e ≡ placed_met (spoil_in entries.now) ends result e }
{
    entries
        .iter()
        .rposition(can_be_spoilt)
        .map_or(0, |last| last + 1)
}

// Whether the needs of these entries stay met with the candidate's sets in effect from `effect`, by loops left by label as
// document 01 names them.
pub fn placed_needs_met(entries: &[Judged], effect: u16) -> bool
    ensures { result ≡ placed_met (spoil_in entries.now) (end_in entries.now) (length entries.now) effect }
{
    let mut met = true;
    'activities: for entry in entries {
        if entry.end <= effect {
            continue 'activities;
        }
        'needs: for from in &entry.spoils {
            if *from <= effect {
                met = false;
                break 'activities;
            }
        }
    }
    met
}
