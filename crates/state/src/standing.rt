// The value of a variable that stands at a tick by the sets of the placed.
ghost use Rattle.std.specs.Prelude.{◌≡◌, ◌<◌};
ghost use Rattle.state.specs.Standing.{later_value, standing_by};

use placed::Placed;

// The code of a variable's value, and the tick from which it stands.
#[derive(Clone, Copy)]
pub struct StandingValue {
    pub since: u16,
    pub code: u16,
}

// The value that stands with one more set, in effect from `end`.
#[tactic(auto, unfolding(crate::specs::Standing::later_value))]
fn later(end: u16, code: u16, tick: u16, before: StandingValue) -> StandingValue
    ensures { result ≡ later_value end code tick before }
{
    if code != 0 && end <= tick && before.since <= end {
        StandingValue { since: end, code }
    } else {
        before
    }
}

// The value of a variable that stands at a tick by the sets of the placed.
pub fn standing_at(placed: &Placed, variable: u16, tick: u16) -> StandingValue
    requires { variable < 8 }
    ensures { result ≡ standing_by placed.now.rows variable tick placed.now.count }
{
    // From tick 0 each variable has the value 0, whose code is 1.
    let mut standing = StandingValue { since: 0, code: 1 };
    for row in placed.entries() {
        standing = later(row.end, row.sets[usize::from(variable)], tick, standing);
    }
    standing
}
