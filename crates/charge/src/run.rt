// The charge run on from tick to tick.
ghost use Rattle.std.specs.Prelude.{◌≡◌, ◌<◌, pos, negsuc, ◌≤ℤ◌};
ghost use Rattle.rules.specs.MeetsB.{further, projected};
ghost use Rattle.charge.specs.Charge.{at_tick, charge_next, charge_by, Charges};

use crate::sums::Drawn;
use rules::Projection;

// The most charges of a plan: at each tick, and at the horizon.
pub const CHARGES: usize = 4097;

// The charge after a tick: the smaller of the capacity and the charge with the rate added and the draws taken off.
pub fn step(c: i64, capacity: u32, rate: u32, draw: u64) -> i64
    requires charge_bound { (negsuc 4611686018427387903 ≤ℤ c) × (c ≤ℤ pos 4611686018427387904) }
    requires draw_bound { draw < 1099511627776 }
    ensures { result ≡ charge_next capacity rate draw c }
{
    i64::from(capacity).min(c + i64::from(rate) - draw as i64)
}

// The projection with one tick more, whose charge is c.
#[tactic(auto, unfolding(rules::specs::MeetsB::further, rules::specs::MeetsB::smaller))]
fn further(projection: Projection, tick: usize, c: i64) -> Projection
    ensures { result ≡ further tick c projection }
{
    if projection.lowest <= c {
        Projection {
            last: c,
            lowest: projection.lowest,
            tick: projection.tick,
        }
    } else {
        Projection {
            last: c,
            lowest: c,
            tick,
        }
    }
}

// The charge projection: writes the charge at each tick to the horizon; answers the last, the lowest and the first tick that
// has it.
pub fn project(drawn: &Drawn, charges: &mut [i64; CHARGES]) -> Projection
    ensures value { result ≡ projected (charge_by drawn.now.header (at_tick drawn.now.draws.now)) drawn.now.header.horizon }
    ensures written { Charges drawn.now.header (at_tick drawn.now.draws.now) charges.new }
{
    let header = drawn.header;
    let first = i64::from(header.first);
    charges[0] = first;
    let mut projection = Projection {
        last: first,
        lowest: first,
        tick: 0,
    };
    for (t, draw) in drawn.draws[..header.horizon as usize].iter().enumerate() {
        let c = step(
            projection.last,
            header.capacity,
            header.rate,
            u64::from(*draw),
        );
        charges[t + 1] = c;
        projection = further(projection, t + 1, c);
    }
    projection
}
