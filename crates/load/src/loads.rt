// The load of the placed in each tick.
ghost use Rattle.std.specs.Prelude.{◌≡◌, ℕ, get_or};
ghost use Rattle.load.specs.Loads.{Weighs, WeighsLittle, Loaded};

use placed::{Placed, Row, raise_ticks};
use rules::TICKS;

// Sets the load of each tick, from 0, to the sum of the weights of the placed that hold it.
pub fn fill_loads<W: Fn(&Row) -> u32>(placed: &Placed, weigh: W, loads: &mut [u32; TICKS])
    requires callable { W.IsAlwaysCallable weigh }
    requires weighs { WeighsLittle (W.post weigh) placed.now.rows placed.now.count }
    requires zeros { (t : ℕ) → get_or loads.old t 0 ≡ 0 }
    ensures { (weights : ℕ → ℕ) → Weighs (W.post weigh) placed.now.rows placed.now.count weights → Loaded placed.now.rows weights placed.now.count loads.new }
{
    for row in placed.entries() {
        let weight = weigh(row);
        raise_ticks(loads, usize::from(row.start), usize::from(row.end), weight);
    }
}
