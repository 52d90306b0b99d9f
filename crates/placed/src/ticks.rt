// When the heater begins, and sums by tick.
ghost use Rattle.std.specs.Prelude.{◌≡◌, ℕ, ◌+◌, ◌-◌, ◌<◌, ◌≤◌, length, get_or};
ghost use Rattle.rules.specs.Warmup.{warmup_at};
ghost use Rattle.placed.specs.Raised.{Raised};

// The tick at which the heater begins to work before a start; its ticks below 0 draw nothing.
// `warm` is a number, 0 or 1 in a plan, as the definitions have it: a bool would be turned back into one in every clause.
pub fn heater_from(minute: u32, start: u32, warm: u32) -> u32
    ensures { (result ≡ start - warmup_at minute start warm) × (result ≤ start) }
{
    start.saturating_sub(rules::warmup_at(minute, start, warm))
}

// Adds `by` to the sums of the ticks from `from` to before `to`.
pub fn raise_ticks(sums: &mut [u32], from: usize, to: usize, by: u32)
    requires from_le_to { (from ≤ to) × (to ≤ length sums.old) }
    requires by_index { (t : ℕ) → get_or sums.old t 0 + by < 4294967296 }
    ensures { Raised from to by sums.old sums.new }
{
    for sum in &mut sums[from..to] {
        *sum += by;
    }
}
