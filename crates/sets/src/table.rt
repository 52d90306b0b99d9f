// A table of sets, one for each start of a candidate, to which the tests of the conditions add their bits.
ghost use Rattle.std.specs.Prelude.{◌≡◌, Bool, cond, ℕ, ◌+◌, ◌<◌, length, get_or, set};
ghost use Rattle.sets.specs.Table.{Marked, Markable};

use rules::TICKS;

// Adds `by` to the entry of the start s where it meets the condition: for tests that change from start to start what they
// go by, as loads and trials do; all others are closures of `mark_where`.
pub fn raise(s: u32, met: bool, by: u16, table: &mut [u16])
    requires { (s < length table.old) × (get_or table.old s 0 + by < 65536) }
    ensures { table.new ≡ set table.old s (get_or table.old s 0 + cond met by 0) }
{
    if met {
        table[s as usize] += by;
    }
}

// Adds `by` to the entries of those of the first `count` starts for which the test holds. `count`, `by` and `table` stay
// apart, with `Markable` asked for: a struct would have to say it after the mark, too, which has used the room for `by`.
pub fn mark_where<F: Fn(u32) -> bool>(test: F, count: u32, by: u16, table: &mut [u16])
    requires callable { (s : ℕ) → s < count → F.pre test s }
    requires markable { Markable by count table.old }
    ensures { (p : ℕ → Bool) → ((s : ℕ) (met : Bool) → s < count → F.post test s met → met ≡ p s) → Marked p by count table.old table.new }
{
    for (s, entry) in table[..count as usize].iter_mut().enumerate() {
        if test(s as u32) {
            *entry += by;
        }
    }
}

// Sets every entry to 0.
pub fn clear(table: &mut [u16; TICKS])
    ensures { (length table.new ≡ 4096) × ((k : ℕ) → get_or table.new k 0 ≡ 0) }
{
    table.fill(0);
}
