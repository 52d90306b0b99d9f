// The letters of a refusal: the conditions kept when each is gone through in turn.
ghost use Rattle.std.specs.Prelude.{◌≡◌, cond, ◌-◌, ◌^◌, ◌≤◌, ◌<◌, length};
ghost use Rattle.std.specs.List.{list_any};
ghost use Rattle.rules.specs.Conditions.{condition_count};
ghost use Rattle.rules.specs.Answer.{common, letters};
ghost use Rattle.sets.specs.Sets.{holds_set};
ghost use Rattle.schedule.specs.Search.{test_in};

use rules::{ALL_CONDITIONS, CONDITIONS};
use sets::{bit, contains};

// Whether the conditions of the set have a start in common.
fn common_in(sets: &[u16], set: u16) -> bool
    ensures { result ≡ list_any (λ met. holds_set met set) sets.now }
{
    sets.iter().any(|met| contains(*met, set))
}

// The set with the condition c, or without it where the others have no start in common.
#[tactic(auto, using(sets::proofs::Bits::bit_is, crate::proofs::Common::any_common))]
fn keep_or_drop(sets: &[u16], set: u16, c: u32) -> u16
    requires { (c < condition_count) × (2 ^ c ≤ set) }
    ensures { result ≡ cond (common (test_in sets.now) (length sets.now) (set - 2 ^ c)) set (set - 2 ^ c) }
{
    let without = set - bit(c);
    if common_in(sets, without) {
        set
    } else {
        without
    }
}

// The letters of a refusal, as a set.
pub fn letters_of(sets: &[u16]) -> u16
    ensures { result ≡ letters (test_in sets.now) (length sets.now) }
{
    let mut set = ALL_CONDITIONS;
    for c in 0..CONDITIONS {
        set = keep_or_drop(sets, set, c);
    }
    set
}
