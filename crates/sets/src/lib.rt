#![tactic(auto)]
// Sets of conditions as numbers (document 01, Calls: "W 1, D 2, U 4, S 8, E 16, P 32, B 64, V 128, H 256, added"), and
// the table of sets, one for each start of a candidate.
pub mod table;

ghost use Rattle.std.specs.Prelude.{◌≡◌, ◌<◌, ◌≤◌, get_or};
ghost use Rattle.rules.specs.Conditions.{condition_count, all_conditions, condition_letters, has};
ghost use Rattle.sets.specs.Sets.{bit_of, holds_set};

use rules::ALL_CONDITIONS;

// The bit of condition number c, by a match as document 01 asks.
#[tactic(auto, unfolding(crate::specs::Sets::bit_of))]
pub fn bit(c: u32) -> u16
    ensures { (result ≡ bit_of c) × (result ≤ all_conditions) }
{
    match c {
        0 => 1,
        1 => 2,
        2 => 4,
        3 => 8,
        4 => 16,
        5 => 32,
        6 => 64,
        7 => 128,
        8 => 256,
        _ => 0,
    }
}

// The letter of condition number c, by a match as document 01 asks.
#[tactic(auto, unfolding(rules::specs::Conditions::condition_letters))]
pub fn letter(c: u32) -> u8
    ensures { result ≡ get_or condition_letters c 0 }
{
    match c {
        0 => b'W',
        1 => b'D',
        2 => b'U',
        3 => b'S',
        4 => b'E',
        5 => b'P',
        6 => b'B',
        7 => b'V',
        8 => b'H',
        _ => 0,
    }
}

// Whether a set has condition number c.
#[tactic(auto, using(std::proofs::lemmas::Nat::Bits::shr_and_one), unfolding(rules::specs::Conditions::has))]
pub fn has_condition(set: u32, c: u32) -> bool
    requires { c < condition_count }
    ensures { result ≡ has set c }
{
    set >> c & 1 == 1
}

// Whether the entry has every condition of the set.
#[tactic(auto, using(crate::proofs::Masks::lacks_none))]
pub fn contains(entry: u16, set: u16) -> bool
    ensures { result ≡ holds_set entry set }
{
    set & ALL_CONDITIONS & !entry == 0
}
