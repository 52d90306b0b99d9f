// The letters of a set of conditions.
ghost use Rattle.std.specs.Prelude.{◌≡◌, [], ◌∷◌, ◌++◌, ◌+◌, ◌≤◌, ◌<◌, length, get_or};
ghost use Rattle.rules.specs.Conditions.{condition_count, condition_letters, letters_from, letters_of};

use rules::CONDITIONS;
use text::bytes::Bytes;

// The letters of a set, one for each condition at most.
pub type Letters = Bytes<9>;

// Writes the letter of condition number c if the set has it.
#[tactic(auto, unfolding(rules::specs::Conditions::letters_from))]
fn put_letter(out: &mut Letters, set: u32, c: u32)
    requires { (length out.old < 9) × (c < condition_count) }
    ensures text { out.new ≡ out.old ++ letters_from c (get_or condition_letters c 0 ∷ []) set }
    ensures within { length out.new ≤ length out.old + 1 }
{
    if sets::has_condition(set, c) {
        out.push(&[sets::letter(c)]);
    }
}

// The letters of a set, in order, by the number of each condition, which is its bit in the set.
#[tactic(auto, using(crate::proofs::LetterWriting::letters_more))]
pub fn letters(set: u32) -> Letters
    ensures text { result ≡ letters_of set }
    ensures within { length result ≤ condition_count }
{
    let mut out = Letters::new();
    for c in 0..CONDITIONS {
        put_letter(&mut out, set, c);
    }
    out
}
