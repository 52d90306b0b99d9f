// How a candidate is answered, by its table of sets.
ghost use Rattle.std.specs.Prelude.{◌≡◌, ℕ, ◌≤◌, true, length, get_or};
ghost use Rattle.rules.specs.Conditions.{all_conditions};
ghost use Rattle.rules.specs.MeetsW.{allowed};
ghost use Rattle.rules.specs.Answer.{answer};
ghost use Rattle.rules.specs.Outcomes.{distance};
ghost use Rattle.rules.specs.WellFormed.{WindowsFormed};
ghost use Rattle.activity.specs.View.{activity_view};
ghost use Rattle.schedule.specs.Found.{is_valid};
ghost use Rattle.schedule.specs.Search.{test_in};

use crate::letters::letters_of;
use crate::nearest::nearest_of;
use crate::table::Table;
use activity::Activity;
use rules::Outcome;

// Placed at the nearest valid start, or refused with the letters.
#[tactic(auto, using(crate::proofs::Reply::nearest_valid), unfolding(rules::specs::Answer::answer, rules::specs::Answer::answered))]
pub fn reply_by(table: &Table, candidate: &Activity) -> Outcome
    requires small { (s : ℕ) → get_or table.now.sets.now s 0 ≤ all_conditions }
    requires formed { WindowsFormed (activity_view candidate.now).windows }
    requires allowed { (s : ℕ) → is_valid table.now.sets.now s ≡ true → allowed (activity_view candidate.now).windows s ≡ true }
    ensures { result ≡ answer (test_in table.now.sets.now) (length table.now.sets.now) (distance (activity_view candidate.now)) }
{
    match nearest_of(table, candidate) {
        Some(s) => Outcome::Placed(s),
        None => Outcome::Refused(u32::from(letters_of(table.sets))),
    }
}
