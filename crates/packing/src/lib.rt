#![tactic(auto, unfolding(crate::specs::Packing::packed, crate::specs::Packing::packed_values, rules::specs::Calls::outcome_terms, rules::specs::Calls::outcome_values, rules::specs::Calls::count_terms))]
// Answers as one number (specs/Packing.antt).
ghost use Rattle.std.specs.Prelude.{◌≡◌};
ghost use Rattle.rules.specs.Calls.{outcome_terms, count_terms, refusal};
ghost use Rattle.rules.specs.Refusals.{number_of};
ghost use Rattle.packing.specs.Packing.{packed};

use rules::{Outcome, Refusal};

// 2^32 and 2^40: where the refusal's number and the mark of a placed activity begin.
const NUMBER: u64 = 4294967296;

const PLACED_MARK: u64 = 1099511627776;

// A refusal's number and line.
fn pack_refusal(refused: Refusal) -> u64
    ensures { result ≡ packed (refusal (number_of refused.fault) refused.line) }
{
    let number = u32::from(refused.fault);
    u64::from(number) * NUMBER + u64::from(refused.line)
}

// What the outcome call answers.
pub fn pack_outcome(answer: Result<Outcome, Refusal>) -> u64
    ensures { result ≡ packed (outcome_terms answer) }
{
    match answer {
        Ok(Outcome::Placed(start)) => PLACED_MARK + u64::from(start),
        Ok(Outcome::Refused(set)) => u64::from(set),
        Err(refused) => pack_refusal(refused),
    }
}

// What the report and starts calls answer.
pub fn pack_count(answer: Result<usize, Refusal>) -> u64
    ensures { result ≡ packed (count_terms answer) }
{
    match answer {
        Ok(count) => count as u64,
        Err(refused) => pack_refusal(refused),
    }
}
