// One place more: its activity is answered beside those placed, and put with them if it is placed.
ghost use Rattle.std.specs.Prelude.{◌≡◌, ℕ, ◌+◌, ◌≤◌, ◌<◌, length};
ghost use Rattle.rules.specs.Plan.{Schedule};
ghost use Rattle.rules.specs.Conditions.{meets};
ghost use Rattle.rules.specs.Outcomes.{starts, reply, added};
ghost use Rattle.rules.specs.declared.Outcome.TheVariants.{Placed as PlacedFrom};
ghost use Rattle.activity.specs.View.{header_view, activity_view};
ghost use Rattle.plan.specs.View.{plan_view};
ghost use Rattle.sets.specs.Table.{Table as TableOf};
ghost use Rattle.placed.specs.Held.{CandidateAt, Held};
ghost use Rattle.conditions.specs.Ready.{Beside, Ready};
ghost use Rattle.placing.specs.Places.{PlacedTo, TableAt};

use activity::{Activity, Header};
use placed::Placed;
use plan::Plan;
use rules::{Outcome, PLACES, TICKS};
use schedule::outcome::reply_by;
use schedule::table::Table;

// What comes of a plan's places in order: the answers at those gone through, and what they place.
#[derive(Drop)]
pub struct Placing {
    pub answers: [Outcome; PLACES],
    pub placed: Placed,
}

impl Placing {
    // No place is gone through.
    pub fn new() -> Self
        ensures { result.placed.count ≡ 0 }
    {
        // An array, not a List: an Outcome has no default for the free slots, and `PlacedTo` says how many are answered.
        Placing {
            answers: [Outcome::Refused(0); PLACES],
            placed: Placed::new(),
        }
    }
}

// The candidate answered beside those placed, by its table of sets, which is filled.
fn reply_to(
    header: Header,
    candidate: &Activity,
    placed: &Placed,
    table: &mut [u16; TICKS],
) -> Outcome
    requires { Ready header candidate.now placed.now.rows placed.now.count }
    ensures value { (before : Schedule) → Beside header candidate.now placed.now.rows placed.now.count before → result ≡ reply (header_view header) before (activity_view candidate.now) }
    ensures table { (before : Schedule) → Beside header candidate.now placed.now.rows placed.now.count before → TableOf (meets (header_view header) before (activity_view candidate.now)) (starts (header_view header) (activity_view candidate.now)) table.new }
{
    conditions::fill(header, candidate, placed, table);
    let count = conditions::start_count(header, candidate);
    let table = Table {
        sets: &table[..count as usize],
    };
    reply_by(&table, candidate)
}

// Puts the candidate with the placed if it is answered as placed.
fn put_if_placed(header: Header, candidate: &Activity, outcome: Outcome, placed: &mut Placed)
    requires { (placed.old.count < 64) × (candidate.now.id ≤ 65535) × ((s : ℕ) → outcome ≡ PlacedFrom s → s + candidate.now.duration ≤ 4096) }
    ensures counted { placed.new.count ≤ placed.old.count + 1 }
    ensures held { (before : Schedule) → CandidateAt placed.old.rows placed.old.count (activity_view candidate.now) → Held (header_view header) placed.old.rows placed.old.count before → Held (header_view header) placed.new.rows placed.new.count (added outcome (activity_view candidate.now) before) }
{
    if let Outcome::Placed(start) = outcome {
        placed.put_start(header, candidate, start);
    }
}

// Answers place k, and puts its activity with those placed; the table is the place's.
pub fn place_next(plan: &Plan, k: usize, placing: &mut Placing, table: &mut [u16; TICKS])
    requires { (k < length (plan_view plan.now).activities) × PlacedTo plan.now k placing.old }
    ensures one_more { PlacedTo plan.now (k + 1) placing.new }
    ensures table_at { TableAt plan.now k table.new }
{
    let candidate = plan.activity(k);
    placing.placed.put_candidate(&candidate);
    let outcome = reply_to(plan.header, &candidate, &placing.placed, table);
    placing.answers[k] = outcome;
    put_if_placed(plan.header, &candidate, outcome, &mut placing.placed);
}
