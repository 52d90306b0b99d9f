#![tactic(auto)]
// The greedy placing, place by place (document 01, Placing and refusing): the answers at the places, and what they place.
mod next;

ghost use Rattle.std.specs.Prelude.{◌≡◌, ◌≤◌, ◌<◌, length};
ghost use Rattle.rules.specs.Outcomes.{starts, activity_at, outcome};
ghost use Rattle.plan.specs.View.{plan_view};
ghost use Rattle.placing.specs.Places.{PlacedTo, TableAt};

pub use next::{Placing, place_next};
use plan::Plan;
use rules::{Outcome, TICKS};

// Answers the first k places in order, beginning with nothing placed. What comes of them is lent, since its copies would
// stand on the stack beside those of the conditions.
pub fn place_to(plan: &Plan, k: usize, placing: &mut Placing, table: &mut [u16; TICKS])
    requires { k ≤ length (plan_view plan.now).activities }
    ensures { PlacedTo plan.now k placing.new }
{
    placing.placed.count = 0;
    // By number: `place_next` takes the number of its place.
    for place in 0..k {
        place_next(plan, place, placing, table);
    }
}

// The answer at place k.
pub fn outcome_at(plan: &Plan, k: usize) -> Outcome
    requires { k < length (plan_view plan.now).activities }
    ensures { result ≡ outcome (plan_view plan.now) k }
{
    let mut table = [0; TICKS];
    let mut placing = Placing::new();
    place_to(plan, k + 1, &mut placing, &mut table);
    placing.answers[k]
}

// How many starts the activity at place k has.
pub fn start_count_at(plan: &Plan, k: usize) -> u32
    requires { k < length (plan_view plan.now).activities }
    ensures { (result ≡ starts (plan_view plan.now).header (activity_at (plan_view plan.now) k)) × (result ≤ 4096) }
{
    conditions::start_count(plan.header, &plan.activity(k))
}

// Fills the table of sets of the activity at place k, beside those placed at earlier places, and returns how many starts
// it has.
pub fn fill_at(plan: &Plan, k: usize, table: &mut [u16; TICKS]) -> u32
    requires { k < length (plan_view plan.now).activities }
    ensures value { (result ≡ starts (plan_view plan.now).header (activity_at (plan_view plan.now) k)) × (result ≤ 4096) }
    ensures table_at { TableAt plan.now k table.new }
{
    let mut placing = Placing::new();
    place_to(plan, k, &mut placing, table);
    place_next(plan, k, &mut placing, table);
    start_count_at(plan, k)
}
