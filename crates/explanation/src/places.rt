// The text of an accepted plan, place by place.
ghost use Rattle.std.specs.Prelude.{◌≡◌, ◌<◌, length};
ghost use Rattle.rules.specs.Outcomes.{outcome};
ghost use Rattle.plan.specs.View.{plan_view};
ghost use Rattle.placing.specs.Places.{TableAt};
ghost use Rattle.explanation.specs.Places.{place_text, place_texts};
ghost use Rattle.wording.specs.Writing.{written, with_more};

use crate::outcomes::put_outcome;
use placing::{Placing, place_next, start_count_at};
use plan::Plan;
use rules::{Outcome, TICKS};
use schedule::table::Table;
use wording::writing::Part;

// Writes what came of the activity at place k, by its table of sets.
fn put_place(out: &mut Part, plan: &Plan, k: usize, table: &[u16; TICKS], answer: Outcome)
    requires { (k < length (plan_view plan.now).activities) × TableAt plan.now k table.now × (answer ≡ outcome (plan_view plan.now) k) }
    ensures { written out.new ≡ with_more (written out.old) (place_text (plan_view plan.now) k) }
{
    let activity = plan.activity(k);
    let count = start_count_at(plan, k);
    out.push(b"place ");
    out.push_number(k as u64);
    out.push(b", activity ");
    out.push_number(u64::from(activity.id));
    out.push(b": ");
    let table = Table {
        sets: &table[..count as usize],
    };
    put_outcome(out, &table, activity.duration, answer);
}

// Writes the text of every place. By place, which `place_next` takes and which is written.
pub fn put_places(out: &mut Part, plan: &Plan)
    ensures { written out.new ≡ with_more (written out.old) (place_texts (plan_view plan.now) (length (plan_view plan.now).activities)) }
{
    let mut table = [0; TICKS];
    let mut placing = Placing::new();
    for place in 0..plan.count() {
        place_next(plan, place, &mut placing, &mut table);
        put_place(out, plan, place, &table, placing.answers[place]);
    }
}
