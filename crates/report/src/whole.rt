// The whole report: a line for each place, then the end line.
ghost use Rattle.std.specs.Prelude.{◌≡◌, [], ◌++◌, ◌+◌, ◌*◌, ◌≤◌, length};
ghost use Rattle.rules.specs.Plan.{Schedule};
ghost use Rattle.rules.specs.Refusals.{refusal_view};
ghost use Rattle.rules.specs.MeetsB.{projection};
ghost use Rattle.rules.specs.Report.{outcome_lines, end_line, report, no_line};
ghost use Rattle.activity.specs.View.{header_view};
ghost use Rattle.plan.specs.View.{plan_view};
ghost use Rattle.placing.specs.Places.{PlacedTo};
ghost use Rattle.report.specs.Lines.{line_most, end_most, report_most};
ghost use Rattle.report.specs.Finished.{RowsSay, Finished};

pub use crate::lines::REPORT;
use crate::lines::{Report, put_end, put_no, put_outcome};
use activity::Header;
use placed::Placed;
use placing::{Placing, place_to};
use plan::Plan;
use rules::{Refusal, TICKS};

// Writes the lines of all places by their answers.
fn put_lines(plan: &Plan, placing: &Placing, out: &mut Report)
    requires { PlacedTo plan.now (length (plan_view plan.now).activities) placing.now × (out.old ≡ []) }
    ensures { out.new ≡ outcome_lines (plan_view plan.now) (length (plan_view plan.now).activities) }
{
    for (place, answer) in placing.answers[..plan.count()].iter().enumerate() {
        let activity = plan.activity(place);
        put_outcome(out, activity.id, activity.duration, *answer);
    }
}

// Writes the end line of a plan of `count` activities, of which these are placed. Its arrays are to leave the stack before
// the next call.
#[inline(never)]
fn put_finished(header: Header, count: usize, placed: &Placed, out: &mut Report)
    requires { Finished header placed.now.rows placed.now.count × (placed.now.count ≤ count) × (count ≤ 64) × (length out.old + end_most ≤ report_most) }
    ensures { (before : Schedule) → RowsSay header placed.now.rows placed.now.count before → out.new ≡ out.old ++ end_line count before (projection (header_view header) before) }
{
    let refused = count - placed.count;
    let projection = charge::charge_projection(header, placed);
    let volume = placed.total_volume();
    put_end(out, placed.count as u64, refused as u64, projection, volume);
}

// The report of a plan.
pub fn report_of(plan: &Plan) -> Report
    ensures { result ≡ report (plan_view plan.now) }
{
    let mut table = [0; TICKS];
    let mut placing = Placing::new();
    place_to(plan, plan.count(), &mut placing, &mut table);
    let mut out = Report::new();
    put_lines(plan, &placing, &mut out);
    put_finished(plan.header, plan.count(), &placing.placed, &mut out);
    out
}

// The `no` line of a refused plan.
#[tactic(auto, using(crate::proofs::LineByLine::no_short), unfolding(rules::specs::Report::no_line, rules::specs::Refusals::refusal_view, crate::specs::Lines::no_text))]
pub fn no_line_of(refused: Refusal) -> Report
    ensures { result ≡ no_line (refusal_view refused) }
{
    let mut out = Report::new();
    put_no(&mut out, refused);
    out
}
