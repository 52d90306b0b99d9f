#![tactic(auto)]
// What a plan file is explained as, for people: of a refused file its line and field, of an accepted plan the starts of
// each place (docs/EXPLAIN.md).
ghost use Rattle.std.specs.Prelude.{◌≡◌, ◌≤◌, length};
ghost use Rattle.plan.specs.View.{plan_view};
ghost use Rattle.explanation.specs.Places.{accepted_text};
ghost use Rattle.explanation.specs.Explained.{explained, ExplainCalled};
ghost use Rattle.wording.specs.Writing.{written, with_more};

mod outcomes;
mod places;
mod runs;

use places::put_places;
use plan::Plan;
use refusal::put_refusal;
use wording::writing::Part;

// Writes the text of an accepted plan.
#[tactic(auto, using(std::proofs::lemmas::Grind::common_steps, wording::proofs::Pieces::more_then), unfolding(crate::specs::Places::accepted_text))]
fn put_accepted(out: &mut Part, plan: &Plan)
    ensures { written out.new ≡ with_more (written out.old) (accepted_text (plan_view plan.now)) }
{
    out.push(b"accepted, activities: ");
    out.push_number(plan.count() as u64);
    out.push(b"\n");
    put_places(out, plan);
}

// Writes the text of a plan file.
fn put_explained(out: &mut Part, bytes: &[u8])
    ensures { written out.new ≡ with_more (written out.old) (explained bytes.now) }
{
    match plan::read(bytes) {
        Ok(plan) => put_accepted(out, &plan),
        Err(refused) => put_refusal(out, bytes, refused),
    }
}

// Writes the part of a plan file's text from byte `from` on, as far as it fits, to the front of `out`, and answers its length.
pub fn explain(bytes: &[u8], from: usize, out: &mut [u8]) -> usize
    ensures explain_called { ExplainCalled bytes.now from out.old result out.new }
    // so that a caller can lend the front of `out`
    ensures upper_bound { result ≤ length out.new }
{
    let mut part = Part::new(from, out);
    put_explained(&mut part, bytes);
    part.as_slice().len()
}
