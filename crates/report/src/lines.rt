// Lines of fields parted by tabs. Each asks for the room that its bytes take.
ghost use Rattle.std.specs.Prelude.{◌≡◌, [], ◌∷◌, ◌++◌, ◌+◌, ◌≤◌, length};
ghost use Rattle.rules.specs.Bytes.{bytes};
ghost use Rattle.rules.specs.Number.{decimal};
ghost use Rattle.rules.specs.Lines.{line_of};
ghost use Rattle.rules.specs.Conditions.{letters_of};
ghost use Rattle.rules.specs.Refusals.{number_of};
ghost use Rattle.report.specs.Lines.{outcome_text, end_text, no_text};

use crate::letters::letters;
use rules::{Outcome, Projection, Refusal};
use text::bytes::Bytes;
use text::word::{PLACED, REFUSED};

// The room that a report is given: for a line of each place and the end line, by the ranges of the numbers in them.
pub const REPORT: usize = 1584;

// The bytes of a report.
pub type Report = Bytes<REPORT>;

// Writes a tab and a word.
fn put_word<const N: usize>(out: &mut Bytes<N>, word: &[u8])
    requires { length out.old + 1 + length word.now ≤ N }
    ensures { out.new ≡ out.old ++ 9 ∷ word.now }
{
    out.push(b"\t");
    out.push(word);
}

// Writes a tab and a number.
fn put_field<const N: usize>(out: &mut Bytes<N>, x: u64)
    requires { length out.old + 1 + length (decimal x) ≤ N }
    ensures { out.new ≡ out.old ++ 9 ∷ decimal x }
{
    out.push(b"\t");
    out.push_number(x);
}

// Writes two numbers, a tab before each.
fn put_two<const N: usize>(out: &mut Bytes<N>, x: u64, y: u64)
    requires { length out.old + 1 + length (decimal x) + 1 + length (decimal y) ≤ N }
    ensures { out.new ≡ out.old ++ 9 ∷ decimal x ++ 9 ∷ decimal y }
{
    put_field(out, x);
    put_field(out, y);
}

// Writes the line of an activity that is placed.
fn put_placed<const N: usize>(out: &mut Bytes<N>, id: u64, start: u64, end: u64)
    requires { length out.old + length (line_of (decimal id ∷ bytes "placed" ∷ decimal start ∷ decimal end ∷ [])) ≤ N }
    ensures { out.new ≡ out.old ++ line_of (decimal id ∷ bytes "placed" ∷ decimal start ∷ decimal end ∷ []) }
{
    out.push_number(id);
    put_word(out, &PLACED);
    put_two(out, start, end);
    out.push(b"\n");
}

// Writes the line of an activity that is refused.
fn put_refused<const N: usize>(out: &mut Bytes<N>, id: u64, set: u32)
    requires { length out.old + length (line_of (decimal id ∷ bytes "refused" ∷ letters_of set ∷ [])) ≤ N }
    ensures { out.new ≡ out.old ++ line_of (decimal id ∷ bytes "refused" ∷ letters_of set ∷ []) }
{
    out.push_number(id);
    put_word(out, &REFUSED);
    put_word(out, letters(set).as_slice());
    out.push(b"\n");
}

// Writes the line of an activity of this id and duration.
#[tactic(auto, unfolding(crate::specs::Lines::outcome_text))]
pub fn put_outcome<const N: usize>(out: &mut Bytes<N>, id: u32, duration: u32, outcome: Outcome)
    requires { length out.old + length (outcome_text id duration outcome) ≤ N }
    ensures { out.new ≡ out.old ++ outcome_text id duration outcome }
{
    let id = u64::from(id);
    match outcome {
        Outcome::Placed(start) => {
            let start = u64::from(start);
            put_placed(out, id, start, start + u64::from(duration));
        }
        Outcome::Refused(set) => put_refused(out, id, set),
    }
}

// Writes the end line.
#[tactic(auto, unfolding(crate::specs::Lines::end_text, rules::specs::Lines::line_of, rules::specs::Lines::parted, rules::specs::Lines::behind))]
pub fn put_end<const N: usize>(
    out: &mut Bytes<N>,
    placed: u64,
    refused: u64,
    projection: Projection,
    volume: u64,
)
    requires { length out.old + length (end_text placed refused projection volume) ≤ N }
    ensures { out.new ≡ out.old ++ end_text placed refused projection volume }
{
    out.push(b"end");
    put_two(out, placed, refused);
    put_two(out, projection.last.unsigned_abs(), volume);
    put_two(
        out,
        projection.lowest.unsigned_abs(),
        projection.tick as u64,
    );
    out.push(b"\n");
}

// Writes the line of a refused plan. Not by the Display of `Refusal`, for which `Bytes` would have to be a writer of std's.
#[tactic(auto, unfolding(crate::specs::Lines::no_text, rules::specs::Lines::line_of, rules::specs::Lines::parted, rules::specs::Lines::behind))]
pub fn put_no<const N: usize>(out: &mut Bytes<N>, refused: Refusal)
    requires { length out.old + length (no_text (number_of refused.fault) refused.line) ≤ N }
    ensures { out.new ≡ out.old ++ no_text (number_of refused.fault) refused.line }
{
    out.push(b"no");
    put_two(
        out,
        u64::from(u32::from(refused.fault)),
        u64::from(refused.line),
    );
    out.push(b"\n");
}
