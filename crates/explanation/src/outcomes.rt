// What came of an activity, in words.
ghost use Rattle.std.specs.Prelude.{◌≡◌, true, cond, [], ◌<◌};
ghost use Rattle.rules.specs.Plan.{Activity};
ghost use Rattle.rules.specs.Conditions.{condition_count, has};
ghost use Rattle.rules.specs.declared.Outcome.TheVariants.{Placed, Refused};
ghost use Rattle.explanation.specs.Places.{letter_line, letter_text, letter_texts, outcome_text};
ghost use Rattle.explanation.specs.Tabled.{Small, runs_in};
ghost use Rattle.wording.specs.Writing.{written, with_more};

use crate::runs::put_runs_line;
use report::letters::letters;
use rules::{ALL_CONDITIONS, CONDITIONS, Outcome};
use schedule::table::Table;
use wording::words::condition_words;
use wording::writing::Part;

// Writes a letter and what it asks.
#[tactic(auto, using(std::proofs::lemmas::Grind::common_steps, wording::proofs::Pieces::more_then), unfolding(crate::specs::Places::letter_line))]
fn put_letter_line(out: &mut Part, condition: u32)
    ensures { written out.new ≡ with_more (written out.old) (letter_line condition) }
{
    out.push(b"  ");
    out.push(&[sets::letter(condition)]);
    out.push(b": ");
    out.push(condition_words(condition));
    out.push(b"\n");
}

// Writes a letter of a refusal, what it asks, and the starts that meet the rest.
#[tactic(auto, using(std::proofs::lemmas::Grind::common_steps, wording::proofs::Pieces::more_then, sets::proofs::Bits::bit_is, rules::proofs::Sets::power_in), unfolding(crate::specs::Places::letter_text))]
fn put_letter(out: &mut Part, table: &Table, set: u16, condition: u32)
    requires { (condition < condition_count) × (has set condition ≡ true) }
    ensures { written out.new ≡ with_more (written out.old) (letter_text (runs_in table.now.sets.now) set condition) }
{
    let bit = sets::bit(condition);
    let letters = set - bit;
    let conditions = ALL_CONDITIONS - bit;
    put_letter_line(out, condition);
    put_runs_line(
        out,
        b"    starts that meet the other letters:",
        table,
        letters,
    );
    put_runs_line(
        out,
        b"    starts that meet all other conditions:",
        table,
        conditions,
    );
}

// Writes the lines of a condition if it is a letter of the refusal.
#[tactic(auto, using(wording::proofs::Pieces::more_none))]
fn put_if_letter(out: &mut Part, table: &Table, set: u16, condition: u32)
    requires { condition < condition_count }
    ensures { written out.new ≡ with_more (written out.old) (cond (has set condition) (letter_text (runs_in table.now.sets.now) set condition) []) }
{
    if sets::has_condition(u32::from(set), condition) {
        put_letter(out, table, set, condition);
    }
}

// Writes the lines of each letter of a refusal.
#[tactic(auto, using(std::proofs::lemmas::Grind::common_steps, wording::proofs::Pieces::more_then, wording::proofs::Pieces::more_none), unfolding(crate::specs::Places::letter_texts))]
fn put_letters(out: &mut Part, table: &Table, set: u16)
    ensures { written out.new ≡ with_more (written out.old) (letter_texts (runs_in table.now.sets.now) set condition_count) }
{
    for condition in 0..CONDITIONS {
        put_if_letter(out, table, set, condition);
    }
}

// Writes that an activity is refused, and why.
#[tactic(auto, using(std::proofs::lemmas::Grind::common_steps, wording::proofs::Pieces::more_then), unfolding(crate::specs::Places::outcome_text))]
fn put_refused(out: &mut Part, table: &Table, set: u16)
    ensures { (a : Activity) → written out.new ≡ with_more (written out.old) (outcome_text (runs_in table.now.sets.now) a (Refused set)) }
{
    out.push(b"refused ");
    out.push(letters(u32::from(set)).as_slice());
    out.push(b"\n");
    put_letters(out, table, set);
}

// Writes where an activity of this duration is placed, and where it could be.
#[tactic(auto, using(std::proofs::lemmas::Grind::common_steps, wording::proofs::Pieces::more_then), unfolding(crate::specs::Places::outcome_text))]
fn put_placed(out: &mut Part, table: &Table, duration: u32, start: u32)
    ensures { (a : Activity) → a.duration ≡ duration → written out.new ≡ with_more (written out.old) (outcome_text (runs_in table.now.sets.now) a (Placed start)) }
{
    out.push(b"placed from ");
    out.push_number(u64::from(start));
    out.push(b" to ");
    out.push_number(u64::from(start) + u64::from(duration));
    out.push(b"\n");
    put_runs_line(out, b"  valid starts:", table, ALL_CONDITIONS);
}

// Writes what came of an activity of this duration.
pub fn put_outcome(out: &mut Part, table: &Table, duration: u32, outcome: Outcome)
    requires { Small outcome }
    ensures { (a : Activity) → a.duration ≡ duration → written out.new ≡ with_more (written out.old) (outcome_text (runs_in table.now.sets.now) a outcome) }
{
    match outcome {
        Outcome::Placed(start) => put_placed(out, table, duration, start),
        Outcome::Refused(set) => put_refused(out, table, set as u16),
    }
}
