#![tactic(auto)]
// The text of a refused file: its number in words, and its line and field as they are read.
ghost use Rattle.std.specs.Prelude.{◌≡◌, ℕ, ◌-◌, ◌≤◌, length, take};
ghost use Rattle.rules.specs.Faults.{line_at};
ghost use Rattle.rules.specs.Refusals.{number_of, refusal_view};
ghost use Rattle.refusal.specs.Refused.{horizon_of, wrong_field, field_of, line_text, field_text, refusal_line, refused_text};
ghost use Rattle.wording.specs.FirstWrong.{field_in};
ghost use Rattle.wording.specs.Writing.{written, with_more};

use rules::{Fault, Refusal};
use text::field::{field_at, field_count};
use wording::shown::put_shown;
use wording::words::{field_words, line_words, refusal_words};
use wording::writing::Part;
use wording::wrong::{horizon_in, wrong_in_act, wrong_in_plan};

// A line of a file: its number, counted from 1, which is written and says what it must be, and its bytes.
#[derive(Drop)]
struct Line<'a> {
    number: u32,
    bytes: &'a [u8],
}

impl<'a> Line<'a> {
    // Line n of the file s, with its LF; behind the last one, no bytes.
    fn of(s: &'a [u8], n: u32) -> Self
        requires { 1 ≤ n }
        ensures number { result.number ≡ n }
        ensures bytes { result.bytes.now ≡ line_at s.now n }
    {
        let mut lines = s.split_inclusive(|b| *b == b'\n');
        Line {
            number: n,
            bytes: lines.nth(n as usize - 1).unwrap_or(&[]),
        }
    }

    // Its bytes but the last one.
    fn text(&self) -> &[u8]
        ensures { result.now ≡ take (length self.now.bytes.now - 1) self.now.bytes.now }
    {
        &self.bytes[..self.bytes.len().saturating_sub(1)]
    }

    // The field that draws 3, 4, 8 or 13, in a plan of this horizon.
    #[tactic(auto, unfolding(crate::specs::Refused::wrong_field, rules::specs::Lines::fields))]
    fn wrong_field(&self, horizon: u32) -> Option<u32>
        ensures { result ≡ field_in (wrong_field horizon self.now.number self.now.bytes.now) }
    {
        if self.number == 1 {
            wrong_in_plan(self.text())
        } else {
            wrong_in_act(self.text(), horizon)
        }
    }

    // The field that this fault of the line is about.
    #[tactic(auto, unfolding(crate::specs::Refused::field_of))]
    fn field_of(&self, fault: Fault, horizon: u32) -> Option<u32>
        ensures { result ≡ field_in (field_of horizon (number_of fault) self.now.number self.now.bytes.now) }
    {
        match fault {
            Fault::NotFormed | Fault::TooMany => None,
            Fault::Repeated => Some(1),
            Fault::Misplaced => Some(6),
            _ => self.wrong_field(horizon),
        }
    }

    // Writes the line as it is read.
    #[tactic(auto, using(wording::proofs::Pieces::more_then), unfolding(crate::specs::Refused::line_text, rules::specs::Lines::fields))]
    fn put(&self, out: &mut Part)
        ensures { written out.new ≡ with_more (written out.old) (line_text self.now.number self.now.bytes.now) }
    {
        out.push(b"line ");
        out.push_number(u64::from(self.number));
        out.push(b": ");
        put_shown(out, self.bytes);
        out.push(b"\nfields: ");
        out.push_number(field_count(self.text()) as u64);
        out.push(b"\n");
    }

    // Writes what the line must be.
    #[tactic(auto, using(wording::proofs::Pieces::more_then), unfolding(crate::specs::Refused::field_text))]
    fn put_must_be(&self, out: &mut Part)
        ensures { written out.new ≡ with_more (written out.old) (field_text self.now.number self.now.bytes.now 0) }
    {
        out.push(b"must be: ");
        out.push(line_words(self.number));
        out.push(b"\n");
    }

    // Writes a field, for people counted from 1, and what it must be; where there is none, what the line must be.
    #[tactic(auto, using(wording::proofs::Pieces::more_then, crate::proofs::FieldTexts::field_said))]
    fn put_field(&self, out: &mut Part, field: Option<u32>)
        ensures { (i : ℕ) → field ≡ field_in i → written out.new ≡ with_more (written out.old) (field_text self.now.number self.now.bytes.now i) }
    {
        let Some(field) = field else {
            return self.put_must_be(out);
        };
        out.push(b"field ");
        out.push_number(u64::from(field) + 1);
        out.push(b": ");
        put_shown(out, field_at(self.text(), field as usize));
        out.push(b"\nmust be: ");
        out.push(field_words(self.number, field));
        out.push(b"\n");
    }
}

// The horizon that the first line says, or 0.
#[tactic(auto, unfolding(crate::specs::Refused::horizon_of, rules::specs::Lines::fields))]
fn horizon_of(s: &[u8]) -> u32
    ensures { result ≡ horizon_of s.now }
{
    horizon_in(Line::of(s, 1).text())
}

// Writes the number and line of a refusal, and the number in words.
#[tactic(auto, using(wording::proofs::Pieces::more_then), unfolding(crate::specs::Refused::refusal_line))]
fn put_number_line(out: &mut Part, refused: Refusal)
    ensures { written out.new ≡ with_more (written out.old) (refusal_line (number_of refused.fault) refused.line) }
{
    let number = u32::from(refused.fault);
    out.push(b"refused ");
    out.push_number(u64::from(number));
    out.push(b" at line ");
    out.push_number(u64::from(refused.line));
    out.push(b": ");
    out.push(refusal_words(number));
    out.push(b"\n");
}

// Writes the text of the file s, which is refused so.
#[tactic(auto, using(std::proofs::lemmas::Grind::common_steps, wording::proofs::Pieces::more_then), unfolding(crate::specs::Refused::refused_text, crate::specs::Refused::refused_line, rules::specs::Refusals::refusal_view))]
pub fn put_refusal(out: &mut Part, s: &[u8], refused: Refusal)
    ensures { written out.new ≡ with_more (written out.old) (refused_text s.now (refusal_view refused)) }
{
    put_number_line(out, refused);
    // line 0 is what document 01 answers where the refusal is about no line
    if refused.line == 0 {
        return;
    }
    let line = Line::of(s, refused.line);
    line.put(out);
    line.put_field(out, line.field_of(refused.fault, horizon_of(s)));
}
