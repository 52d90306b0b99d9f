// The fields of a line, left to right.
ghost use Rattle.std.specs.Prelude.{◌≡◌, ◌≤◌, drop, IfOk, length};
ghost use Rattle.rules.specs.Fields.{number_field, list_field};
ghost use Rattle.rules.specs.Lines.{split_on, field};
ghost use Rattle.rules.specs.Refusals.{read_as};
ghost use Rattle.text.specs.Text.{kind_of};
ghost use Rattle.line.specs.Formed.{is_formed};

use items::Items;
use rules::Fault;
use std::marker::Model;
use text::field::{field_at, field_count};
use text::list::{Form, read_list};
use text::number::read_number;
use text::parts::Parts;

// Whether the line l, without its LF, begins with this word and has this many fields.
#[tactic(auto, using(text::proofs::Same::same_is), unfolding(crate::specs::Formed::is_formed))]
pub fn formed(l: &[u8], word: &[u8], count: usize) -> bool
    ensures { result ≡ is_formed word.now count l.now }
{
    field_count(l) == count && field_at(l, 0) == word
}

// The number from lo to hi that all of s is.
#[tactic(auto, using(std::proofs::lemmas::Bool::Decides::nat_tests), unfolding(rules::specs::Refusals::read_as, rules::specs::Fields::number_field, rules::specs::Fields::within, text::specs::Text::number_of))]
pub fn number_in(s: &[u8], lo: u32, hi: u32) -> Result<u32, Fault>
    ensures { read_as (λ x. x) result ≡ number_field lo hi s.now }
{
    let v = read_number(s).ok_or(Fault::Malformed)?;
    if v < u64::from(lo) || u64::from(hi) < v {
        return Err(Fault::OutOfRange);
    }
    Ok(v as u32)
}

// The fields of a line that are still to come. Clauses see their list.
#[derive(Drop)]
pub struct Fields<'a> {
    parts: Parts<'a>,
}

impl<'a> Model for Fields<'a> {
    ghost use Rattle.std.specs.Prelude.{List, ℕ};

    ghost Value = { List (List ℕ) };

    ghost view = { λ f. f.parts };
}

impl<'a> Fields<'a> {
    // All of the line l, without its LF.
    pub fn of(l: &'a [u8]) -> Self
        ensures { result ≡ split_on 9 l.now }
    {
        Fields {
            parts: Parts::of(l, b'\t'),
        }
    }

    // The next field; behind the last one, no bytes.
    pub fn next(&mut self) -> &'a [u8]
        ensures value { result.now ≡ field self.old 0 }
        ensures rest { self.new ≡ drop 1 self.old }
    {
        self.parts.next().unwrap_or(&[])
    }

    // The next field, a number from lo to hi.
    pub fn number(&mut self, lo: u32, hi: u32) -> Result<u32, Fault>
        ensures value { read_as (λ x. x) result ≡ number_field lo hi (field self.old 0) }
        ensures rest { self.new ≡ drop 1 self.old }
    {
        number_in(self.next(), lo, hi)
    }

    // The next field, a list of this form.
    pub fn list<const N: usize>(&mut self, form: Form) -> Result<Items<N>, Fault>
        requires { (form.most ≤ N) × (N ≤ 32) }
        ensures value { read_as (λ xs. xs) result ≡ list_field (kind_of form) (field self.old 0) }
        ensures within { IfOk result (λ items. length items ≤ form.most) }
        ensures rest { self.new ≡ drop 1 self.old }
    {
        read_list(self.next(), form)
    }
}
