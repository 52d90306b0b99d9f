// The parts of a text between the bytes of a kind, one after the other.
ghost use Rattle.std.specs.Prelude.{◌≡◌, [], ◌∷◌, MatchOption};
ghost use Rattle.std.specs.Iterator.{YieldsFirstRef, item_count};
ghost use Rattle.rules.specs.Lines.{split_on};

use crate::field::find;
use std::marker::Model;

// The parts that are still to come, between the bytes `by`. Clauses see their list. `slice::split` gives the same, but a loop over
// it got no proof in a function with a const parameter.
#[derive(Drop)]
pub struct Parts<'a> {
    rest: Option<&'a [u8]>,
    by: u8,
}

impl<'a> Model for Parts<'a> {
    ghost use Rattle.std.specs.Prelude.{List, ℕ};

    ghost Value = { List (List ℕ) };

    ghost use Rattle.text.specs.Parts.{parts_left};

    ghost view = { λ p. parts_left p.by p.rest };
}

impl<'a> Parts<'a> {
    // The parts of s.
    pub fn of(s: &'a [u8], by: u8) -> Self
        ensures { result ≡ split_on by s.now }
    {
        Parts { rest: Some(s), by }
    }
}

impl<'a> Iterator for Parts<'a> {
    type Item = &'a [u8];

    ghost next_gives = { YieldsFirstRef (λ parts. parts) };

    ghost remaining = { item_count (λ parts. parts) };

    fn next(&mut self) -> Option<&'a [u8]> {
        let rest = self.rest?;
        let end = find(rest, 0, self.by);
        if end == rest.len() {
            self.rest = None;
            return Some(rest);
        }
        self.rest = Some(&rest[end + 1..]);
        Some(&rest[..end])
    }
}
