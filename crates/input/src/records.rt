// Records that stand one behind another in an input: a line, and behind it as many bytes as it says.
ghost use Rattle.std.specs.Prelude.{◌≡◌, ◌+◌, ◌<◌, ◌≤◌, [], ◌∷◌, ◌++◌, length, eqb, position, slice_index_or, IfSome, MatchOption};
ghost use Rattle.std.specs.Option.{option_map};

use std::marker::Model;

// Where the first LF of s stands.
fn line_end(s: &[u8]) -> Option<usize>
    ensures value { result ≡ position (λ b. eqb b 10) s.now }
    ensures within { IfSome result (λ end. end < length s.now) }
    ensures lf { IfSome result (λ end. slice_index_or s.now end 0 ≡ 10) }
{
    s.iter().position(|b| *b == b'\n')
}

// What is left of them. Clauses see its bytes.
#[derive(Drop)]
pub struct Records<'a> {
    rest: &'a [u8],
}

impl<'a> Model for Records<'a> {
    ghost use Rattle.std.specs.Prelude.{List, ℕ};

    ghost Value = { List ℕ };

    ghost view = { λ r. r.rest.now };
}

impl<'a> Records<'a> {
    // All of s.
    pub fn of(s: &'a [u8]) -> Self
        ensures { result ≡ s.now }
    {
        Records { rest: s }
    }

    // Whether nothing is left.
    pub fn is_empty(&self) -> bool
        ensures { result ≡ eqb (length self.now) 0 }
    {
        self.rest.is_empty()
    }

    // The next line, without its LF. Where none ends, nothing is left.
    pub fn line(&mut self) -> Option<&'a [u8]>
        ensures value { MatchOption result (self.new ≡ []) (λ line. self.old ≡ line.now ++ 10 ∷ self.new) }
        ensures first { option_map (λ line. length line.now) result ≡ position (λ b. eqb b 10) self.old }
    {
        let Some(end) = line_end(self.rest) else {
            self.rest = &[];
            return None;
        };
        let line = &self.rest[..end];
        self.rest = &self.rest[end + 1..];
        Some(line)
    }

    // The next n bytes. Where there are fewer, nothing is left.
    pub fn bytes(&mut self, n: u64) -> Option<&'a [u8]>
        ensures { MatchOption result ((self.new ≡ []) × (length self.old < n)) (λ bytes. (self.old ≡ bytes.now ++ self.new) × (length bytes.now ≡ n)) }
    {
        if (self.rest.len() as u64) < n {
            self.rest = &[];
            return None;
        }
        let (bytes, rest) = self.rest.split_at(n as usize);
        self.rest = rest;
        Some(bytes)
    }
}
