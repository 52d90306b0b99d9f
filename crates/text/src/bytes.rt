// Bytes written one behind another, in fixed memory.
ghost use Rattle.std.specs.Prelude.{◌≡◌, ◌+◌, ◌≤◌, [], ◌++◌, length};
ghost use Rattle.rules.specs.Number.{decimal};

use crate::number::put_number;
use items::Padded;
use std::marker::Model;

// At most N bytes. Clauses see the list of those written. A struct around a `Padded`, since only a type's own crate gives it
// methods.
#[derive(Clone, Copy)]
pub struct Bytes<const N: usize> {
    written: Padded<u8, N>,
}

impl<const N: usize> Model for Bytes<N> {
    ghost use Rattle.std.specs.Prelude.{ℕ, List};

    ghost Value = { List ℕ };

    ghost view = { λ b. b.written };

    ghost inverse = { λ xs. record { written = xs } };
}

impl<const N: usize> Bytes<N> {
    // None yet.
    pub fn new() -> Self
        ensures { result ≡ [] }
    {
        Bytes {
            written: Padded::new(),
        }
    }

    // Those written.
    pub fn as_slice(&self) -> &[u8]
        ensures value { result.now ≡ self.now }
        ensures within { length self.now ≤ N }
    {
        self.written.as_slice()
    }

    // Writes the bytes of a word.
    pub fn push(&mut self, word: &[u8])
        requires { length self.old + length word.now ≤ N }
        ensures { self.new ≡ self.old ++ word.now }
    {
        self.written.extend(word);
    }

    // Writes the digits of a number.
    pub fn push_number(&mut self, x: u64)
        requires { length self.old + length (decimal x) ≤ N }
        ensures { self.new ≡ self.old ++ decimal x }
    {
        let mut digits = [0; 20];
        let count = put_number(&mut digits, 0, x);
        self.push(&digits[..count]);
    }
}
