// A text written piece by piece, of which the lent slice gets the part from a given byte on.
ghost use Rattle.std.specs.Prelude.{◌≡◌, ◌≤◌, [], ◌∷◌, length};
ghost use Rattle.rules.specs.Number.{decimal};
ghost use Rattle.wording.specs.Writing.{written, with_more};

use text::bytes::Bytes;

// The part of a text: how many of the bytes to come are still passed over, and the lent slice, with how many bytes stand at
// its front. No `Model`: its caller would not learn what the lent slice ends as.
#[derive(Drop)]
pub struct Part<'a> {
    skip: usize,
    to: usize,
    out: &'a mut [u8],
}

impl<'a> Part<'a> {
    // The part from byte `from` on, of which nothing is written yet.
    #[tactic(auto, unfolding(crate::specs::Writing::written))]
    pub fn new(from: usize, out: &'a mut [u8]) -> Self
        ensures { written result ≡ record { lent = out.entry.ghost_name; skip = from; bytes = []; left = out.old } }
    {
        Part {
            skip: from,
            to: 0,
            out,
        }
    }

    // The bytes kept.
    #[tactic(auto, unfolding(crate::specs::Writing::written))]
    pub fn as_slice(&self) -> &[u8]
        ensures value { result.now ≡ (written self.now).bytes }
        ensures within { length result.now ≤ length self.now.out.now }
    {
        &self.out[..self.to.min(self.out.len())]
    }

    // Writes the bytes of a word.
    pub fn push(&mut self, word: &[u8])
        ensures { written self.new ≡ with_more (written self.old) word.now }
    {
        let passed = self.skip.min(word.len());
        let rest = &word[passed..];
        self.skip -= passed;
        if self.to < self.out.len() {
            let kept = rest.len().min(self.out.len() - self.to);
            self.out[self.to..self.to + kept].copy_from_slice(&rest[..kept]);
            self.to += kept;
        }
    }

    // Writes a byte.
    pub fn push_byte(&mut self, b: u8)
        ensures { written self.new ≡ with_more (written self.old) (b ∷ []) }
    {
        if 0 < self.skip {
            self.skip -= 1;
            return;
        }
        if self.to < self.out.len() {
            self.out[self.to] = b;
            self.to += 1;
        }
    }

    // Writes the digits of a number.
    #[tactic(auto, using(text::proofs::Decimal::decimal_most))]
    pub fn push_number(&mut self, x: u64)
        ensures { written self.new ≡ with_more (written self.old) (decimal x) }
    {
        let mut digits: Bytes<20> = Bytes::new();
        digits.push_number(x);
        self.push(digits.as_slice());
    }
}
