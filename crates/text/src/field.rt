// The parts of a text: the next byte of a kind, a line's fields.
ghost use Rattle.std.specs.Prelude.{◌≡◌, [], ◌+◌, ◌≤◌, length, get_or, drop};
ghost use Rattle.rules.specs.Lines.{split_on};
ghost use Rattle.text.specs.Text.{index_of};

// The next position of b at or after from, or the length: a text's last part ends there, and `plan` cuts a line before it
// tests that a byte ends it.
pub fn find(s: &[u8], from: usize, b: u8) -> usize
    requires { from ≤ length s.now }
    ensures value { result ≡ from + index_of b (drop from s.now) }
    ensures lower_bound { (from ≤ result) × (result ≤ length s.now) }
{
    let rest = &s[from..];
    from + rest.iter().position(|x| *x == b).unwrap_or(rest.len())
}

// How many fields the line s has.
pub fn field_count(s: &[u8]) -> usize
    ensures { result ≡ length (split_on 9 s.now) }
{
    s.split(|b| *b == b'\t').count()
}

// The field k of the line s; behind its last one, no bytes.
pub fn field_at(s: &[u8], k: usize) -> &[u8]
    ensures { result.now ≡ get_or (split_on 9 s.now) k [] }
{
    s.split(|b| *b == b'\t').nth(k).unwrap_or(&[])
}
