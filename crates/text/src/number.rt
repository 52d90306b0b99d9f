// Decimal numbers, read and written.
ghost use Rattle.std.specs.Prelude.{◌≡◌, ◌+◌, ◌≤◌, length};
ghost use Rattle.rules.specs.Number.{decimal};
ghost use Rattle.text.specs.Text.{number_of, put};
ghost use Rattle.text.specs.Cursor.{digits_from};

// The value of s, where each byte is a digit. By hand: `parse` wants a `str`, and takes a `+` before the digits.
fn digits(s: &[u8]) -> Option<u64>
    requires { length s.now ≤ 10 }
    ensures { result ≡ digits_from 0 s.now }
{
    let mut value: u64 = 0;
    for &b in s {
        if !b.is_ascii_digit() {
            return None;
        }
        value = value * 10 + u64::from(b - b'0');
    }
    Some(value)
}

// How many digits a number may have.
const MOST_DIGITS: usize = 10;

// The number that all of s is.
pub fn read_number(s: &[u8]) -> Option<u64>
    ensures { result ≡ number_of s.now }
{
    if s.is_empty() || MOST_DIGITS < s.len() {
        return None;
    }
    if 1 < s.len() && s[0] == b'0' {
        return None;
    }
    digits(s)
}

// How many digits x has.
pub fn decimal_len(x: u64) -> usize
    ensures { (result ≡ length (decimal x)) × (result ≤ 20) }
{
    x.max(1).ilog10() as usize + 1
}

// Writes the digits of x from at on, and answers the position after them. By hand: `write!` answers a Result, and a law
// would have to say that std's digits are those of `rules`.
pub fn put_number(out: &mut [u8], at: usize, x: u64) -> usize
    requires { at + length (decimal x) ≤ length out.old }
    ensures value { result ≡ at + length (decimal x) }
    ensures out_after { out.new ≡ put out.old at (decimal x) }
{
    let end = at + decimal_len(x);
    let mut y = x;
    // By index: behind a loop over `iter_mut().rev()` a proof knows nothing of what was written.
    for i in (at..end).rev() {
        out[i] = b'0' + (y % 10) as u8;
        y /= 10;
    }
    end
}
