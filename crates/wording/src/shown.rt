// Bytes as people see them: those that are not printed stand behind a backslash.
ghost use Rattle.std.specs.Prelude.{◌≡◌, ◌<◌, Option};
ghost use Rattle.wording.specs.Shown.{hex_digit, escape_in, shown_byte, shown};
ghost use Rattle.wording.specs.Writing.{written, with_more};

use crate::writing::Part;

// The hexadecimal digit x. For `write!` and `{:02x}` a `Part` would have to be a writer of std's, which is longer.
#[tactic(auto, unfolding(crate::specs::Shown::hex_digit))]
fn hex_digit(x: u8) -> u8
    requires { x < 16 }
    ensures { result ≡ hex_digit x }
{
    if x < 10 { b'0' + x } else { b'a' + x - 10 }
}

// The letter behind the backslash, for a byte that has one.
#[tactic(auto, unfolding(crate::specs::Shown::escape_of, crate::specs::Shown::escape_in))]
fn escape_of(b: u8) -> Option<u8>
    ensures { result ≡ escape_in b }
{
    match b {
        b'\t' => Some(b't'),
        b'\n' => Some(b'n'),
        b'\r' => Some(b'r'),
        b'\\' => Some(b'\\'),
        _ => None,
    }
}

// Writes a byte as it is shown.
#[tactic(auto, using(crate::proofs::Pieces::more_then), unfolding(crate::specs::Shown::shown_byte, crate::specs::Shown::is_printed, crate::specs::Shown::escape_in))]
fn put_shown_byte(out: &mut Part, b: u8)
    ensures { written out.new ≡ with_more (written out.old) (shown_byte b) }
{
    if let Some(letter) = escape_of(b) {
        out.push_byte(b'\\');
        return out.push_byte(letter);
    }
    if b < 32 || 126 < b {
        out.push_byte(b'\\');
        out.push_byte(b'x');
        out.push_byte(hex_digit(b / 16));
        return out.push_byte(hex_digit(b % 16));
    }
    out.push_byte(b);
}

// Writes bytes as they are shown.
pub fn put_shown(out: &mut Part, s: &[u8])
    ensures { written out.new ≡ with_more (written out.old) (shown s.now) }
{
    for b in s {
        put_shown_byte(out, *b);
    }
}
