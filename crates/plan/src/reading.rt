// A plan file, read: its first line, its other lines, and what is judged once all are read.
ghost use Rattle.std.specs.Prelude.{◌≡◌, ◌+◌, ◌<◌, ◌≤◌, IfOk, length};
ghost use Rattle.rules.specs.WellFormed.{HeaderFormed};
ghost use Rattle.rules.specs.Reading.{accepted, after_lines, reading};
ghost use Rattle.text.specs.Text.{index_of};
ghost use Rattle.activity.specs.View.{header_view};
ghost use Rattle.plan.specs.Said.{LinesIn, plan_of, in_order};
ghost use Rattle.plan.specs.Reading.{reading_view};
ghost use Rattle.plan.specs.Reached.{first_from};

use crate::Plan;
use crate::accessor::File;
use crate::after::first_misplaced;
use crate::file::read_lines;
use activity::Header;
use charge::out_of_reach;
use line::fields::formed;
use line::first_line::read_header;
use order::{Lines, ids_of, line_of, ordered};
use rules::{Fault, Refusal};
use text::field::find;
use text::word::PLAN;

// A plan file has at most this many bytes. `read` tests it once, and the three functions that need it ask for it:
// `File` does not say it, since `Plan::activity` makes one, too, and a `Plan` does not say how long its bytes are.
const MOST_BYTES: usize = 60000;

// What the first line of s says, which ends at byte `end`.
fn read_first(s: &[u8], end: usize) -> Result<Header, Fault>
    requires { (end ≡ index_of 10 s.now) × (end ≤ length s.now) × (length s.now ≤ 60000) }
    ensures value { in_order (reading s.now) ≡ first_from s.now end result }
    ensures ended { IfOk result (λ h. end < length s.now) }
    ensures formed { IfOk result (λ h. HeaderFormed (header_view h)) }
{
    let line = &s[..end];
    if end == s.len() || !formed(line, &PLAN, 12) {
        return Err(Fault::NotFormed);
    }
    read_header(line)
}

// What the file says, with these lines.
fn judge<'a>(file: &File<'a>, lines: Lines) -> Result<Plan<'a>, Refusal>
    requires formed { HeaderFormed (header_view file.now.header) }
    requires said { LinesIn (header_view file.now.header) file.now.bytes.now lines }
    requires read { in_order (reading file.now.bytes.now) ≡ in_order (after_lines (accepted (plan_of (header_view file.now.header) file.now.bytes.now lines))) }
    ensures value { reading_view result ≡ in_order (reading file.now.bytes.now) }
    ensures bytes { IfOk result (λ plan. plan.bytes.now ≡ file.now.bytes.now) }
{
    let by_place = ordered(&lines);
    if let Some(misplaced) = first_misplaced(file, by_place.as_slice()) {
        let ids = ids_of(&lines);
        let line = line_of(ids.as_slice(), u32::from(misplaced.id)).unwrap();
        return Err(Refusal {
            fault: Fault::Misplaced,
            line,
        });
    }
    if out_of_reach(file.header) {
        return Err(Fault::OutOfReach.into());
    }
    Ok(Plan {
        bytes: file.bytes,
        header: file.header,
        lines: by_place,
    })
}

// What the plan file s says.
pub fn read(s: &[u8]) -> Result<Plan, Refusal>
    ensures value { reading_view result ≡ in_order (reading s.now) }
    ensures bytes { IfOk result (λ plan. plan.bytes.now ≡ s.now) }
{
    if MOST_BYTES < s.len() {
        return Err(Fault::TooLong.into());
    }
    let end = find(s, 0, b'\n');
    let header = read_first(s, end).map_err(|fault| Refusal { fault, line: 1 })?;
    let file = File { bytes: s, header };
    let lines = read_lines(&file, end + 1)?;
    judge(&file, lines)
}
