// The lines of a plan file behind the first: the activities, in the order of their lines.
ghost use Rattle.std.specs.Prelude.{◌≡◌, [], ◌+◌, ◌≤◌, ◌<◌, IfOk, length, drop};
ghost use Rattle.text.specs.Text.{index_of};
ghost use Rattle.activity.specs.View.{header_view};
ghost use Rattle.plan.specs.Said.{LineIn, LinesIn};
ghost use Rattle.plan.specs.Reached.{lines_from, line_from, lines_view};

use crate::accessor::File;
use crate::after::says_id;
use line::activity_line::read_activity;
use line::fields::formed;
use order::{Line, Lines};
use rules::{Fault, PLACES, Refusal};
use text::field::find;
use text::word::ACT;

// A plan has at most this many activities.
const MOST_LINES: usize = PLACES;

// The line from byte `at` to byte `end`, behind the lines read.
fn read_line(file: &File, at: usize, end: usize, lines: &Lines) -> Result<Line, Fault>
    requires said { LinesIn (header_view file.now.header) file.now.bytes.now lines.now }
    requires at_next_lf { (length file.now.bytes.now ≤ 60000) × (at < length file.now.bytes.now) × (end ≡ at + index_of 10 (drop at file.now.bytes.now)) × (at ≤ end) × (end ≤ length file.now.bytes.now) }
    ensures value { lines_from (header_view file.now.header) file.now.bytes.now lines.now at ≡ line_from (header_view file.now.header) file.now.bytes.now lines.now (end + 1) result }
    ensures room { IfOk result (λ l. length lines.now < 64) }
    ensures line_in { IfOk result (λ l. LineIn (header_view file.now.header) file.now.bytes.now l × (l.at ≡ at) × (end < length file.now.bytes.now)) }
{
    let line = &file.bytes[at..end];
    if end == file.bytes.len() || !formed(line, &ACT, 15) {
        return Err(Fault::NotFormed);
    }
    if MOST_LINES <= lines.len() {
        return Err(Fault::TooMany);
    }
    let activity = read_activity(line, &file.header)?;
    if says_id(lines.as_slice(), activity.id) {
        return Err(Fault::Repeated);
    }
    Ok(Line {
        at: at as u16,
        id: activity.id as u16,
        priority: activity.priority as u16,
    })
}

// The lines from the byte `from` on.
pub fn read_lines(file: &File, from: usize) -> Result<Lines, Refusal>
    requires { (from ≤ length file.now.bytes.now) × (length file.now.bytes.now ≤ 60000) }
    ensures value { lines_from (header_view file.now.header) file.now.bytes.now [] from ≡ lines_view (header_view file.now.header) file.now.bytes.now result }
    ensures said { IfOk result (λ lines. LinesIn (header_view file.now.header) file.now.bytes.now lines) }
{
    let mut lines = Lines::new();
    let mut at = from;
    // By the byte where a line begins, which is kept of it, and which `split_inclusive` does not say.
    while at < file.bytes.len() {
        let end = find(file.bytes, at, b'\n');
        let line = lines.len() as u32 + 2;
        let next = read_line(file, at, end, &lines).map_err(|fault| Refusal { fault, line })?;
        lines.push(next);
        at = end + 1;
    }
    Ok(lines)
}
