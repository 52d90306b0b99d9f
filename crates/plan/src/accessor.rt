// What a line says, by where it begins: the plan stays in its bytes.
ghost use Rattle.std.specs.Prelude.{◌≡◌, ◌≤◌, ◌<◌, length, map};
ghost use Rattle.rules.specs.Plan.{Header as HeaderValue};
ghost use Rattle.rules.specs.Outcomes.{activity_at};
ghost use Rattle.activity.specs.View.{header_view, activity_view, number_of};
ghost use Rattle.plan.specs.LineAt.{line_at, activity_in, LineSays};
ghost use Rattle.plan.specs.View.{plan_view};

use crate::Plan;
use activity::{Activity, Header};
use items::Items;
use line::activity_line::{numbers, read_activity};
use text::field::{field_at, find};
use text::list::read_list;

// The line of s that begins at `at`, without its LF.
fn line_at(s: &[u8], at: usize) -> &[u8]
    requires { at ≤ length s.now }
    ensures { result.now ≡ line_at s.now at }
{
    let end = find(s, at, b'\n');
    &s[at..end]
}

// A file whose first line has been read: its bytes, and what that line says. The lines behind it grow one by one and then
// stand in another order, so that functions ask that they are this file's (`LinesIn`), and a `Plan` says it of them all.
#[derive(Clone, Copy)]
pub struct File<'a> {
    pub bytes: &'a [u8],
    pub header: Header,
}

// The activity of the line that begins at `at`. That the line says one is asked for, since a `Line` alone does not know its file.
pub fn activity_in(file: &File, at: u16) -> Activity
    requires { LineSays (header_view file.now.header) file.now.bytes.now at }
    ensures { activity_view result ≡ activity_in (header_view file.now.header) file.now.bytes.now at }
{
    read_activity(line_at(file.bytes, usize::from(at)), &file.header).unwrap()
}

// The ids that the line that begins at `at` names in `after`; none where its field is no list of ids.
pub fn after_at(s: &[u8], at: u16) -> Items<8>
    requires { at ≤ length s.now }
    ensures within { length result ≤ 8 }
    ensures value { (h : HeaderValue) → LineSays h s.now at → map number_of result ≡ (activity_in h s.now at).after }
{
    let field = field_at(line_at(s, usize::from(at)), 6);
    read_list(field, numbers(65535, 8)).unwrap_or(Items::new())
}

impl Plan<'_> {
    // How many places the plan has.
    pub fn count(&self) -> usize
        ensures value { result ≡ length (plan_view self.now).activities }
        ensures within { result ≤ 64 }
    {
        self.lines.len()
    }

    // The activity at a place.
    pub fn activity(&self, place: usize) -> Activity
        requires { place < length (plan_view self.now).activities }
        ensures { activity_view result ≡ activity_at (plan_view self.now) place }
    {
        let file = File {
            bytes: self.bytes,
            header: self.header,
        };
        activity_in(&file, self.lines.as_slice()[place].at)
    }
}
