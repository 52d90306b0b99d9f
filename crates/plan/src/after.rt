// What `after` names: activities at earlier places.
ghost use Rattle.std.specs.Prelude.{◌≡◌, IfSome, [], map, eqb};
ghost use Rattle.std.specs.List.{Contains, list_any, list_all};
ghost use Rattle.std.specs.Option.{option_map};
ghost use Rattle.rules.specs.Reading.{misplaced};
ghost use Rattle.activity.specs.View.{header_view};
ghost use Rattle.plan.specs.LineAt.{LineSays};
ghost use Rattle.plan.specs.Said.{said_by, LinesIn};
ghost use Rattle.plan.specs.Misplaced.{as_option};

use crate::accessor::{File, after_at};
use items::Item;
use order::Line;

// Whether one of the lines says this id.
pub fn says_id(lines: &[Line], id: u32) -> bool
    ensures { result ≡ list_any (λ line. eqb line.id id) lines.now }
{
    lines.iter().any(|line| u32::from(line.id) == id)
}

// Whether each of the ids is that of one of the lines.
fn all_said(ids: &[Item], lines: &[Line]) -> bool
    ensures { result ≡ list_all (λ item. list_any (λ line. eqb line.id item.first) lines.now) ids.now }
{
    ids.iter().all(|item| says_id(lines, item.first))
}

// Whether each id that the line of the file names in `after` is that of one of the earlier lines.
fn follows(file: &File, line: Line, earlier: &[Line]) -> bool
    requires { LineSays (header_view file.now.header) file.now.bytes.now line.at }
    ensures { result ≡ list_all (λ id. list_any (λ other. eqb other.id id) earlier.now) (said_by (header_view file.now.header) file.now.bytes.now line).after }
{
    let after = after_at(file.bytes, line.at);
    all_said(after.as_slice(), earlier)
}

// The first of these lines of the file, by place, whose `after` names no activity at an earlier place. By a loop: the test
// goes by the lines before, and `find` would hand the place on with the line.
pub fn first_misplaced(file: &File, lines: &[Line]) -> Option<Line>
    requires { LinesIn (header_view file.now.header) file.now.bytes.now lines.now }
    ensures value { misplaced [] (map (said_by (header_view file.now.header) file.now.bytes.now) lines.now) ≡ as_option (option_map (said_by (header_view file.now.header) file.now.bytes.now) result) }
    ensures among { IfSome result (Contains lines.now) }
{
    for (place, line) in lines.iter().enumerate() {
        if !follows(file, *line, &lines[..place]) {
            return Some(*line);
        }
    }
    None
}
