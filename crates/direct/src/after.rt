// D: the starts at which each activity in `after` is placed and has ended.
ghost use Rattle.std.specs.Prelude.{◌≡◌, eqb, leb, length, map, filter, min};
ghost use Rattle.std.specs.List.{reduce};
ghost use Rattle.activity.specs.View.{number_of};
ghost use Rattle.sets.specs.Table.{Marked, Markable};
ghost use Rattle.direct.specs.Ended.{ready_from, IsReady};

use items::Item;
use placed::Row;
use sets::table::mark_where;

// The earliest end of the entries of this id.
fn first_end(entries: &[Row], id: u32) -> Option<u16>
    ensures { result ≡ reduce min (map (λ row. row.end) (filter (λ row. eqb row.id id) entries.now)) }
{
    entries
        .iter()
        .filter(|row| u32::from(row.id) == id)
        .map(|row| row.end)
        .min()
}

// The first start at which each activity in `after` is placed and has ended, none where one is not placed.
fn ready_from(entries: &[Row], after: &[Item]) -> Option<u16>
    ensures { IsReady (ready_from entries.now (length entries.now) (map number_of after.now) (length after.now)) result }
{
    let mut ready = 0;
    for id in after {
        ready = first_end(entries, id.first)?.max(ready);
    }
    Some(ready)
}

// Marks the starts that meet D, beside entries of any ticks.
pub fn mark_after(entries: &[Row], after: &[Item], count: u32, by: u16, table: &mut [u16])
    requires { Markable by count table.old }
    ensures { Marked (leb (ready_from entries.now (length entries.now) (map number_of after.now) (length after.now))) by count table.old table.new }
{
    if let Some(ready) = ready_from(entries, after) {
        mark_where(|s| u32::from(ready) <= s, count, by, table);
    }
}
