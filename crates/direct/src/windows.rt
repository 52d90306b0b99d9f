// W: the starts in a window.
ghost use Rattle.std.specs.Prelude.{◌≡◌, ◌&&◌, leb, map};
ghost use Rattle.std.specs.List.{list_any};
ghost use Rattle.rules.specs.MeetsW.{allowed};
ghost use Rattle.activity.specs.View.{window_of};
ghost use Rattle.sets.specs.Table.{Marked, Markable};

use items::Item;
use sets::table::mark_where;

// Whether the start s is in one of the windows.
fn in_window(windows: &[Item], s: u32) -> bool
    ensures { result ≡ list_any (λ window. leb window.first s && leb s window.third) windows.now }
{
    windows
        .iter()
        .any(|window| window.first <= s && s <= window.third)
}

// The same, or there is no window.
fn is_allowed(windows: &[Item], s: u32) -> bool
    ensures { result ≡ allowed (map window_of windows.now) s }
{
    windows.is_empty() || in_window(windows, s)
}

// Marks the starts that meet W.
pub fn mark_windows(windows: &[Item], count: u32, by: u16, table: &mut [u16])
    requires { Markable by count table.old }
    ensures { Marked (allowed (map window_of windows.now)) by count table.old table.new }
{
    mark_where(|s| is_allowed(windows, s), count, by, table);
}
