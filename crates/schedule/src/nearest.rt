// The valid start nearest to its preferred tick.
ghost use Rattle.std.specs.Prelude.{◌≡◌, ℕ, ◌^◌, ◌<◌, ◌≤◌, true, length};
ghost use Rattle.rules.specs.Tests.{any_of};
ghost use Rattle.rules.specs.Warmup.{apart};
ghost use Rattle.rules.specs.MeetsW.{inside, allowed};
ghost use Rattle.rules.specs.Answer.{nearest};
ghost use Rattle.rules.specs.Outcomes.{distance};
ghost use Rattle.rules.specs.WellFormed.{WindowsFormed};
ghost use Rattle.activity.specs.View.{activity_view};
ghost use Rattle.schedule.specs.Found.{FirstWithAll, LastWithAll, option_of, is_valid, nearer_of_two, NearestIn};

use crate::table::Table;
use activity::Activity;
use rules::ALL_CONDITIONS;

// A start and its distance.
#[derive(Clone, Copy)]
pub struct Near {
    pub start: usize,
    pub distance: usize,
}

// The nearer of two, of which the first is the earlier start; of two equally near, the first.
fn nearer(first: Option<Near>, second: Option<Near>) -> Option<Near>
    ensures { result ≡ nearer_of_two first second }
{
    match (first, second) {
        (Some(a), Some(b)) if b.distance < a.distance => second,
        (None, _) => second,
        _ => first,
    }
}

// The index of the first set that has all conditions.
fn first_with_all(sets: &[u16]) -> Option<usize>
    ensures { FirstWithAll sets.now result }
{
    sets.iter().position(|set| *set == ALL_CONDITIONS)
}

// The index of the last one.
fn last_with_all(sets: &[u16]) -> Option<usize>
    ensures { LastWithAll sets.now result }
{
    sets.iter().rposition(|set| *set == ALL_CONDITIONS)
}

// The nearest of the starts from `from` to before `to`, none of which is behind the preferred tick: the last valid one.
fn last_valid(sets: &[u16], from: usize, to: usize, preferred: usize) -> Option<Near>
    requires range { (from ≤ to) × (to ≤ length sets.now) }
    requires before { (s : ℕ) → from ≤ s → s < to → s ≤ preferred }
    ensures { NearestIn (is_valid sets.now) (λ s. apart s preferred) from to result }
{
    let start = from + last_with_all(&sets[from..to])?;
    Some(Near {
        start,
        distance: preferred - start,
    })
}

// The same of starts none of which is before the preferred tick: the first valid one.
fn first_valid(sets: &[u16], from: usize, to: usize, preferred: usize) -> Option<Near>
    requires range { (from ≤ to) × (to ≤ length sets.now) }
    requires behind { (s : ℕ) → from ≤ s → s < to → preferred ≤ s }
    ensures { NearestIn (is_valid sets.now) (λ s. apart s preferred) from to result }
{
    let start = from + first_with_all(&sets[from..to])?;
    Some(Near {
        start,
        distance: start - preferred,
    })
}

// The nearest of the starts from `from` to before `to`, which have one preferred tick. It is a tick's number, so that one
// more is one, too. Not inlined: by itself it is faster (docs/DECISIONS.md).
#[inline(never)]
fn nearest_between(sets: &[u16], from: usize, to: usize, preferred: usize) -> Option<Near>
    requires { (from ≤ to) × (to ≤ length sets.now) × (preferred < 2 ^ 32) }
    ensures { NearestIn (is_valid sets.now) (λ s. apart s preferred) from to result }
{
    // The first of them behind the preferred tick.
    let behind = to.min(preferred + 1).max(from);
    nearer(
        last_valid(sets, from, behind, preferred),
        first_valid(sets, behind, to, preferred),
    )
}

// The nearest of the starts in the candidate's windows.
fn nearest_in_windows(table: &Table, candidate: &Activity) -> Option<Near>
    requires formed { WindowsFormed (activity_view candidate.now).windows }
    requires held { (s : ℕ) → is_valid table.now.sets.now s ≡ true → any_of (inside s) (activity_view candidate.now).windows ≡ true }
    ensures { NearestIn (is_valid table.now.sets.now) (distance (activity_view candidate.now)) 0 (length table.now.sets.now) result }
{
    let count = table.sets.len();
    let mut best = None;
    for window in candidate.windows.as_slice() {
        let from = count.min(window.first as usize);
        let to = count.min(window.third as usize + 1);
        best = nearer(
            best,
            nearest_between(table.sets, from, to, window.second as usize),
        );
    }
    best
}

// The nearest of all starts. With windows only those in one of them are looked at, since no other is valid.
fn nearest_start(table: &Table, candidate: &Activity) -> Option<Near>
    requires formed { WindowsFormed (activity_view candidate.now).windows }
    requires allowed { (s : ℕ) → is_valid table.now.sets.now s ≡ true → allowed (activity_view candidate.now).windows s ≡ true }
    ensures { NearestIn (is_valid table.now.sets.now) (distance (activity_view candidate.now)) 0 (length table.now.sets.now) result }
{
    if candidate.windows.as_slice().is_empty() {
        nearest_between(
            table.sets,
            0,
            table.sets.len(),
            candidate.preferred as usize,
        )
    } else {
        nearest_in_windows(table, candidate)
    }
}

// Of the starts of a table, the valid one with the least distance.
pub fn nearest_of(table: &Table, candidate: &Activity) -> Option<u32>
    requires formed { WindowsFormed (activity_view candidate.now).windows }
    requires allowed { (s : ℕ) → is_valid table.now.sets.now s ≡ true → allowed (activity_view candidate.now).windows s ≡ true }
    ensures { option_of result ≡ nearest (is_valid table.now.sets.now) (distance (activity_view candidate.now)) (length table.now.sets.now) }
{
    Some(nearest_start(table, candidate)?.start as u32)
}
