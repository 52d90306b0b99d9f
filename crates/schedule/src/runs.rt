// The runs of starts that meet a set of conditions, from the first to the last.
ghost use Rattle.std.specs.Prelude.{◌≡◌, ℕ, not, map, ◌≤◌, length, position};
ghost use Rattle.std.specs.Bool.{beq};
ghost use Rattle.std.specs.List.{prefix_len};
ghost use Rattle.std.specs.Iterator.{YieldsFirst, item_count};
ghost use Rattle.rules.specs.Runs.{runs_from};
ghost use Rattle.rules.specs.Calls.{slice_after};
ghost use Rattle.sets.specs.Sets.{holds_set};
ghost use Rattle.rules.specs.declared.Interval.{Interval as Run};
ghost use Rattle.schedule.specs.Search.{Next, NextRun, Takes, meets_in};

use crate::table::Table;
use rules::Interval;
use sets::contains;
use std::marker::Model;

// The runs of starts, from the start `from` on, that meet a set.
#[derive(Drop)]
pub struct Runs<'a> {
    table: &'a Table<'a>,
    set: u16,
    from: u32,
}

// A clause sees the list of the runs that are left.
impl<'a> Model for Runs<'a> {
    ghost use Rattle.std.specs.Prelude.{List, ◌≤◌, length};
    ghost use Rattle.rules.specs.declared.Interval.{Interval};
    ghost use Rattle.schedule.specs.Search.{meets_in, runs_on};

    ghost Value = { List Interval };

    ghost view = { λ a. runs_on (meets_in a.table.now.sets.now a.set) (length a.table.now.sets.now) a.from };

    ghost invariant = { λ a. a.from ≤ length a.table.now.sets.now };
}

impl<'a> Runs<'a> {
    // The runs of all starts of a table.
    #[tactic(auto, using(crate::proofs::NextRuns::from_first, crate::proofs::RunSteps::few_runs))]
    pub fn new(table: &'a Table<'a>, set: u16) -> Runs<'a>
        ensures runs { result ≡ runs_from (meets_in table.now.sets.now set) 0 (length table.now.sets.now) }
        ensures few { length result ≤ length table.now.sets.now }
    {
        Runs {
            table,
            set,
            from: 0,
        }
    }
}

impl<'a> Iterator for Runs<'a> {
    type Item = Interval;

    ghost next_gives = { YieldsFirst (λ runs. runs) };

    ghost remaining = { item_count (λ runs. runs) };

    fn next(&mut self) -> Option<Interval> {
        let run = next_run(self.table, self.set, self.from)?;
        self.from = run.last + 1;
        Some(run)
    }
}

// The first run of starts, from the start `from` on, that meet the set.
fn next_run(table: &Table, set: u16, from: u32) -> Option<Interval>
    requires { from ≤ length table.now.sets.now }
    ensures { NextRun (meets_in table.now.sets.now set) (length table.now.sets.now) from result }
{
    let rest = &table.sets[from as usize..];
    let skipped = first_met(rest, set)?;
    let count = met_in_a_row(&rest[skipped..], set);
    let first = from + skipped as u32;
    let last = first + count as u32 - 1;
    Some(Interval { first, last })
}

// The index of the first set that has all of `set`.
fn first_met(sets: &[u16], set: u16) -> Option<usize>
    ensures { result ≡ position (λ met. holds_set met set) sets.now }
{
    sets.iter().position(|met| contains(*met, set))
}

// How many sets in a row, from the first one on, have all of `set`.
fn met_in_a_row(sets: &[u16], set: u16) -> usize
    ensures { result ≡ prefix_len (λ met. holds_set met set) sets.now }
{
    sets.iter().take_while(|met| contains(**met, set)).count()
}

// The first start, from the start `from` on, that meets the set if `met`, or that does not meet it otherwise; the count of
// starts where there is none.
pub fn next_start(table: &Table, from: u32, set: u16, met: bool) -> u32
    requires { from ≤ length table.now.sets.now }
    ensures { Next (meets_in table.now.sets.now set) met from (length table.now.sets.now) result }
{
    from + others_in_a_row(&table.sets[from as usize..], set, met) as u32
}

// How many sets in a row, from the first one on, don't have all of `set` if `met`, or have it otherwise.
fn others_in_a_row(sets: &[u16], set: u16, met: bool) -> usize
    ensures { result ≡ prefix_len (λ e. not (beq (holds_set e set) met)) sets.now }
{
    sets.iter()
        .take_while(|e| contains(**e, set) != met)
        .count()
}

// How many runs of starts meet the set.
pub fn count_runs(table: &Table, set: u16) -> usize
    ensures count { result ≡ length (runs_from (meets_in table.now.sets.now set) 0 (length table.now.sets.now)) }
    ensures few { result ≤ length table.now.sets.now }
{
    Runs::new(table, set).count()
}

// Writes a number of each run of starts that meet the set: its first start or its last, as `column` takes it.
pub fn write_column<C: Fn(Interval) -> u32>(table: &Table, set: u16, column: C, out: &mut [u32])
    requires callable { C.IsAlwaysCallable column }
    requires room { length (runs_from (meets_in table.now.sets.now set) 0 (length table.now.sets.now)) ≤ length out.old }
    ensures { (taken : Run → ℕ) → Takes (C.post column) taken → out.new ≡ slice_after (map taken (runs_from (meets_in table.now.sets.now set) 0 (length table.now.sets.now))) out.old }
{
    for (i, run) in Runs::new(table, set).enumerate() {
        out[i] = column(run);
    }
}

// Writes the runs of starts that meet the set: the first start of each into one slice, the last into the other. Two
// slices of numbers are document 01's form of the call `starts`.
pub fn write_runs(table: &Table, set: u16, firsts: &mut [u32], lasts: &mut [u32])
    requires firsts_room { length (runs_from (meets_in table.now.sets.now set) 0 (length table.now.sets.now)) ≤ length firsts.old }
    requires lasts_room { length (runs_from (meets_in table.now.sets.now set) 0 (length table.now.sets.now)) ≤ length lasts.old }
    ensures firsts { firsts.new ≡ slice_after (map (λ r. r.first) (runs_from (meets_in table.now.sets.now set) 0 (length table.now.sets.now))) firsts.old }
    ensures lasts { lasts.new ≡ slice_after (map (λ r. r.last) (runs_from (meets_in table.now.sets.now set) 0 (length table.now.sets.now))) lasts.old }
{
    // By index: the borrow checker does not cover `firsts.iter_mut().zip(lasts.iter_mut())`.
    for (i, run) in Runs::new(table, set).enumerate() {
        firsts[i] = run.first;
        lasts[i] = run.last;
    }
}
