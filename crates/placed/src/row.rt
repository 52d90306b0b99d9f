// A row: an activity, and its ticks once it is placed.
ghost use Rattle.std.specs.Prelude.{◌≡◌, ℕ, suc, ◌<◌, false, cond, eqb, ltb, length, get_or, map};
ghost use Rattle.std.specs.List.{list_any};
ghost use Rattle.rules.specs.MeetsS.{given};
ghost use Rattle.rules.specs.WellFormed.{SettingsFormed};
ghost use Rattle.activity.specs.View.{setting_of, activity_view};
ghost use Rattle.placed.specs.Held.{code_of, setting_at, SetsSay, VariablesSay, CodesSay, ActivitySays};

use crate::need::Need;
use activity::Activity;
use items::Item;
use std::array;

// An entry: when it heats, starts and ends, what it loads, the codes that its sets give the eight variables, its needs, and
// which of the 32 units it has. A code is one more than a value, and 0 for none: the definitions of condition S go by such
// numbers, so that an Option would be made one again in its clauses, and its inner loop compares two of them at once.
#[derive(Clone, Copy, Default)]
pub struct Row {
    pub id: u16,
    pub heat: u16,
    pub start: u16,
    pub end: u16,
    pub engines: u32,
    pub peak: u32,
    pub draw: u32,
    pub volume: u32,
    pub sets: [u16; 8],
    pub needs: [Need; 4],
    pub units: [bool; 32],
}

// The code of what settings give a variable.
fn code_of(settings: &[Item], variable: u32) -> u16
    requires { SettingsFormed (map setting_of settings.now) }
    ensures { result ≡ code_of (given (map setting_of settings.now) variable) }
{
    // By a loop: with `find` and `map_or` it stayed unproved that the value found, and one more, fits its type.
    for setting in settings {
        if setting.first == variable {
            return setting.second as u16 + 1;
        }
    }
    0
}

// The codes that an activity's sets give the eight variables.
fn sets_of(sets: &[Item]) -> [u16; 8]
    requires { SettingsFormed (map setting_of sets.now) }
    ensures { SetsSay result (map setting_of sets.now) }
{
    array::from_fn(|variable| code_of(sets, variable as u32))
}

// Need number j, none beyond the last.
fn need_at(needs: &[Item], j: usize) -> Need
    requires { SettingsFormed (map setting_of needs.now) }
    ensures variable { result.variable ≡ (setting_at (map setting_of needs.now) j).variable }
    ensures code { result.code ≡ cond (ltb j (length (map setting_of needs.now))) (suc (setting_at (map setting_of needs.now) j).value) 0 }
{
    if let Some(need) = needs.get(j) {
        return Need {
            variable: need.first as u16,
            code: need.second as u16 + 1,
        };
    }
    Need::default()
}

// An activity's needs, in four.
fn needs_of(needs: &[Item]) -> [Need; 4]
    requires { SettingsFormed (map setting_of needs.now) }
    ensures variables { VariablesSay result (map setting_of needs.now) }
    ensures codes { CodesSay result (map setting_of needs.now) }
{
    array::from_fn(|j| need_at(needs, j))
}

// Whether a unit is among these.
fn has_unit(units: &[Item], unit: usize) -> bool
    ensures { result ≡ list_any (λ item. eqb unit item.first) units.now }
{
    units.iter().any(|item| unit == item.first as usize)
}

// Which of the 32 units an activity has.
fn units_of(units: &[Item]) -> [bool; 32]
    ensures { (u : ℕ) → u < 32 → get_or result u false ≡ list_any (λ item. eqb u item.first) units.now }
{
    // By a loop: `from_fn` of 32 says its elements as a chain of 32 calls, and the proof stopped before the chain's end.
    let mut flags = [false; 32];
    for (unit, flag) in flags.iter_mut().enumerate() {
        *flag = has_unit(units, unit);
    }
    flags
}

// The row of an activity that has no ticks yet.
#[tactic(auto, using(crate::proofs::Given::units_say), unfolding(activity::specs::View::activity_view))]
pub fn row_of(activity: &Activity) -> Row
    requires { SettingsFormed (activity_view activity.now).needs × SettingsFormed (activity_view activity.now).sets }
    ensures { ActivitySays result (activity_view activity.now) }
{
    Row {
        engines: activity.engines,
        peak: activity.peak,
        draw: activity.draw,
        volume: activity.volume,
        sets: sets_of(activity.sets.as_slice()),
        needs: needs_of(activity.needs.as_slice()),
        units: units_of(activity.units.as_slice()),
        ..Row::default()
    }
}
