// The rows of what is placed.
ghost use Rattle.std.specs.Prelude.{◌≡◌, ◌+◌, ◌<◌, ◌≤◌, length, take, sum_by};
ghost use Rattle.rules.specs.Plan.{at};
ghost use Rattle.rules.specs.WellFormed.{SettingsFormed};
ghost use Rattle.activity.specs.View.{header_view, activity_view};
ghost use Rattle.placed.specs.Tables.{row_in, volumes_in};
ghost use Rattle.placed.specs.Bounds.{TicksBounded};
ghost use Rattle.placed.specs.Held.{TicksAt, CandidateAt};
ghost use Rattle.placed.specs.Written.{SameBelow, SameBut, SameTicks, SameAmounts};

use crate::row::{Row, row_of};
use crate::ticks::heater_from;
use activity::{Activity, Header};
use rules::PLACES;

// A row for each place: the first `count` are placed, and the next is the candidate's. So they are no List, which keeps
// nothing behind its items.
#[derive(Drop)]
pub struct Placed {
    pub rows: [Row; PLACES],
    pub count: usize,
    // The amounts are bounded where they are asked for, since `put_candidate` takes any.
    pub ghost ticks: { TicksBounded rows count },
}

// The volumes of rows, summed.
fn volume_of(rows: &[Row]) -> u64
    requires { length rows.now ≤ 64 }
    ensures value { result ≡ sum_by (λ row. row.volume) rows.now }
    ensures bound { result ≤ 274877906944 }
{
    rows.iter().map(|row| u64::from(row.volume)).sum()
}

// The same in the definitions' words, of rows of any ticks.
#[tactic(auto, using(crate::proofs::Rows::volumes_summed))]
pub fn total_volume(rows: &[Row]) -> u64
    requires { length rows.now ≤ 64 }
    ensures { (result ≡ volumes_in rows.now (length rows.now)) × (result ≤ 274877906944) }
{
    volume_of(rows)
}

impl Placed {
    // Nothing is placed.
    pub fn new() -> Self
        ensures { result.count ≡ 0 }
    {
        Placed {
            rows: [Row::default(); PLACES],
            count: 0,
        }
    }

    // The rows of what is placed.
    pub fn entries(&self) -> &[Row]
        ensures value { result.now ≡ take self.now.count self.now.rows }
        ensures size { length result.now ≡ self.now.count }
    {
        &self.rows[..self.count]
    }

    // The candidate's row. That there is one is asked for, as in all that reads it: the struct is also that of 64 placed.
    pub fn candidate(&self) -> &Row
        requires { self.now.count < 64 }
        ensures { result.now ≡ row_in self.now.rows self.now.count }
    {
        &self.rows[self.count]
    }

    // Writes the candidate's row: what an activity is wherever it starts. Its ticks remain.
    pub fn put_candidate(&mut self, activity: &Activity)
        requires room { self.old.count < 64 }
        requires settings_formed { SettingsFormed (activity_view activity.now).needs × SettingsFormed (activity_view activity.now).sets }
        ensures counted { self.new.count ≡ self.old.count }
        ensures candidate_at { CandidateAt self.new.rows self.new.count (activity_view activity.now) }
        ensures same_below { SameBelow self.old.count self.old.rows self.new.rows }
        ensures same_but { SameBut self.old.count self.old.rows self.new.rows }
        ensures same_ticks { SameTicks (row_in self.old.rows self.old.count) (row_in self.new.rows self.old.count) }
    {
        let Row {
            id,
            heat,
            start,
            end,
            ..
        } = *self.candidate();
        self.rows[self.count] = Row {
            id,
            heat,
            start,
            end,
            ..row_of(activity)
        };
    }

    // Places the candidate at this start: its row gets its ticks, and is counted in.
    #[tactic(auto, unfolding(activity::specs::View::activity_view, activity::specs::View::header_view, rules::specs::Warmup::warmup))]
    pub fn put_start(&mut self, header: Header, activity: &Activity, start: u32)
        requires { (self.old.count < 64) × (activity.now.id ≤ 65535) × (start + activity.now.duration ≤ 4096) }
        ensures counted { self.new.count ≡ self.old.count + 1 }
        ensures ticks_at { TicksAt (header_view header) self.new.rows self.old.count (at (activity_view activity.now) start) }
        ensures candidate_at { (a : _) → CandidateAt self.old.rows self.old.count a → CandidateAt self.new.rows self.old.count a }
        ensures same_below { SameBelow self.old.count self.old.rows self.new.rows }
        ensures same_but { SameBut self.old.count self.old.rows self.new.rows }
        ensures same_amounts { SameAmounts (row_in self.old.rows self.old.count) (row_in self.new.rows self.old.count) }
    {
        let heat = heater_from(header.minute, start, activity.warm);
        self.rows[self.count] = Row {
            id: activity.id as u16,
            heat: heat as u16,
            start: start as u16,
            end: (start + activity.duration) as u16,
            ..*self.candidate()
        };
        self.count += 1;
    }

    // The volumes of what is placed, summed.
    #[tactic(auto, using(crate::proofs::Rows::volumes_first))]
    pub fn total_volume(&self) -> u64
        ensures { (result ≡ volumes_in self.now.rows self.now.count) × (result ≤ 274877906944) }
    {
        total_volume(self.entries())
    }
}
