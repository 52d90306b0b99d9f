// What is judged of each entry, worked out once for all starts of a candidate.
ghost use Rattle.std.specs.Prelude.{◌≡◌, ℕ, ◌<◌, take};
ghost use Rattle.placed.specs.Tables.{row_in};
ghost use Rattle.state.specs.Judging.{JudgedAt, JudgedRight};

use crate::own::code_of_need;
use crate::spoils::spoils_from;
use placed::{Placed, Row};
use rules::PLACES;

// An entry's end, the codes that stand there of the variables of the candidate's needs, and the first ticks of effect at
// which the candidate's sets spoil the entry's needs. The two go by different needs, so that they are no array of pairs.
#[derive(Clone, Copy, Default)]
pub struct Judged {
    pub end: u16,
    pub codes: [u16; 4],
    pub spoils: [u16; 4],
}

// What is judged of the entry of a row.
fn judge(placed: &Placed, row: &Row) -> Judged
    requires { placed.now.count < 64 }
    ensures { (p : ℕ) → row.now ≡ row_in placed.now.rows p → JudgedAt placed.now.rows placed.now.count p result }
{
    Judged {
        end: row.end,
        codes: placed
            .candidate()
            .needs
            .map(|need| code_of_need(placed, need, row.end)),
        spoils: row.needs.map(|need| spoils_from(placed, need, row.start)),
    }
}

// Writes what is judged of each entry.
pub fn judge_all(placed: &Placed, judged: &mut [Judged; PLACES])
    requires { placed.now.count < 64 }
    ensures { JudgedRight placed.now.rows placed.now.count (take placed.now.count judged.new) }
{
    // By the place: of what is written through a `zip` with `iter_mut` the invariant knows only the pairs that were given,
    // and the proof did not close.
    for (p, row) in placed.entries().iter().enumerate() {
        judged[p] = judge(placed, row);
    }
}
