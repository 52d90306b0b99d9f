// The starts call over a slice of interval structs: its runs in two columns of numbers, and these put together. Document
// 01 wants two slices of numbers first, and over them the slice of structs.
ghost use Rattle.std.specs.Prelude.{◌≡◌, ◌≤◌, length};
ghost use Rattle.rules.specs.Calls.{slice_after, starts_call};
ghost use Rattle.station.specs.Columns.{ColumnsHeld, pairs};

use rules::{Interval, Refusal};

// The most runs that a plan's starts have.
pub const RUNS: usize = 2048;

// The starts call for a slice of `room` records: the first start of each run in a column, the last in another.
pub fn columns(
    plan: &[u8],
    place: usize,
    set: u32,
    room: usize,
    firsts: &mut [u32; RUNS],
    lasts: &mut [u32; RUNS],
) -> Result<usize, Refusal>
    ensures { ColumnsHeld (starts_call plan.now place set room) result firsts.new lasts.new }
{
    let held = room.min(RUNS);
    calls::starts(plan, place, set, &mut firsts[..held], &mut lasts[..held])
}

// Puts the runs of two columns, their firsts and their lasts, together at the front of `out`.
pub fn put_runs(out: &mut [Interval], firsts: &[u32], lasts: &[u32])
    requires { length firsts.now ≤ length out.old }
    ensures { out.new ≡ slice_after (pairs firsts.now lasts.now) out.old }
{
    // The records by index: of what is written through `out.iter_mut().zip(..)` nothing is known behind the loop.
    for (i, (first, last)) in firsts.iter().zip(lasts).enumerate() {
        out[i] = Interval {
            first: *first,
            last: *last,
        };
    }
}
