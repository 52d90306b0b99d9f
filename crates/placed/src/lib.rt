#![tactic(auto)]
// What is placed: a row of numbers for each entry, by place; the row behind them is the candidate's.
mod need;
mod row;
mod table;
mod ticks;

// A tick past every end, in place of an Option's None: the inner loop of condition S asks only whether a tick has come, which
// at this one it never has.
pub const NEVER: u16 = 4097;

pub use need::Need;
pub use row::Row;
pub use table::{Placed, total_volume};
pub use ticks::{heater_from, raise_ticks};
