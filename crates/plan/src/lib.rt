#![tactic(auto)]
// A plan as the planner holds it, and its reading: what the file says, in the scheduling order, or its one refusal
// (document 01, The plan file; When the planner says no).
ghost use Rattle.activity.specs.View.{header_view};
ghost use Rattle.plan.specs.Said.{LinesIn, plan_of};
ghost use Rattle.plan.specs.Placeable.{Placeable};
ghost use Rattle.plan.specs.Props.{placeable_prop};

pub mod accessor;
mod after;
mod file;
mod reading;

use activity::Header;
use order::Lines;
pub use reading::read;

// A plan that can be placed: the bytes of its file, its header, and for each place the line of its activity.
#[derive(Clone, Copy)]
pub struct Plan<'a> {
    pub bytes: &'a [u8],
    pub header: Header,
    pub lines: Lines,
    pub ghost said: { LinesIn (header_view header) bytes.now lines },
    pub ghost is_placeable: { Placeable (plan_of (header_view header) bytes.now lines) } by { placeable_prop _ },
}
