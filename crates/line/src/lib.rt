#![tactic(auto)]
// A line of a plan file, without its LF: its fields, the first line and an activity's line (document 01, The plan file).
pub mod activity_line;
pub mod fields;
pub mod first_line;
