#![tactic(auto)]
// What a table of sets says of a candidate: how it is answered, and its runs of starts (document 01,
// Placing and refusing; Calls).
mod letters;
mod nearest;
pub mod outcome;
pub mod runs;
pub mod table;
