#![tactic(auto)]
// Text for people: how it is written, bytes as they are shown, the words, and which field of a line is wrong
// (docs/EXPLAIN.md).
pub mod shown;
pub mod words;
pub mod writing;
pub mod wrong;
