#![tactic(auto)]
// Text: numbers, fixed words, fields and lists, read from bytes and written to bytes (document 01, The plan file).
pub mod bytes;
pub mod field;
pub mod list;
pub mod number;
pub mod parts;
pub mod word;
