#![tactic(auto)]
// Conditions W, D, V and H, which need no walk over ticks.
pub mod after;
pub mod volume;
pub mod warmup;
pub mod windows;
