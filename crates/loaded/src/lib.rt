#![tactic(auto)]

// S10: what a partition has loaded is open, each once, and in eight pieces at most.
pub mod limit;
pub mod opening;
