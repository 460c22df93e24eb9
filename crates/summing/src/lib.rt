#![tactic(auto)]

// The two words of a partition in a sheet, worked out of its record: one walk over its slots adds them up.
pub mod pairs;
pub mod sums;
