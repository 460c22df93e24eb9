#![tactic(auto)]

// The entries of each partition by rising start, and whether two of them share a line: S6.
pub mod arrange;
pub mod order;
pub mod used;
