#![tactic(auto)]

// The runs of lines that have the same holders.
mod marks;
mod pieces;
pub mod walk;

use words::{Line, Partition};

// Lines start to end, end excluded, whose deepest holder is the same.
#[repr(C)]
#[derive(Clone, Copy)]
pub struct Run {
    pub start: Line,
    pub end: Line,
    pub deepest: Partition,
}
