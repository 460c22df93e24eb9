#![tactic(auto)]

pub mod pieces;

// The board whose regions are loaded: ARMv7-M or ARMv8-M. A library is built for one of them; what takes a board is proved for both.
#[derive(Clone, Copy)]
pub enum Board {
    V7,
    V8,
}
