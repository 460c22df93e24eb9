#![tactic(auto)]

// What the programs that tell a verdict share: they read an image and print the line that tells the verdict on it. The line is "sound"; or S with
// the number of the lowest clause that fails, a space and the lowest partition where it fails; or "length".
mod input;
mod printing;

pub use input::read_full;
pub use printing::{judge, of_verdict, print};
