#![tactic(auto)]

// Reads an image for ARMv7-M from the standard input and prints the verdict on it, a line of `report`.
use shapes::Board;
use std::io;

fn main(rt: HostRuntime) -> io::Result<()> {
    report::judge(Board::V7, &mut rt.stdin(), &mut rt.stdout())
}
