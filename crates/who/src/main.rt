#![tactic(auto)]

// Reads a question and a dump from the standard input and prints the machine form of docs/WHO.md: the verdict on the dump, and of a sound one a
// line for each thing that stands in it, and for the holders of the line that was asked for, or of all lines.
mod facts;
mod says;

use shapes::Board;
use std::io;
use std::io::Write;
use verdict::Verdict;

// A question is the number of a line; this one, which no line has, asks for all of them.
const ALL: u64 = u64::MAX;

fn tell<W: Write>(out: &mut W, board: Board, image: &[u8], question: u64) -> io::Result<()> {
    if image.len() != 5128 {
        return Ok(());
    }
    let mut t = [0u64; 641];
    memory::load(image, &mut t);
    says::memory(out, &t)?;
    says::partitions(out, board, &t)?;
    if question == ALL {
        return says::runs(out, board, &t);
    }
    says::at(out, board, &t, question)?;
    Ok(())
}

// What comes after the first byte too many is not read: the dump has another length already.
fn main(rt: HostRuntime) -> io::Result<()> {
    let board = Board::V7;
    let mut input = rt.stdin();
    let mut out = rt.stdout();
    let mut question = [0u8; 8];
    report::read_full(&mut input, &mut question)?;
    let mut image = [0u8; 5129];
    let len = report::read_full(&mut input, &mut image)?;
    let said = verdict::of_image(board, &image[..len]);
    match said {
        Verdict::Accepted => {
            writeln!(out, "sound")?;
            tell(&mut out, board, &image[..len], u64::from_be_bytes(question))
        }
        Verdict::Fails(n, p) => says::item(&mut out, b"fails", &[n, p.0]),
        Verdict::Length => writeln!(out, "length"),
    }
}
