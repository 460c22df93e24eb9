ghost use Rattle.std.specs.Prelude.{◌≡◌, ◌+◌, ◌*◌, ◌^◌, ◌≤◌, ◌<◌, length};
ghost use Rattle.shapes.specs.declared.Board.TheVariants.{V7, V8};
ghost use Rattle.shapes.specs.Pieces.{widest, common_zeros, pieces, pieces_for, CanList, ShapesListed};

use crate::Board;

// The lines of the largest piece at start that ends by end: they double as long as that fits. start is `rest` times their number.
fn widest(start: u32, end: u32) -> u32
    requires { (start < end) × (end < 2 ^ 27) }
    ensures { result ≡ widest start end }
{
    let room = end - start;
    let mut lines = 1u32;
    let mut rest = start;
    while rest % 2 == 0 {
        if room < 2 * lines {
            return lines;
        }
        lines = 2 * lines;
        rest = rest / 2;
    }
    lines
}

// The zeros that both end in.
fn common_zeros(a: u32, b: u32) -> u32
    ensures { result ≡ common_zeros a b }
{
    u32::trailing_zeros(a | b)
}

// Zeros that both lines end in make no piece and are taken out at once. Then an odd start needs a piece of one line, so does an odd end, and what is left has as many pieces as its half has: each turn counts one or two.
fn shaped_count(start: u32, end: u32) -> u32
    requires { end < 2 ^ 27 }
    ensures { result ≡ length (pieces start end) }
{
    let mut a = start;
    let mut b = end;
    let mut n = 0u32;
    while a < b {
        let z = common_zeros(a, b);
        let low = a >> z;
        let high = b >> z;
        n += low % 2 + high % 2;
        a = (low + 1) / 2;
        b = high / 2;
    }
    n
}

// How many pieces the block from start to end needs on this board.
pub fn piece_count(board: Board, start: u32, end: u32) -> u32
    requires { end < 2 ^ 27 }
    ensures { (result ≡ length (pieces_for board start end)) × (result ≤ 52) }
{
    match board {
        Board::V7 => shaped_count(start, end),
        Board::V8 => 1,
    }
}

// A piece as a word.
fn piece_word(start: u32, lines: u32) -> u64
    requires { start < 2 ^ 27 }
    ensures { result ≡ start * 2 ^ 32 + lines }
{
    start as u64 * 0x1_0000_0000 + lines as u64
}

// The largest piece at start, then the largest at its end, and so on: how many there are is known only at the end, so no range counts them.
fn write_shaped(start: u32, end: u32, list: &mut [u64]) -> usize
    requires { CanList V7 start end list.old }
    ensures { ShapesListed (pieces_for V7 start end) list.old result list.new }
{
    let mut n = 0usize;
    let mut at = start;
    while at < end {
        let lines = widest(at, end);
        list[n] = piece_word(at, lines);
        n += 1;
        at += lines;
    }
    n
}

// The block is one piece.
fn write_plain(start: u32, end: u32, list: &mut [u64]) -> usize
    requires { CanList V8 start end list.old }
    ensures { ShapesListed (pieces_for V8 start end) list.old result list.new }
{
    list[0] = piece_word(start, end - start);
    1
}

// Writes the pieces that the block from start to end needs on this board, a word each in rising order, and tells how many; the words past them stay.
pub fn write_pieces(board: Board, start: u32, end: u32, list: &mut [u64]) -> usize
    requires { CanList board start end list.old }
    ensures { ShapesListed (pieces_for board start end) list.old result list.new }
{
    match board {
        Board::V7 => write_shaped(start, end, list),
        Board::V8 => write_plain(start, end, list),
    }
}
