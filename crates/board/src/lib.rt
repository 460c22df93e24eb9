#![tactic(auto)]

ghost use Rattle.shapes.specs.declared.Board.TheVariants.{V7};
ghost use Rattle.rules.specs.Rules.{boot_on};
ghost use Rattle.face.specs.Face.{handed, Lent, CallLent, ListLent};
ghost use Rattle.face.specs.Lists.{PiecesLent};

// The library for ARMv7-M: the functions that its firmware calls, which is C. include/ulavrepit.h declares them; `face` has them for every board.
pub mod check;
pub mod lists;
pub mod masks;
pub mod sheets;

use shapes::Board;

#[unsafe(no_mangle)]
pub extern "C" fn ulavrepit_boot(table: &mut [u8], base: u64, end: u64) -> u64
    ensures { Lent 0 (boot_on (handed table.old) base end) table.old result table.new }
{
    face::boot_bytes(table, base, end)
}

#[unsafe(no_mangle)]
pub extern "C" fn ulavrepit_call(table: &mut [u8], word: u64, second: &mut u64) -> u64
    ensures { CallLent V7 table.old word second.old result table.new second.new }
{
    face::call_bytes(Board::V7, table, word, second)
}

#[unsafe(no_mangle)]
pub extern "C" fn ulavrepit_holders(
    table: &[u8],
    line: u64,
    list: &mut [u8],
    second: &mut u64,
) -> u64
    ensures { ListLent V7 table.now line list.old second.old result list.new second.new }
{
    face::holders_bytes(Board::V7, table, line, list, second)
}

#[unsafe(no_mangle)]
pub extern "C" fn ulavrepit_pieces(table: &[u8], partition: u64, slot: u64, list: &mut [u64]) -> u64
    ensures { PiecesLent V7 table.now partition slot list.old result list.new }
{
    face::lists::pieces_bytes(Board::V7, table, partition, slot, list)
}
