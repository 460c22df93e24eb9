#![tactic(auto)]

ghost use Rattle.shapes.specs.declared.Board.TheVariants.{V8};
ghost use Rattle.rules.specs.Rules.{boot_on};
ghost use Rattle.face.specs.Face.{handed, Lent, CallLent, ListLent};
ghost use Rattle.face.specs.Lists.{PiecesLent};

// The library for ARMv8-M: the functions that its firmware calls, which is C. include/ulavrepit8.h declares them; `face` has those of every board.
pub mod check;
pub mod lists;
pub mod masks;
pub mod regions;
pub mod sheets;

use shapes::Board;

#[unsafe(no_mangle)]
pub extern "C" fn ulavrepit_boot(table: &mut [u8], base: u64, end: u64) -> u64
    ensures { Lent 0 (boot_on (handed table.old) base end) table.old result table.new }
{
    face::boot_bytes(table, base, end)
}

#[unsafe(no_mangle)]
pub extern "C" fn ulavrepit_call(table: &mut [u8], word: u64, second: &mut u64) -> u64
    ensures { CallLent V8 table.old word second.old result table.new second.new }
{
    face::call_bytes(Board::V8, table, word, second)
}

#[unsafe(no_mangle)]
pub extern "C" fn ulavrepit_holders(
    table: &[u8],
    line: u64,
    list: &mut [u8],
    second: &mut u64,
) -> u64
    ensures { ListLent V8 table.now line list.old second.old result list.new second.new }
{
    face::holders_bytes(Board::V8, table, line, list, second)
}

#[unsafe(no_mangle)]
pub extern "C" fn ulavrepit_pieces(table: &[u8], partition: u64, slot: u64, list: &mut [u64]) -> u64
    ensures { PiecesLent V8 table.now partition slot list.old result list.new }
{
    face::lists::pieces_bytes(Board::V8, table, partition, slot, list)
}
