ghost use Rattle.std.specs.Prelude.{◌<◌};
ghost use Rattle.tables.specs.View.{view};
ghost use Rattle.tables.specs.Top.{Top};
ghost use Rattle.sound.specs.Core.{Core};
ghost use Rattle.holders.specs.Listing.{SlotListed, PiecesListed};

use decide::is_sound;
use shapes::Board;
use shapes::pieces::{piece_count, write_pieces};
use tables::Outcome;
use words::{Partition, Refusal, Slot};

// The pieces of the entry in slot s of p: counted first, since a refusal writes nothing.
fn list_entry(board: Board, t: &[u64; 641], p: Partition, s: Slot, list: &mut [u64]) -> Outcome
    requires { (p.0 < 16) × (s.0 < 32) × Core (view t.now).k }
    ensures { SlotListed board ((view t.now).k.slot p.0 s.0) list.old result list.new }
{
    let f = tables::read::entry(t, p, s);
    if !f.present {
        return Err(Refusal::NoEntry);
    }
    let count = piece_count(board, f.start.0, f.end.0);
    if list.len() < count as usize {
        return Err(Refusal::ShortList);
    }
    let n = write_pieces(board, f.start.0, f.end.0, list);
    Ok((n as u64, 0))
}

// The pieces of a table that stands in an array: `pieces` without its length and its copy.
pub fn pieces_table(
    board: Board,
    t: &[u64; 641],
    top: u32,
    partition: u64,
    slot: u64,
    list: &mut [u64],
) -> Outcome
    requires { Top t.now top }
    ensures { PiecesListed board t.now partition slot list.old result list.new }
{
    if !is_sound(board, t, top) {
        return Err(Refusal::NotSound);
    }
    if partition > 15 {
        return Err(Refusal::NoEntry);
    }
    if slot > 31 {
        return Err(Refusal::NoEntry);
    }
    list_entry(
        board,
        t,
        Partition(partition as u32),
        Slot(slot as u32),
        list,
    )
}

// The pieces that the entry in a slot of a partition needs on the board: their number, and in the first words of the list each as start * 2^32 + lines,
// in rising order; it need be neither open nor loaded.
// Refused: 1 not a sound table of 641 words, 4 no entry there, 17 a list shorter than the pieces.
pub fn pieces(board: Board, t: &[u64], partition: u64, slot: u64, list: &mut [u64]) -> Outcome
    ensures { PiecesListed board t.now partition slot list.old result list.new }
{
    if t.len() != 641 {
        return Err(Refusal::NotSound);
    }
    let mut a = [0u64; 641];
    tables::copies::copy_in(t, &mut a);
    pieces_table(board, &a, 16, partition, slot, list)
}
