ghost use Rattle.std.specs.Prelude.{◌≡◌, ◌≤◌, ◌<◌};
ghost use Rattle.tables.specs.View.{named, view};
ghost use Rattle.sound.specs.Limit.{entry_pieces, region_pieces};
ghost use Rattle.loaded.specs.Limit.{CanCount, pieces_of};

use shapes::Board;
use shapes::pieces::piece_count;
use tables::{read, regions};
use words::regions_word::{Region, RegionsFields};
use words::{Partition, Slot};

// the pieces of slot i of p; an empty slot needs none
pub fn entry_pieces(board: Board, t: &[u64; 641], p: Partition, i: Slot) -> u32
    requires { (p.0 < 16) × (i.0 < 32) }
    ensures { (result ≡ entry_pieces board ((view t.now).k.slot p.0 i.0)) × (result ≤ 52) }
{
    let f = read::entry(t, p, i);
    if !f.present {
        return 0;
    }
    piece_count(board, f.start.0, f.end.0)
}

// .. of what a region of p names: they are counted only where it is loaded
fn region_pieces(board: Board, t: &[u64; 641], p: Partition, x: Region) -> u32
    requires { (p.0 < 16) × (x.slot.0 < 32) }
    ensures { (result ≡ region_pieces board ((view t.now).k.slot p.0) (named x)) × (result ≤ 52) }
{
    if !x.loaded {
        return 0;
    }
    entry_pieces(board, t, p, x.slot)
}

// .. of all that p has loaded, where f are its regions
pub fn loaded_pieces(board: Board, t: &[u64; 641], p: Partition, f: RegionsFields) -> u32
    requires { CanCount p.0 f }
    ensures { result ≡ pieces_of board (view t.now) p.0 f }
{
    let mut n = 0u32;
    for r in 0..8 {
        let x = regions::nth(f, r);
        n += region_pieces(board, t, p, x);
    }
    n
}
