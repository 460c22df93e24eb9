#![tactic(auto)]

ghost use Rattle.std.specs.Prelude.{◌≡◌, true, ◌≤◌, ◌<◌};
ghost use Rattle.tables.specs.View.{view};
ghost use Rattle.tables.specs.Search.{present};
ghost use Rattle.shape.specs.AtOnce.{Shaped};
ghost use Rattle.ordering.specs.Order.{Orders};
ghost use Rattle.decide.specs.Tiles.{Filled, InOrder, ChildOf};
ghost use Rattle.covering.specs.Cover.{TiledFor, covers_for};

// One walk along what a partition was given: by lines alone, which S7 asks of it, or ranked, with the rights and open bits that S11 and S9 ask for too.
pub mod given;

use decide::tiles::{covers_whole, tile_lines, tile_slot, tiles_whole};
use ordering::order::{Order, slot_at};
use tables::read;
use words::{Partition, Slot};

// The entries of p from place i on tile the entry in slot j of q: the place after them, or 33.
fn tile_for(
    ranked: bool,
    t: &[u64; 641],
    p: Partition,
    order: &[u8; 512],
    n: u32,
    i: u32,
    q: Partition,
    j: Slot,
) -> u32
    requires { InOrder t.now order.now p.0 n × (i ≤ n) × Filled t.now q.0 j.0 }
    ensures { TiledFor ranked t.now order.now p.0 n i q.0 j.0 result }
{
    if ranked {
        return tile_slot(t, p, order, n, i, q, j);
    }
    let g = read::entry(t, q, j);
    tile_lines(t, p, order, n, i, g.start, g.end)
}

// The n entries of p tile, one after the other, those of the m entries of its parent q that are given to p; and none is left.
fn tiles_grants(
    ranked: bool,
    t: &[u64; 641],
    p: Partition,
    q: Partition,
    order: &[u8; 512],
    n: u32,
    m: u32,
) -> bool
    requires { ChildOf t.now order.now p.0 q.0 n m }
    ensures { result ≡ covers_for ranked (view t.now) p.0 }
{
    let mut i = 0u32;
    for j in 0..m {
        let s = slot_at(q, order, j);
        let g = read::entry(t, q, s);
        if g.given == p {
            i = tile_for(ranked, t, p, order, n, i, q, s);
            if i > n {
                return false;
            }
        }
    }
    i == n
}

// The n entries of the root tile base to end.
fn tiles_memory(ranked: bool, t: &[u64; 641], p: Partition, order: &[u8; 512], n: u32) -> bool
    requires { InOrder t.now order.now p.0 n × (p.0 ≡ 0) × Shaped t.now }
    ensures { result ≡ covers_for ranked (view t.now) p.0 }
{
    if ranked {
        return covers_whole(t, p, order, n);
    }
    tiles_whole(t, p, order, n)
}

// S7 at p, which is present, but for what it says of given and whole entries; ranked: S11 too, and the open bits of what p was given
pub fn covers(ranked: bool, t: &[u64; 641], p: Partition, order: &Order) -> bool
    requires { (p.0 < 16) × (present (view t.now).k p.0 ≡ true) × Shaped t.now × Orders (view t.now).k order.now.slots order.now.counts }
    ensures { result ≡ covers_for ranked (view t.now) p.0 }
{
    let n = order.counts[p.0 as usize];
    if p.0 == 0 {
        return tiles_memory(ranked, t, p, &order.slots, n);
    }
    let h = read::header(t, p);
    let m = order.counts[h.parent.0 as usize];
    tiles_grants(ranked, t, p, h.parent, &order.slots, n, m)
}
