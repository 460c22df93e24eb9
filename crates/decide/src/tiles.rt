ghost use Rattle.std.specs.Prelude.{◌≡◌, ◌&&◌, ◌≤◌};
ghost use Rattle.tables.specs.State.{all_rights};
ghost use Rattle.tables.specs.View.{view};
ghost use Rattle.sound.specs.Clauses.{within, same_rights, s11};
ghost use Rattle.shape.specs.AtOnce.{Shaped};
ghost use Rattle.decide.specs.Entries.{exactly};
ghost use Rattle.decide.specs.Local.{grants_open};
ghost use Rattle.decide.specs.Tiles.{rights_number, follows, row_of, opened_bit, plain_row, InOrder, Filled, Tiled, TiledAs, TiledSlot};

use crate::entries::full_each;
use ordering::order::entry_at;
use tables::read;
use words::{Line, Partition, Rights, Slot};

// rights as a number, a bit each
fn number(a: Rights) -> u32
    ensures { result ≡ rights_number a }
{
    4 * u32::from(a.read) + 2 * u32::from(a.write) + u32::from(a.execute)
}

// every right of a is one of b: told at once, since each entry of a child comes by here
fn none_beyond(a: Rights, b: Rights) -> bool
    ensures { result ≡ within a b }
{
    let n = number(a);
    n & number(b) == n
}

// No derived ==, which stops at the first flag that differs: with it a find on the densest table takes 2 % more on a Cortex-M0.
fn same_rights(a: Rights, b: Rights) -> bool
    ensures { result ≡ same_rights a b }
{
    (a.read == b.read) & (a.write == b.write) & (a.execute == b.execute)
}

// The rights a of the first entry of a range go not beyond those of the range, b; those of a later one are the same as those of the one before it, b.
fn follows(first: bool, a: Rights, b: Rights) -> bool
    ensures { result ≡ follows first a b }
{
    if first {
        return none_beyond(a, b);
    }
    same_rights(a, b)
}

// The entries of p from place i on tile lo to hi, with equal rights, and none beyond r; and all are open exactly if it is: the place after them. Where it is not
// so, 33, which is no place: with an Option a find on the densest table takes 6 % more on a Cortex-M0, 3 % on an M3.
fn tile(
    t: &[u64; 641],
    p: Partition,
    order: &[u8; 512],
    n: u32,
    i: u32,
    lo: Line,
    hi: Line,
    r: Rights,
    opened: bool,
) -> u32
    requires { InOrder t.now order.now p.0 n × (i ≤ n) }
    ensures { TiledAs (row_of t.now order.now p.0) (opened_bit t.now order.now p.0) n i lo.0 hi.0 r opened result }
{
    let mut at = lo;
    let mut k = i;
    let mut s = r;
    let mut first = true;
    let mut all_open = true;
    while at.0 < hi.0 {
        if k >= n {
            return 33;
        }
        let f = entry_at(t, p, order, k);
        if f.start != at {
            return 33;
        }
        if f.end.0 > hi.0 {
            return 33;
        }
        if !follows(first, f.rights, s) {
            return 33;
        }
        first = false;
        s = f.rights;
        all_open &= f.opened;
        at = f.end;
        k += 1;
    }
    if all_open != opened {
        return 33;
    }
    k
}

// .. the entry in slot j of q. It is read here, where the compiler needs nothing of it in memory.
pub fn tile_slot(
    t: &[u64; 641],
    p: Partition,
    order: &[u8; 512],
    n: u32,
    i: u32,
    q: Partition,
    j: Slot,
) -> u32
    requires { InOrder t.now order.now p.0 n × (i ≤ n) × Filled t.now q.0 j.0 }
    ensures { TiledSlot t.now order.now p.0 n i q.0 j.0 result }
{
    let g = read::entry(t, q, j);
    tile(t, p, order, n, i, g.start, g.end, g.rights, g.opened)
}

// The entries of p from place i on tile lo to hi, whatever their rights: the place after them. Where they do not, 33, which is no place, as for tile.
pub fn tile_lines(
    t: &[u64; 641],
    p: Partition,
    order: &[u8; 512],
    n: u32,
    i: u32,
    lo: Line,
    hi: Line,
) -> u32
    requires { InOrder t.now order.now p.0 n × (i ≤ n) }
    ensures { Tiled (plain_row t.now order.now p.0) n i lo.0 hi.0 all_rights result }
{
    let mut at = lo;
    let mut a = i;
    while at.0 < hi.0 {
        if a >= n {
            return 33;
        }
        let f = entry_at(t, p, order, a);
        if f.start != at {
            return 33;
        }
        if f.end.0 > hi.0 {
            return 33;
        }
        at = f.end;
        a += 1;
    }
    a
}

// The n entries of the root tile base to end.
pub fn tiles_whole(t: &[u64; 641], p: Partition, order: &[u8; 512], n: u32) -> bool
    requires { InOrder t.now order.now p.0 n × (p.0 ≡ 0) }
    ensures { result ≡ exactly (view t.now).k p.0 }
{
    let f = read::first(t);
    tile_lines(t, p, order, n, 0, f.base, f.end) == n
}

// S7 of the root but for what it says of given and whole entries, and S11; nobody gave it anything
pub fn covers_whole(t: &[u64; 641], p: Partition, order: &[u8; 512], n: u32) -> bool
    requires { InOrder t.now order.now p.0 n × (p.0 ≡ 0) × Shaped t.now }
    ensures { result ≡ exactly (view t.now).k p.0 && s11 (view t.now).k p.0 && grants_open (view t.now) p.0 }
{
    if !full_each(t, p) {
        return false;
    }
    tiles_whole(t, p, order, n)
}
