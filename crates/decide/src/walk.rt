ghost use Rattle.std.specs.Prelude.{◌≡◌, true, ◌+◌, ◌<◌};
ghost use Rattle.tables.specs.View.{view};
ghost use Rattle.tables.specs.Search.{present};
ghost use Rattle.tables.specs.Top.{Top};
ghost use Rattle.decide.specs.Decide.{CanDecide};
ghost use Rattle.decide.specs.Walk.{WalkedTo, CanStep, WalkSays};

use crate::entries::entry_right;
use crate::tiles::tile_slot;
use ordering::order::{Order, slot_at};
use tables::read;
use words::Partition;

// One walk over each partition's entries serves all its children: `next` has for each child the place among its own entries from which they tile the next one that it is given.

// The entry at place j of q is right by itself, and the entries of the child that it is given to tile it.
fn walk_entry(
    t: &[u64; 641],
    q: Partition,
    j: u32,
    order: &Order,
    mark: &[u32; 16],
    next: &mut [u32; 16],
) -> bool
    requires { CanStep t.now order.now.slots order.now.counts mark.now q.0 j next.old }
    ensures { WalkSays t.now order.now.slots order.now.counts mark.now q.0 (j + 1) result next.new }
{
    let i = slot_at(q, &order.slots, j);
    let g = read::entry(t, q, i);
    if !entry_right(t, q, i, g, mark) {
        return false;
    }
    if g.given.0 == 0 {
        return true;
    }
    let c = g.given.0 as usize;
    let n = order.counts[c];
    let x = tile_slot(t, g.given, &order.slots, n, next[c], q, i);
    if x > n {
        return false;
    }
    next[c] = x;
    true
}

// .. each entry of q
fn walk_entries(
    t: &[u64; 641],
    q: Partition,
    order: &Order,
    mark: &[u32; 16],
    next: &mut [u32; 16],
) -> bool
    requires { CanDecide t.now order.now.slots order.now.counts mark.now × WalkedTo t.now order.now.slots order.now.counts mark.now q.0 0 next.old × (q.0 < 16) × (present (view t.now).k q.0 ≡ true) }
    ensures { WalkSays t.now order.now.slots order.now.counts mark.now (q.0 + 1) 0 result next.new }
{
    let m = order.counts[q.0 as usize];
    for j in 0..m {
        if !walk_entry(t, q, j, order, mark, next) {
            return false;
        }
    }
    true
}

// where q is present
fn walk_partition(
    t: &[u64; 641],
    q: Partition,
    order: &Order,
    mark: &[u32; 16],
    next: &mut [u32; 16],
) -> bool
    requires { CanDecide t.now order.now.slots order.now.counts mark.now × WalkedTo t.now order.now.slots order.now.counts mark.now q.0 0 next.old × (q.0 < 16) }
    ensures { WalkSays t.now order.now.slots order.now.counts mark.now (q.0 + 1) 0 result next.new }
{
    if !searching::is_present(t, q) {
        return true;
    }
    walk_entries(t, q, order, mark, next)
}

// .. each partition
pub fn walk(t: &[u64; 641], top: u32, order: &Order, mark: &[u32; 16], next: &mut [u32; 16]) -> bool
    requires { Top t.now top × CanDecide t.now order.now.slots order.now.counts mark.now × WalkedTo t.now order.now.slots order.now.counts mark.now 0 0 next.old }
    ensures { WalkSays t.now order.now.slots order.now.counts mark.now 16 0 result next.new }
{
    for q in 0..top {
        if !walk_partition(t, Partition(q), order, mark, next) {
            return false;
        }
    }
    true
}
