#![tactic(auto)]

ghost use Rattle.std.specs.Prelude.{◌≡◌, true, ◌<◌, length};
ghost use Rattle.loops.specs.Loops.{all};
ghost use Rattle.tables.specs.View.{view};
ghost use Rattle.tables.specs.Top.{Top};
ghost use Rattle.sound.specs.Clauses.{sound};
ghost use Rattle.shape.specs.AtOnce.{shape_at, formed};
ghost use Rattle.decide.specs.Local.{local_where, left_where};
ghost use Rattle.decide.specs.Decide.{CanDecide, Decided};
ghost use Rattle.decide.specs.Walk.{none_left, Ended};

// Whether a table is sound, decided along its entries in order, of which its areas mark those that they equal.
pub mod entries;
pub mod tiles;
mod walk;

use ordering::order::Order;
use shapes::Board;
use words::Partition;

// S2 to S5 at p: an absent partition costs only the test that it is zero
fn shape_sound(t: &[u64; 641], p: Partition) -> bool
    requires { p.0 < 16 }
    ensures { result ≡ shape_at t.now p.0 }
{
    if !shape::records::family_sound(t, p) {
        return false;
    }
    if !searching::is_present(t, p) {
        return true;
    }
    shape::records::record_sound(t, p)
}

// .. at all of them: most tables that are not sound fail here, before the dear clauses
fn shapes_sound(t: &[u64; 641], top: u32) -> bool
    requires { Top t.now top × (0 < top) }
    ensures { result ≡ all 16 (shape_at t.now) }
{
    for p in 0..top {
        if !shape_sound(t, Partition(p)) {
            return false;
        }
    }
    true
}

// The walk has left no entry of p over; the root was given nothing.
fn none_left(p: Partition, order: &Order, next: &[u32; 16]) -> bool
    requires { (p.0 < 16) × (length next.now ≡ 16) }
    ensures { result ≡ none_left order.now.counts next.now p.0 }
{
    if p.0 == 0 {
        return true;
    }
    let k = p.0 as usize;
    next[k] == order.counts[k]
}

// what the walk leaves to tell of p: that, and S10
fn partition_sound(
    board: Board,
    t: &[u64; 641],
    p: Partition,
    order: &Order,
    next: &[u32; 16],
) -> bool
    requires { (p.0 < 16) × Ended t.now order.now.counts next.now }
    ensures { result ≡ left_where board (view t.now) p.0 }
{
    if !searching::is_present(t, p) {
        return true;
    }
    if !none_left(p, order, next) {
        return false;
    }
    loaded::opening::regions_right(board, t, p)
}

// .. of each
fn rest_sound(board: Board, t: &[u64; 641], top: u32, order: &Order, next: &[u32; 16]) -> bool
    requires { Top t.now top × Ended t.now order.now.counts next.now }
    ensures { result ≡ all 16 (left_where board (view t.now)) }
{
    for p in 0..top {
        if !partition_sound(board, t, Partition(p), order, next) {
            return false;
        }
    }
    true
}

// S7 and S9 to S11
fn partitions_sound(board: Board, t: &[u64; 641], top: u32, order: &Order, mark: &[u32; 16]) -> bool
    requires { Top t.now top × CanDecide t.now order.now.slots order.now.counts mark.now }
    ensures { result ≡ all 16 (local_where board (view t.now) mark.now) }
{
    if !tiles::covers_whole(t, Partition(0), &order.slots, order.counts[0]) {
        return false;
    }
    let mut next = [0u32; 16];
    if !walk::walk(t, top, order, mark, &mut next) {
        return false;
    }
    rest_sound(board, t, top, order, &next)
}

// S1 to S5. Who has decided them in a pass of its own, and says so, spares this one.
fn is_formed(t: &[u64; 641], top: u32, told: bool) -> bool
    requires { Top t.now top × (told ≡ true → formed t.now ≡ true) }
    ensures { result ≡ formed t.now }
{
    if told {
        return true;
    }
    if !shape::records::first_sound(t) {
        return false;
    }
    shapes_sound(t, top)
}

// Exactly the sound tables pass. Of such a table the entries are left in order.
fn order_told(board: Board, t: &[u64; 641], top: u32, told: bool, order: &mut Order) -> bool
    requires { Top t.now top × (told ≡ true → formed t.now ≡ true) }
    ensures { Decided board t.now result order.new.slots order.new.counts }
{
    tables::sized(t);
    if !is_formed(t, top, told) {
        return false;
    }
    if !order.arrange(t, top) {
        return false;
    }
    let mut mark = [0u32; 16];
    if !marking::mark_all(t, top, &mut mark) {
        return false;
    }
    partitions_sound(board, t, top, order, &mark)
}

// .. for who lists its runs
pub fn is_ordered(board: Board, t: &[u64; 641], top: u32, order: &mut Order) -> bool
    requires { Top t.now top }
    ensures { Decided board t.now result order.new.slots order.new.counts }
{
    order_told(board, t, top, false, order)
}

// Exactly the sound tables pass.
pub fn is_sound(board: Board, t: &[u64; 641], top: u32) -> bool
    requires { Top t.now top }
    ensures { result ≡ sound board t.now }
{
    let mut order = Order::none();
    is_ordered(board, t, top, &mut order)
}

// .. of those of which S1 to S5 are decided
pub fn is_sound_formed(board: Board, t: &[u64; 641], top: u32) -> bool
    requires { Top t.now top × (formed t.now ≡ true) }
    ensures { result ≡ sound board t.now }
{
    let mut order = Order::none();
    order_told(board, t, top, true, &mut order)
}
