ghost use Rattle.std.specs.Prelude.{◌≡◌, true, ◌≤◌, ◌<◌};
ghost use Rattle.tables.specs.View.{view};
ghost use Rattle.settling.specs.Areas.{AreasOf};
ghost use Rattle.sound.specs.Clauses.{s7, s9, s11, clause_at};
ghost use Rattle.shape.specs.AtOnce.{Shaped};
ghost use Rattle.ordering.specs.Order.{Orders};
ghost use Rattle.verdict.specs.Stages.{open_slot, Before11, lowest_of, Reached, Sorted};

use covering::covers;
use ordering::order::Order;
use settling::areas::Areas;
use shapes::Board;
use words::{Partition, Slot};

// S7 at p
fn exact_at(t: &[u64; 641], p: Partition, order: &Order) -> bool
    requires { (p.0 < 16) × Shaped t.now × Orders (view t.now).k order.now.slots order.now.counts }
    ensures { result ≡ s7 (view t.now) p.0 }
{
    if !searching::is_present(t, p) {
        return true;
    }
    if !covering::given::given_each(t, p) {
        return false;
    }
    covers(false, t, p, order)
}

// slot i of p is open exactly if it is clear of the areas
fn open_slot(t: &[u64; 641], p: Partition, i: Slot, areas: &Areas) -> bool
    requires { (p.0 < 16) × (i.0 < 32) × Shaped t.now × AreasOf (view t.now).k areas.now }
    ensures { result ≡ open_slot (view t.now) p.0 i.0 }
{
    let f = tables::read::entry(t, p, i);
    if !f.present {
        return true;
    }
    f.opened == areas.is_clear_of(f.start, f.end)
}

// S9 at p
fn opens_at(t: &[u64; 641], p: Partition, areas: &Areas) -> bool
    requires { (p.0 < 16) × Shaped t.now × AreasOf (view t.now).k areas.now }
    ensures { result ≡ s9 (view t.now) p.0 }
{
    for i in 0..32 {
        if !open_slot(t, p, Slot(i), areas) {
            return false;
        }
    }
    true
}

// S11 at p, where S7 and S9 hold
fn rights_at(t: &[u64; 641], p: Partition, order: &Order) -> bool
    requires { (p.0 < 16) × Shaped t.now × Orders (view t.now).k order.now.slots order.now.counts × Before11 (view t.now) p.0 }
    ensures { result ≡ s11 (view t.now).k p.0 }
{
    if !searching::is_present(t, p) {
        return true;
    }
    covers(true, t, p, order)
}

// Clause k at p, of S7 to S11; the clauses below it hold. No closures: its number is part of the answer, and each clause takes other arguments.
fn holds(board: Board, t: &[u64; 641], k: u32, p: Partition, order: &Order, areas: &Areas) -> bool
    requires { (p.0 < 16) × (7 ≤ k) × Reached board t.now k × Sorted board t.now order.now.slots order.now.counts areas.now }
    ensures { result ≡ clause_at board t.now k p.0 }
{
    if k <= 7 {
        return exact_at(t, p, order);
    }
    if k <= 8 {
        return owning::owned_at(t, p);
    }
    if k <= 9 {
        return opens_at(t, p, areas);
    }
    if k <= 10 {
        return loaded::opening::regions_right(board, t, p);
    }
    rights_at(t, p, order)
}

// The lowest of all tests that fails, where none of S1 to S6 does.
pub fn lowest(board: Board, t: &[u64; 641], order: &Order, areas: &Areas) -> Option<u32>
    requires { Sorted board t.now order.now.slots order.now.counts areas.now }
    ensures { result ≡ lowest_of board t.now 176 }
{
    for m in 96..176 {
        if !holds(board, t, 1 + m / 16, Partition(m % 16), order, areas) {
            return Some(m);
        }
    }
    None
}
