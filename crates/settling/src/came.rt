ghost use Rattle.std.specs.Prelude.{◌≡◌, ◌<◌};
ghost use Rattle.tables.specs.View.{view};
ghost use Rattle.tables.specs.Encode.{encode, Canon};
ghost use Rattle.tables.specs.Settle.{settled};
ghost use Rattle.settling.specs.Settled.{Came, FixedBut, SlotDone, RecordDone};

use crate::{settle_regions, used_slots};
use tables::{read, store};
use words::{Line, Packed, Partition, Slot};

// An open entry in slot i of p that shares a line with lo to hi is closed, and no region is left on it.
fn close_slot(t: &mut [u64; 641], p: Partition, i: Slot, lo: Line, hi: Line)
    requires { Canon t.old × Came lo.0 hi.0 (view t.old) × (p.0 < 16) × (i.0 < 32) }
    ensures { SlotDone (Came lo.0 hi.0) p.0 i.0 t.old t.new }
{
    let f = read::entry(t, p, i);
    if !f.opened {
        return;
    }
    if f.start.0 >= hi.0 {
        return;
    }
    if lo.0 >= f.end.0 {
        return;
    }
    let mut g = f;
    g.opened = false;
    let at = (9 + 40 * p.0 + i.0) as usize;
    store(t, at, g.write());
    settle_regions(t, p);
}

// .. in every slot of p
fn close_slots(t: &mut [u64; 641], p: Partition, lo: Line, hi: Line)
    requires { Canon t.old × Came lo.0 hi.0 (view t.old) × (p.0 < 16) }
    ensures { RecordDone (Came lo.0 hi.0) p.0 t.old t.new }
{
    let n = used_slots(t, p);
    for i in 0..n {
        close_slot(t, p, Slot(i), lo, hi);
    }
}

// The area lo to hi has come into a settled table: it is settled again. Nothing opens, so only what shares a line with it changes, and that is an
// entry of those whom the mask names.
pub fn settle_named(t: &mut [u64; 641], mask: u32, lo: Line, hi: Line)
    requires { Canon t.old × Came lo.0 hi.0 (view t.old) × FixedBut mask t.old }
    ensures { t.new ≡ encode (settled (view t.old)) }
{
    for p in 0..16 {
        if (mask >> p) % 2 == 1 {
            close_slots(t, Partition(p), lo, hi);
        }
    }
}

// .. of all
pub fn settle(t: &mut [u64; 641], lo: Line, hi: Line)
    requires { Canon t.old × Came lo.0 hi.0 (view t.old) }
    ensures { t.new ≡ encode (settled (view t.old)) }
{
    settle_named(t, 0xffff, lo, hi);
}
