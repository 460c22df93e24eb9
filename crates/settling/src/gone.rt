ghost use Rattle.std.specs.Prelude.{◌≡◌, ◌<◌};
ghost use Rattle.tables.specs.View.{view};
ghost use Rattle.tables.specs.Encode.{encode, Canon};
ghost use Rattle.tables.specs.Settle.{settled};
ghost use Rattle.settling.specs.Areas.{AreasOf};
ghost use Rattle.settling.specs.Settled.{Gone, FixedBut, SlotDone, RecordDone};

use crate::areas::Areas;
use crate::used_slots;
use tables::{read, store};
use words::{Packed, Partition, Slot};

// A closed entry in slot i of p is open where it is clear of the areas that are left.
fn open_slot(t: &mut [u64; 641], p: Partition, i: Slot, areas: &Areas)
    requires { Canon t.old × Gone (view t.old) × AreasOf (view t.old).k areas.now × (p.0 < 16) × (i.0 < 32) }
    ensures { SlotDone Gone p.0 i.0 t.old t.new }
{
    let f = read::entry(t, p, i);
    if !f.present {
        return;
    }
    if f.opened {
        return;
    }
    let mut g = f;
    g.opened = areas.is_clear_of(f.start, f.end);
    let at = (9 + 40 * p.0 + i.0) as usize;
    store(t, at, g.write());
}

// .. in every slot of p
fn open_slots(t: &mut [u64; 641], p: Partition, areas: &Areas)
    requires { Canon t.old × Gone (view t.old) × AreasOf (view t.old).k areas.now × (p.0 < 16) }
    ensures { RecordDone Gone p.0 t.old t.new }
{
    let m = used_slots(t, p);
    for i in 0..m {
        open_slot(t, p, Slot(i), areas);
    }
}

// Areas have gone from a settled table: it is settled again. What is open stays open, so no region changes; what opens is an
// entry of those whom the mask names.
pub fn settle_named(t: &mut [u64; 641], mask: u32)
    requires { Canon t.old × Gone (view t.old) × FixedBut mask t.old }
    ensures { t.new ≡ encode (settled (view t.old)) }
{
    let mut areas = Areas::none();
    areas.gather(t, 16);
    for p in 0..16 {
        if (mask >> p) % 2 == 1 {
            open_slots(t, Partition(p), &areas);
        }
    }
}

// .. of all
pub fn settle(t: &mut [u64; 641])
    requires { Canon t.old × Gone (view t.old) }
    ensures { t.new ≡ encode (settled (view t.old)) }
{
    settle_named(t, 0xffff);
}
