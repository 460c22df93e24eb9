ghost use Rattle.std.specs.Prelude.{◌≡◌, ◌&&◌, ◌<◌};
ghost use Rattle.tables.specs.View.{view};
ghost use Rattle.sound.specs.Clauses.{s7_given, s7_whole};
ghost use Rattle.shape.specs.AtOnce.{Shaped};
ghost use Rattle.covering.specs.Cover.{given_slot};

use decide::entries::whole_right;
use ordering::used::used_slots;
use tables::read;
use words::{Partition, Slot};

// slot i of p is given to nobody or to a child of p; a whole one is undivided
fn given_slot(t: &[u64; 641], p: Partition, i: Slot) -> bool
    requires { (p.0 < 16) × (i.0 < 32) × Shaped t.now }
    ensures { result ≡ given_slot (view t.now) p.0 i.0 }
{
    let f = read::entry(t, p, i);
    if !f.present {
        return true;
    }
    if !whole_right(t, p, f) {
        return false;
    }
    if f.given.0 == 0 {
        return true;
    }
    searching::is_child(t, p, f.given)
}

// .. each slot
pub fn given_each(t: &[u64; 641], p: Partition) -> bool
    requires { (p.0 < 16) × Shaped t.now }
    ensures { result ≡ s7_given (view t.now).k p.0 && s7_whole (view t.now) p.0 }
{
    let used = used_slots(t, p);
    for i in 0..used {
        if !given_slot(t, p, Slot(i)) {
            return false;
        }
    }
    true
}
