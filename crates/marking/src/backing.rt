ghost use Rattle.std.specs.Prelude.{◌≡◌, ◌<◌};
ghost use Rattle.tables.specs.View.{entry_in, view};
ghost use Rattle.shape.specs.AtOnce.{Shaped};
ghost use Rattle.marking.specs.Backing.{area_between, backs};
ghost use Rattle.marking.specs.Marking.{equal_slot};

use tables::read;
use words::slot_word::SlotFields;
use words::{Line, Partition, Slot};

// a not-given entry that equals lo to hi
fn backs(f: SlotFields, lo: Line, hi: Line) -> bool
    ensures { result ≡ backs (area_between lo.0 hi.0) (entry_in f) }
{
    if !f.present {
        return false;
    }
    if f.given.0 != 0 {
        return false;
    }
    if f.start != lo {
        return false;
    }
    f.end == hi
}

// the slot of q with such an entry
pub fn equal_slot(t: &[u64; 641], q: Partition, lo: Line, hi: Line) -> Option<Slot>
    requires { (q.0 < 16) × Shaped t.now }
    ensures { result ≡ equal_slot (view t.now).k q.0 (area_between lo.0 hi.0) }
{
    let used = ordering::used::used_slots(t, q);
    for i in 0..used {
        let f = read::entry(t, q, Slot(i));
        if backs(f, lo, hi) {
            return Some(Slot(i));
        }
    }
    None
}
