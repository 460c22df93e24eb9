ghost use Rattle.std.specs.Prelude.{◌≡◌, true, cond, ◌-◌, ◌+◌, ◌*◌, ◌<◌};
ghost use Rattle.tables.specs.View.{view, entry_in};
ghost use Rattle.sound.specs.Whole.{Right};
ghost use Rattle.sheetrules.specs.Sheet.{number_of_lines};
ghost use Rattle.summing.specs.Sums.{Ranged, Adding};

use tables::read;
use words::slot_word::SlotFields;
use words::{Partition, Slot};

// What one walk over the slots of a partition gathers: the mask of the occupied ones, the lines held, the lines open.
#[derive(Clone, Copy)]
pub struct Sums {
    pub slots: u32,
    pub held: u32,
    pub opened: u32,
}

// the lines of an entry, which ends behind its start
fn lines(f: SlotFields) -> u32
    requires { (f.present ≡ true) × (f.start.0 < f.end.0) }
    ensures { result ≡ number_of_lines (entry_in f) }
{
    f.end.0 - f.start.0
}

// .. of an open one
fn open_lines(f: SlotFields) -> u32
    requires { (f.present ≡ true) × (f.start.0 < f.end.0) }
    ensures { result ≡ cond f.opened (number_of_lines (entry_in f)) 0 }
{
    if !f.opened {
        return 0;
    }
    lines(f)
}

// The slots above s are in; s joins them. Most slots have no entry, which one test tells.
pub fn add_slot(t: &[u64; 641], p: Partition, s: Slot, x: Sums) -> Sums
    requires { (p.0 < 16) × Adding (view t.now) p.0 (s.0 + 1) x × Ranged (view t.now) p.0 s.0 }
    ensures { Adding (view t.now) p.0 s.0 result }
{
    let f = read::entry(t, p, s);
    let slots = 2 * x.slots;
    if !f.present {
        return Sums {
            slots,
            held: x.held,
            opened: x.opened,
        };
    }
    Sums {
        slots: slots + 1,
        held: x.held + lines(f),
        opened: x.opened + open_lines(f),
    }
}

// The eight slots of structure j join those above them: an absent one has no entry.
fn add_structure(t: &[u64; 641], p: Partition, j: u32, x: Sums) -> Sums
    requires { (p.0 < 16) × (j < 4) × Right (view t.now) × Adding (view t.now) p.0 (8 * j + 8) x }
    ensures { Adding (view t.now) p.0 (8 * j) result }
{
    let s = read::structure(t, p, j);
    if !s.present {
        return Sums {
            slots: 256 * x.slots,
            held: x.held,
            opened: x.opened,
        };
    }
    let mut sums = x;
    for i in (8 * j..8 * j + 8).rev() {
        sums = add_slot(t, p, Slot(i), sums);
    }
    sums
}

// .. of all slots
pub fn gather(t: &[u64; 641], p: Partition) -> Sums
    requires { (p.0 < 16) × Right (view t.now) }
    ensures { Adding (view t.now) p.0 0 result }
{
    let mut x = Sums {
        slots: 0,
        held: 0,
        opened: 0,
    };
    for j in (0..4).rev() {
        x = add_structure(t, p, j, x);
    }
    x
}
