ghost use Rattle.std.specs.Prelude.{◌≡◌, true, not, ◌||◌, ◌<◌, length};
ghost use Rattle.loops.specs.Loops.{all, any};
ghost use Rattle.tables.specs.View.{entry_of, entry_in, view};
ghost use Rattle.tables.specs.Seen.{Seen};
ghost use Rattle.sound.specs.Clauses.{has, lends, undivided};
ghost use Rattle.shape.specs.AtOnce.{Shaped};
ghost use Rattle.decide.specs.Entries.{full_slot};
ghost use Rattle.decide.specs.Local.{entry_right};

use ordering::used::used_slots;
use tables::masks::has_slot;
use tables::read;
use words::slot_word::SlotFields;
use words::{Partition, Slot};

// g is an entry given to p that equals f
fn lends(g: SlotFields, p: Partition, f: SlotFields) -> bool
    ensures { result ≡ has (lends p.0 (entry_of f)) (entry_in g) }
{
    if !g.present {
        return false;
    }
    if g.given != p {
        return false;
    }
    if g.start != f.start {
        return false;
    }
    g.end == f.end
}

// q has such an entry
fn has_lent(t: &[u64; 641], q: Partition, p: Partition, f: SlotFields) -> bool
    requires { (q.0 < 16) × Shaped t.now }
    ensures { result ≡ any 32 (λ i. has (lends p.0 (entry_of f)) ((view t.now).k.slot q.0 i)) }
{
    let used = used_slots(t, q);
    for i in 0..used {
        let g = read::entry(t, q, Slot(i));
        if lends(g, p, f) {
            return true;
        }
    }
    false
}

// the entry f of p is open, not given, and equal to an entry that p's parent gave it
fn undivided(t: &[u64; 641], p: Partition, f: SlotFields) -> bool
    requires { (p.0 < 16) × Shaped t.now }
    ensures { result ≡ undivided (view t.now).k p.0 f.opened (entry_of f) }
{
    if !f.opened {
        return false;
    }
    if f.given.0 != 0 {
        return false;
    }
    if p.0 == 0 {
        return false;
    }
    let h = read::header(t, p);
    has_lent(t, h.parent, p, f)
}

// .. if it is whole
pub fn whole_right(t: &[u64; 641], p: Partition, f: SlotFields) -> bool
    requires { (p.0 < 16) × Shaped t.now }
    ensures { result ≡ (not f.whole || undivided (view t.now).k p.0 f.opened (entry_of f)) }
{
    if f.whole {
        return undivided(t, p, f);
    }
    true
}

// f, which stands in slot i of p, is given to a child of p; or to nobody, and then it is open exactly if no area marked it; a whole one is undivided
pub fn entry_right(t: &[u64; 641], p: Partition, i: Slot, f: SlotFields, mark: &[u32; 16]) -> bool
    requires { (p.0 < 16) × (i.0 < 32) × Shaped t.now × (length mark.now ≡ 16) × Seen t.now p.0 i.0 f × (f.present ≡ true) }
    ensures { result ≡ entry_right (view t.now) mark.now p.0 i.0 }
{
    if f.given.0 != 0 {
        if f.whole {
            return false;
        }
        return searching::is_child(t, p, f.given);
    }
    if !whole_right(t, p, f) {
        return false;
    }
    let taken = has_slot(mark[p.0 as usize], i);
    f.opened == !taken
}

// slot i of p has all rights, or no entry
fn full_slot(t: &[u64; 641], p: Partition, i: Slot) -> bool
    requires { (p.0 < 16) × (i.0 < 32) }
    ensures { result ≡ full_slot (view t.now).k p.0 i.0 }
{
    let f = read::entry(t, p, i);
    if !f.present {
        return true;
    }
    let r = f.rights;
    if !r.read {
        return false;
    }
    if !r.write {
        return false;
    }
    r.execute
}

// .. each slot
pub fn full_each(t: &[u64; 641], p: Partition) -> bool
    requires { (p.0 < 16) × Shaped t.now }
    ensures { result ≡ all 32 (full_slot (view t.now).k p.0) }
{
    let used = used_slots(t, p);
    for i in 0..used {
        if !full_slot(t, p, Slot(i)) {
            return false;
        }
    }
    true
}
