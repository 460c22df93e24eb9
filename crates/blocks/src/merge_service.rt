ghost use Rattle.std.specs.Prelude.{◌≡◌, ◌<◌, ◌^◌};
ghost use Rattle.loops.specs.Loops.{any};
ghost use Rattle.tables.specs.View.{view, entry_of, entry_in};
ghost use Rattle.tables.specs.Encode.{Canon, Is};
ghost use Rattle.sound.specs.Clauses.{grants, contains_both};
ghost use Rattle.sound.specs.Whole.{Right};
ghost use Rattle.rules.specs.Rules.{merge};
ghost use Rattle.rules.specs.Ran.{Ran};
ghost use Rattle.writing.specs.CanWrite.{CanEntry};
ghost use Rattle.blocks.specs.MergeExits.{may_join, CanMerge, joined_at};

use crate::unloading::unload_entry;
use tables::Outcome;
use words::slot_word::SlotFields;
use words::{Partition, Refusal, Slot};

// the entry g is given to c and contains e
fn grants(c: Partition, e: SlotFields, g: SlotFields) -> bool
    ensures { result ≡ grants c.0 (entry_of e) (entry_of g) }
{
    if g.given != c {
        return false;
    }
    if g.start.0 > e.start.0 {
        return false;
    }
    e.end.0 <= g.end.0
}

// slot fields of an entry that is given to c and contains e and f
fn contains_both(c: Partition, e: SlotFields, f: SlotFields, g: SlotFields) -> bool
    ensures { result ≡ contains_both c.0 (entry_of e) (entry_of f) (entry_in g) }
{
    if !g.present {
        return false;
    }
    if !grants(c, e, g) {
        return false;
    }
    grants(c, f, g)
}

// an entry of q is given to c and contains e and f
fn one_grant(t: &[u64; 641], q: Partition, c: Partition, e: SlotFields, f: SlotFields) -> bool
    requires { q.0 < 16 }
    ensures { result ≡ any 32 (λ i. contains_both c.0 (entry_of e) (entry_of f) ((view t.now).k.slot q.0 i)) }
{
    for i in 0..32 {
        let g = tables::read::entry(t, q, Slot(i));
        if contains_both(c, e, f, g) {
            return true;
        }
    }
    false
}

// the caller c is the root, or one entry of its parent given to it contains e and f
fn may_join(t: &[u64; 641], c: Partition, e: SlotFields, f: SlotFields) -> bool
    requires { c.0 < 16 }
    ensures { result ≡ may_join (view t.now).k c.0 (entry_of e) (entry_of f) }
{
    if c.0 == 0 {
        return true;
    }
    let h = tables::read::header(t, c);
    one_grant(t, h.parent, c, e, f)
}

// slot s of c, whose entry is e, ends where f ended; slot u is free; both are unloaded
fn join(t: &mut [u64; 641], c: Partition, s: Slot, u: Slot, e: SlotFields, f: SlotFields)
    requires { CanEntry t.old c.0 s.0 e × (u.0 < 32) × (f.end.0 < 2 ^ 27) }
    ensures { Is t.new (joined_at (view t.old) c.0 s.0 u.0 e f) }
{
    unload_entry(t, c, s);
    let mut longer = e;
    let end = f.end;
    longer.end = end;
    writing::put_entry(t, c, s, longer);
    unload_entry(t, c, u);
}

// merge from check 5 on, for the caller c and its entries e and f in slots s and u
fn merge_entries(
    t: &mut [u64; 641],
    c: Partition,
    s: Slot,
    u: Slot,
    e: SlotFields,
    f: SlotFields,
) -> Outcome
    requires { CanMerge t.old c.0 s.0 u.0 e f }
    ensures { Ran (merge (view t.old) s.0 u.0) t.old result t.new }
{
    if !e.opened {
        return Err(Refusal::NotOpen);
    }
    if !f.opened {
        return Err(Refusal::NotOpen);
    }
    if e.given.0 != 0 {
        return Err(Refusal::Given);
    }
    if f.given.0 != 0 {
        return Err(Refusal::Given);
    }
    if e.end != f.start {
        return Err(Refusal::Apart);
    }
    if !may_join(t, c, e, f) {
        return Err(Refusal::TwoGrants);
    }
    join(t, c, s, u, e, f);
    Ok((0, 0))
}

// 8: slot s ends where slot u ended, and slot u is free; both are unloaded, and both are open, so in a right table nothing is left to settle
pub fn merge(t: &mut [u64; 641], s: Slot, u: Slot) -> Outcome
    requires { Canon t.old × (s.0 < 32) × (u.0 < 32) × Right (view t.old) }
    ensures { Ran (merge (view t.old) s.0 u.0) t.old result t.new }
{
    let c = tables::read::first(t).current;
    let e = tables::read::entry(t, c, s);
    if !e.present {
        return Err(Refusal::NoEntry);
    }
    let f = tables::read::entry(t, c, u);
    if !f.present {
        return Err(Refusal::NoEntry);
    }
    merge_entries(t, c, s, u, e, f)
}
