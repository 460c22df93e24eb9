ghost use Rattle.std.specs.Prelude.{◌≡◌, ◌<◌};
ghost use Rattle.tables.specs.View.{view, entry_of};
ghost use Rattle.tables.specs.Encode.{Canon, Is};
ghost use Rattle.tables.specs.Search.{lowest};
ghost use Rattle.tables.specs.Answers.{found_of};
ghost use Rattle.sound.specs.Whole.{Right};
ghost use Rattle.rules.specs.Rules.{returned, take};
ghost use Rattle.rules.specs.Ran.{Ran};
ghost use Rattle.writing.specs.CanWrite.{CanEntry};
ghost use Rattle.blocks.specs.TakeExits.{CanTake, taken_back};

use tables::Outcome;
use words::slot_word::SlotFields;
use words::{Partition, Refusal, Slot};

// slot i of the child that e is given to is an open, not-given entry of exactly that range
fn is_returned(t: &[u64; 641], e: SlotFields, i: Slot) -> bool
    requires { (e.given.0 < 16) × (i.0 < 32) }
    ensures { result ≡ returned (view t.now) (entry_of e) i.0 }
{
    let p = e.given;
    let f = tables::read::entry(t, p, i);
    if !f.present {
        return false;
    }
    if f.given.0 != 0 {
        return false;
    }
    if f.start != e.start {
        return false;
    }
    if f.end != e.end {
        return false;
    }
    f.opened
}

// the lowest slot of that child that is returned
fn returned_slot(t: &[u64; 641], e: SlotFields) -> Option<Slot>
    requires { e.given.0 < 16 }
    ensures { result ≡ found_of (lowest 32 (returned (view t.now) (entry_of e))) }
{
    for i in 0..32 {
        if is_returned(t, e, Slot(i)) {
            return Some(Slot(i));
        }
    }
    None
}

// slot s of c, whose entry is e, is given to nobody; slot i of the child that had it is free
fn take_back(t: &mut [u64; 641], c: Partition, s: Slot, i: Slot, e: SlotFields)
    requires { CanEntry t.old c.0 s.0 e × (i.0 < 32) }
    ensures { Is t.new (taken_back (view t.old) c.0 s.0 i.0 e) }
{
    let nobody = Partition(0);
    let mut own = e;
    own.given = nobody;
    writing::put_entry(t, c, s, own);
    let p = e.given;
    writing::clear_entry(t, p, i);
}

// the check 14 of take, and its effect, for the caller c and its given entry e in slot s
fn take_entry(t: &mut [u64; 641], c: Partition, s: Slot, e: SlotFields) -> Outcome
    requires { CanTake t.old c.0 s.0 e }
    ensures { Ran (take (view t.old) s.0) t.old result t.new }
{
    let i = returned_slot(t, e).ok_or(Refusal::InPieces)?;
    take_back(t, c, s, i, e);
    settling::settle_regions(t, e.given);
    Ok((0, 0))
}

// 6: slot s is taken back from the child that it is given to; in a right table nothing is left to settle but the child's regions
pub fn take(t: &mut [u64; 641], s: Slot) -> Outcome
    requires { Canon t.old × (s.0 < 32) × Right (view t.old) }
    ensures { Ran (take (view t.old) s.0) t.old result t.new }
{
    let c = tables::read::first(t).current;
    let e = tables::read::entry(t, c, s);
    if !e.present {
        return Err(Refusal::NoEntry);
    }
    if e.given.0 == 0 {
        return Err(Refusal::Given);
    }
    take_entry(t, c, s, e)
}
