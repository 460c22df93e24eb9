ghost use Rattle.std.specs.Prelude.{◌<◌};
ghost use Rattle.tables.specs.View.{view};
ghost use Rattle.tables.specs.Encode.{Canon, Is};
ghost use Rattle.sound.specs.Whole.{Right};
ghost use Rattle.rules.specs.Rules.{give};
ghost use Rattle.rules.specs.Ran.{Ran};
ghost use Rattle.writing.specs.CanWrite.{CanEntry};
ghost use Rattle.blocks.specs.GiveExits.{CanGive, handed_to};

use crate::pick::free_entry;
use tables::Outcome;
use words::slot_word::SlotFields;
use words::{Partition, Refusal, Rights, Slot};

// slot s of c, whose entry is f, is given to p; slot n of p has its range with rights r, whole or not
fn hand_over(
    t: &mut [u64; 641],
    c: Partition,
    s: Slot,
    p: Partition,
    n: Slot,
    r: Rights,
    whole: bool,
    f: SlotFields,
)
    requires { CanEntry t.old c.0 s.0 f × (p.0 < 16) × (n.0 < 32) }
    ensures { Is t.new (handed_to (view t.old) c.0 s.0 p.0 n.0 r whole f) }
{
    let mut old = f;
    old.given = p;
    writing::put_entry(t, c, s, old);
    let nobody = Partition(0);
    let mut new = f;
    new.given = nobody;
    new.rights = r;
    new.whole = whole;
    writing::put_entry(t, p, n, new);
}

// the checks 8, 10 and 18 of give, and its effect, for the caller c, its child p and the entry f in slot s
fn give_entry(
    t: &mut [u64; 641],
    c: Partition,
    p: Partition,
    s: Slot,
    r: Rights,
    whole: bool,
    f: SlotFields,
) -> Outcome
    requires { CanGive t.old c.0 p.0 s.0 f }
    ensures { Ran (give (view t.old) p.0 s.0 r whole) t.old result t.new }
{
    let n = searching::free_slot(t, p).ok_or(Refusal::NoneFree)?;
    if !shape::rights::rights_within(r, f.rights) {
        return Err(Refusal::MoreRights);
    }
    if f.whole {
        return Err(Refusal::LentWhole);
    }
    hand_over(t, c, s, p, n, r, whole, f);
    Ok((n.0 as u64, 0))
}

// 5: slot s, which is open, is given to the child p, and a free slot of p has its range with rights r, whole or not: a right table stays settled
pub fn give(t: &mut [u64; 641], p: Partition, s: Slot, r: Rights, whole: bool) -> Outcome
    requires { Canon t.old × (p.0 < 16) × (s.0 < 32) × Right (view t.old) }
    ensures { Ran (give (view t.old) p.0 s.0 r whole) t.old result t.new }
{
    let c = tables::read::first(t).current;
    if !searching::is_child(t, c, p) {
        return Err(Refusal::WrongPartition);
    }
    let f = free_entry(t, s)?;
    give_entry(t, c, p, s, r, whole, f)
}
