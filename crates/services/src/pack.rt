ghost use Rattle.std.specs.Prelude.{◌<◌};
ghost use Rattle.tables.specs.View.{view};
ghost use Rattle.tables.specs.Encode.{Canon, Is};
ghost use Rattle.sound.specs.Whole.{Right};
ghost use Rattle.rules.specs.Rules.{pack};
ghost use Rattle.rules.specs.Ran.{Ran};
ghost use Rattle.writing.specs.CanWrite.{CanEntry};
ghost use Rattle.services.specs.PackExits.{rename_at, renamed, moved_to, CanPack, Turned};

use crate::who::own_or_child;
use tables::Outcome;
use words::slot_word::SlotFields;
use words::{Partition, Refusal, Slot};

// region r of p names slot j where it named slot i
fn rename_region(t: &mut [u64; 641], p: Partition, i: Slot, j: Slot, r: u32)
    requires { Canon t.old × (p.0 < 16) × (j.0 < 32) × (r < 8) }
    ensures { Is t.new (rename_at (view t.old) p.0 i.0 j.0 r) }
{
    let f = tables::read::regions(t, p);
    let x = tables::regions::nth(f, r);
    if !x.loaded {
        return;
    }
    if x.slot != i {
        return;
    }
    writing::put_region(t, p, r, j);
}

// .. every region of p
fn rename_regions(t: &mut [u64; 641], p: Partition, i: Slot, j: Slot)
    requires { Canon t.old × (p.0 < 16) × (j.0 < 32) }
    ensures { Is t.new (renamed (view t.old) p.0 i.0 j.0) }
{
    for r in 0..8 {
        rename_region(t, p, i, j, r);
    }
}

// the entry f of slot i of p moves to slot j, its region follows it, and slot i is zero
fn move_entry(t: &mut [u64; 641], p: Partition, i: Slot, j: Slot, f: SlotFields)
    requires { CanEntry t.old p.0 j.0 f × (i.0 < 32) }
    ensures { Is t.new (moved_to (view t.old) p.0 i.0 j.0 f) }
{
    writing::put_entry(t, p, j, f);
    writing::clear_entry(t, p, i);
    rename_regions(t, p, i, j);
}

// the turn of slot i: its entry moves to the lowest free slot where that is below i; how many have moved then
fn pack_slot(t: &mut [u64; 641], p: Partition, i: Slot, moved: u64) -> u64
    requires { CanPack t.old p.0 i.0 moved }
    ensures { Turned (view t.old) p.0 i.0 moved t.new result }
{
    let f = tables::read::entry(t, p, i);
    if !f.present {
        return moved;
    }
    let found = searching::free_slot(t, p);
    let Some(j) = found else {
        return moved;
    };
    if j.0 >= i.0 {
        return moved;
    }
    move_entry(t, p, i, j, f);
    moved + 1
}

// 15: the entries of p move to its lowest usable slots, in slot order, and its regions follow them: a right table stays settled
pub fn pack(t: &mut [u64; 641], p: Partition) -> Outcome
    requires { Canon t.old × (p.0 < 16) × Right (view t.old) }
    ensures { Ran (pack (view t.old) p.0) t.old result t.new }
{
    if !own_or_child(t, p) {
        return Err(Refusal::WrongPartition);
    }
    let mut moved = 0u64;
    for i in 0..32 {
        moved = pack_slot(t, p, Slot(i), moved);
    }
    Ok((moved, 0))
}
