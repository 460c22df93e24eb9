ghost use Rattle.std.specs.Prelude.{◌<◌, ◌^◌};
ghost use Rattle.tables.specs.View.{view};
ghost use Rattle.tables.specs.Encode.{Canon, Is};
ghost use Rattle.sound.specs.Whole.{Right};
ghost use Rattle.rules.specs.Rules.{cut};
ghost use Rattle.rules.specs.Ran.{Ran};
ghost use Rattle.writing.specs.CanWrite.{CanEntry};
ghost use Rattle.blocks.specs.CutExits.{CanCut, split_at};

use crate::pick::free_entry;
use crate::unloading::unload_entry;
use tables::Outcome;
use words::slot_word::SlotFields;
use words::{Line, Partition, Refusal, Slot};

// slot s of c, whose entry is f, is unloaded and ends at l; slot n goes on from there
fn split_entry(t: &mut [u64; 641], c: Partition, s: Slot, n: Slot, l: Line, f: SlotFields)
    requires { CanEntry t.old c.0 s.0 f × (n.0 < 32) × (l.0 < 2 ^ 27) }
    ensures { Is t.new (split_at (view t.old) c.0 s.0 n.0 l.0 f) }
{
    unload_entry(t, c, s);
    let mut low = f;
    low.end = l;
    writing::put_entry(t, c, s, low);
    let mut high = f;
    high.start = l;
    writing::put_entry(t, c, n, high);
}

// the checks 7, 8 and 18 of cut, and its effect, for the entry f in slot s
fn cut_entry(t: &mut [u64; 641], s: Slot, l: Line, f: SlotFields) -> Outcome
    requires { CanCut t.old s.0 l.0 f }
    ensures { Ran (cut (view t.old) s.0 l.0) t.old result t.new }
{
    if f.start.0 >= l.0 {
        return Err(Refusal::WrongLine);
    }
    if l.0 >= f.end.0 {
        return Err(Refusal::WrongLine);
    }
    let c = tables::read::first(t).current;
    let n = searching::free_slot(t, c).ok_or(Refusal::NoneFree)?;
    if f.whole {
        return Err(Refusal::LentWhole);
    }
    split_entry(t, c, s, n, l, f);
    Ok((n.0 as u64, 0))
}

// 7: slot s, which is open, is unloaded and ends at l, and a free slot goes on from there: a right table stays settled
pub fn cut(t: &mut [u64; 641], s: Slot, l: Line) -> Outcome
    requires { Canon t.old × (s.0 < 32) × (l.0 < 2 ^ 27) × Right (view t.old) }
    ensures { Ran (cut (view t.old) s.0 l.0) t.old result t.new }
{
    let f = free_entry(t, s)?;
    cut_entry(t, s, l, f)
}
