ghost use Rattle.std.specs.Prelude.{◌<◌};
ghost use Rattle.tables.specs.View.{view};
ghost use Rattle.tables.specs.Encode.{Canon, Is};
ghost use Rattle.sound.specs.Whole.{Right};
ghost use Rattle.rules.specs.Rules.{delete};
ghost use Rattle.rules.specs.Ran.{Ran};
ghost use Rattle.services.specs.DeleteExits.{ungive_at, ungiven};

use crate::who::up_from;
use tables::Outcome;
use words::{Partition, Refusal, Slot};

// slot i of c is given to nobody where it was given to p
fn ungive_slot(t: &mut [u64; 641], c: Partition, i: Slot, p: Partition)
    requires { Canon t.old × (c.0 < 16) × (i.0 < 32) }
    ensures { Is t.new (ungive_at (view t.old) c.0 p.0 i.0) }
{
    let f = tables::read::entry(t, c, i);
    if !f.present {
        return;
    }
    if f.given != p {
        return;
    }
    let nobody = Partition(0);
    let mut g = f;
    g.given = nobody;
    writing::put_entry(t, c, i, g);
}

// .. every slot of c
pub fn ungive(t: &mut [u64; 641], c: Partition, p: Partition)
    requires { Canon t.old × (c.0 < 16) }
    ensures { Is t.new (ungiven (view t.old) c.0 p.0) }
{
    for i in 0..32 {
        ungive_slot(t, c, Slot(i), p);
    }
}

// 2: the child p, without children, is absent from now on, and nothing of the caller is given to it
pub fn delete(t: &mut [u64; 641], p: Partition) -> Outcome
    requires { Canon t.old × (p.0 < 16) × Right (view t.old) }
    ensures { Ran (delete (view t.old) p.0) t.old result t.new }
{
    let c = tables::read::first(t).current;
    if !searching::is_child(t, c, p) {
        return Err(Refusal::WrongPartition);
    }
    if searching::has_child(t, p) {
        return Err(Refusal::InUse);
    }
    let above = up_from(t, c);
    ungive(t, c, p);
    writing::clear_record(t, p);
    settling::gone::settle_named(t, above);
    Ok((0, 0))
}
