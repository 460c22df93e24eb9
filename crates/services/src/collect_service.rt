ghost use Rattle.std.specs.Prelude.{◌≡◌, ◌<◌};
ghost use Rattle.tables.specs.View.{view};
ghost use Rattle.tables.specs.Encode.{Canon};
ghost use Rattle.sound.specs.Whole.{Right};
ghost use Rattle.rules.specs.Rules.{vacant, collect};
ghost use Rattle.rules.specs.Ran.{Ran};

use crate::who::{own_or_child, up_from};
use tables::Outcome;
use words::{Partition, Refusal, Slot};

// no slot of structure j of p is present
fn vacant(t: &[u64; 641], p: Partition, j: u32) -> bool
    requires { (p.0 < 16) × (j < 4) }
    ensures { result ≡ vacant (view t.now).k p.0 j }
{
    for i in 0..8 {
        let f = tables::read::entry(t, p, Slot(8 * j + i));
        if f.present {
            return false;
        }
    }
    true
}

// 4: structure j of p, vacant and not the root's first, is absent from now on
pub fn collect(t: &mut [u64; 641], p: Partition, j: u32) -> Outcome
    requires { Canon t.old × (p.0 < 16) × Right (view t.old) }
    ensures { Ran (collect (view t.old) p.0 j) t.old result t.new }
{
    if !own_or_child(t, p) {
        return Err(Refusal::WrongPartition);
    }
    if j >= 4 {
        return Err(Refusal::NoEntry);
    }
    let f = tables::read::structure(t, p, j);
    if !f.present {
        return Err(Refusal::NoEntry);
    }
    if !vacant(t, p, j) {
        return Err(Refusal::InUse);
    }
    if p.0 + j == 0 {
        return Err(Refusal::InUse);
    }
    let above = up_from(t, p);
    writing::clear_structure(t, p, j);
    settling::gone::settle_named(t, above);
    Ok((0, 0))
}
