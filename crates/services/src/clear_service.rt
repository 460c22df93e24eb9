ghost use Rattle.std.specs.Prelude.{◌≡◌, true, ◌+◌, ◌<◌};
ghost use Rattle.tables.specs.View.{view};
ghost use Rattle.tables.specs.Encode.{Canon};
ghost use Rattle.tables.specs.Search.{present};
ghost use Rattle.sound.specs.Whole.{Right};
ghost use Rattle.rules.specs.Rules.{clear_out};
ghost use Rattle.rules.specs.Ran.{Ran};
ghost use Rattle.services.specs.ClearExits.{Cleared, Zero};

use crate::who::up_from;
use tables::Outcome;
use words::{Partition, Refusal};

// Clears the branch of p; how many partitions that were. The record of p goes before its children are walked: whatever the
// parents are, each call has a present record fewer.
#[cycle(clear_children_clear_partition)]
fn clear_partition(t: &mut [u64; 641], p: Partition) -> u64
    requires { Canon t.old × (p.0 < 16) × (p.0 ≡ 0 → ⊥) × (present (view t.old).k p.0 ≡ true) }
    ensures { Cleared t.old p.0 result t.new }
{
    writing::clear_record(t, p);
    clear_children(t, p) + 1
}

// .. of each child of p, whose own record is zero; how many partitions that were
#[cycle(clear_children_clear_partition)]
fn clear_children(t: &mut [u64; 641], p: Partition) -> u64
    requires { Zero t.old p.0 × (p.0 < 16) × (p.0 ≡ 0 → ⊥) }
    ensures { Cleared t.old p.0 (result + 1) t.new }
{
    let mut n = 0u64;
    for q in 0..16 {
        if searching::is_child(t, p, Partition(q)) {
            n += clear_partition(t, Partition(q));
        }
    }
    n
}

// 14: the child p and every descendant of it are absent from now on, and nothing of the caller is given to p
pub fn clear_out(t: &mut [u64; 641], p: Partition) -> Outcome
    requires { Canon t.old × (p.0 < 16) × Right (view t.old) }
    ensures { Ran (clear_out (view t.old) p.0) t.old result t.new }
{
    let c = tables::read::first(t).current;
    if !searching::is_child(t, c, p) {
        return Err(Refusal::WrongPartition);
    }
    let above = up_from(t, c);
    crate::delete_service::ungive(t, c, p);
    let n = clear_partition(t, p);
    settling::gone::settle_named(t, above);
    Ok((n, 0))
}
