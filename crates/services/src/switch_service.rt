ghost use Rattle.std.specs.Prelude.{◌<◌};
ghost use Rattle.tables.specs.View.{view};
ghost use Rattle.tables.specs.Encode.{Canon};
ghost use Rattle.sound.specs.Whole.{Right};
ghost use Rattle.rules.specs.Rules.{switch};
ghost use Rattle.rules.specs.Ran.{Ran};

use crate::who::parent_or_child;
use tables::Outcome;
use words::{Partition, Refusal};

// 13: p is the caller from now on; a right table stays settled
pub fn switch(t: &mut [u64; 641], p: Partition) -> Outcome
    requires { Canon t.old × (p.0 < 16) × Right (view t.old) }
    ensures { Ran (switch (view t.old) p.0) t.old result t.new }
{
    if !parent_or_child(t, p) {
        return Err(Refusal::WrongPartition);
    }
    writing::put_current(t, p);
    Ok((0, 0))
}
