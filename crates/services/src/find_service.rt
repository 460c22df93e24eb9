ghost use Rattle.std.specs.Prelude.{◌<◌};
ghost use Rattle.tables.specs.View.{view};
ghost use Rattle.tables.specs.Encode.{Canon};
ghost use Rattle.sound.specs.Whole.{Right};
ghost use Rattle.rules.specs.Rules.{find};
ghost use Rattle.rules.specs.Ran.{Ran};

use crate::who::own_or_child;
use tables::Outcome;
use words::{Line, Partition, Refusal};

// 12: the slot of p that holds the line, and its word. A right table is settled, so nothing is written.
pub fn find(t: &[u64; 641], p: Partition, l: Line) -> Outcome
    requires { Canon t.now × (p.0 < 16) × Right (view t.now) }
    ensures { Ran (find (view t.now) p.0 l.0) t.now result t.now }
{
    if !own_or_child(t, p) {
        return Err(Refusal::WrongPartition);
    }
    let looked = searching::holding_slot(t, p, l);
    let i = looked.found.ok_or(Refusal::WrongLine)?;
    let w = tables::read::entry_word(t, p, i);
    Ok((i.0 as u64, w))
}
