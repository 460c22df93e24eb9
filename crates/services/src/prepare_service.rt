ghost use Rattle.std.specs.Prelude.{◌<◌};
ghost use Rattle.tables.specs.View.{view};
ghost use Rattle.tables.specs.Encode.{Canon};
ghost use Rattle.sound.specs.Whole.{Right};
ghost use Rattle.rules.specs.Rules.{prepare};
ghost use Rattle.rules.specs.Ran.{Ran};

use crate::who::{own_or_child, up_from};
use blocks::pick::free_entry;
use tables::Outcome;
use words::structure_word::StructureFields;
use words::{Partition, Refusal, Slot};

// 3: the lowest absent structure of p gets the area of entry s
pub fn prepare(t: &mut [u64; 641], p: Partition, s: Slot) -> Outcome
    requires { Canon t.old × (p.0 < 16) × (s.0 < 32) × Right (view t.old) }
    ensures { Ran (prepare (view t.old) p.0 s.0) t.old result t.new }
{
    if !own_or_child(t, p) {
        return Err(Refusal::WrongPartition);
    }
    let e = free_entry(t, s)?;
    let start = e.start;
    let end = e.end;
    let j = searching::absent_structure(t, p).ok_or(Refusal::NoneFree)?;
    if start.0 + 16 > end.0 {
        return Err(Refusal::TooShort);
    }
    if e.whole {
        return Err(Refusal::LentWhole);
    }
    let above = up_from(t, tables::read::first(t).current);
    let area = StructureFields {
        present: true,
        start,
        end,
    };
    writing::put_structure(t, p, j, area);
    settling::came::settle_named(t, above, start, end);
    Ok((j as u64, 0))
}
