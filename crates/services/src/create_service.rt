ghost use Rattle.std.specs.Prelude.{◌<◌};
ghost use Rattle.tables.specs.View.{view};
ghost use Rattle.tables.specs.Encode.{Canon};
ghost use Rattle.sound.specs.Whole.{Right};
ghost use Rattle.rules.specs.Rules.{create};
ghost use Rattle.rules.specs.Ran.{Ran};

use crate::who::up_from;
use blocks::pick::free_entry;
use tables::Outcome;
use words::header_word::HeaderFields;
use words::{Refusal, Slot};

// 1: the lowest absent number becomes a child whose area is entry s
pub fn create(t: &mut [u64; 641], s: Slot) -> Outcome
    requires { Canon t.old × (s.0 < 32) × Right (view t.old) }
    ensures { Ran (create (view t.old) s.0) t.old result t.new }
{
    let e = free_entry(t, s)?;
    let start = e.start;
    let end = e.end;
    let n = searching::absent_partition(t).ok_or(Refusal::NoneFree)?;
    if start.0 + 16 > end.0 {
        return Err(Refusal::TooShort);
    }
    if e.whole {
        return Err(Refusal::LentWhole);
    }
    let parent = tables::read::first(t).current;
    let above = up_from(t, parent);
    let header = HeaderFields {
        present: true,
        parent,
        start,
        end,
    };
    writing::put_header(t, n, header);
    settling::came::settle_named(t, above, start, end);
    Ok((n.0 as u64, 0))
}
