ghost use Rattle.std.specs.Prelude.{◌<◌};
ghost use Rattle.blocks.specs.Pick.{Picks};

use words::slot_word::SlotFields;
use words::{Refusal, Slot};

// the checks 4, 5, 6 of slot S: the caller's entry in slot s, open and not given
pub fn free_entry(t: &[u64; 641], s: Slot) -> Result<SlotFields, Refusal>
    requires { s.0 < 32 }
    ensures { Picks t.now s.0 result }
{
    let c = tables::read::first(t).current;
    let f = tables::read::entry(t, c, s);
    if !f.present {
        return Err(Refusal::NoEntry);
    }
    if !f.opened {
        return Err(Refusal::NotOpen);
    }
    if f.given.0 != 0 {
        return Err(Refusal::Given);
    }
    Ok(f)
}
