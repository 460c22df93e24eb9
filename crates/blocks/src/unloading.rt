ghost use Rattle.tables.specs.View.{view};
ghost use Rattle.tables.specs.Encode.{Is};
ghost use Rattle.writing.specs.CanWrite.{CanClear};
ghost use Rattle.blocks.specs.Unloading.{unloaded_at};

use words::{Partition, Slot};

// Slot s of c is empty, so no region that names it stays loaded: its pieces are about to change.
pub fn unload_entry(t: &mut [u64; 641], c: Partition, s: Slot)
    requires { CanClear 32 t.old c.0 s.0 }
    ensures { Is t.new (unloaded_at (view t.old) c.0 s.0) }
{
    writing::clear_entry(t, c, s);
    settling::settle_regions(t, c);
}
