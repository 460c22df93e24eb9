#![tactic(auto)]

ghost use Rattle.std.specs.Prelude.{false, ◌^◌, ◌<◌};
ghost use Rattle.tables.specs.State.{none, some};
ghost use Rattle.tables.specs.View.{view, entry_of};
ghost use Rattle.tables.specs.Encode.{Is};
ghost use Rattle.tables.specs.Write.{put_slot, put_header, put_structure, put_region, put_current, clear_record, empty_table};
ghost use Rattle.writing.specs.CanWrite.{CanClear, CanEntry, CanHeader, CanStructure, CanRegion, CanCurrent, CanRecord};
ghost use Rattle.writing.specs.Stored.{span};

// One word of a table written anew: an entry, an area, a region, the current partition; and a record cleared.
use tables::regions::with_region;
use tables::store;
use words::first_word::FirstFields;
use words::header_word::HeaderFields;
use words::regions_word::Region;
use words::slot_word::SlotFields;
use words::structure_word::StructureFields;
use words::{Line, Packed, Partition, Slot};

// slot i of p holds the entry f
pub fn put_entry(t: &mut [u64; 641], p: Partition, i: Slot, f: SlotFields)
    requires { CanEntry t.old p.0 i.0 f }
    ensures { Is t.new (put_slot (view t.old) p.0 i.0 (some (entry_of f)) f.opened) }
{
    let at = (9 + 40 * p.0 + i.0) as usize;
    store(t, at, f.write());
}

// slot i of p is free
pub fn clear_entry(t: &mut [u64; 641], p: Partition, i: Slot)
    requires { CanClear 32 t.old p.0 i.0 }
    ensures { Is t.new (put_slot (view t.old) p.0 i.0 none false) }
{
    t[(9 + 40 * p.0 + i.0) as usize] = 0;
}

// the header of p
pub fn put_header(t: &mut [u64; 641], p: Partition, f: HeaderFields)
    requires { CanHeader t.old p.0 f }
    ensures { Is t.new (put_header (view t.old) p.0 f.parent.0 (some (span f.start f.end))) }
{
    let at = (1 + 40 * p.0) as usize;
    store(t, at, f.write());
}

// structure j of p
pub fn put_structure(t: &mut [u64; 641], p: Partition, j: u32, f: StructureFields)
    requires { CanStructure t.old p.0 j f }
    ensures { Is t.new (put_structure (view t.old) p.0 j (some (span f.start f.end))) }
{
    let at = (2 + 40 * p.0 + j) as usize;
    store(t, at, f.write());
}

// structure j of p is absent
pub fn clear_structure(t: &mut [u64; 641], p: Partition, j: u32)
    requires { CanClear 4 t.old p.0 j }
    ensures { Is t.new (put_structure (view t.old) p.0 j none) }
{
    t[(2 + 40 * p.0 + j) as usize] = 0;
}

// region r of p names a slot
pub fn put_region(t: &mut [u64; 641], p: Partition, r: u32, slot: Slot)
    requires { CanRegion t.old p.0 r slot.0 }
    ensures { Is t.new (put_region (view t.old) p.0 r (some slot.0)) }
{
    let at = (6 + 40 * p.0) as usize;
    let f = with_region(
        tables::read::regions(t, p),
        r,
        Region { loaded: true, slot },
    );
    store(t, at, f.write());
}

// region r of p names nothing
pub fn clear_region(t: &mut [u64; 641], p: Partition, r: u32)
    requires { CanClear 8 t.old p.0 r }
    ensures { Is t.new (put_region (view t.old) p.0 r none) }
{
    let at = (6 + 40 * p.0) as usize;
    let f = with_region(
        tables::read::regions(t, p),
        r,
        Region {
            loaded: false,
            slot: Slot(0),
        },
    );
    store(t, at, f.write());
}

// c is current
pub fn put_current(t: &mut [u64; 641], c: Partition)
    requires { CanCurrent t.old c.0 }
    ensures { Is t.new (put_current (view t.old) c.0) }
{
    let mut f = tables::read::first(t);
    f.current = c;
    store(t, 0, f.write());
}

// the 40 words of p are zero
pub fn clear_record(t: &mut [u64; 641], p: Partition)
    requires { CanRecord t.old p.0 }
    ensures { Is t.new (clear_record (view t.old) p.0) }
{
    for o in 0..40 {
        t[(1 + 40 * p.0 + o) as usize] = 0;
    }
}

// Whatever the words were: base to end, and no partition.
pub fn empty_table(t: &mut [u64; 641], base: Line, end: Line)
    requires { (base.0 < 2 ^ 27) × (end.0 < 2 ^ 27) }
    ensures { Is t.new (empty_table base.0 end.0) }
{
    *t = [0u64; 641];
    let f = FirstFields {
        base,
        end,
        current: Partition(0),
    };
    store(t, 0, f.write());
}
