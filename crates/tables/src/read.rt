ghost use Rattle.std.specs.Prelude.{◌≡◌, ◌<◌};
ghost use Rattle.tables.specs.View.{regions_word_at, view};
ghost use Rattle.tables.specs.Encode.{slot_word};
ghost use Rattle.tables.specs.Seen.{Seen, SeenFirst, SeenHeader, SeenStructure, SeenRegions, CanRead};

use words::first_word::FirstFields;
use words::header_word::HeaderFields;
use words::regions_word::RegionsFields;
use words::slot_word::SlotFields;
use words::structure_word::StructureFields;
use words::{Packed, Partition, Slot};

// base, end and current
pub fn first(t: &[u64; 641]) -> FirstFields
    ensures { SeenFirst t.now result }
{
    FirstFields::fields(t[0])
}

pub fn header(t: &[u64; 641], p: Partition) -> HeaderFields
    requires { p.0 < 16 }
    ensures { SeenHeader t.now p.0 result }
{
    let at = (1 + 40 * p.0) as usize;
    HeaderFields::fields(t[at])
}

pub fn structure(t: &[u64; 641], p: Partition, j: u32) -> StructureFields
    requires { (p.0 < 16) × (j < 4) }
    ensures { SeenStructure t.now p.0 j result }
{
    let at = (2 + 40 * p.0 + j) as usize;
    StructureFields::fields(t[at])
}

pub fn regions(t: &[u64; 641], p: Partition) -> RegionsFields
    requires { p.0 < 16 }
    ensures { SeenRegions t.now p.0 result }
{
    let at = (6 + 40 * p.0) as usize;
    RegionsFields::fields(t[at])
}

// their word, for who walks it to where none is left
pub fn regions_word(t: &[u64; 641], p: Partition) -> u64
    requires { p.0 < 16 }
    ensures { result ≡ regions_word_at t.now p.0 }
{
    let at = (6 + 40 * p.0) as usize;
    t[at]
}

pub fn entry(t: &[u64; 641], p: Partition, i: Slot) -> SlotFields
    requires { (p.0 < 16) × (i.0 < 32) }
    ensures { Seen t.now p.0 i.0 result }
{
    let at = (9 + 40 * p.0 + i.0) as usize;
    SlotFields::fields(t[at])
}

// the word of a slot, as find and read region answer it
pub fn entry_word(t: &[u64; 641], p: Partition, i: Slot) -> u64
    requires { CanRead t.now p.0 i.0 }
    ensures { result ≡ slot_word ((view t.now).k.slot p.0 i.0) ((view t.now).opened p.0 i.0) }
{
    let at = (9 + 40 * p.0 + i.0) as usize;
    t[at]
}
