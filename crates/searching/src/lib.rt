#![tactic(auto)]

ghost use Rattle.std.specs.Prelude.{◌≡◌, ◌*◌, ◌≤◌, ◌<◌};
ghost use Rattle.loops.specs.Loops.{bit_of, map_from, map_of};
ghost use Rattle.tables.specs.View.{view};
ghost use Rattle.tables.specs.Search.{lowest, present, child, has_child, absent_child, no_structure, is_none, free, given_in, holds, look_for};
ghost use Rattle.tables.specs.Answers.{found_of, looked_of, which_of, structure_of};
// What a table is asked: who is present, whose child, which slot is free, where a line is held; and the way from a partition to the root.
pub mod climb;

use tables::Looked;
use words::{Line, Partition, Slot};

// p is present
pub fn is_present(t: &[u64; 641], p: Partition) -> bool
    requires { p.0 < 16 }
    ensures { result ≡ present (view t.now).k p.0 }
{
    let h = tables::read::header(t, p);
    h.present
}

// c is a child of p
pub fn is_child(t: &[u64; 641], p: Partition, c: Partition) -> bool
    requires { c.0 < 16 }
    ensures { result ≡ child (view t.now).k p.0 c.0 }
{
    let h = tables::read::header(t, c);
    if !h.present {
        return false;
    }
    if c.0 == 0 {
        return false;
    }
    h.parent == p
}

// some partition is a child of p
pub fn has_child(t: &[u64; 641], p: Partition) -> bool
    ensures { result ≡ has_child (view t.now).k p.0 }
{
    for c in 0..16 {
        if is_child(t, p, Partition(c)) {
            return true;
        }
    }
    false
}

// the lowest of 1 to 15 that is absent
pub fn absent_partition(t: &[u64; 641]) -> Option<Partition>
    ensures { result ≡ which_of (lowest 16 (absent_child (view t.now).k)) }
{
    for n in 1..16 {
        if !is_present(t, Partition(n)) {
            return Some(Partition(n));
        }
    }
    None
}

// the lowest structure of p that is absent
pub fn absent_structure(t: &[u64; 641], p: Partition) -> Option<u32>
    requires { p.0 < 16 }
    ensures { result ≡ structure_of (lowest 4 (no_structure (view t.now).k p.0)) }
{
    for j in 0..4 {
        let s = tables::read::structure(t, p, j);
        if !s.present {
            return Some(j);
        }
    }
    None
}

// 1 where slot i of p has no entry, 0 where it has one
fn empty_bit(t: &[u64; 641], p: Partition, i: Slot) -> u32
    requires { (p.0 < 16) × (i.0 < 32) }
    ensures { (result ≡ bit_of (is_none ((view t.now).k.slot p.0 i.0))) × (result ≤ 1) }
{
    let f = tables::read::entry(t, p, i);
    if f.present { 0 } else { 1 }
}

// Byte j of the map, from its last slot down: each turn moves what is there one bit up and puts the next slot below it.
// No slot of an absent structure is free, which one test tells.
fn free_byte(t: &[u64; 641], p: Partition, j: u32) -> u32
    requires { (p.0 < 16) × (j < 4) }
    ensures { (result ≡ map_from (free (view t.now).k p.0) (8 * j) 8) × (result < 256) }
{
    let s = tables::read::structure(t, p, j);
    if !s.present {
        return 0;
    }
    let mut byte = 0u32;
    for i in (8 * j..8 * j + 8).rev() {
        byte = 2 * byte + empty_bit(t, p, Slot(i));
    }
    byte
}

// The free slots of p as a map of 32 bits: bit i, bit 0 the least significant, is 1 where slot i is free. A slot is free if its structure is
// present and it has no entry. Structure j has slots 8 j to 8 j + 7, and so byte j of the map.
// Say structures 0 and 2 are present, and slots 0 to 7, 16 and 18 have entries. Byte 0 is 00: all its slots are taken. Bytes 1 and 3 are 00:
// their structures are absent. Byte 2 is fa, in bits 1111 1010: of slots 23 down to 16 all are free but 18 and 16. The map is 0x00fa0000.
fn free_map(t: &[u64; 641], p: Partition) -> u32
    requires { p.0 < 16 }
    ensures { result ≡ map_of 32 (free (view t.now).k p.0) }
{
    free_byte(t, p, 0)
        + 256 * (free_byte(t, p, 1) + 256 * (free_byte(t, p, 2) + 256 * free_byte(t, p, 3)))
}

// The lowest free slot of p is the count of the trailing zeros of that map: 0x00fa0000 ends in 17 zeros, so slot 17. Where no slot is free
// the map is 0, and the count 32.
pub fn free_slot(t: &[u64; 641], p: Partition) -> Option<Slot>
    requires { p.0 < 16 }
    ensures { result ≡ found_of (lowest 32 (free (view t.now).k p.0)) }
{
    let i = u32::trailing_zeros(free_map(t, p));
    if i == 32 {
        return None;
    }
    Some(Slot(i))
}

// slot i of p holds the line
fn holds_line(t: &[u64; 641], p: Partition, i: Slot, l: Line) -> bool
    requires { (p.0 < 16) × (i.0 < 32) }
    ensures { result ≡ holds l.0 ((view t.now).k.slot p.0 i.0) }
{
    let f = tables::read::entry(t, p, i);
    if !f.present {
        return false;
    }
    if f.start.0 > l.0 {
        return false;
    }
    l.0 < f.end.0
}

// The lowest slot of p whose entry holds the line, and how many slot words were looked at: slots 0 up to that one, those without an entry
// and those of absent structures counted, or all 32 where none holds it.
pub fn holding_slot(t: &[u64; 641], p: Partition, l: Line) -> Looked
    requires { p.0 < 16 }
    ensures { result ≡ looked_of (look_for (view t.now).k l.0 p.0) }
{
    for s in 0..32 {
        if holds_line(t, p, Slot(s), l) {
            return Looked {
                found: Some(Slot(s)),
                count: s + 1,
            };
        }
    }
    Looked {
        found: None,
        count: 32,
    }
}

// The partition that slot i of p is given to; 0 where it has no entry.
pub fn given_to(t: &[u64; 641], p: Partition, i: Slot) -> Partition
    requires { (p.0 < 16) × (i.0 < 32) }
    ensures { (result.0 ≡ given_in ((view t.now).k.slot p.0 i.0)) × (result.0 < 16) }
{
    let f = tables::read::entry(t, p, i);
    if !f.present {
        return Partition(0);
    }
    f.given
}
