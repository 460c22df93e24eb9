ghost use Rattle.std.specs.Prelude.{◌≡◌, ◌&&◌, ◌/◌, ◌^◌, ◌<◌};
ghost use Rattle.loops.specs.Loops.{all};
ghost use Rattle.words.specs.Kind.{fields_in};
ghost use Rattle.words.specs.Words.{regions};
ghost use Rattle.tables.specs.View.{nth_region, view};
ghost use Rattle.sound.specs.Clauses.{is_nowhere, s1, s2_root, s2, blank_region, s3_regions, s3_first, s3, s4, s5_slot, s5};
ghost use Rattle.shape.specs.Records.{area_test, header_test, structure_test, slots_test, HasStructure};

use crate::is_rooted;
use tables::zeros;
use words::regions_word::{Region, first_region, later_regions};
use words::{Line, Partition, Slot};

// S1, and S3 of word 0
pub fn first_sound(t: &[u64; 641]) -> bool
    ensures { result ≡ s1 (view t.now).k && s3_first t.now }
{
    let f = tables::read::first(t);
    if f.base.0 >= f.end.0 {
        return false;
    }
    if !searching::is_present(t, f.current) {
        return false;
    }
    zeros::first_bits(t)
}

fn is_nowhere(a: Line, b: Line) -> bool
    ensures { result ≡ is_nowhere (record { lo = a.0; hi = b.0 }) }
{
    if a.0 != 0 {
        return false;
    }
    b.0 == 0
}

// S2 of the root: area 0, 0 and parent 0
fn root_sound(t: &[u64; 641], p: Partition) -> bool
    requires { p.0 < 16 }
    ensures { result ≡ s2_root (view t.now).k p.0 }
{
    let h = tables::read::header(t, p);
    if !h.present {
        return false;
    }
    if !is_nowhere(h.start, h.end) {
        return false;
    }
    h.parent.0 == 0
}

// S2: an absent partition is 40 zero words; from a present one the walk up to the root ends within 15 steps
pub fn family_sound(t: &[u64; 641], p: Partition) -> bool
    requires { p.0 < 16 }
    ensures { result ≡ s2 t.now (view t.now).k p.0 }
{
    if p.0 == 0 {
        return root_sound(t, p);
    }
    let h = tables::read::header(t, p);
    if !h.present {
        return settling::areas::zero_record(t, p);
    }
    if !searching::is_present(t, h.parent) {
        return false;
    }
    if is_nowhere(h.start, h.end) {
        return false;
    }
    let mut way = 0u64;
    searching::climb::climb(t, p, 15, &mut way)
}

// a to b as area j of p: 0, 0 at the root, elsewhere 16 lines or more
fn area_sound(p: Partition, j: u32, a: Line, b: Line) -> bool
    requires { a.0 < 2 ^ 27 }
    ensures { result ≡ area_test p.0 j (record { lo = a.0; hi = b.0 }) }
{
    if is_rooted(p, j) {
        return is_nowhere(a, b);
    }
    a.0 + 16 <= b.0
}

// S3 and S4 of the header
pub fn header_sound(t: &[u64; 641], p: Partition) -> bool
    requires { p.0 < 16 }
    ensures { result ≡ header_test t.now (view t.now).k p.0 }
{
    if !zeros::header_bits(t, p) {
        return false;
    }
    let h = tables::read::header(t, p);
    if !h.present {
        return true;
    }
    area_sound(p, 0, h.start, h.end)
}

// S3 and S4 of structure j; an absent one is a zero word
fn structure_sound(t: &[u64; 641], p: Partition, j: u32) -> bool
    requires { (p.0 < 16) × (j < 4) }
    ensures { result ≡ structure_test t.now (view t.now).k p.0 j }
{
    if !zeros::structure_bits(t, p, j) {
        return false;
    }
    let s = tables::read::structure(t, p, j);
    if s.present {
        return area_sound(p, 1 + j, s.start, s.end);
    }
    if !zeros::structure_word(t, p, j) {
        return false;
    }
    !is_rooted(p, 1 + j)
}

// .. of all four
pub fn structures_sound(t: &[u64; 641], p: Partition) -> bool
    requires { p.0 < 16 }
    ensures { result ≡ all 4 (structure_test t.now (view t.now).k p.0) }
{
    for j in 0..4 {
        if !structure_sound(t, p, j) {
            return false;
        }
    }
    true
}

// a region that is not loaded names slot 0
fn is_blank(x: Region) -> bool
    ensures { result ≡ blank_region x }
{
    if x.loaded {
        return true;
    }
    x.slot.0 == 0
}

// .. all eight of the word w do so: it is walked only as far as something is left of it
fn all_blank(w: u64) -> bool
    ensures { result ≡ all 8 (λ i. blank_region (nth_region (fields_in regions w) i)) }
{
    let mut left = w;
    while left > 0 {
        if !is_blank(first_region(left)) {
            return false;
        }
        left = later_regions(left);
    }
    true
}

// S3 of the regions
pub fn regions_sound(t: &[u64; 641], p: Partition) -> bool
    requires { p.0 < 16 }
    ensures { result ≡ s3_regions t.now p.0 }
{
    if !zeros::regions_bits(t, p) {
        return false;
    }
    all_blank(tables::read::regions_word(t, p))
}

// S5 of slot i, whose structure is present: a zero word, or an entry, start < end
pub fn slot_sound(t: &[u64; 641], p: Partition, i: Slot) -> bool
    requires { (p.0 < 16) × (i.0 < 32) × HasStructure t.now p.0 (i.0 / 8) }
    ensures { result ≡ s5_slot t.now (view t.now).k p.0 i.0 }
{
    if zeros::slot_word(t, p, i) {
        return true;
    }
    let f = tables::read::entry(t, p, i);
    if !f.present {
        return false;
    }
    f.start.0 < f.end.0
}

// .. of the eight of structure j, which is present
fn eight_sound(t: &[u64; 641], p: Partition, j: u32) -> bool
    requires { (p.0 < 16) × (j < 4) × HasStructure t.now p.0 j }
    ensures { result ≡ slots_test t.now (view t.now).k p.0 j }
{
    for o in 0..8 {
        if !slot_sound(t, p, Slot(8 * j + o)) {
            return false;
        }
    }
    true
}

// .. of structure j; those of an absent one are zero words, told without a branch for each
fn structure_slots(t: &[u64; 641], p: Partition, j: u32) -> bool
    requires { (p.0 < 16) × (j < 4) }
    ensures { result ≡ slots_test t.now (view t.now).k p.0 j }
{
    let s = tables::read::structure(t, p, j);
    if s.present {
        return eight_sound(t, p, j);
    }
    zeros::slot_words(t, p, j)
}

// .. of all 32
pub fn slots_sound(t: &[u64; 641], p: Partition) -> bool
    requires { p.0 < 16 }
    ensures { result ≡ all 32 (s5_slot t.now (view t.now).k p.0) }
{
    for j in 0..4 {
        if !structure_slots(t, p, j) {
            return false;
        }
    }
    true
}

// S3, S4 and S5: each word is looked at once
pub fn record_sound(t: &[u64; 641], p: Partition) -> bool
    requires { p.0 < 16 }
    ensures { result ≡ s3 t.now p.0 && s4 t.now (view t.now).k p.0 && s5 t.now (view t.now).k p.0 }
{
    if !header_sound(t, p) {
        return false;
    }
    if !structures_sound(t, p) {
        return false;
    }
    if !regions_sound(t, p) {
        return false;
    }
    if !zeros::blank_words(t, p) {
        return false;
    }
    slots_sound(t, p)
}
