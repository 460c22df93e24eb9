ghost use Rattle.std.specs.Prelude.{◌≡◌, ◌+◌, ◌*◌, ◌<◌, eqb};
ghost use Rattle.loops.specs.Loops.{all};
ghost use Rattle.words.specs.Kind.{zeroed};
ghost use Rattle.words.specs.Words.{first, header, structure, regions};
ghost use Rattle.tables.specs.View.{first_word, record_word, area_word_at, regions_word_at, slot_word_at};
ghost use Rattle.tables.specs.ZeroRecord.{zero_blanks};

use words::first_word::FirstFields;
use words::header_word::HeaderFields;
use words::regions_word::no_zero_bit;
use words::structure_word::StructureFields;
use words::{Packed, Partition, Slot};

// What soundness asks of words beside their fields: that no zero bit is set (a slot has none), or that the whole word is zero.

// word o of the 40 of p
fn word(t: &[u64; 641], p: Partition, o: u32) -> u64
    requires { (p.0 < 16) × (o < 40) }
    ensures { result ≡ record_word t.now p.0 o }
{
    let at = (1 + 40 * p.0 + o) as usize;
    t[at]
}

// no zero bit is set in the word of base, end and current
pub fn first_bits(t: &[u64; 641]) -> bool
    ensures { result ≡ zeroed first (first_word t.now) }
{
    FirstFields::zero_bits(t[0]) == 0
}

// .. in that of p's header
pub fn header_bits(t: &[u64; 641], p: Partition) -> bool
    requires { p.0 < 16 }
    ensures { result ≡ zeroed header (area_word_at t.now p.0 0) }
{
    HeaderFields::zero_bits(word(t, p, 0)) == 0
}

// .. in that of structure j
pub fn structure_bits(t: &[u64; 641], p: Partition, j: u32) -> bool
    requires { (p.0 < 16) × (j < 4) }
    ensures { result ≡ zeroed structure (area_word_at t.now p.0 (1 + j)) }
{
    StructureFields::zero_bits(word(t, p, 1 + j)) == 0
}

// .. in that of the regions
pub fn regions_bits(t: &[u64; 641], p: Partition) -> bool
    requires { p.0 < 16 }
    ensures { result ≡ zeroed regions (regions_word_at t.now p.0) }
{
    no_zero_bit(word(t, p, 5))
}

// the word of structure j is zero
pub fn structure_word(t: &[u64; 641], p: Partition, j: u32) -> bool
    requires { (p.0 < 16) × (j < 4) }
    ensures { result ≡ eqb (area_word_at t.now p.0 (1 + j)) 0 }
{
    word(t, p, 1 + j) == 0
}

// .. that of the regions
pub fn regions_word(t: &[u64; 641], p: Partition) -> bool
    requires { p.0 < 16 }
    ensures { result ≡ eqb (regions_word_at t.now p.0) 0 }
{
    word(t, p, 5) == 0
}

// .. that of slot i
pub fn slot_word(t: &[u64; 641], p: Partition, i: Slot) -> bool
    requires { (p.0 < 16) × (i.0 < 32) }
    ensures { result ≡ eqb (slot_word_at t.now p.0 i.0) 0 }
{
    word(t, p, 8 + i.0) == 0
}

// .. those of the eight slots of structure j
pub fn slot_words(t: &[u64; 641], p: Partition, j: u32) -> bool
    requires { (p.0 < 16) × (j < 4) }
    ensures { result ≡ all 8 (λ o. eqb (slot_word_at t.now p.0 (8 * j + o)) 0) }
{
    let at = (9 + 40 * p.0 + 8 * j) as usize;
    let mut x = 0u64;
    for o in 0..8 {
        x |= t[at + o];
    }
    x == 0
}

// .. the two words that hold nothing
pub fn blank_words(t: &[u64; 641], p: Partition) -> bool
    requires { p.0 < 16 }
    ensures { result ≡ zero_blanks t.now p.0 }
{
    let x = word(t, p, 6) | word(t, p, 7);
    x == 0
}
