ghost use Rattle.std.specs.Prelude.{◌≡◌, true, ◌+◌, ◌^◌, ◌≤◌, ◌<◌, length, replicate};
ghost use Rattle.loops.specs.Loops.{bit_of, map_of};
ghost use Rattle.tables.specs.View.{view};
ghost use Rattle.tables.specs.Search.{present};
ghost use Rattle.sound.specs.Whole.{Right};
ghost use Rattle.sheetrules.specs.Sheet.{structured, lines_word};
ghost use Rattle.summing.specs.Sums.{masks_with, word_in, Adding, mask_of, ChildrenTo, WordsIfRight};

use crate::sums::Sums;
use words::lines_word::LinesFields;
use words::masks_word::MasksFields;
use words::{Packed, Partition, Refusal};

// The two words of a partition.
#[derive(Clone, Copy)]
pub struct Pair {
    pub masks: u64,
    pub lines: u64,
}

// c joins the mask of its parent, if it is a child; bit is that of c.
fn note_child(t: &[u64; 641], c: Partition, bit: u32, masks: &mut [u32; 16])
    requires { (c.0 < 16) × (bit ≡ 2 ^ c.0) × ChildrenTo (view t.now).k c.0 masks.old }
    ensures { ChildrenTo (view t.now).k (c.0 + 1) masks.new }
{
    let h = tables::read::header(t, c);
    if !h.present {
        return;
    }
    if c.0 == 0 {
        return;
    }
    let p = h.parent.0 as usize;
    masks[p] = masks[p] + bit;
}

// The children of every partition as masks, in one walk over the headers.
pub fn children(t: &[u64; 641], masks: &mut [u32; 16])
    requires { masks.old ≡ replicate 16 0 }
    ensures { ChildrenTo (view t.now).k 16 masks.new }
{
    let mut bit = 1u32;
    for c in 0..16 {
        note_child(t, Partition(c), bit, masks);
        bit = 2 * bit;
    }
}

// the mask of p among those of all
pub fn mask_of(masks: &[u32; 16], p: Partition) -> u32
    requires { (p.0 < 16) × (length masks.now ≡ 16) }
    ensures { result ≡ mask_of masks.now p.0 }
{
    let at = p.0 as usize;
    masks[at]
}

// 1 where structure j of p is present
fn structure_bit(t: &[u64; 641], p: Partition, j: u32) -> u32
    requires { (p.0 < 16) × (j < 4) }
    ensures { (result ≡ bit_of (structured (view t.now).k p.0 j)) × (result ≤ 1) }
{
    let s = tables::read::structure(t, p, j);
    if s.present { 1 } else { 0 }
}

// The present structures of p as a mask, from the last number down: each turn moves what is there one bit up and puts the next number below it.
fn structures(t: &[u64; 641], p: Partition) -> u32
    requires { p.0 < 16 }
    ensures { result ≡ map_of 4 (structured (view t.now).k p.0) }
{
    let mut mask = 0u32;
    for j in (0..4).rev() {
        mask = 2 * mask + structure_bit(t, p, j);
    }
    mask
}

// The word; a refusal, which no caller meets, is none.
fn word_in(w: Result<u64, Refusal>) -> u64
    ensures { result ≡ word_in w }
{
    w.unwrap_or(0)
}

// The two words of p, which is present, from what was gathered of its slots and the mask of its children.
pub fn words_from(t: &[u64; 641], p: Partition, children: u32, x: Sums) -> Pair
    requires { (p.0 < 16) × (children < 2 ^ 16) × (present (view t.now).k p.0 ≡ true) × Adding (view t.now) p.0 0 x }
    ensures { WordsIfRight (view t.now) p.0 children result }
{
    let masks = MasksFields {
        children,
        slots: x.slots,
        structures: structures(t, p),
    }
    .write();
    let lines = LinesFields {
        held: x.held,
        opened: x.opened,
    }
    .write();
    Pair {
        masks: word_in(masks),
        lines: word_in(lines),
    }
}

// .. worked out of its record: an absent partition's are zero
pub fn words_of(t: &[u64; 641], p: Partition, children: u32) -> Pair
    requires { (p.0 < 16) × (children < 2 ^ 16) × Right (view t.now) }
    ensures { (result.masks ≡ masks_with children (view t.now) p.0) × (result.lines ≡ lines_word (view t.now) p.0) }
{
    if !searching::is_present(t, p) {
        return Pair { masks: 0, lines: 0 };
    }
    let x = crate::sums::gather(t, p);
    words_from(t, p, children, x)
}
