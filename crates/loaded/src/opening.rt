ghost use Rattle.std.specs.Prelude.{◌≡◌, ◌≤◌, ◌<◌, IfSome};
ghost use Rattle.tables.specs.View.{view};
ghost use Rattle.sound.specs.Clauses.{s10};
ghost use Rattle.loaded.specs.Opening.{is_open, slot_noted, weight};

use crate::limit::entry_pieces;
use shapes::Board;
use tables::{masks, read};
use words::regions_word::{Region, first_region, later_regions};
use words::{Partition, Slot};

// slot i of p holds an entry that is open
fn is_open(t: &[u64; 641], p: Partition, i: Slot) -> bool
    requires { (p.0 < 16) × (i.0 < 32) }
    ensures { result ≡ is_open (view t.now) p.0 i.0 }
{
    let f = read::entry(t, p, i);
    if f.present {
        return f.opened;
    }
    false
}

// the mask with the slot that a region names
fn noted(mask: u32, x: Region) -> u32
    requires { x.slot.0 < 32 }
    ensures { result ≡ slot_noted mask x }
{
    if !x.loaded {
        return mask;
    }
    masks::with_slot(mask, x.slot)
}

// The pieces of what a region names, unless that is not open, or one of the mask: a region before it names the same.
fn region_weight(board: Board, t: &[u64; 641], p: Partition, mask: u32, x: Region) -> Option<u32>
    requires { (p.0 < 16) × (x.slot.0 < 32) }
    ensures { (result ≡ weight board (view t.now) p.0 mask x) × IfSome result (λ n. n ≤ 52) }
{
    if !x.loaded {
        return Some(0);
    }
    if !is_open(t, p, x.slot) {
        return None;
    }
    if masks::has_slot(mask, x.slot) {
        return None;
    }
    Some(entry_pieces(board, t, p, x.slot))
}

// S10 of p: one walk over its regions, only as far as something is left of their word, for mostly none is loaded
pub fn regions_right(board: Board, t: &[u64; 641], p: Partition) -> bool
    requires { p.0 < 16 }
    ensures { result ≡ s10 board (view t.now) p.0 }
{
    let mut mask = 0u32;
    let mut n = 0u32;
    let mut left = read::regions_word(t, p);
    while left > 0 {
        let x = first_region(left);
        let Some(pieces) = region_weight(board, t, p, mask, x) else {
            return false;
        };
        n += pieces;
        mask = noted(mask, x);
        left = later_regions(left);
    }
    n <= 8
}
