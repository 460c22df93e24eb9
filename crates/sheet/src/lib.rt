#![tactic(auto)]

ghost use Rattle.std.specs.Prelude.{◌≡◌, ◌^◌, ◌<◌, length};
ghost use Rattle.tables.specs.View.{view};
ghost use Rattle.sound.specs.Whole.{Right};
ghost use Rattle.sheetrules.specs.Sheet.{lines_word, sheet_of};
ghost use Rattle.summing.specs.Sums.{ChildrenTo, masks_with};
ghost use Rattle.sheetrules.specs.Bytes.{sheet_bytes, pair_put};

// A sheet beside the table: two words a partition, worked out of its record, for diagnostics that would scan the whole table else.
pub mod calls;
pub mod kept;

use summing::pairs;
use words::Partition;

// Puts the two words of p, with these children, to their place.
fn put_pair(t: &[u64; 641], p: Partition, children: u32, sheet: &mut [u8])
    requires { (p.0 < 16) × (children < 2 ^ 16) × (length sheet.old ≡ 256) × Right (view t.now) }
    ensures { sheet.new ≡ pair_put sheet.old p.0 (masks_with children (view t.now) p.0) (lines_word (view t.now) p.0) }
{
    let x = pairs::words_of(t, p, children);
    let at = (16 * p.0) as usize;
    memory::put(sheet, at, x.masks);
    memory::put(sheet, at + 8, x.lines);
}

// .. those of all.
fn put_pairs(t: &[u64; 641], masks: &[u32; 16], sheet: &mut [u8])
    requires { ChildrenTo (view t.now).k 16 masks.now × (length sheet.old ≡ 256) × Right (view t.now) }
    ensures { sheet.new ≡ sheet_bytes (sheet_of (view t.now)) }
{
    for p in 0..16 {
        let children = pairs::mask_of(masks, Partition(p));
        put_pair(t, Partition(p), children, sheet);
    }
}

// Writes the sheet of the table, over any bytes.
pub fn write_sheet(t: &[u64; 641], sheet: &mut [u8])
    requires { (length sheet.old ≡ 256) × Right (view t.now) }
    ensures { sheet.new ≡ sheet_bytes (sheet_of (view t.now)) }
{
    let mut masks = [0u32; 16];
    pairs::children(t, &mut masks);
    put_pairs(t, &masks, sheet);
}
