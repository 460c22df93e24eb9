ghost use Rattle.std.specs.Prelude.{◌≡◌, ◌<◌, length};
ghost use Rattle.tables.specs.View.{view};
ghost use Rattle.tables.specs.Search.{absent};
ghost use Rattle.sound.specs.Whole.{Right};
ghost use Rattle.rules.specs.Changes.{above};
ghost use Rattle.summing.specs.Sums.{ChildrenTo};
ghost use Rattle.sheet.specs.Touched.{Named, touches, kept_pair, put_those, sheet_kept};
ghost use Rattle.sheetrules.specs.Bytes.{pair_put};
ghost use Rattle.sheet.specs.declared.calls.Whose.TheVariants.{Gone};

use crate::calls::Whose;
use summing::pairs;
use words::masks_word::MasksFields;
use words::{Packed, Partition};

// Puts the two words of p afresh; its children stay as the sheet has them.
fn put_again(t: &[u64; 641], p: Partition, sheet: &mut [u8])
    requires { (p.0 < 16) × (length sheet.old ≡ 256) × Right (view t.now) }
    ensures { sheet.new ≡ kept_pair (view t.now) p.0 sheet.old }
{
    let at = (16 * p.0) as usize;
    let old = MasksFields::fields(memory::word(sheet, at));
    crate::put_pair(t, p, old.children, sheet);
}

// Puts those of p and of all above it.
fn climb_pairs(t: &[u64; 641], masks: &[u32; 16], p: Partition, sheet: &mut [u8])
    requires { (p.0 < 16) × ChildrenTo (view t.now).k 16 masks.now × (length sheet.old ≡ 256) × Right (view t.now) }
    ensures { sheet.new ≡ put_those (above (view t.now).k p.0) (view t.now) sheet.old }
{
    let mut q = p.0;
    for _ in 0..16u32 {
        let children = pairs::mask_of(masks, Partition(q));
        crate::put_pair(t, Partition(q), children, sheet);
        if q == 0 {
            return;
        }
        let h = tables::read::header(t, Partition(q));
        q = h.parent.0;
    }
}

// .. with their children gathered anew
fn put_up(t: &[u64; 641], p: Partition, sheet: &mut [u8])
    requires { (p.0 < 16) × (length sheet.old ≡ 256) × Right (view t.now) }
    ensures { sheet.new ≡ put_those (above (view t.now).k p.0) (view t.now) sheet.old }
{
    let mut masks = [0u32; 16];
    pairs::children(t, &mut masks);
    climb_pairs(t, &masks, p, sheet);
}

// Puts two zero words to the place of p.
fn zero_pair(p: u32, sheet: &mut [u8])
    requires { (p < 16) × (length sheet.old ≡ 256) }
    ensures { sheet.new ≡ pair_put sheet.old p 0 0 }
{
    let at = (16 * p) as usize;
    memory::put(sheet, at, 0);
    memory::put(sheet, at + 8, 0);
}

// .. of all who are absent
fn zero_absent(t: &[u64; 641], sheet: &mut [u8])
    requires { length sheet.old ≡ 256 }
    ensures { sheet.new ≡ put_those (absent (view t.now).k) (view t.now) sheet.old }
{
    for p in 0..16 {
        if !searching::is_present(t, Partition(p)) {
            zero_pair(p, sheet);
        }
    }
}

// Puts those of who is absent, and of the current partition and all above it.
fn put_gone(t: &[u64; 641], sheet: &mut [u8])
    requires { (length sheet.old ≡ 256) × Right (view t.now) }
    ensures { sheet.new ≡ put_those (touches Gone (view t.now).k) (view t.now) sheet.old }
{
    zero_absent(t, sheet);
    let first = tables::read::first(t);
    put_up(t, first.current, sheet);
}

// Brings the sheet up to the table: puts the words of those that were touched.
pub fn keep_sheet(t: &[u64; 641], x: Whose, sheet: &mut [u8])
    requires { (length sheet.old ≡ 256) × Right (view t.now) × Named x }
    ensures { sheet.new ≡ sheet_kept x (view t.now) sheet.old }
{
    match x {
        Whose::Nobody => {}
        Whose::One(p) => put_again(t, p, sheet),
        Whose::Up(p) => put_up(t, p, sheet),
        Whose::Gone => put_gone(t, sheet),
    }
}
