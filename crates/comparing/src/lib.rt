#![tactic(auto)]

ghost use Rattle.std.specs.Prelude.{◌≡◌, true, ◌&&◌, ◌-◌, ◌+◌, ◌*◌, ◌/◌, ◌<◌, length};
ghost use Rattle.loops.specs.Loops.{all};
ghost use Rattle.tables.specs.View.{view};
ghost use Rattle.tables.specs.Search.{present};
ghost use Rattle.tables.specs.Top.{Top};
ghost use Rattle.sound.specs.Clauses.{s3, s4, s5_slot, s5};
ghost use Rattle.shape.specs.Records.{slots_test, HasStructure};
ghost use Rattle.shape.specs.AtOnce.{shape_at, formed};
ghost use Rattle.summing.specs.Sums.{Adding, children_of, ChildrenTo};
ghost use Rattle.sheetrules.specs.Bytes.{pair_is};
ghost use Rattle.comparing.specs.Once.{SlotsChecked, SameTo, ComparedTo};

use shape::records;
use summing::pairs;
use summing::sums::Sums;
use tables::{read, zeros};
use words::{Partition, Slot};

// S1 to S5 decided once more as `decide` does it, and the sheet compared in the same pass: each slot that is found as S5 wants it is added up at once.
// What is compared counts only if the table is sound, which is decided after it.

// What a walk over slots gathered, if all were as S5 wants them: here S5 of slot s, whose structure is present, and the slot joins those above it.
fn check_slot(t: &[u64; 641], p: Partition, s: Slot, x: Sums) -> Option<Sums>
    requires { (p.0 < 16) × HasStructure t.now p.0 (s.0 / 8) × Adding (view t.now) p.0 (s.0 + 1) x }
    ensures { SlotsChecked t.now p.0 s.0 (s5_slot t.now (view t.now).k p.0 s.0) result }
{
    if !records::slot_sound(t, p, s) {
        return None;
    }
    Some(summing::sums::add_slot(t, p, s, x))
}

// .. of the eight of structure j, which is present
fn check_eight(t: &[u64; 641], p: Partition, j: u32, x: Sums) -> Option<Sums>
    requires { (p.0 < 16) × (j < 4) × HasStructure t.now p.0 j × Adding (view t.now) p.0 (8 * j + 8) x }
    ensures { SlotsChecked t.now p.0 (8 * j) (slots_test t.now (view t.now).k p.0 j) result }
{
    let mut sums = x;
    for i in (8 * j..8 * j + 8).rev() {
        sums = check_slot(t, p, Slot(i), sums)?;
    }
    Some(sums)
}

// .. of structure j; the slots of an absent one are zero words
fn check_structure(t: &[u64; 641], p: Partition, j: u32, x: Sums) -> Option<Sums>
    requires { (p.0 < 16) × (j < 4) × Adding (view t.now) p.0 (8 * j + 8) x }
    ensures { SlotsChecked t.now p.0 (8 * j) (slots_test t.now (view t.now).k p.0 j) result }
{
    let s = read::structure(t, p, j);
    if s.present {
        return check_eight(t, p, j, x);
    }
    if !zeros::slot_words(t, p, j) {
        return None;
    }
    Some(Sums {
        slots: 256 * x.slots,
        held: x.held,
        opened: x.opened,
    })
}

// .. of all 32
fn check_slots(t: &[u64; 641], p: Partition) -> Option<Sums>
    requires { p.0 < 16 }
    ensures { SlotsChecked t.now p.0 0 (s5 t.now (view t.now).k p.0) result }
{
    let mut sums = Sums {
        slots: 0,
        held: 0,
        opened: 0,
    };
    for j in (0..4).rev() {
        sums = check_structure(t, p, j, sums)?;
    }
    Some(sums)
}

// These are the two words of p in the sheet.
fn pair_is(sheet: &[u8], p: Partition, masks: u64, lines: u64) -> bool
    requires { (p.0 < 16) × (length sheet.now ≡ 256) }
    ensures { result ≡ pair_is sheet.now p.0 masks lines }
{
    let at = (16 * p.0) as usize;
    if memory::word(sheet, at) != masks {
        return false;
    }
    memory::word(sheet, at + 8) == lines
}

// `same` stays true where these are the two words of p in the sheet.
fn note_pair(sheet: &[u8], p: Partition, masks: u64, lines: u64, same: &mut bool)
    requires { (p.0 < 16) × (length sheet.now ≡ 256) }
    ensures { same.new ≡ (pair_is sheet.now p.0 masks lines && same.old) }
{
    if pair_is(sheet, p, masks, lines) {
        return;
    }
    *same = false;
}

// S3, S4 and S5 of p, which is present and has these children; and its two words are compared.
fn compare_record(
    t: &[u64; 641],
    p: Partition,
    children: u32,
    sheet: &[u8],
    same: &mut bool,
) -> bool
    requires { (p.0 < 16) × (children ≡ children_of (view t.now).k p.0) × (present (view t.now).k p.0 ≡ true) × (length sheet.now ≡ 256) × SameTo sheet.now t.now p.0 same.old }
    ensures { ComparedTo sheet.now t.now (p.0 + 1) (s3 t.now p.0 && s4 t.now (view t.now).k p.0 && s5 t.now (view t.now).k p.0) result same.new }
{
    if !records::header_sound(t, p) {
        return false;
    }
    if !records::structures_sound(t, p) {
        return false;
    }
    if !records::regions_sound(t, p) {
        return false;
    }
    if !zeros::blank_words(t, p) {
        return false;
    }
    let Some(x) = check_slots(t, p) else {
        return false;
    };
    let pair = pairs::words_from(t, p, children, x);
    note_pair(sheet, p, pair.masks, pair.lines, same);
    true
}

// S2 to S5 of p, and its two words are compared: those of who is absent with 0. The records from the top on need no look.
fn compare_partition(
    t: &[u64; 641],
    top: u32,
    p: Partition,
    masks: &[u32; 16],
    sheet: &[u8],
    same: &mut bool,
) -> bool
    requires { Top t.now top × (0 < top) × (p.0 < 16) × ChildrenTo (view t.now).k 16 masks.now × (length sheet.now ≡ 256) × SameTo sheet.now t.now p.0 same.old }
    ensures { ComparedTo sheet.now t.now (p.0 + 1) (shape_at t.now p.0) result same.new }
{
    if p.0 >= top {
        note_pair(sheet, p, 0, 0, same);
        return true;
    }
    if !records::family_sound(t, p) {
        return false;
    }
    if !searching::is_present(t, p) {
        note_pair(sheet, p, 0, 0, same);
        return true;
    }
    let children = pairs::mask_of(masks, p);
    compare_record(t, p, children, sheet, same)
}

// .. of all
fn compare_each(t: &[u64; 641], top: u32, masks: &[u32; 16], sheet: &[u8], same: &mut bool) -> bool
    requires { Top t.now top × (0 < top) × ChildrenTo (view t.now).k 16 masks.now × (length sheet.now ≡ 256) × SameTo sheet.now t.now 0 same.old }
    ensures { ComparedTo sheet.now t.now 16 (all 16 (shape_at t.now)) result same.new }
{
    for p in 0..16 {
        if !compare_partition(t, top, Partition(p), masks, sheet, same) {
            return false;
        }
    }
    true
}

// S1 to S5. Of a table that is sound `same` tells whether the bytes are its sheet.
pub fn is_formed(t: &[u64; 641], top: u32, sheet: &[u8], same: &mut bool) -> bool
    requires { Top t.now top × (length sheet.now ≡ 256) × (same.old ≡ true) }
    ensures { ComparedTo sheet.now t.now 16 (formed t.now) result same.new }
{
    if !records::first_sound(t) {
        return false;
    }
    let mut masks = [0u32; 16];
    pairs::children(t, &mut masks);
    compare_each(t, top, &masks, sheet, same)
}
