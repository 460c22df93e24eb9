#![tactic(auto)]

ghost use Rattle.std.specs.Prelude.{◌≡◌, ◌+◌, ◌*◌, ◌<◌, length};
ghost use Rattle.tables.specs.View.{view};
ghost use Rattle.tables.specs.Top.{Top};
ghost use Rattle.shape.specs.AtOnce.{Shaped};
ghost use Rattle.marking.specs.Backing.{area_between};
ghost use Rattle.marking.specs.Marking.{is_now, Marks, MarksEither, MarkedTo, CanMark, MarkSays};
// S8: each area marks the not-given entry that it equals, of its owner or of the owner's parent.
pub mod backing;

use crate::backing::equal_slot;
use shape::is_rooted;
use tables::{masks, read};
use words::{Line, Partition, Slot};

// What came of the mark for an entry that equals an area: there is none, it is marked, or it was marked before.
#[derive(Clone, Copy)]
enum Mark {
    Nobody,
    Now,
    Before,
}

// No derived ==: it compares with a constant in memory, which the library for Arm may not have (arm/known.awk).
fn is_now(m: Mark) -> bool
    ensures { result ≡ is_now m }
{
    matches!(m, Mark::Now)
}

// The not-given entry of q that equals lo to hi is marked.
fn mark_equal(t: &[u64; 641], q: Partition, lo: Line, hi: Line, mark: &mut [u32; 16]) -> Mark
    requires { (q.0 < 16) × Shaped t.now × (length mark.old ≡ 16) }
    ensures { Marks (view t.now).k q.0 (area_between lo.0 hi.0) mark.old result mark.new }
{
    let Some(i) = equal_slot(t, q, lo, hi) else {
        return Mark::Nobody;
    };
    let k = q.0 as usize;
    if masks::has_slot(mark[k], i) {
        return Mark::Before;
    }
    mark[k] = masks::with_slot(mark[k], i);
    Mark::Now
}

// the header's area of p marks an entry of its parent
fn mark_header(t: &[u64; 641], p: Partition, mark: &mut [u32; 16]) -> bool
    requires { CanMark t.now p.0 0 mark.old }
    ensures { MarkSays (view t.now).k (5 * p.0 + 1) result mark.new }
{
    if is_rooted(p, 0) {
        return true;
    }
    let h = read::header(t, p);
    if !h.present {
        return true;
    }
    is_now(mark_equal(t, h.parent, h.start, h.end, mark))
}

// The not-given entry that equals lo to hi is marked: of `one`, or, where that has none, of `other`.
fn mark_either(
    t: &[u64; 641],
    one: Partition,
    other: Partition,
    lo: Line,
    hi: Line,
    mark: &mut [u32; 16],
) -> bool
    requires { (one.0 < 16) × (other.0 < 16) × Shaped t.now × (length mark.old ≡ 16) }
    ensures { MarksEither (view t.now).k one.0 other.0 (area_between lo.0 hi.0) mark.old result mark.new }
{
    match mark_equal(t, one, lo, hi, mark) {
        Mark::Nobody => is_now(mark_equal(t, other, lo, hi, mark)),
        Mark::Now => true,
        Mark::Before => false,
    }
}

// The area of p's first structure marks an entry of p or of its parent. It is nearly always the parent's, which made p and gave it its first slots: so the parent is
// asked first where the area lies before what p has in slot 0.
fn mark_first(t: &[u64; 641], p: Partition, mark: &mut [u32; 16]) -> bool
    requires { CanMark t.now p.0 1 mark.old }
    ensures { MarkSays (view t.now).k (5 * p.0 + 2) result mark.new }
{
    if is_rooted(p, 1) {
        return true;
    }
    let f = read::structure(t, p, 0);
    if !f.present {
        return true;
    }
    let h = read::header(t, p);
    let e = read::entry(t, p, Slot(0));
    if f.start.0 < e.start.0 {
        return mark_either(t, h.parent, p, f.start, f.end, mark);
    }
    mark_either(t, p, h.parent, f.start, f.end, mark)
}

// area j of p, of a later structure, marks an entry of p or of its parent
fn mark_later(t: &[u64; 641], p: Partition, j: u32, mark: &mut [u32; 16]) -> bool
    requires { (1 < j) × (j < 5) × CanMark t.now p.0 j mark.old }
    ensures { MarkSays (view t.now).k (5 * p.0 + (j + 1)) result mark.new }
{
    let f = read::structure(t, p, j - 1);
    if !f.present {
        return true;
    }
    let h = read::header(t, p);
    mark_either(t, p, h.parent, f.start, f.end, mark)
}

// the five areas of p; an absent partition costs only the test that it is
fn mark_areas(t: &[u64; 641], p: Partition, mark: &mut [u32; 16]) -> bool
    requires { CanMark t.now p.0 0 mark.old }
    ensures { MarkSays (view t.now).k (5 * (p.0 + 1)) result mark.new }
{
    if !searching::is_present(t, p) {
        return true;
    }
    if !mark_header(t, p, mark) {
        return false;
    }
    if !mark_first(t, p, mark) {
        return false;
    }
    for j in 2..5 {
        if !mark_later(t, p, j, mark) {
            return false;
        }
    }
    true
}

// Each area marks the not-given entry that it equals, none twice.
pub fn mark_all(t: &[u64; 641], top: u32, mark: &mut [u32; 16]) -> bool
    requires { Top t.now top × Shaped t.now × MarkedTo (view t.now).k 0 mark.old }
    ensures { MarkSays (view t.now).k 80 result mark.new }
{
    for p in 0..top {
        if !mark_areas(t, Partition(p), mark) {
            return false;
        }
    }
    true
}
