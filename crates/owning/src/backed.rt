ghost use Rattle.std.specs.Prelude.{◌≡◌, ◌<◌};
ghost use Rattle.loops.specs.Loops.{all};
ghost use Rattle.tables.specs.View.{view};
ghost use Rattle.sound.specs.Clauses.{equals, s8_backed};
ghost use Rattle.shape.specs.AtOnce.{Shaped};
ghost use Rattle.marking.specs.Backing.{area_between};

use shape::is_rooted;
use tables::read;
use words::{Line, Partition};

// q has a not-given entry that equals lo to hi
fn has_equal(t: &[u64; 641], q: Partition, lo: Line, hi: Line) -> bool
    requires { (q.0 < 16) × Shaped t.now }
    ensures { result ≡ equals (view t.now).k q.0 (area_between lo.0 hi.0) }
{
    marking::backing::equal_slot(t, q, lo, hi).is_some()
}

// the header's area of p is an entry of its parent
fn header_backed(t: &[u64; 641], p: Partition) -> bool
    requires { (p.0 < 16) × Shaped t.now }
    ensures { result ≡ s8_backed (view t.now).k p.0 0 }
{
    if is_rooted(p, 0) {
        return true;
    }
    let h = read::header(t, p);
    if !h.present {
        return true;
    }
    has_equal(t, h.parent, h.start, h.end)
}

// area j of p, a structure's, is an entry of p or of its parent
fn structure_backed(t: &[u64; 641], p: Partition, j: u32) -> bool
    requires { (p.0 < 16) × (0 < j) × (j < 5) × Shaped t.now }
    ensures { result ≡ s8_backed (view t.now).k p.0 j }
{
    if is_rooted(p, j) {
        return true;
    }
    let f = read::structure(t, p, j - 1);
    if !f.present {
        return true;
    }
    if has_equal(t, p, f.start, f.end) {
        return true;
    }
    let h = read::header(t, p);
    has_equal(t, h.parent, f.start, f.end)
}

// the five areas of p are entries
pub fn areas_backed(t: &[u64; 641], p: Partition) -> bool
    requires { (p.0 < 16) × Shaped t.now }
    ensures { result ≡ all 5 (s8_backed (view t.now).k p.0) }
{
    if !header_backed(t, p) {
        return false;
    }
    for j in 1..5 {
        if !structure_backed(t, p, j) {
            return false;
        }
    }
    true
}
