#![tactic(auto)]

ghost use Rattle.std.specs.Prelude.{◌≡◌, not, ◌||◌, ◌/◌, ◌%◌, ◌<◌, ltb};
ghost use Rattle.loops.specs.Loops.{all};
ghost use Rattle.tables.specs.View.{view};
ghost use Rattle.tables.specs.Settle.{meets, apart};
ghost use Rattle.sound.specs.Clauses.{s8_apart, s8};
ghost use Rattle.shape.specs.AtOnce.{Shaped};
// S8 of one partition: its areas are entries of its own or of its parent, and of two that share a line the lower owner is at fault.
mod backed;

use settling::areas::area;
use words::{Line, Partition};

// a to b and c to d share a line
fn meet(a: Line, b: Line, c: Line, d: Line) -> bool
    ensures { result ≡ meets a.0 b.0 c.0 d.0 }
{
    if a.0 >= b.0 {
        return false;
    }
    if c.0 >= d.0 {
        return false;
    }
    if a.0 >= d.0 {
        return false;
    }
    c.0 < b.0
}

// area number n of the 80 does not come after number m, or shares no line with lo to hi
fn later_off(t: &[u64; 641], m: u32, n: u32, lo: Line, hi: Line) -> bool
    requires { n < 80 }
    ensures { result ≡ (not (ltb m n) || apart ((view t.now).k.area (n / 5) (n % 5)) lo.0 hi.0) }
{
    if m >= n {
        return true;
    }
    let f = area(t, Partition(n / 5), n % 5);
    if !f.present {
        return true;
    }
    !meet(f.start, f.end, lo, hi)
}

// .. each
fn none_later(t: &[u64; 641], m: u32, lo: Line, hi: Line) -> bool
    ensures { result ≡ all 80 (λ n. not (ltb m n) || apart ((view t.now).k.area (n / 5) (n % 5)) lo.0 hi.0) }
{
    for n in 0..80 {
        if !later_off(t, m, n, lo, hi) {
            return false;
        }
    }
    true
}

// area j of p shares no line with one that comes after it: of two owners the lower is at fault
fn area_apart(t: &[u64; 641], p: Partition, j: u32) -> bool
    requires { (p.0 < 16) × (j < 5) }
    ensures { result ≡ s8_apart (view t.now).k p.0 j }
{
    let f = area(t, p, j);
    if !f.present {
        return true;
    }
    none_later(t, 5 * p.0 + j, f.start, f.end)
}

// S8 at p
pub fn owned_at(t: &[u64; 641], p: Partition) -> bool
    requires { (p.0 < 16) × Shaped t.now }
    ensures { result ≡ s8 (view t.now).k p.0 }
{
    if !backed::areas_backed(t, p) {
        return false;
    }
    for j in 0..5 {
        if !area_apart(t, p, j) {
            return false;
        }
    }
    true
}
