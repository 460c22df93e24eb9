ghost use Rattle.std.specs.Prelude.{◌≡◌, true, not, ◌||◌, ◌<◌, eqb};
ghost use Rattle.tables.specs.View.{view};
ghost use Rattle.sound.specs.Clauses.{s1, s3, s4, s6, clause_at};
ghost use Rattle.shape.specs.AtOnce.{Shaped};
ghost use Rattle.verdict.specs.Stages.{lowest_of, Reached};

use shape::records;
use shapes::Board;
use words::Partition;

// S1, which is looked at with partition 0
fn range_at(t: &[u64; 641], p: Partition) -> bool
    ensures { result ≡ (not (eqb p.0 0) || s1 (view t.now).k) }
{
    if p.0 != 0 {
        return true;
    }
    let f = tables::read::first(t);
    if f.base.0 >= f.end.0 {
        return false;
    }
    searching::is_present(t, f.current)
}

// S4 at p; no zero bit of p is set
fn areas_at(t: &[u64; 641], p: Partition) -> bool
    requires { (p.0 < 16) × (s3 t.now p.0 ≡ true) }
    ensures { result ≡ s4 t.now (view t.now).k p.0 }
{
    if !records::header_sound(t, p) {
        return false;
    }
    records::structures_sound(t, p)
}

// S6 at p
fn apart_at(t: &[u64; 641], p: Partition) -> bool
    requires { (p.0 < 16) × Shaped t.now }
    ensures { result ≡ s6 (view t.now).k p.0 }
{
    let mut slots = [0u8; 512];
    ordering::arrange::arrange_record(t, p, &mut slots).is_some()
}

// Clause n at p, of S1 to S6; the clauses below it hold. No closures: its number is part of the answer, and each clause takes other arguments.
fn holds(board: Board, t: &[u64; 641], n: u32, p: Partition) -> bool
    requires { (p.0 < 16) × (n < 7) × Reached board t.now n }
    ensures { result ≡ clause_at board t.now n p.0 }
{
    if n <= 1 {
        return range_at(t, p);
    }
    if n <= 2 {
        return records::family_sound(t, p);
    }
    if n <= 3 {
        return crate::bits::clean_at(t, p);
    }
    if n <= 4 {
        return areas_at(t, p);
    }
    if n <= 5 {
        return records::slots_sound(t, p);
    }
    apart_at(t, p)
}

// The lowest of the first 96 tests that fails.
pub fn lowest(board: Board, t: &[u64; 641]) -> Option<u32>
    ensures { result ≡ lowest_of board t.now 96 }
{
    for m in 0..96 {
        if !holds(board, t, 1 + m / 16, Partition(m % 16)) {
            return Some(m);
        }
    }
    None
}
