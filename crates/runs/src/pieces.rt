ghost use Rattle.std.specs.Prelude.{◌≡◌, ◌<◌, min};
ghost use Rattle.tables.specs.View.{view};
ghost use Rattle.tables.specs.Lines.{Holds};
ghost use Rattle.sound.specs.Core.{Core};
ghost use Rattle.runs.specs.Pieces.{Hopped};
ghost use Rattle.runs.specs.Places.{AllInOrder, Passed};
ghost use Rattle.runs.specs.Ways.{Climbs, Climbed, Standing, Pieced};

use crate::marks::mark_of;
use ordering::order::entry_at;
use words::mark_word::MarkFields;
use words::{Line, Packed, Partition};

// Whom a partition gave its entry that holds a line (0 is nobody), and where that entry ends.
#[derive(Clone, Copy)]
pub struct Hop {
    pub heir: Partition,
    pub end: Line,
}

// Where a piece ends, its deepest holder, and how many steps below the root that is.
#[derive(Clone, Copy)]
pub struct PieceEnd {
    pub end: Line,
    pub deepest: Partition,
    pub depth: usize,
}

// One step of the descent, at a partition that holds the line. All its entries before its place end by the line: the place moves on to the first that does not.
fn hop_at(t: &[u64; 641], order: &[u8; 512], places: &mut [u32; 16], l: Line, p: Partition) -> Hop
    requires { Core (view t.now).k × AllInOrder (view t.now).k order.now × Passed (view t.now).k order.now l.0 places.old × Holds (view t.now).k.slot p.0 l.0 }
    ensures { Hopped (view t.now).k l.0 p.0 result × Passed (view t.now).k order.now l.0 places.new }
{
    let at = p.0 as usize;
    for a in places[at]..32 {
        let f = entry_at(t, p, order, a);
        if l.0 < f.end.0 {
            places[at] = a;
            let heir = f.given;
            let end = f.end;
            return Hop {
                heir: heir,
                end: end,
            };
        }
    }
    // not reached: one of the entries holds the line
    Hop { heir: p, end: l }
}

fn lower(a: Line, b: Line) -> Line
    ensures { result.0 ≡ min a.0 b.0 }
{
    if a.0 < b.0 { a } else { b }
}

// Up the way that led to the piece before, to the lowest partition above which no entry has ended.
// A step of the way is a mark: the lowest end above it, and the partition.
fn climb(way: &[u32; 16], depth: usize, l: Line) -> usize
    requires { Climbs way.now depth l.0 }
    ensures { Climbed way.now depth l.0 result }
{
    for d in (1..=depth).rev() {
        let step = MarkFields::fields(way[d] as u64);
        if l.0 < step.line.0 {
            return d;
        }
    }
    0
}

// The piece that begins at the line: to the first end among the entries that hold it. All its lines have the same deepest holder.
pub fn piece_at(
    t: &[u64; 641],
    order: &[u8; 512],
    places: &mut [u32; 16],
    way: &mut [u32; 16],
    depth: usize,
    l: Line,
) -> PieceEnd
    requires { Core (view t.now).k × AllInOrder (view t.now).k order.now × Standing (view t.now).k order.now l.0 depth places.old way.old }
    ensures { Pieced (view t.now).k order.now l.0 result places.new way.new }
{
    let kept = climb(way, depth, l);
    let step = MarkFields::fields(way[kept] as u64);
    let mut p = step.holder;
    let mut end = step.line;
    for d in kept..15 {
        let h = hop_at(t, order, places, l, p);
        let e = h.end;
        end = lower(end, e);
        let q = h.heir;
        if q.0 == 0 {
            return PieceEnd {
                end: end,
                deepest: p,
                depth: d,
            };
        }
        p = q;
        way[d + 1] = mark_of(end, q);
    }
    PieceEnd {
        end: end,
        deepest: p,
        depth: 15,
    }
}
