ghost use Rattle.std.specs.Prelude.{◌≡◌, ◌<◌, ◌^◌};
ghost use Rattle.loops.specs.Loops.{any};
ghost use Rattle.tables.specs.View.{view, entry_of};
ghost use Rattle.who.specs.Who.{entry_numbers, names_it, can_number, can_write, shared, place_of};

use shapes::Board;
use words::slot_word::SlotFields;
use words::{Line, Partition, Slot};

// The numbers of the entry that stands in slot s of p.
pub fn entry(board: Board, p: Partition, s: Slot, f: SlotFields) -> [u32; 11]
    requires { f.end.0 < 2 ^ 27 }
    ensures { result ≡ entry_numbers board p.0 s.0 (entry_of f) f.opened }
{
    let pieces = shapes::pieces::piece_count(board, f.start.0, f.end.0);
    [
        p.0,
        s.0,
        f.start.0,
        f.end.0,
        u32::from(f.rights.read),
        u32::from(f.rights.write),
        u32::from(f.rights.execute),
        u32::from(f.opened),
        f.given.0,
        u32::from(f.whole),
        pieces,
    ]
}

// region r of p names slot s
pub fn names(t: &[u64; 641], p: Partition, s: Slot, r: u32) -> bool
    requires { (p.0 < 16) × (r < 8) }
    ensures { result ≡ names_it (view t.now) p.0 s.0 r }
{
    let f = tables::read::regions(t, p);
    let x = tables::regions::nth(f, r);
    if !x.loaded {
        return false;
    }
    x.slot == s
}

// .. one of them does
fn loaded(t: &[u64; 641], p: Partition, s: Slot) -> bool
    requires { p.0 < 16 }
    ensures { result ≡ any 8 (names_it (view t.now) p.0 s.0) }
{
    for r in 0..8 {
        if names(t, p, s, r) {
            return true;
        }
    }
    false
}

// Whether a partition can write into an entry that it has, as the table stands.
#[derive(Clone, Copy, Debug, PartialEq, Eq)]
pub enum CanWrite {
    Closed = 0,
    NoRight = 1,
    ManyPieces = 2,
    IfLoaded = 3,
    IfCurrent = 4,
    Now = 5,
}

// The number that is printed.
impl From<CanWrite> for u32 {
    ghost from_gives = { λ can n. n ≡ can_number can };

    fn from(can: CanWrite) -> u32 {
        can as u32
    }
}

// Whether p can write into the entry that stands in its slot s.
pub fn can(board: Board, t: &[u64; 641], p: Partition, s: Slot, f: SlotFields) -> CanWrite
    requires { (p.0 < 16) × (f.end.0 < 2 ^ 27) }
    ensures { result ≡ can_write board (view t.now) p.0 s.0 (entry_of f) f.opened }
{
    if !f.opened {
        return CanWrite::Closed;
    }
    if !f.rights.write {
        return CanWrite::NoRight;
    }
    if !loaded(t, p, s) {
        if shapes::pieces::piece_count(board, f.start.0, f.end.0) > 8 {
            return CanWrite::ManyPieces;
        }
        return CanWrite::IfLoaded;
    }
    let first = tables::read::first(t);
    if first.current != p {
        return CanWrite::IfCurrent;
    }
    CanWrite::Now
}

// area j of q shares a line with lo to hi
pub fn shares(t: &[u64; 641], q: Partition, j: u32, lo: Line, hi: Line) -> bool
    requires { (q.0 < 16) × (j < 5) }
    ensures { result ≡ shared ((view t.now).k.area q.0 j) lo.0 hi.0 }
{
    let f = settling::areas::area(t, q, j);
    if !f.present {
        return false;
    }
    if f.start.0 >= f.end.0 {
        return false;
    }
    if lo.0 >= hi.0 {
        return false;
    }
    if f.start.0 >= hi.0 {
        return false;
    }
    lo.0 < f.end.0
}

// Where a partition has a line: in which slot, and where the entry there ends.
#[derive(Clone, Copy)]
pub struct Place {
    pub slot: Slot,
    pub end: Line,
}

// By the search that find makes; None where no entry of p holds the line.
pub fn place_of(t: &[u64; 641], p: Partition, l: Line) -> Option<Place>
    requires { p.0 < 16 }
    ensures { result ≡ place_of (view t.now).k p.0 l.0 }
{
    let looked = searching::holding_slot(t, p, l);
    let found = looked.found;
    let Some(s) = found else {
        return None;
    };
    let f = tables::read::entry(t, p, s);
    let end = if f.present { f.end } else { l };
    Some(Place { slot: s, end })
}
