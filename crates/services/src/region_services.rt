ghost use Rattle.std.specs.Prelude.{◌≡◌, ◌<◌};
ghost use Rattle.tables.specs.State.{some};
ghost use Rattle.tables.specs.Update.{upd};
ghost use Rattle.tables.specs.View.{view};
ghost use Rattle.tables.specs.Encode.{Canon};
ghost use Rattle.sound.specs.Limit.{loaded_pieces};
ghost use Rattle.sound.specs.Whole.{Right};
ghost use Rattle.rules.specs.Rules.{elsewhere, load, unload, read_region};
ghost use Rattle.rules.specs.Ran.{Ran};
ghost use Rattle.services.specs.RegionExits.{in_another};

use crate::who::own_or_child;
use loaded::limit::loaded_pieces;
use shapes::Board;
use tables::Outcome;
use tables::regions::with_region;
use words::regions_word::Region;
use words::{Partition, Refusal, Slot};

// region q of p is not region r, and names slot s
fn in_another(t: &[u64; 641], p: Partition, s: Slot, r: u32, q: u32) -> bool
    requires { (p.0 < 16) × (q < 8) }
    ensures { result ≡ in_another (view t.now) p.0 s.0 r q }
{
    if q == r {
        return false;
    }
    let f = tables::read::regions(t, p);
    let x = tables::regions::nth(f, q);
    if !x.loaded {
        return false;
    }
    x.slot == s
}

// slot s of p is in a region other than r
fn loaded_elsewhere(t: &[u64; 641], p: Partition, s: Slot, r: u32) -> bool
    requires { p.0 < 16 }
    ensures { result ≡ elsewhere (view t.now) p.0 s.0 r }
{
    for q in 0..8 {
        if in_another(t, p, s, r, q) {
            return true;
        }
    }
    false
}

// the pieces of all that p has loaded once region r names slot s
fn pieces_after(board: Board, t: &[u64; 641], p: Partition, s: Slot, r: u32) -> u32
    requires { (p.0 < 16) × (s.0 < 32) }
    ensures { result ≡ loaded_pieces board (view t.now).k.slot (upd (view t.now).region p.0 r (some s.0)) p.0 }
{
    let f = with_region(
        tables::read::regions(t, p),
        r,
        Region {
            loaded: true,
            slot: s,
        },
    );
    loaded_pieces(board, t, p, f)
}

// 9 with R = 0: region r of p names slot s, which is open: a right table stays settled
pub fn load(board: Board, t: &mut [u64; 641], p: Partition, s: Slot, r: u32) -> Outcome
    requires { Canon t.old × (p.0 < 16) × (s.0 < 32) × Right (view t.old) }
    ensures { Ran (load board (view t.old) p.0 s.0 r) t.old result t.new }
{
    if !own_or_child(t, p) {
        return Err(Refusal::WrongPartition);
    }
    let f = tables::read::entry(t, p, s);
    if !f.present {
        return Err(Refusal::NoEntry);
    }
    if !f.opened {
        return Err(Refusal::NotOpen);
    }
    if r > 7 {
        return Err(Refusal::WrongRegion);
    }
    if loaded_elsewhere(t, p, s, r) {
        return Err(Refusal::WrongRegion);
    }
    if pieces_after(board, t, p, s, r) > 8 {
        return Err(Refusal::ManyPieces);
    }
    writing::put_region(t, p, r, s);
    Ok((0, 0))
}

// 9 with R = 1: region r of p names nothing; a right table stays settled
pub fn unload(t: &mut [u64; 641], p: Partition, r: u32) -> Outcome
    requires { Canon t.old × (p.0 < 16) × Right (view t.old) }
    ensures { Ran (unload (view t.old) p.0 r) t.old result t.new }
{
    if !own_or_child(t, p) {
        return Err(Refusal::WrongPartition);
    }
    if r > 7 {
        return Err(Refusal::WrongRegion);
    }
    writing::clear_region(t, p, r);
    Ok((0, 0))
}

// 11: the word of the slot that region r of p names, or 0. A right table is settled, so nothing is written.
pub fn read_region(t: &[u64; 641], p: Partition, r: u32) -> Outcome
    requires { Canon t.now × (p.0 < 16) × Right (view t.now) }
    ensures { Ran (read_region (view t.now) p.0 r) t.now result t.now }
{
    if !own_or_child(t, p) {
        return Err(Refusal::WrongPartition);
    }
    if r > 7 {
        return Err(Refusal::WrongRegion);
    }
    let f = tables::read::regions(t, p);
    let x = tables::regions::nth(f, r);
    if !x.loaded {
        return Ok((0, 0));
    }
    let i = x.slot;
    let w = tables::read::entry_word(t, p, i);
    Ok((0, w))
}
