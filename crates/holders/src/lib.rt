#![tactic(auto)]

ghost use Rattle.std.specs.Prelude.{◌≡◌, ◌≤◌, ◌<◌, length};
ghost use Rattle.tables.specs.View.{view};
ghost use Rattle.tables.specs.Search.{look_for};
ghost use Rattle.tables.specs.Top.{Top};
ghost use Rattle.sound.specs.Core.{Core};
ghost use Rattle.sound.specs.Holders.{heir, deepest, looks_of, HoldersListed, Writes};

// Who holds a line: listed from the root down; and how many slot words the searches for it looked at. Beside it the pieces of an entry.
pub mod pieces;

use decide::is_sound;
use shapes::Board;
use tables::Outcome;
use words::{Line, Partition, Refusal};

// One step down: whom a partition gave its entry that holds the line (0 is nobody), and how many slot words the search looked at.
#[derive(Clone, Copy)]
struct Step {
    heir: Partition,
    count: u32,
}

// The way down at its end: the deepest holder, and the sum of the searches of all holders.
#[derive(Clone, Copy)]
struct Descent {
    deepest: Partition,
    count: u32,
}

// the step from p
fn look(t: &[u64; 641], l: Line, p: Partition) -> Step
    requires { p.0 < 16 }
    ensures { (result.heir.0 ≡ heir (view t.now).k l.0 p.0) × (result.heir.0 < 16) × (result.count ≡ (look_for (view t.now).k l.0 p.0).count) }
{
    let looked = searching::holding_slot(t, p, l);
    let count = looked.count;
    let found = looked.found;
    let Some(i) = found else {
        return Step {
            heir: Partition(0),
            count: count,
        };
    };
    let f = tables::read::entry(t, p, i);
    let heir = f.given;
    if f.present {
        return Step {
            heir: heir,
            count: count,
        };
    }
    Step {
        heir: Partition(0),
        count: count,
    }
}

// From the root down along what is given. The deepest holder's own search is counted too: the one that finds no heir, or, 15 steps down, one more.
fn descend(t: &[u64; 641], l: Line) -> Descent
    requires { Core (view t.now).k }
    ensures { (result.deepest.0 ≡ deepest (view t.now).k l.0 0 15) × (result.deepest.0 < 16) × (result.count ≡ looks_of (view t.now).k l.0) }
{
    let mut p = Partition(0);
    let mut count = 0u32;
    for _ in 0..15u32 {
        let step = look(t, l, p);
        let sum = count + step.count;
        let heir = step.heir;
        if heir.0 == 0 {
            return Descent {
                deepest: p,
                count: sum,
            };
        }
        p = heir;
        count = sum;
    }
    let last = searching::holding_slot(t, p, l);
    Descent {
        deepest: p,
        count: count + last.count,
    }
}

// Writes the holders of a line of memory; the list has room for all.
fn write_holders(t: &[u64; 641], l: Line, list: &mut [u8]) -> Outcome
    requires { Core (view t.now).k × (16 ≤ length list.old) }
    ensures { Writes (view t.now).k l.0 list.old result list.new }
{
    let d = descend(t, l);
    let p = d.deepest;
    let mut way = 0u64;
    searching::climb::climb(t, p, 15, &mut way);
    let n = searching::climb::write_way(way, list);
    Ok((n as u64, d.count as u64))
}

// Holders of a line of a table that stands in an array: `holders` without its length and its copy.
pub fn holders_table(board: Board, t: &[u64; 641], top: u32, line: u64, list: &mut [u8]) -> Outcome
    requires { Top t.now top }
    ensures { HoldersListed board t.now line list.old result list.new }
{
    if !is_sound(board, t, top) {
        return Err(Refusal::NotSound);
    }
    let f = tables::read::first(t);
    if line < f.base.0 as u64 {
        return Err(Refusal::WrongLine);
    }
    if line >= f.end.0 as u64 {
        return Err(Refusal::WrongLine);
    }
    if list.len() < 16 {
        return Err(Refusal::ShortList);
    }
    write_holders(t, Line(line as u32), list)
}

// The partitions with an entry that holds the line: their number, and their numbers in the first bytes, root first. The second value is the
// sum over them of the slot words that the search of each looked at, at most 512.
// Refused: 1 not a sound table of 641 words, 7 a line outside base to end, 17 a list under 16 bytes.
pub fn holders(board: Board, t: &[u64], line: u64, list: &mut [u8]) -> Outcome
    ensures { HoldersListed board t.now line list.old result list.new }
{
    if t.len() != 641 {
        return Err(Refusal::NotSound);
    }
    let mut a = [0u64; 641];
    tables::copies::copy_in(t, &mut a);
    holders_table(board, &a, 16, line, list)
}
