ghost use Rattle.std.specs.Prelude.{◌<◌, OnOk};
ghost use Rattle.std.specs.Io.KnownBytes.{Appends};
ghost use Rattle.who.specs.Items.{item_line};

// The items of the machine form, printed: a line each.
use shapes::Board;
use std::io;
use std::io::Write;
use tables::Outcome;
use words::{Line, Partition, Slot};

// A word, and numbers.
pub fn item<W: Write>(out: &mut W, kind: &[u8], numbers: &[u32]) -> io::Result<()>
    ensures { OnOk result (Appends (W.contents out.old) (W.contents out.new) (item_line kind.now numbers.now)) }
{
    out.write_all(kind)?;
    for n in numbers {
        write!(out, " {n}")?;
    }
    writeln!(out)
}

pub fn memory<W: Write>(out: &mut W, t: &[u64; 641]) -> io::Result<()> {
    let f = tables::read::first(t);
    item(out, b"memory", &[f.base.0, f.end.0, f.current.0])
}

// Area n of the 80 closes the entry in slot s of p, of lo to hi, if they share a line.
fn shut<W: Write>(
    out: &mut W,
    t: &[u64; 641],
    p: Partition,
    s: Slot,
    n: u32,
    lo: Line,
    hi: Line,
) -> io::Result<()>
    requires { n < 80 }
{
    let q = Partition(n / 5);
    let j = n % 5;
    if crate::facts::shares(t, q, j, lo, hi) {
        return item(out, b"shut", &[p.0, s.0, q.0, j]);
    }
    Ok(())
}

fn shuts<W: Write>(
    out: &mut W,
    t: &[u64; 641],
    p: Partition,
    s: Slot,
    lo: Line,
    hi: Line,
) -> io::Result<()> {
    for n in 0..80 {
        shut(out, t, p, s, n, lo, hi)?;
    }
    Ok(())
}

// The entry in slot s is loaded in region r, if it is.
fn region<W: Write>(out: &mut W, t: &[u64; 641], p: Partition, s: Slot, r: u32) -> io::Result<()>
    requires { (p.0 < 16) × (r < 8) }
{
    if crate::facts::names(t, p, s, r) {
        return item(out, b"region", &[p.0, s.0, r]);
    }
    Ok(())
}

fn regions<W: Write>(out: &mut W, t: &[u64; 641], p: Partition, s: Slot) -> io::Result<()>
    requires { p.0 < 16 }
{
    for r in 0..8 {
        region(out, t, p, s, r)?;
    }
    Ok(())
}

// What stands in a slot, if anything does.
fn entry<W: Write>(
    out: &mut W,
    board: Board,
    t: &[u64; 641],
    p: Partition,
    s: Slot,
) -> io::Result<()>
    requires { (p.0 < 16) × (s.0 < 32) }
{
    let f = tables::read::entry(t, p, s);
    if !f.present {
        return Ok(());
    }
    let numbers = crate::facts::entry(board, p, s, f);
    item(out, b"entry", &numbers)?;
    let can = crate::facts::can(board, t, p, s, f);
    item(out, b"can", &[p.0, s.0, u32::from(can)])?;
    regions(out, t, p, s)?;
    if !f.opened {
        return shuts(out, t, p, s, f.start, f.end);
    }
    Ok(())
}

fn entries<W: Write>(out: &mut W, board: Board, t: &[u64; 641], p: Partition) -> io::Result<()>
    requires { p.0 < 16 }
{
    for s in 0..32 {
        entry(out, board, t, p, Slot(s))?;
    }
    Ok(())
}

// The area of a header or of a structure; 0, 0 is none.
fn area<W: Write>(out: &mut W, t: &[u64; 641], p: Partition, j: u32) -> io::Result<()>
    requires { (p.0 < 16) × (j < 5) }
{
    let f = settling::areas::area(t, p, j);
    if f.start.0 < f.end.0 {
        return item(out, b"area", &[p.0, j, f.start.0, f.end.0]);
    }
    Ok(())
}

fn areas<W: Write>(out: &mut W, t: &[u64; 641], p: Partition) -> io::Result<()>
    requires { p.0 < 16 }
{
    for j in 0..5 {
        area(out, t, p, j)?;
    }
    Ok(())
}

// All that stands in the record of a partition, if it is present.
fn partition<W: Write>(out: &mut W, board: Board, t: &[u64; 641], p: Partition) -> io::Result<()>
    requires { p.0 < 16 }
{
    let h = tables::read::header(t, p);
    if !h.present {
        return Ok(());
    }
    item(out, b"partition", &[p.0, h.parent.0])?;
    areas(out, t, p)?;
    entries(out, board, t, p)
}

pub fn partitions<W: Write>(out: &mut W, board: Board, t: &[u64; 641]) -> io::Result<()> {
    for p in 0..16 {
        partition(out, board, t, Partition(p))?;
    }
    Ok(())
}

// A holder of the line: its number, and the slot of its entry that holds it. Answers where that entry ends.
fn holder<W: Write>(out: &mut W, t: &[u64; 641], p: Partition, l: Line) -> io::Result<Line>
    requires { p.0 < 16 }
{
    let Some(place) = crate::facts::place_of(t, p, l) else {
        return Ok(l);
    };
    item(out, b"holder", &[p.0, place.slot.0])?;
    Ok(place.end)
}

// A partition as the list has it: below 16 in any case.
fn listed(name: u8) -> Partition
    ensures { result.0 < 16 }
{
    Partition(u32::from(name) % 16)
}

// The first n of the list, root first. Answers where the last one's entry ends: of all these it ends first.
fn holders<W: Write>(
    out: &mut W,
    t: &[u64; 641],
    list: &[u8; 16],
    n: u64,
    l: Line,
) -> io::Result<Line> {
    let mut end = l;
    for name in list.iter().take(n as usize) {
        end = holder(out, t, listed(*name), l)?;
    }
    Ok(end)
}

// The line and its holders, if it is a line of the memory. Answers up to which line the same entries hold.
pub fn at<W: Write>(
    out: &mut W,
    board: Board,
    t: &[u64; 641],
    line: u64,
) -> io::Result<Option<Line>> {
    let Ok(l) = u32::try_from(line) else {
        return Ok(None);
    };
    let mut list = [0u8; 16];
    let outcome = holders::holders_table(board, t, 16, line, &mut list);
    let Ok((n, _)) = outcome else {
        return Ok(None);
    };
    item(out, b"at", &[l])?;
    let end = holders(out, t, &list, n, Line(l))?;
    Ok(Some(end))
}

// A run, and in it each line from which on other entries hold.
fn run<W: Write>(
    out: &mut W,
    board: Board,
    t: &[u64; 641],
    start: Line,
    end: Line,
) -> io::Result<()> {
    item(out, b"run", &[start.0, end.0])?;
    let mut l = start.0;
    while l < end.0 {
        let Some(next) = at(out, board, t, u64::from(l))? else {
            return Ok(());
        };
        if next.0 <= l {
            return Ok(());
        }
        l = next.0;
    }
    Ok(())
}

// No table has more than 512 runs.
pub fn runs<W: Write>(out: &mut W, board: Board, t: &[u64; 641]) -> io::Result<()> {
    let mut marks = *t;
    let plan = runlist::plan_of(board, &mut marks, 16, 512);
    for i in 0..plan.number {
        let r = runlist::run_at(&marks, i);
        run(out, board, t, r.start, r.end)?;
    }
    Ok(())
}
