#![tactic(auto)]

// Reads a boot word and then call words, and prints the session: see document 01, "A session printed whole".
use arrayvec::ArrayVec;
use runs::Run;
use shapes::Board;
use std::io;
use std::io::{Read, Write};
use tables::Outcome;
use words::boot_word::BootFields;
use words::{Line, Packed, Refusal};

// A line is put together first, so that it leaves in one write. The longest, a call's, has at most 61 bytes with its end.
type Text = ArrayVec<u8, 64>;

fn print_boot<W: Write>(out: &mut W, why: Refusal) -> io::Result<()> {
    let mut line = Text::new();
    writeln!(line, "boot {}", u64::from(why))?;
    out.write_all(&line)
}

fn print_rest<W: Write>(out: &mut W, bytes: usize) -> io::Result<()> {
    let mut line = Text::new();
    writeln!(line, "rest {bytes}")?;
    out.write_all(&line)
}

// The call's number, its refusal number or 0, and its two values.
fn print_call<W: Write>(out: &mut W, number: u64, outcome: Outcome) -> io::Result<()> {
    let mut line = Text::new();
    match outcome {
        Ok((first, second)) => writeln!(line, "{number} 0 {first} {second:016x}")?,
        Err(why) => writeln!(line, "{number} {} 0 {:016x}", u64::from(why), 0)?,
    }
    out.write_all(&line)
}

// Carries out call words, and answers the last call's number.
fn serve_words<W: Write>(
    out: &mut W,
    t: &mut [u64; 641],
    words: &[[u8; 8]],
    before: u64,
) -> io::Result<u64> {
    let mut number = before;
    for word in words {
        let answer = calls::call_table(Board::V7, t, 16, u64::from_be_bytes(*word));
        number = number.saturating_add(1);
        print_call(out, number, answer.outcome)?;
    }
    Ok(number)
}

// Carries out all call words: those of the first piece, which come behind the boot word, and those of the pieces after it if it was full.
// Only the last piece is not full; the bytes that it has beyond its words are counted.
fn serve_input<R: Read, W: Write>(
    input: &mut R,
    out: &mut W,
    t: &mut [u64; 641],
    first: &[u8],
    full: bool,
) -> io::Result<usize> {
    let mut piece = [0u8; 4096];
    let mut more = full;
    let (words, rest) = first.as_chunks();
    let mut left = rest.len();
    let mut number = serve_words(out, t, words, 0)?;
    for _ in 0..u64::MAX {
        if !more {
            return Ok(left);
        }
        let len = report::read_full(input, &mut piece)?;
        let (words, rest) = piece[..len].as_chunks();
        left = rest.len();
        number = serve_words(out, t, words, number)?;
        more = len == piece.len();
    }
    Ok(left)
}

// A run, and the names of its holders.
fn print_run<W: Write>(out: &mut W, t: &[u64; 641], run: Run) -> io::Result<()> {
    let mut list = [0u8; 16];
    let start = u64::from(run.start.0);
    let outcome = holders::holders_table(Board::V7, t, 16, start, &mut list);
    let Ok((n, _)) = outcome else {
        return Ok(());
    };
    let mut line = Text::new();
    write!(line, "{start} {}", run.end.0)?;
    for name in list.iter().take(n as usize) {
        write!(line, " {name}")?;
    }
    writeln!(line)?;
    out.write_all(&line)
}

// No table has more than 512 runs.
fn print_runs<W: Write>(out: &mut W, t: &[u64; 641]) -> io::Result<()> {
    let mut marks = *t;
    let plan = runlist::plan_of(Board::V7, &mut marks, 16, 512);
    for i in 0..plan.number {
        print_run(out, t, runlist::run_at(&marks, i))?;
    }
    Ok(())
}

fn session<R: Read, W: Write>(
    input: &mut R,
    out: &mut W,
    first: &[u8],
    full: bool,
    base: Line,
    end: Line,
) -> io::Result<()> {
    let mut t = [0u64; 641];
    let outcome = services::boot_service::boot_table(&mut t, u64::from(base.0), u64::from(end.0));
    if let Err(why) = outcome {
        return print_boot(out, why);
    }
    let rest = serve_input(input, out, &mut t, first, full)?;
    if rest != 0 {
        print_rest(out, rest)?;
    }
    print_runs(out, &t)
}

fn main(rt: HostRuntime) -> io::Result<()> {
    let mut input = rt.stdin();
    let mut out = rt.stdout();
    let mut piece = [0u8; 4096];
    let len = report::read_full(&mut input, &mut piece)?;
    if len < 8 {
        return print_boot(&mut out, Refusal::BadWord);
    }
    let mut word = [0u8; 8];
    word.copy_from_slice(&piece[..8]);
    let full = len == piece.len();
    match BootFields::read(u64::from_be_bytes(word)) {
        Ok(f) => session(&mut input, &mut out, &piece[8..len], full, f.base, f.end),
        Err(why) => print_boot(&mut out, why),
    }
}
