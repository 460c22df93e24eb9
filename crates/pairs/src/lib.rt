#![tactic(auto)]

ghost use Rattle.std.specs.Prelude.{◌≡◌, cond};
ghost use Rattle.words.specs.Kind.{zeroed};
ghost use Rattle.pairs.specs.Word.{pair};
ghost use Rattle.pairs.specs.Pair.{one_word, halves, plain, parted, writes, reads};
// A region's register pair on ARMv8-M, written from an entry and read back.
pub mod pair_word;

use pair_word::PairFields;
use words::slot_word::SlotFields;
use words::{Line, Packed, Partition, Refusal, Rights};

// The two registers: base address and limit address.
#[derive(Clone, Copy)]
pub struct Registers {
    pub rbar: u32,
    pub rlar: u32,
}

// The two registers as one word, and back.
fn join(rbar: u32, rlar: u32) -> u64
    ensures { result ≡ one_word rbar rlar }
{
    rbar as u64 * 0x1_0000_0000 + rlar as u64
}

fn split(w: u64) -> Registers
    ensures { result ≡ halves w }
{
    Registers {
        rbar: (w / 0x1_0000_0000) as u32,
        rlar: (w % 0x1_0000_0000) as u32,
    }
}

// Access 01 reads and writes, 11 only reads.
fn access(write: bool) -> u32
    ensures { result ≡ cond write 1 3 }
{
    if write { 1 } else { 3 }
}

// What the writer of the word answers, as two registers.
fn parts(word: Result<u64, Refusal>) -> Result<Registers, Refusal>
    ensures { result ≡ parted word }
{
    Ok(split(word?))
}

// The registers of lines and rights: refused with WrongPair without the read right (and for no lines, or lines past the last).
pub fn write_pair(start: Line, end: Line, rights: Rights) -> Result<Registers, Refusal>
    ensures { result ≡ writes (plain start end rights) }
{
    let first = start.0;
    let after = end.0;
    if !rights.read {
        return Err(Refusal::WrongPair);
    }
    if first >= after {
        return Err(Refusal::WrongPair);
    }
    if after >= 0x800_0000 {
        return Err(Refusal::WrongPair);
    }
    let reach = access(rights.write);
    let f = PairFields {
        base: Line(first),
        access: reach,
        never: !rights.execute,
        limit: Line(after - 1),
        enabled: true,
    };
    parts(f.write())
}

// No zero bit is set: shareability, attribute and the reserved bit are 0.
fn is_clean(w: u64) -> bool
    ensures { result ≡ zeroed pair w }
{
    PairFields::zero_bits(w) == 0
}

// The entry word that two registers tell, present and open, given to no one, not whole: refused with WrongPair where no readable entry writes them.
pub fn read_pair(rbar: u32, rlar: u32) -> Result<u64, Refusal>
    ensures { result ≡ reads rbar rlar }
{
    let w = join(rbar, rlar);
    if !is_clean(w) {
        return Err(Refusal::WrongPair);
    }
    let f = PairFields::fields(w);
    let base = f.base.0;
    let limit = f.limit.0;
    if !f.enabled {
        return Err(Refusal::WrongPair);
    }
    if f.access % 2 != 1 {
        return Err(Refusal::WrongPair);
    }
    if base > limit {
        return Err(Refusal::WrongPair);
    }
    if limit >= 0x7ff_ffff {
        return Err(Refusal::WrongPair);
    }
    let entry = SlotFields {
        present: true,
        opened: true,
        rights: Rights {
            read: true,
            write: f.access == 1,
            execute: !f.never,
        },
        given: Partition(0),
        start: Line(base),
        end: Line(limit + 1),
        whole: false,
    };
    entry.write()
}
