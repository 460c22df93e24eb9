#![tactic(auto)]

ghost use Rattle.std.specs.Prelude.{◌≡◌, ◌+◌, ◌*◌, ◌≤◌, ◌<◌, length, replicate};
ghost use Rattle.memory.specs.Bytes.{word_from, words_of, byte_of, bytes_of, put_word};
ghost use Rattle.memory.specs.Quads.{Quad, put_quad, turned, zero_four, zero_forty};
ghost use Rattle.tables.specs.Top.{Top};
ghost use Rattle.memory.specs.ByteRecords.{ZeroEnd, HeaderTells, LoadedOn, Wrote, TellsAt, BytesTell, StoredBut, RootOnly};

// A table as the bytes that C hands over: words most significant byte first.
use words::Partition;

// Two bytes as a number. A number summed up from pairs, the first byte least significant, compiles to one read of four bytes.
fn pair(low: u8, high: u8) -> u32
    ensures { (result ≡ low + high * 256) × (result < 0x1_0000) × (low < 256) × (high < 256) }
{
    low as u32 + high as u32 * 256
}

// The four bytes from byte i on.
fn quad(b: &[u8], i: usize) -> u32
    requires { i + 4 ≤ length b.now }
    ensures { Quad b.now i result }
{
    pair(b[i], b[i + 1]) + pair(b[i + 2], b[i + 3]) * 0x1_0000
}

// The four bytes of x the other way round: this compiles to one instruction.
fn turned(x: u32) -> u32
    ensures { result ≡ turned x }
{
    x % 256 * 0x100_0000
        + (x / 0x100 % 256 * 0x1_0000 + (x / 0x1_0000 % 256 * 0x100 + x / 0x100_0000))
}

// The word from byte i on.
pub fn word(b: &[u8], i: usize) -> u64
    requires { i + 8 ≤ length b.now }
    ensures { result ≡ word_from b.now i }
{
    turned(quad(b, i)) as u64 * 0x1_0000_0000 + turned(quad(b, i + 4)) as u64
}

// The bytes of four words, from byte i on, are zero. The loop is unrolled, so that no byte costs more than its read; a Cortex-M0 reads
// bytes, and without a further instruction only the 32 behind an address.
fn zero_four(b: &[u8], i: usize) -> bool
    requires { i + 32 ≤ length b.now }
    ensures { result ≡ zero_four b.now i }
{
    let mut x = 0u32;
    for q in 0..8 {
        x |= quad(b, i + 4 * q);
    }
    x == 0
}

// The bytes of a record, from byte i on, are zero. None of the ten looks waits for the one before, so a processor with vectors puts
// all bytes together and asks once.
fn zero_forty(b: &[u8], i: u32) -> bool
    requires { (length b.now ≡ 5128) × (i + 320 ≤ 5128) }
    ensures { result ≡ zero_forty b.now i }
{
    let mut zero = true;
    for g in 0..10 {
        zero &= zero_four(b, (i + 32 * g) as usize);
    }
    zero
}

// From this record on all are zero. Most partitions are absent, and the last ones are looked at only here. The first byte has the bit
// of a partition that is there: then nothing else of its record has to be looked at.
fn zero_end(b: &[u8]) -> u32
    requires { length b.now ≡ 5128 }
    ensures { ZeroEnd b.now (1 + 40 * result) }
{
    for p in (0..16u32).rev() {
        let at = 8 + 320 * p;
        if b[at as usize] > 0 {
            return p + 1;
        }
        if !zero_forty(b, at) {
            return p + 1;
        }
    }
    0
}

// Four words of the records, whose bytes r are, from their word k on. The loop is unrolled.
fn load_four(r: &[u8], k: usize, t: &mut [u64; 641])
    requires { (length r.now ≡ 5120) × (k + 4 ≤ 640) }
    ensures { LoadedOn r.now k (k + 4) t.old t.new }
{
    let i = 8 * k;
    for o in 0..4 {
        t[k + 1 + o] = word(r, i + 8 * o);
    }
}

// The records below top. They are handed over by themselves, without word 0: four words are then the 32 bytes behind an address.
fn load_records(r: &[u8], top: u32, t: &mut [u64; 641])
    requires { (length r.now ≡ 5120) × (top ≤ 16) }
    ensures { LoadedOn r.now 0 (40 * top) t.old t.new }
{
    for k in 0..10 * top {
        load_four(r, (4 * k) as usize, t);
    }
}

// The bytes as a table; its words are zero so far. Answers from which record on all are zero.
pub fn load(b: &[u8], t: &mut [u64; 641]) -> u32
    requires { (length b.now ≡ 5128) × (t.old ≡ replicate 641 0) }
    ensures { (t.new ≡ words_of b.now) × Top (words_of b.now) result }
{
    let top = zero_end(b);
    t[0] = word(b, 0);
    load_records(&b[8..], top, t);
    top
}

// Puts the four bytes of x from byte i on. The four stores compile to one where the processor writes at any address.
fn put_quad(b: &mut [u8], i: usize, x: u32)
    requires { i + 4 ≤ length b.old }
    ensures { b.new ≡ put_quad b.old i x }
{
    b[i] = (x % 256) as u8;
    b[i + 1] = (x / 0x100 % 256) as u8;
    b[i + 2] = (x / 0x1_0000 % 256) as u8;
    b[i + 3] = (x / 0x100_0000) as u8;
}

// Puts the word w from byte i on.
pub fn put(b: &mut [u8], i: usize, w: u64)
    requires { i + 8 ≤ length b.old }
    ensures { b.new ≡ put_word b.old i w }
{
    put_quad(b, i, turned((w / 0x1_0000_0000) as u32));
    put_quad(b, i + 4, turned((w % 0x1_0000_0000) as u32));
}

// Zeros from byte i up to byte end. The loop compiles to one fill.
fn clear(b: &mut [u8], i: usize, end: usize)
    requires { (length b.old ≡ 5128) × (i ≤ end) × (end ≤ 5128) }
    ensures { Wrote (λ n. 0) b.old i end b.new }
{
    for n in i..end {
        b[n] = 0;
    }
}

// Record p, of an absent partition: nothing is written where it was absent before.
fn clear_record(p: Partition, b: &mut [u8])
    requires { (length b.old ≡ 5128) × (p.0 < 16) × TellsAt b.old p.0 }
    ensures { Wrote (λ n. 0) b.old (8 + 320 * p.0) (328 + 320 * p.0) b.new }
{
    let at = (8 + 320 * p.0) as usize;
    if word(b, at) == 0 {
        return;
    }
    clear(b, at, at + 320);
}

// Four words from word k on. The loop is unrolled.
fn store_four(t: &[u64; 641], k: usize, b: &mut [u8])
    requires { (length b.old ≡ 5128) × (k + 4 ≤ 641) }
    ensures { Wrote (byte_of t.now) b.old (8 * k) (8 * k + 32) b.new }
{
    let i = 8 * k;
    for o in 0..4 {
        put(b, i + 8 * o, t[k + o]);
    }
}

// Record p.
fn store_record(t: &[u64; 641], p: Partition, b: &mut [u8])
    requires { (length b.old ≡ 5128) × (p.0 < 16) × HeaderTells t.now × TellsAt b.old p.0 }
    ensures { Wrote (byte_of t.now) b.old (8 + 320 * p.0) (328 + 320 * p.0) b.new }
{
    let at = 1 + 40 * p.0;
    if t[at as usize] == 0 {
        clear_record(p, b);
        return;
    }
    for k in 0..10 {
        store_four(t, (at + 4 * k) as usize, b);
    }
}

// The table as bytes, over those of the table before: word 0, and the records of whose bit is set. The others' are there already.
pub fn store(t: &[u64; 641], changed: u32, b: &mut [u8])
    requires { (length b.old ≡ 5128) × HeaderTells t.now × BytesTell b.old × StoredBut changed t.now b.old }
    ensures { b.new ≡ bytes_of t.now }
{
    put(b, 0, t[0]);
    for p in 0..16 {
        if (changed >> p) % 2 == 1 {
            store_record(t, Partition(p), b);
        }
    }
}

// The table as bytes, over any: of a root that has a header, a structure and an entry, and of nothing else.
pub fn store_root(t: &[u64; 641], b: &mut [u8])
    requires { (length b.old ≡ 5128) × RootOnly t.now }
    ensures { b.new ≡ bytes_of t.now }
{
    clear(b, 0, 5128);
    put(b, 0, t[0]);
    put(b, 8, t[1]);
    put(b, 16, t[2]);
    put(b, 72, t[9]);
}
