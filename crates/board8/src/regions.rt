ghost use Rattle.std.specs.Prelude.{◌≡◌};
ghost use Rattle.tables.specs.View.{view};
ghost use Rattle.board8.specs.Regions.{entry_pair, pair_on, WriteLent, ReadLent};

use pairs::Registers;
use shapes::Board;
use words::{Partition, Refusal, Slot};

// The register pair of a region, from an entry and back. The answer is 0 or the refusal; there is no caller and no value.

// The pair of what stands in a slot: 4 for no entry, then 22. In a sound table an absent partition has none.
fn pair_in(t: &[u64; 641], p: u64, s: u64) -> Result<Registers, Refusal>
    ensures { result ≡ entry_pair ((view t.now).k.slot p s) }
{
    if p > 15 {
        return Err(Refusal::NoEntry);
    }
    if s > 31 {
        return Err(Refusal::NoEntry);
    }
    let f = tables::read::entry(t, Partition(p as u32), Slot(s as u32));
    if !f.present {
        return Err(Refusal::NoEntry);
    }
    let start = f.start;
    let end = f.end;
    let rights = f.rights;
    pairs::write_pair(start, end, rights)
}

// .. of a table in bytes: first 1, for another number of bytes or words that are not sound.
fn pair_bytes(table: &[u8], p: u64, s: u64) -> Result<Registers, Refusal>
    ensures { result ≡ pair_on table.now p s }
{
    if table.len() != 5128 {
        return Err(Refusal::NotSound);
    }
    let mut a = [0u64; 641];
    let top = memory::load(table, &mut a);
    if !decide::is_sound(Board::V8, &a, top) {
        return Err(Refusal::NotSound);
    }
    pair_in(&a, p, s)
}

// Writes both registers, or, refused, neither.
#[unsafe(no_mangle)]
pub extern "C" fn ulavrepit_region_write(
    table: &[u8],
    partition: u64,
    slot: u64,
    rbar: &mut u32,
    rlar: &mut u32,
) -> u64
    ensures { WriteLent table.now partition slot rbar.old rlar.old result rbar.new rlar.new }
{
    match pair_bytes(table, partition, slot) {
        Ok(both) => {
            *rbar = both.rbar;
            *rlar = both.rlar;
            0
        }
        Err(why) => u64::from(why),
    }
}

// Writes the entry's word, or, refused, nothing.
#[unsafe(no_mangle)]
pub extern "C" fn ulavrepit_region_read(rbar: u32, rlar: u32, entry: &mut u64) -> u64
    ensures { ReadLent rbar rlar entry.old result entry.new }
{
    match pairs::read_pair(rbar, rlar) {
        Ok(w) => {
            *entry = w;
            0
        }
        Err(why) => u64::from(why),
    }
}
