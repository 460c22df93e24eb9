#![tactic(auto)]

ghost use Rattle.std.specs.Prelude.{◌≡◌, ◌^◌, ◌<◌};
ghost use Rattle.words.specs.Refusals.{number_of};
ghost use Rattle.rules.specs.Rules.{boot_on};
ghost use Rattle.face.specs.Face.{handed, result_packed, Lent, CallLent, ListLent};

// What a board's firmware calls, which is C, for every board: the crate of a board has these under the names that include/ulavrepit.h declares.
pub mod check;
pub mod lists;

use shapes::Board;
use tables::Outcome;
use words::{Partition, Refusal};

// What C gets: bits 16 to 31 are zero.
pub fn packed(refusal: u64, caller: Partition, first: u64) -> u64
    requires { (refusal < 2 ^ 8) × (caller.0 < 16) × (first < 2 ^ 32) }
    ensures { result ≡ result_packed refusal caller.0 first }
{
    refusal + (0x100 * caller.0 as u64 + 0x1_0000_0000 * first)
}

// .. of a refusal: there is no value.
pub fn refused(why: Refusal, caller: Partition) -> u64
    requires { caller.0 < 16 }
    ensures { result ≡ result_packed (number_of why) caller.0 0 }
{
    packed(u64::from(why), caller, 0)
}

// Boot: `services::boot` on bytes.
pub fn boot_bytes(table: &mut [u8], base: u64, end: u64) -> u64
    ensures { Lent 0 (boot_on (handed table.old) base end) table.old result table.new }
{
    if table.len() != 5128 {
        return refused(Refusal::NotSound, Partition(0));
    }
    let mut a = [0u64; 641];
    let outcome = services::boot_service::boot_table(&mut a, base, end);
    match outcome {
        Ok((first, _)) => {
            memory::store_root(&a, table);
            packed(0, Partition(0), first)
        }
        Err(why) => refused(why, Partition(0)),
    }
}

// A call: `calls::call` on bytes. The second value is written only when it is done, the bytes only where it does more than read.
pub fn call_bytes(board: Board, table: &mut [u8], word: u64, second: &mut u64) -> u64
    ensures { CallLent board table.old word second.old result table.new second.new }
{
    if table.len() != 5128 {
        return refused(Refusal::NotSound, Partition(0));
    }
    let mut a = [0u64; 641];
    let top = memory::load(table, &mut a);
    let answer = calls::call_table(board, &mut a, top, word);
    let caller = answer.caller;
    let stands = answer.stands;
    let changed = answer.changed;
    let outcome = answer.outcome;
    match outcome {
        Ok((first, value)) => {
            if !stands {
                memory::store(&a, changed, table);
            }
            *second = value;
            packed(0, caller, first)
        }
        Err(why) => refused(why, caller),
    }
}

// Holders: `holders::holders` on bytes. The second value is written only when it is done.
pub fn holders_bytes(
    board: Board,
    table: &[u8],
    line: u64,
    list: &mut [u8],
    second: &mut u64,
) -> u64
    ensures { ListLent board table.now line list.old second.old result list.new second.new }
{
    if table.len() != 5128 {
        return refused(Refusal::NotSound, Partition(0));
    }
    let mut a = [0u64; 641];
    let top = memory::load(table, &mut a);
    let outcome = holders::holders_table(board, &a, top, line, list);
    match outcome {
        Ok((first, value)) => {
            *second = value;
            packed(0, Partition(0), first)
        }
        Err(why) => refused(why, Partition(0)),
    }
}
