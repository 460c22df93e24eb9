#![tactic(auto)]

ghost use Rattle.rules.specs.Rules.{boot_on};
ghost use Rattle.rules.specs.Ran.{Ran};

// The services in code but for those on a block, each proved equal to its rule; and boot.
pub mod boot_service;
pub mod clear_service;
pub mod collect_service;
pub mod create_service;
pub mod delete_service;
pub mod find_service;
pub mod pack;
pub mod prepare_service;
pub mod region_services;
pub mod switch_service;
pub mod who;

use tables::Outcome;
use words::Refusal;

// Writes a table anew, whatever it held: the root alone, which has base to end with all rights.
// Refused: 1 not 641 words; 7 not base < end, or a number above the last line. A refusal changes no word.
pub fn boot(t: &mut [u64], base: u64, end: u64) -> Outcome
    ensures { Ran (boot_on t.old base end) t.old result t.new }
{
    if t.len() != 641 {
        return Err(Refusal::NotSound);
    }
    let mut a = [0u64; 641];
    let booted = boot_service::boot_table(&mut a, base, end);
    if let Ok((_, _)) = booted {
        tables::copies::copy_out(&a, t);
    }
    booted
}
