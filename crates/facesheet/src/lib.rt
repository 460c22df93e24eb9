#![tactic(auto)]

ghost use Rattle.std.specs.Prelude.{◌≡◌, true, cond, length};
ghost use Rattle.tables.specs.View.{view};
ghost use Rattle.tables.specs.Top.{Top};
ghost use Rattle.memory.specs.Bytes.{bytes_of};
ghost use Rattle.memory.specs.ByteRecords.{HeaderTells, BytesTell, StoredBut};
ghost use Rattle.sound.specs.Clauses.{sound};
ghost use Rattle.sound.specs.Whole.{Right};
ghost use Rattle.sheet.specs.Touched.{Named, sheet_kept};
ghost use Rattle.facesheet.specs.Sheets.{SoundBeside, BootSheetLent, CallSheetLent};

use face::{packed, refused};
use shapes::Board;
use sheet::calls::Whose;
use tables::Outcome;
use words::{Partition, Refusal};

// Boot and call with a sheet beside the table. The functions without one do the same with the table.

// Boot: both are written, whatever they held.
pub fn boot_sheet_bytes(table: &mut [u8], sheet: &mut [u8], base: u64, end: u64) -> u64
    ensures { BootSheetLent table.old sheet.old base end result table.new sheet.new }
{
    if table.len() != 5128 {
        return refused(Refusal::NotSound, Partition(0));
    }
    if sheet.len() != 256 {
        return refused(Refusal::WrongSheet, Partition(0));
    }
    let mut a = [0u64; 641];
    let outcome = services::boot_service::boot_table(&mut a, base, end);
    match outcome {
        Ok((first, _)) => {
            memory::store_root(&a, table);
            sheet::write_sheet(&a, sheet);
            packed(0, Partition(0), first)
        }
        Err(why) => refused(why, Partition(0)),
    }
}

// Table and sheet are written back, but for a call after which every word is as it was: of the table the records that it changed, of the sheet the words of those that it touched.
fn store_both(
    t: &[u64; 641],
    stands: bool,
    changed: u32,
    x: Whose,
    table: &mut [u8],
    sheet: &mut [u8],
)
    requires { (length table.old ≡ 5128) × (length sheet.old ≡ 256) × HeaderTells t.now × BytesTell table.old × StoredBut changed t.now table.old × Right (view t.now) × Named x }
    ensures { (table.new ≡ cond stands table.old (bytes_of t.now)) × (sheet.new ≡ cond stands sheet.old (sheet_kept x (view t.now) sheet.old)) }
{
    if stands {
        return;
    }
    memory::store(t, changed, table);
    sheet::kept::keep_sheet(t, x, sheet);
}

// Exactly the sound tables pass. Of such a table `same` tells whether the bytes are its sheet: it is compared in the pass that decides S1 to S5.
fn is_sound_beside(board: Board, t: &[u64; 641], top: u32, sheet: &[u8], same: &mut bool) -> bool
    requires { Top t.now top × (sound board t.now ≡ true → Right (view t.now)) × (same.old ≡ true) }
    ensures { SoundBeside board t.now sheet.now result same.new }
{
    if sheet.len() != 256 {
        *same = false;
        return decide::is_sound(board, t, top);
    }
    if !comparing::is_formed(t, top, sheet, same) {
        return false;
    }
    decide::is_sound_formed(board, t, top)
}

// A call: 1 first, then 20 where the sheet is not the table's, then as `call_bytes`.
pub fn call_sheet_bytes(
    board: Board,
    table: &mut [u8],
    sheet: &mut [u8],
    word: u64,
    second: &mut u64,
) -> u64
    ensures { CallSheetLent board table.old sheet.old word second.old result table.new sheet.new second.new }
{
    if table.len() != 5128 {
        return refused(Refusal::NotSound, Partition(0));
    }
    let mut a = [0u64; 641];
    let top = memory::load(table, &mut a);
    let mut same = true;
    if !is_sound_beside(board, &a, top, sheet, &mut same) {
        return refused(Refusal::NotSound, Partition(0));
    }
    if !same {
        let first = tables::read::first(&a);
        return refused(Refusal::WrongSheet, first.current);
    }
    let touched = sheet::calls::touched(&a, word);
    let answer = calls::serve_word(board, &mut a, word);
    let caller = answer.caller;
    let stands = answer.stands;
    let changed = answer.changed;
    let outcome = answer.outcome;
    match outcome {
        Ok((first, value)) => {
            store_both(&a, stands, changed, touched, table, sheet);
            *second = value;
            packed(0, caller, first)
        }
        Err(why) => refused(why, caller),
    }
}
