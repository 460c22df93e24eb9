ghost use Rattle.shapes.specs.declared.Board.TheVariants.{V8};
ghost use Rattle.facesheet.specs.Sheets.{BootSheetLent, CallSheetLent};

use shapes::Board;

// Boot and call with a sheet beside the table: `uint8_t *sheet, uint64_t sheet_len`.

#[unsafe(no_mangle)]
pub extern "C" fn ulavrepit_boot_sheet(
    table: &mut [u8],
    sheet: &mut [u8],
    base: u64,
    end: u64,
) -> u64
    ensures { BootSheetLent table.old sheet.old base end result table.new sheet.new }
{
    facesheet::boot_sheet_bytes(table, sheet, base, end)
}

#[unsafe(no_mangle)]
pub extern "C" fn ulavrepit_call_sheet(
    table: &mut [u8],
    sheet: &mut [u8],
    word: u64,
    second: &mut u64,
) -> u64
    ensures { CallSheetLent V8 table.old sheet.old word second.old result table.new sheet.new second.new }
{
    facesheet::call_sheet_bytes(Board::V8, table, sheet, word, second)
}
