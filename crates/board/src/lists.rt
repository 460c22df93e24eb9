ghost use Rattle.shapes.specs.declared.Board.TheVariants.{V7};
ghost use Rattle.face.specs.Lists.{RunsLent};

use runs::Run;
use shapes::Board;

// The runs of a table, written into a list of records.
#[unsafe(no_mangle)]
pub extern "C" fn ulavrepit_runs(table: &[u8], list: &mut [Run]) -> u64
    ensures { RunsLent V7 table.now list.old result list.new }
{
    face::lists::runs_bytes(Board::V7, table, list)
}
