ghost use Rattle.std.specs.Prelude.{◌≡◌};
ghost use Rattle.shapes.specs.declared.Board.TheVariants.{V8};
ghost use Rattle.verdict.specs.Verdict.{image_verdict, checked};
ghost use Rattle.face.specs.Face.{result_of};

use shapes::Board;

#[unsafe(no_mangle)]
pub extern "C" fn ulavrepit_check(table: &[u8]) -> u64
    ensures { result ≡ result_of 0 (checked (image_verdict V8 table.now)) }
{
    face::check::check_bytes(Board::V8, table)
}
