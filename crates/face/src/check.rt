ghost use Rattle.std.specs.Prelude.{◌≡◌};
ghost use Rattle.verdict.specs.Verdict.{image_verdict, checked, ClauseNamed};
ghost use Rattle.face.specs.Face.{result_of};

use shapes::Board;
use verdict::Verdict;
use words::{Partition, Refusal};

// There is no caller here.
fn verdict_word(v: Verdict) -> u64
    requires { ClauseNamed v }
    ensures { result ≡ result_of 0 (checked v) }
{
    match v {
        Verdict::Accepted => crate::packed(0, Partition(0), 0),
        Verdict::Fails(clause, p) => {
            crate::packed(0, Partition(0), 16 * clause as u64 + p.0 as u64)
        }
        Verdict::Length => crate::refused(Refusal::NotSound, Partition(0)),
    }
}

// The verdict on an image: `verdict::of_image` as a number.
pub fn check_bytes(board: Board, table: &[u8]) -> u64
    ensures { result ≡ result_of 0 (checked (image_verdict board table.now)) }
{
    verdict_word(verdict::of_image(board, table))
}
