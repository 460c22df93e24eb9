ghost use Rattle.std.specs.Prelude.{◌≡◌, ◌≤◌, length, IfSome, OnOk};
ghost use Rattle.std.specs.Io.KnownBytes.{Appends};
ghost use Rattle.verdict.specs.Verdict.{image_verdict, ClauseNamed};
ghost use Rattle.report.specs.Report.{printed_line};

use arrayvec::ArrayString;
use shapes::Board;
use std::io;
use std::io::{Read, Write};
use verdict::Verdict;

// The line that tells the verdict, of any two numbers; that of a clause of 01 has at most eight bytes. It is pushed and not written, since
// `write!` may fail by what its contract says.
pub fn of_verdict(v: Verdict) -> ArrayString<32>
    ensures line { result.bytes ≡ printed_line v }
    ensures within { ClauseNamed v → length result.bytes ≤ 8 }
{
    let mut line = ArrayString::new();
    let mut digits = itoa::Buffer::new();
    match v {
        Verdict::Accepted => line.push_str("sound"),
        Verdict::Fails(n, p) => {
            line.push('S');
            line.push_str(digits.format(n));
            line.push(' ');
            line.push_str(digits.format(p.0));
        }
        Verdict::Length => line.push_str("length"),
    }
    line.push('\n');
    line
}

// Writes the line that tells the verdict, at once.
pub fn print<W: Write>(out: &mut W, v: Verdict) -> io::Result<()>
    ensures { OnOk result (Appends (W.contents out.old) (W.contents out.new) (printed_line v)) }
{
    out.write_all(of_verdict(v).as_bytes())
}

// Reads an image and prints the verdict on it. What comes after the first byte too many is not read: the image has another length already.
pub fn judge<R: Read, W: Write>(board: Board, input: &mut R, out: &mut W) -> io::Result<()>
    ensures { OnOk result (IfSome (R.remaining input.old) (λ image. Appends (W.contents out.old) (W.contents out.new) (printed_line (image_verdict board image)))) }
{
    let mut image = [0u8; 5129];
    let len = crate::read_full(input, &mut image)?;
    print(out, verdict::of_image(board, &image[..len]))
}
