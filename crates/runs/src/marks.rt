ghost use Rattle.std.specs.Prelude.{◌≡◌, ◌<◌, ◌^◌};
ghost use Rattle.words.specs.Kinds.{mark_for};
ghost use Rattle.runs.specs.Ways.{Short, word_written};

use words::mark_word::MarkFields;
use words::{Line, Packed, Partition, Refusal};

// The word of a mark, in 32 bits. A refusal keeps nothing: no caller here meets one.
fn short(word: Result<u64, Refusal>) -> u32
    requires { Short word }
    ensures { result ≡ word_written word }
{
    word.unwrap_or(0) as u32
}

// The mark of a line and a partition.
pub fn mark_of(line: Line, holder: Partition) -> u32
    requires { (line.0 < 2 ^ 27) × (holder.0 < 16) }
    ensures { result ≡ mark_for line.0 holder.0 }
{
    short(MarkFields { line, holder }.write())
}
