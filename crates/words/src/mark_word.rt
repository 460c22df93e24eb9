ghost use Rattle.words.specs.Laws.Kinds.{mark_lawful};
ghost use Rattle.words.specs.Words.{mark};

use crate::{Line, Packed, Partition, Refusal};

// A line, and a partition that holds it. Its word's upper half is zero, so that a mark is kept in 32 bits. It is never handed in or out.
#[derive(Clone, Copy)]
pub struct MarkFields {
    pub line: Line,
    pub holder: Partition,
}

impl Packed for MarkFields {
    ghost kind = { mark };

    ghost lawful = { mark_lawful };

    fn fields(w: u64) -> MarkFields {
        MarkFields {
            line: Line((w / 16 % 0x800_0000) as u32),
            holder: Partition((w % 16) as u32),
        }
    }

    fn zero_bits(w: u64) -> u64 {
        w / 0x8000_0000
    }

    fn write(self) -> Result<u64, Refusal> {
        let line = self.line.0;
        let holder = self.holder.0;
        if line >= 0x800_0000 {
            return Err(Refusal::BadWord);
        }
        if holder >= 16 {
            return Err(Refusal::BadWord);
        }
        Ok(line as u64 * 16 + holder as u64)
    }
}
