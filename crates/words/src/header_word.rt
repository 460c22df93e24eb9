ghost use Rattle.words.specs.Laws.Kinds.{header_lawful};
ghost use Rattle.words.specs.Words.{header};

use crate::{Line, Packed, Partition, Refusal};

#[derive(Clone, Copy)]
pub struct HeaderFields {
    pub present: bool,
    pub parent: Partition,
    pub start: Line,
    pub end: Line,
}

impl Packed for HeaderFields {
    ghost kind = { header };

    ghost lawful = { header_lawful };

    fn fields(w: u64) -> HeaderFields {
        HeaderFields {
            present: w / 0x8000_0000_0000_0000 % 2 == 1,
            parent: Partition((w / 0x800_0000_0000_0000 % 16) as u32),
            start: Line((w / 0x1_0000_0000 % 0x800_0000) as u32),
            end: Line((w / 32 % 0x800_0000) as u32),
        }
    }

    fn zero_bits(w: u64) -> u64 {
        w % 32
    }

    fn write(self) -> Result<u64, Refusal> {
        let parent = self.parent.0;
        let start = self.start.0;
        let end = self.end.0;
        if parent >= 16 {
            return Err(Refusal::BadWord);
        }
        if start >= 0x800_0000 {
            return Err(Refusal::BadWord);
        }
        if end >= 0x800_0000 {
            return Err(Refusal::BadWord);
        }
        Ok(
            u64::from(self.present) * 0x8000_0000_0000_0000
                + (parent as u64 * 0x800_0000_0000_0000
                    + (start as u64 * 0x1_0000_0000 + end as u64 * 32)),
        )
    }
}
