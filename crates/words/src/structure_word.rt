ghost use Rattle.words.specs.Laws.Kinds.{structure_lawful};
ghost use Rattle.words.specs.Words.{structure};

use crate::{Line, Packed, Refusal};

#[derive(Clone, Copy)]
pub struct StructureFields {
    pub present: bool,
    pub start: Line,
    pub end: Line,
}

impl Packed for StructureFields {
    ghost kind = { structure };

    ghost lawful = { structure_lawful };

    fn fields(w: u64) -> StructureFields {
        StructureFields {
            present: w / 0x8000_0000_0000_0000 % 2 == 1,
            start: Line((w / 0x10_0000_0000 % 0x800_0000) as u32),
            end: Line((w / 512 % 0x800_0000) as u32),
        }
    }

    fn zero_bits(w: u64) -> u64 {
        w % 512
    }

    fn write(self) -> Result<u64, Refusal> {
        let start = self.start.0;
        let end = self.end.0;
        if start >= 0x800_0000 {
            return Err(Refusal::BadWord);
        }
        if end >= 0x800_0000 {
            return Err(Refusal::BadWord);
        }
        Ok(
            u64::from(self.present) * 0x8000_0000_0000_0000
                + (start as u64 * 0x10_0000_0000 + end as u64 * 512),
        )
    }
}
