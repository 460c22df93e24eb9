ghost use Rattle.words.specs.Laws.Kinds.{first_lawful};
ghost use Rattle.words.specs.Words.{first};

use crate::{Line, Packed, Partition, Refusal};

#[derive(Clone, Copy)]
pub struct FirstFields {
    pub base: Line,
    pub end: Line,
    pub current: Partition,
}

impl Packed for FirstFields {
    ghost kind = { first };

    ghost lawful = { first_lawful };

    fn fields(w: u64) -> FirstFields {
        FirstFields {
            base: Line((w / 0x20_0000_0000 % 0x800_0000) as u32),
            end: Line((w / 0x400 % 0x800_0000) as u32),
            current: Partition((w / 64 % 16) as u32),
        }
    }

    fn zero_bits(w: u64) -> u64 {
        w % 64
    }

    fn write(self) -> Result<u64, Refusal> {
        let base = self.base.0;
        let end = self.end.0;
        let current = self.current.0;
        if base >= 0x800_0000 {
            return Err(Refusal::BadWord);
        }
        if end >= 0x800_0000 {
            return Err(Refusal::BadWord);
        }
        if current >= 16 {
            return Err(Refusal::BadWord);
        }
        Ok(base as u64 * 0x20_0000_0000 + (end as u64 * 0x400 + current as u64 * 64))
    }
}
