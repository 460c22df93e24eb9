ghost use Rattle.words.specs.Laws.Kinds.{boot_lawful};
ghost use Rattle.words.specs.Words.{boot};

use crate::{Line, Packed, Refusal};

#[derive(Clone, Copy)]
pub struct BootFields {
    pub base: Line,
    pub end: Line,
}

impl Packed for BootFields {
    ghost kind = { boot };

    ghost lawful = { boot_lawful };

    fn fields(w: u64) -> BootFields {
        BootFields {
            base: Line((w / 0x20_0000_0000 % 0x800_0000) as u32),
            end: Line((w / 0x400 % 0x800_0000) as u32),
        }
    }

    fn zero_bits(w: u64) -> u64 {
        w % 0x400
    }

    fn write(self) -> Result<u64, Refusal> {
        let base = self.base.0;
        let end = self.end.0;
        if base >= 0x800_0000 {
            return Err(Refusal::BadWord);
        }
        if end >= 0x800_0000 {
            return Err(Refusal::BadWord);
        }
        Ok(base as u64 * 0x20_0000_0000 + end as u64 * 0x400)
    }
}
