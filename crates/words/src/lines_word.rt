ghost use Rattle.words.specs.Laws.Kinds.{lines_lawful};
ghost use Rattle.words.specs.Words.{lines};

use crate::{Packed, Refusal};

// What the sheet says then of a partition: how many lines it holds, and how many of them lie in open entries.
#[derive(Clone, Copy)]
pub struct LinesFields {
    pub held: u32,
    pub opened: u32,
}

impl Packed for LinesFields {
    ghost kind = { lines };

    ghost lawful = { lines_lawful };

    fn fields(w: u64) -> LinesFields {
        LinesFields {
            held: (w / 0x20_0000_0000 % 0x800_0000) as u32,
            opened: (w / 0x400 % 0x800_0000) as u32,
        }
    }

    fn zero_bits(w: u64) -> u64 {
        w % 0x400
    }

    fn write(self) -> Result<u64, Refusal> {
        let held = self.held;
        let opened = self.opened;
        if held >= 0x800_0000 {
            return Err(Refusal::BadWord);
        }
        if opened >= 0x800_0000 {
            return Err(Refusal::BadWord);
        }
        Ok(held as u64 * 0x20_0000_0000 + opened as u64 * 0x400)
    }
}
