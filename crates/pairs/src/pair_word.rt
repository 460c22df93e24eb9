ghost use Rattle.pairs.specs.Laws.Word.{pair_lawful};
ghost use Rattle.pairs.specs.Word.{pair};

use words::{Line, Packed, Refusal};

// The two registers as one word: base address in the high half, limit address in the low one. Here, and nowhere above, it is known which bits their fields are.
#[derive(Clone, Copy)]
pub struct PairFields {
    pub base: Line,
    pub access: u32,
    pub never: bool,
    pub limit: Line,
    pub enabled: bool,
}

impl Packed for PairFields {
    ghost kind = { pair };

    ghost lawful = { pair_lawful };

    fn fields(w: u64) -> PairFields {
        PairFields {
            base: Line((w / 0x20_0000_0000 % 0x800_0000) as u32),
            access: (w / 0x2_0000_0000 % 4) as u32,
            never: w / 0x1_0000_0000 % 2 == 1,
            limit: Line((w / 32 % 0x800_0000) as u32),
            enabled: w % 2 == 1,
        }
    }

    fn zero_bits(w: u64) -> u64 {
        w / 0x8_0000_0000 % 4 + w / 2 % 16
    }

    fn write(self) -> Result<u64, Refusal> {
        let base = self.base.0;
        let access = self.access;
        let limit = self.limit.0;
        if base >= 0x800_0000 {
            return Err(Refusal::BadWord);
        }
        if access >= 4 {
            return Err(Refusal::BadWord);
        }
        if limit >= 0x800_0000 {
            return Err(Refusal::BadWord);
        }
        Ok(
            base as u64 * 0x20_0000_0000
                + (access as u64 * 0x2_0000_0000
                    + (u64::from(self.never) * 0x1_0000_0000
                        + (limit as u64 * 32 + u64::from(self.enabled)))),
        )
    }
}
