ghost use Rattle.words.specs.Laws.Kinds.{masks_lawful};
ghost use Rattle.words.specs.Words.{masks};

use crate::{Packed, Refusal};

// What the sheet says first of a partition: masks of its children, of its occupied slots, of its present structures.
#[derive(Clone, Copy)]
pub struct MasksFields {
    pub children: u32,
    pub slots: u32,
    pub structures: u32,
}

impl Packed for MasksFields {
    ghost kind = { masks };

    ghost lawful = { masks_lawful };

    fn fields(w: u64) -> MasksFields {
        MasksFields {
            children: (w / 0x1_0000_0000_0000 % 0x1_0000) as u32,
            slots: (w / 0x1_0000 % 0x1_0000_0000) as u32,
            structures: (w / 0x1000 % 16) as u32,
        }
    }

    fn zero_bits(w: u64) -> u64 {
        w % 0x1000
    }

    // Any 32 bits are a mask of slots.
    fn write(self) -> Result<u64, Refusal> {
        let children = self.children;
        let slots = self.slots;
        let structures = self.structures;
        if children >= 0x1_0000 {
            return Err(Refusal::BadWord);
        }
        if structures >= 16 {
            return Err(Refusal::BadWord);
        }
        Ok(
            children as u64 * 0x1_0000_0000_0000
                + (slots as u64 * 0x1_0000 + structures as u64 * 0x1000),
        )
    }
}
