ghost use Rattle.words.specs.Laws.Kinds.{slot_lawful};
ghost use Rattle.words.specs.Words.{slot};

use crate::{Line, Packed, Partition, Refusal, Rights};

#[derive(Clone, Copy)]
pub struct SlotFields {
    pub present: bool,
    pub opened: bool,
    pub rights: Rights,
    pub given: Partition,
    pub start: Line,
    pub end: Line,
    pub whole: bool,
}

impl Packed for SlotFields {
    ghost kind = { slot };

    ghost lawful = { slot_lawful };

    fn fields(w: u64) -> SlotFields {
        SlotFields {
            present: w / 0x8000_0000_0000_0000 % 2 == 1,
            opened: w / 0x4000_0000_0000_0000 % 2 == 1,
            rights: Rights {
                read: w / 0x2000_0000_0000_0000 % 2 == 1,
                write: w / 0x1000_0000_0000_0000 % 2 == 1,
                execute: w / 0x800_0000_0000_0000 % 2 == 1,
            },
            given: Partition((w / 0x80_0000_0000_0000 % 16) as u32),
            start: Line((w / 0x1000_0000 % 0x800_0000) as u32),
            end: Line((w / 2 % 0x800_0000) as u32),
            whole: w % 2 == 1,
        }
    }

    // There is no zero bit: what stands in them adds up to 0, and no word is refused.
    fn zero_bits(w: u64) -> u64 {
        0
    }

    fn write(self) -> Result<u64, Refusal> {
        let given = self.given.0;
        let start = self.start.0;
        let end = self.end.0;
        if given >= 16 {
            return Err(Refusal::BadWord);
        }
        if start >= 0x800_0000 {
            return Err(Refusal::BadWord);
        }
        if end >= 0x800_0000 {
            return Err(Refusal::BadWord);
        }
        Ok(
            u64::from(self.present) * 0x8000_0000_0000_0000
                + (u64::from(self.opened) * 0x4000_0000_0000_0000
                    + (u64::from(self.rights.read) * 0x2000_0000_0000_0000
                        + (u64::from(self.rights.write) * 0x1000_0000_0000_0000
                            + (u64::from(self.rights.execute) * 0x800_0000_0000_0000
                                + (given as u64 * 0x80_0000_0000_0000
                                    + (start as u64 * 0x1000_0000
                                        + (end as u64 * 2 + u64::from(self.whole)))))))),
        )
    }
}
