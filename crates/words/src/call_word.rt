ghost use Rattle.words.specs.Laws.Kinds.{call_lawful};
ghost use Rattle.words.specs.Words.{call};

use crate::{Line, Packed, Partition, Refusal, Rights, Slot};

#[derive(Clone, Copy)]
pub struct CallFields {
    pub service: u32,
    pub partition: Partition,
    pub slot: Slot,
    pub other: u32,
    pub rights: Rights,
    pub line: Line,
    pub whole: bool,
}

impl Packed for CallFields {
    ghost kind = { call };

    ghost lawful = { call_lawful };

    fn fields(w: u64) -> CallFields {
        CallFields {
            service: (w / 0x1000_0000_0000_0000 % 16) as u32,
            partition: Partition((w / 0x100_0000_0000_0000 % 16) as u32),
            slot: Slot((w / 0x8_0000_0000_0000 % 32) as u32),
            other: (w / 0x4000_0000_0000 % 32) as u32,
            rights: Rights {
                read: w / 0x2000_0000_0000 % 2 == 1,
                write: w / 0x1000_0000_0000 % 2 == 1,
                execute: w / 0x800_0000_0000 % 2 == 1,
            },
            line: Line((w / 0x1_0000 % 0x800_0000) as u32),
            whole: w / 0x8000 % 2 == 1,
        }
    }

    fn zero_bits(w: u64) -> u64 {
        w % 0x8000
    }

    fn write(self) -> Result<u64, Refusal> {
        let service = self.service;
        let partition = self.partition.0;
        let slot = self.slot.0;
        let other = self.other;
        let line = self.line.0;
        if service >= 16 {
            return Err(Refusal::BadWord);
        }
        if partition >= 16 {
            return Err(Refusal::BadWord);
        }
        if slot >= 32 {
            return Err(Refusal::BadWord);
        }
        if other >= 32 {
            return Err(Refusal::BadWord);
        }
        if line >= 0x800_0000 {
            return Err(Refusal::BadWord);
        }
        Ok(
            service as u64 * 0x1000_0000_0000_0000
                + (partition as u64 * 0x100_0000_0000_0000
                    + (slot as u64 * 0x8_0000_0000_0000
                        + (other as u64 * 0x4000_0000_0000
                            + (u64::from(self.rights.read) * 0x2000_0000_0000
                                + (u64::from(self.rights.write) * 0x1000_0000_0000
                                    + (u64::from(self.rights.execute) * 0x800_0000_0000
                                        + (line as u64 * 0x1_0000
                                            + u64::from(self.whole) * 0x8000))))))),
        )
    }
}
