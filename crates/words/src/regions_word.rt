ghost use Rattle.std.specs.Prelude.{◌≡◌, ◌+◌, ◌*◌, ◌≤◌, ◌<◌};
ghost use Rattle.loops.specs.Loops.{bit_of};
ghost use Rattle.words.specs.Half.{half_word};
ghost use Rattle.words.specs.Kind.{fields_in, zeroed};
ghost use Rattle.words.specs.Later.{later_regions};
ghost use Rattle.words.specs.Laws.Kinds.{regions_lawful};
ghost use Rattle.words.specs.Words.{regions};

use crate::{Packed, Refusal, Slot};

// One region is a byte of the word.
#[derive(Clone, Copy)]
pub struct Region {
    pub loaded: bool,
    pub slot: Slot,
}

#[derive(Clone, Copy)]
pub struct RegionsFields {
    pub region0: Region,
    pub region1: Region,
    pub region2: Region,
    pub region3: Region,
    pub region4: Region,
    pub region5: Region,
    pub region6: Region,
    pub region7: Region,
}

impl Packed for RegionsFields {
    ghost kind = { regions };

    ghost lawful = { regions_lawful };

    fn fields(w: u64) -> RegionsFields {
        RegionsFields {
            region0: Region {
                loaded: w / 0x8000_0000_0000_0000 % 2 == 1,
                slot: Slot((w / 0x100_0000_0000_0000 % 32) as u32),
            },
            region1: Region {
                loaded: w / 0x80_0000_0000_0000 % 2 == 1,
                slot: Slot((w / 0x1_0000_0000_0000 % 32) as u32),
            },
            region2: Region {
                loaded: w / 0x8000_0000_0000 % 2 == 1,
                slot: Slot((w / 0x100_0000_0000 % 32) as u32),
            },
            region3: Region {
                loaded: w / 0x80_0000_0000 % 2 == 1,
                slot: Slot((w / 0x1_0000_0000 % 32) as u32),
            },
            region4: Region {
                loaded: w / 0x8000_0000 % 2 == 1,
                slot: Slot((w / 0x100_0000 % 32) as u32),
            },
            region5: Region {
                loaded: w / 0x80_0000 % 2 == 1,
                slot: Slot((w / 0x1_0000 % 32) as u32),
            },
            region6: Region {
                loaded: w / 0x8000 % 2 == 1,
                slot: Slot((w / 256 % 32) as u32),
            },
            region7: Region {
                loaded: w / 128 % 2 == 1,
                slot: Slot((w % 32) as u32),
            },
        }
    }

    fn zero_bits(w: u64) -> u64 {
        w / 0x2000_0000_0000_0000 % 4
            + (w / 0x20_0000_0000_0000 % 4
                + (w / 0x2000_0000_0000 % 4
                    + (w / 0x20_0000_0000 % 4
                        + (w / 0x2000_0000 % 4
                            + (w / 0x20_0000 % 4 + (w / 0x2000 % 4 + w / 32 % 4))))))
    }

    fn write(self) -> Result<u64, Refusal> {
        let r0 = self.region0;
        let r1 = self.region1;
        let r2 = self.region2;
        let r3 = self.region3;
        let r4 = self.region4;
        let r5 = self.region5;
        let r6 = self.region6;
        let r7 = self.region7;
        // a slot of 32 or more leaves a quotient
        let wide = r0.slot.0 / 32
            + (r1.slot.0 / 32
                + (r2.slot.0 / 32
                    + (r3.slot.0 / 32
                        + (r4.slot.0 / 32
                            + (r5.slot.0 / 32 + (r6.slot.0 / 32 + (r7.slot.0 / 32)))))));
        if wide != 0 {
            return Err(Refusal::BadWord);
        }
        let high = half(r0, r1, r2, r3);
        let low = half(r4, r5, r6, r7);
        Ok(high * 0x1_0000_0000 + low)
    }
}

// The first of the eight. Who walks them takes it, and goes on with the word of the later ones until that is 0: mostly few are loaded.
pub fn first_region(w: u64) -> Region
    ensures { result ≡ (fields_in regions w).region0 }
{
    Region {
        loaded: w / 0x8000_0000_0000_0000 % 2 == 1,
        slot: Slot((w / 0x100_0000_0000_0000 % 32) as u32),
    }
}

// The word of those after it.
pub fn later_regions(w: u64) -> u64
    ensures { result ≡ later_regions w }
{
    w % 0x100_0000_0000_0000 * 256
}

// None is set: who asks no more need not add them up.
pub fn no_zero_bit(w: u64) -> bool
    ensures { result ≡ zeroed regions w }
{
    (w / 0x2000_0000_0000_0000 % 4 == 0)
        & ((w / 0x20_0000_0000_0000 % 4 == 0)
            & ((w / 0x2000_0000_0000 % 4 == 0)
                & ((w / 0x20_0000_0000 % 4 == 0)
                    & ((w / 0x2000_0000 % 4 == 0)
                        & ((w / 0x20_0000 % 4 == 0)
                            & ((w / 0x2000 % 4 == 0) & (w / 32 % 4 == 0)))))))
}

// A region as a byte.
fn byte(r: Region) -> u64
    ensures { (result ≡ bit_of r.loaded * 128 + r.slot.0) × (result ≤ 128 + r.slot.0) }
{
    u64::from(r.loaded) * 128 + r.slot.0 as u64
}

// Four regions as half a word.
fn half(a: Region, b: Region, c: Region, d: Region) -> u64
    requires { (a.slot.0 < 32) × (b.slot.0 < 32) × (c.slot.0 < 32) × (d.slot.0 < 32) }
    ensures { (result ≡ half_word a b c d) × (result < 0x1_0000_0000) }
{
    byte(a) * 0x100_0000 + (byte(b) * 0x1_0000 + (byte(c) * 256 + byte(d)))
}
