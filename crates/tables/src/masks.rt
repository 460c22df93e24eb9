ghost use Rattle.std.specs.Prelude.{◌≡◌, ◌^◌, ◌<◌};
ghost use Rattle.std.specs.Int.Bits.{bit_or};
ghost use Rattle.loops.specs.Loops.{names};

use words::{Partition, Slot};

// A mask: bit i says something of slot i of a partition, or of partition i.

// The mask of i alone.
fn one_bit(i: u32) -> u32
    requires { i < 32 }
    ensures { result ≡ 2 ^ i }
{
    1u32 << i
}

pub fn has_slot(mask: u32, i: Slot) -> bool
    requires { i.0 < 32 }
    ensures { result ≡ names mask i.0 }
{
    (mask >> i.0) % 2 == 1
}

pub fn with_slot(mask: u32, i: Slot) -> u32
    requires { i.0 < 32 }
    ensures { result ≡ bit_or mask (2 ^ i.0) }
{
    mask | one_bit(i.0)
}

pub fn one_partition(p: Partition) -> u32
    requires { p.0 < 16 }
    ensures { result ≡ 2 ^ p.0 }
{
    one_bit(p.0)
}
