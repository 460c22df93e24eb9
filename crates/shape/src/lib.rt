#![tactic(auto)]

ghost use Rattle.std.specs.Prelude.{◌≡◌};
ghost use Rattle.sound.specs.Clauses.{rooted};

// The clauses that a record tells by itself, S2 to S5.
pub mod records;
pub mod rights;

use words::Partition;

// area j of p is one of the root's two that are 0, 0
pub fn is_rooted(p: Partition, j: u32) -> bool
    ensures { result ≡ rooted p.0 j }
{
    if p.0 == 0 {
        return j < 2;
    }
    false
}
