ghost use Rattle.std.specs.Prelude.{◌≡◌, not, ◌||◌};
ghost use Rattle.sound.specs.Clauses.{within};

use words::Rights;

// where a is set, b is
fn right_within(a: bool, b: bool) -> bool
    ensures { result ≡ (not a || b) }
{
    if a {
        return b;
    }
    true
}

// every right of a is one of b
pub fn rights_within(a: Rights, b: Rights) -> bool
    ensures { result ≡ within a b }
{
    if !right_within(a.read, b.read) {
        return false;
    }
    if !right_within(a.write, b.write) {
        return false;
    }
    right_within(a.execute, b.execute)
}
