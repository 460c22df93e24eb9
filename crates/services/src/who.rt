ghost use Rattle.std.specs.Prelude.{◌≡◌, ◌<◌};
ghost use Rattle.tables.specs.View.{view};
ghost use Rattle.rules.specs.Rules.{own_or_child, parent_or_child};
ghost use Rattle.rules.specs.Changes.{up_from};

use tables::masks::one_partition;
use words::Partition;

// p is the caller or a child of it
pub fn own_or_child(t: &[u64; 641], p: Partition) -> bool
    requires { p.0 < 16 }
    ensures { result ≡ own_or_child (view t.now).k p.0 }
{
    let f = tables::read::first(t);
    if p == f.current {
        return true;
    }
    searching::is_child(t, f.current, p)
}

// p is the caller's parent, which the root does not have, or a child of it
pub fn parent_or_child(t: &[u64; 641], p: Partition) -> bool
    requires { p.0 < 16 }
    ensures { result ≡ parent_or_child (view t.now).k p.0 }
{
    let f = tables::read::first(t);
    if f.current.0 == 0 {
        return searching::is_child(t, f.current, p);
    }
    let h = tables::read::header(t, f.current);
    if p == h.parent {
        return true;
    }
    searching::is_child(t, f.current, p)
}

// p and all above it, as a mask: the way from p up to the root.
pub fn up_from(t: &[u64; 641], p: Partition) -> u32
    requires { p.0 < 16 }
    ensures { result ≡ up_from (view t.now).k p.0 }
{
    let mut mask = 1u32;
    let mut q = p.0;
    for _ in 0..15u32 {
        if q == 0 {
            return mask;
        }
        let h = tables::read::header(t, Partition(q));
        mask = mask | one_partition(Partition(q));
        q = h.parent.0;
    }
    mask
}
