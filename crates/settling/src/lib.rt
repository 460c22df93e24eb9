#![tactic(auto)]

ghost use Rattle.std.specs.Prelude.{◌≡◌, ◌<◌};
ghost use Rattle.tables.specs.View.{named, view};
ghost use Rattle.tables.specs.Encode.{region_for, regions_for, Canon, Is};
ghost use Rattle.tables.specs.Settle.{keep};
ghost use Rattle.tables.specs.Kept.{keep_regions};
ghost use Rattle.settling.specs.Settled.{UsedEnd};

// Which entries are open, and the regions that follow: settled again where areas have come or gone.
pub mod areas;
pub mod came;
pub mod gone;

use tables::{read, store};
use words::regions_word::{Region, RegionsFields};
use words::{Packed, Partition, Slot};

// So many slots of p can be in use: those up to the end of its last structure. An absent partition has none.
pub fn used_slots(t: &[u64; 641], p: Partition) -> u32
    requires { p.0 < 16 }
    ensures { UsedEnd (view t.now).k p.0 result }
{
    for j in (0..4).rev() {
        let s = read::structure(t, p, j);
        if s.present {
            return 8 * (j + 1);
        }
    }
    0
}

// a region stays loaded where its slot is open, which an absent slot never is
fn kept_region(t: &[u64; 641], p: Partition, r: Region) -> Region
    requires { (p.0 < 16) × (r.slot.0 < 32) }
    ensures { result ≡ region_for (keep ((view t.now).opened p.0) (named r)) }
{
    if r.loaded {
        let i = r.slot;
        let f = read::entry(t, p, i);
        if f.opened {
            return r;
        }
    }
    Region {
        loaded: false,
        slot: Slot(0),
    }
}

// .. each of the eight
fn kept_regions(t: &[u64; 641], p: Partition) -> RegionsFields
    requires { p.0 < 16 }
    ensures { result ≡ regions_for (λ i. keep ((view t.now).opened p.0) ((view t.now).region p.0 i)) }
{
    let f = read::regions(t, p);
    RegionsFields {
        region0: kept_region(t, p, f.region0),
        region1: kept_region(t, p, f.region1),
        region2: kept_region(t, p, f.region2),
        region3: kept_region(t, p, f.region3),
        region4: kept_region(t, p, f.region4),
        region5: kept_region(t, p, f.region5),
        region6: kept_region(t, p, f.region6),
        region7: kept_region(t, p, f.region7),
    }
}

// all regions of p
pub fn settle_regions(t: &mut [u64; 641], p: Partition)
    requires { Canon t.old × (p.0 < 16) }
    ensures { Is t.new (keep_regions (view t.old) p.0) }
{
    let at = (6 + 40 * p.0) as usize;
    store(t, at, kept_regions(t, p).write());
}
