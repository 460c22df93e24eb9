ghost use Rattle.std.specs.Prelude.{◌≡◌, cond, ◌<◌};
ghost use Rattle.tables.specs.View.{nth_region};
ghost use Rattle.tables.specs.Regions.{with_region};

use words::regions_word::{Region, RegionsFields};

// region r of eight
pub fn nth(f: RegionsFields, r: u32) -> Region
    requires { r < 8 }
    ensures { result ≡ nth_region f r }
{
    match r {
        0 => f.region0,
        1 => f.region1,
        2 => f.region2,
        3 => f.region3,
        4 => f.region4,
        5 => f.region5,
        6 => f.region6,
        _ => f.region7,
    }
}

// x where b, and y where not
fn choose(b: bool, x: Region, y: Region) -> Region
    ensures { result ≡ cond b x y }
{
    if b { x } else { y }
}

// the eight regions with x for region r
pub fn with_region(f: RegionsFields, r: u32, x: Region) -> RegionsFields
    ensures { result ≡ with_region f r x }
{
    RegionsFields {
        region0: choose(r == 0, x, f.region0),
        region1: choose(r == 1, x, f.region1),
        region2: choose(r == 2, x, f.region2),
        region3: choose(r == 3, x, f.region3),
        region4: choose(r == 4, x, f.region4),
        region5: choose(r == 5, x, f.region5),
        region6: choose(r == 6, x, f.region6),
        region7: choose(r == 7, x, f.region7),
    }
}
