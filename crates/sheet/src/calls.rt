ghost use Rattle.std.specs.Prelude.{◌≡◌, ◌<◌};
ghost use Rattle.tables.specs.View.{view};
ghost use Rattle.tables.specs.Search.{lowest, absent_child};
ghost use Rattle.rules.specs.Changes.{next_in};
ghost use Rattle.sheet.specs.Touched.{touched, Named};

use rules::Service;
use words::call_word::CallFields;
use words::{Packed, Partition};

// Whose two words a call can change: one partition's; those of p and of all above it; of who is gone, and of the caller and all above it.
#[derive(Clone, Copy)]
pub enum Whose {
    Nobody,
    One(Partition),
    Up(Partition),
    Gone,
}

// The number of the next child; 0 where there is none.
fn next_child(t: &[u64; 641]) -> Partition
    ensures { (result.0 ≡ next_in (lowest 16 (absent_child (view t.now).k))) × (result.0 < 16) }
{
    searching::absent_partition(t).unwrap_or(Partition(0))
}

// Whose two words a call of the word changes at most, of this table.
pub fn touched(t: &[u64; 641], word: u64) -> Whose
    ensures { (result ≡ touched (view t.now).k word) × Named result }
{
    let f = CallFields::fields(word);
    let Ok(service) = Service::try_from(f.service) else {
        return Whose::Nobody;
    };
    let caller = tables::read::first(t).current;
    match service {
        Service::Create => Whose::Up(next_child(t)),
        Service::Delete | Service::ClearOut => Whose::Gone,
        Service::Prepare => Whose::Up(f.partition),
        Service::Collect => Whose::Up(f.partition),
        Service::Give | Service::Pack => Whose::One(f.partition),
        Service::Take => Whose::One(searching::given_to(t, caller, f.slot)),
        Service::Cut | Service::Merge => Whose::One(caller),
        Service::Region | Service::ReadRegion | Service::Find | Service::Switch => Whose::Nobody,
    }
}
