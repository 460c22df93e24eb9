#![tactic(auto)]

ghost use Rattle.rules.specs.Services.{NamesService};

// The rules of the services, one row each, as 01 says them.
use tables::Outcome;
use words::{Partition, Refusal};

// The services by their numbers in call words. Boot, 10, is no call.
#[derive(Clone, Copy, Debug, PartialEq, Eq)]
pub enum Service {
    Create = 1,
    Delete = 2,
    Prepare = 3,
    Collect = 4,
    Give = 5,
    Take = 6,
    Cut = 7,
    Merge = 8,
    Region = 9,
    ReadRegion = 11,
    Find = 12,
    Switch = 13,
    ClearOut = 14,
    Pack = 15,
}

// The service of a number; 2 where it is no service's.
impl TryFrom<u32> for Service {
    type Error = Refusal;

    ghost try_from_gives = { NamesService };

    fn try_from(number: u32) -> Result<Self, Refusal> {
        match number {
            1 => Ok(Service::Create),
            2 => Ok(Service::Delete),
            3 => Ok(Service::Prepare),
            4 => Ok(Service::Collect),
            5 => Ok(Service::Give),
            6 => Ok(Service::Take),
            7 => Ok(Service::Cut),
            8 => Ok(Service::Merge),
            9 => Ok(Service::Region),
            11 => Ok(Service::ReadRegion),
            12 => Ok(Service::Find),
            13 => Ok(Service::Switch),
            14 => Ok(Service::ClearOut),
            15 => Ok(Service::Pack),
            _ => Err(Refusal::BadWord),
        }
    }
}

// The fields of a call word that a service uses: P, S, T, R, L, W.
#[derive(Clone, Copy)]
pub struct Uses {
    pub p: bool,
    pub s: bool,
    pub u: bool,
    pub r: bool,
    pub l: bool,
    pub w: bool,
}

// What a call answers: its outcome, beside the number that the caller had before it (0 where the table is refused).
// Where it stands, every word is as it was; a call that may write does not say so, even where it is refused.
// Of the records it changed at most those whose bit is set, that of partition 0 the least significant.
#[derive(Clone, Copy)]
pub struct Answer {
    pub caller: Partition,
    pub outcome: Outcome,
    pub stands: bool,
    pub changed: u32,
}
