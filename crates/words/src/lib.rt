#![tactic(auto)]

ghost use Rattle.std.specs.Prelude.{◌≡◌};
ghost use Rattle.words.specs.Refusals.{number_of};

// A packed word has fields and zero bits. Here, and nowhere above, it is known which bits they are.
// One module a kind of word: its fields, and the code that packs them.
pub mod boot_word;
pub mod call_word;
pub mod first_word;
pub mod header_word;
pub mod lines_word;
pub mod mark_word;
pub mod masks_word;
pub mod packed;
pub mod regions_word;
pub mod slot_word;
pub mod structure_word;

pub use packed::Packed;

// Three kinds of number that are never taken for one another. C sees a list of runs, and so lines and partitions.
// No invariant that a slot is below 32 and a partition below 16: `Packed::write` is handed wider ones too, and refuses them.
// Where lines are ordered, code compares their numbers: of a derived < a proof is told is_lt (nat_cmp ..), with which that of `searching::holds_line` didn't close.
#[repr(C)]
#[derive(Clone, Copy, Debug, PartialEq, Eq)]
pub struct Line(pub u32);

#[derive(Clone, Copy, Debug, PartialEq, Eq)]
pub struct Slot(pub u32);

#[repr(C)]
#[derive(Clone, Copy, Debug, PartialEq, Eq)]
pub struct Partition(pub u32);

#[derive(Clone, Copy, Debug, PartialEq, Eq)]
pub struct Rights {
    pub read: bool,
    pub write: bool,
    pub execute: bool,
}

// Why a table, a word or a call is refused. Where several apply, the lowest number is given.
#[derive(Clone, Copy, Debug, PartialEq, Eq)]
pub enum Refusal {
    NotSound = 1,
    BadWord = 2,
    WrongPartition = 3,
    NoEntry = 4,
    NotOpen = 5,
    Given = 6,
    WrongLine = 7,
    NoneFree = 8,
    TooShort = 9,
    MoreRights = 10,
    Apart = 11,
    TwoGrants = 12,
    InPieces = 14,
    InUse = 15,
    WrongRegion = 16,
    ShortList = 17,
    LentWhole = 18,
    ManyPieces = 19,
    WrongSheet = 20,
    WrongMasks = 21,
    WrongPair = 22,
}

// The number that C is told.
impl From<Refusal> for u64 {
    ghost from_gives = { λ why n. n ≡ number_of why };

    fn from(why: Refusal) -> u64 {
        why as u64
    }
}
