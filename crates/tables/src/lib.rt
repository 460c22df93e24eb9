#![tactic(auto)]

ghost use Rattle.std.specs.Prelude.{◌≡◌, ◌^◌, ◌<◌, length};
ghost use Rattle.tables.specs.Fitting.{Words};
ghost use Rattle.tables.specs.Store.{stored};

// What the 641 words of a table mean. Here, in `writing`, `settling` and `memory`, and nowhere else, it is known which word holds what.
// What is known of a table that is lent to be written (`Canon`, `Right`) stands in clauses and in no type: a service breaks it on its way and mends it before it is done.
pub mod copies;
pub mod masks;
pub mod read;
pub mod regions;
pub mod zeros;

use words::{Partition, Refusal, Slot};

// What the search of a record for a line answers: the slot, and how many slot words it looked at.
#[derive(Clone, Copy)]
pub struct Looked {
    pub found: Option<Slot>,
    pub count: u32,
}

// What a service answers: its two values, or why it is refused.
pub type Outcome = Result<(u64, u64), Refusal>;

// The length behind `&[u64; 641]`, for who has to name it.
pub fn sized(t: &[u64; 641])
    ensures { length t.now ≡ 641 }
{}

// That each word behind it is below 2^64 is not known by itself: reading it tells that. Nothing is computed, and the compiler drops the loop.
pub fn fits(t: &[u64; 641])
    ensures { Words t.now }
{
    for &word in t {
        fits_word(word);
    }
}

fn fits_word(w: u64)
    ensures { w < 2 ^ 64 }
{}

// The word goes to its place. A refusal, of whatever kind, stores nothing: no caller meets one.
pub fn store<E: Copy>(t: &mut [u64; 641], at: usize, word: Result<u64, E>)
    requires { at < 641 }
    ensures { t.new ≡ stored t.old at word }
{
    if let Ok(w) = word {
        t[at] = w;
    }
}
