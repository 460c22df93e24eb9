ghost use Rattle.std.specs.Prelude.{◌≡◌};
ghost use Rattle.words.specs.Kind.{Kind, Lawful, RoundTrips, fields_in, reading, writing};
ghost use Rattle.words.specs.Laws.Kind.{round_trips};
ghost use Rattle.words.specs.Parts.{zero_sum};

use crate::Refusal;

// A struct of fields that is packed in a word: the kind of the word, and code that takes the fields out of a word and puts them in.
pub trait Packed: Copy {
    ghost kind: { Kind Self };

    // What each `impl` must prove.
    ghost lawful: { Lawful kind };

    // The fields that stand in a word, whatever its zero bits.
    fn fields(w: u64) -> Self
        ensures { result ≡ fields_in kind w };

    // What stands in the zero bits, added up: 0 where none is set.
    fn zero_bits(w: u64) -> u64
        ensures { result ≡ zero_sum kind.parts w };

    fn write(self) -> Result<u64, Refusal>
        ensures { result ≡ writing kind self };

    fn read(w: u64) -> Result<Self, Refusal>
        ensures { result ≡ reading kind w }
    {
        if Self::zero_bits(w) != 0 {
            return Err(Refusal::BadWord);
        }
        Ok(Self::fields(w))
    }

    // What follows: fields and words round-trip both ways.
    ghost trips: { RoundTrips kind } = { round_trips lawful };
}
