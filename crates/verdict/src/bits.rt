ghost use Rattle.std.specs.Prelude.{◌≡◌, not, ◌&&◌, ◌||◌, ◌+◌, ◌<◌, eqb};
ghost use Rattle.loops.specs.Loops.{all};
ghost use Rattle.words.specs.Kind.{zeroed};
ghost use Rattle.words.specs.Words.{structure};
ghost use Rattle.tables.specs.View.{area_word_at};
ghost use Rattle.sound.specs.Clauses.{s3_first, s3};

use tables::zeros;
use words::Partition;

// no zero bit is set in the words of the four structures
fn structures_clean(t: &[u64; 641], p: Partition) -> bool
    requires { p.0 < 16 }
    ensures { result ≡ all 4 (λ j. zeroed structure (area_word_at t.now p.0 (1 + j))) }
{
    for j in 0..4 {
        if !zeros::structure_bits(t, p, j) {
            return false;
        }
    }
    true
}

// S3 of the words of p
fn record_clean(t: &[u64; 641], p: Partition) -> bool
    requires { p.0 < 16 }
    ensures { result ≡ s3 t.now p.0 }
{
    if !zeros::header_bits(t, p) {
        return false;
    }
    if !structures_clean(t, p) {
        return false;
    }
    if !shape::records::regions_sound(t, p) {
        return false;
    }
    zeros::blank_words(t, p)
}

// .. of word 0, which is looked at with partition 0
fn first_clean(t: &[u64; 641], p: Partition) -> bool
    ensures { result ≡ (not (eqb p.0 0) || s3_first t.now) }
{
    if p.0 != 0 {
        return true;
    }
    zeros::first_bits(t)
}

// S3 at p
pub fn clean_at(t: &[u64; 641], p: Partition) -> bool
    requires { p.0 < 16 }
    ensures { result ≡ (not (eqb p.0 0) || s3_first t.now) && s3 t.now p.0 }
{
    if !first_clean(t, p) {
        return false;
    }
    record_clean(t, p)
}
