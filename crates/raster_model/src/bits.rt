//! Lists of words as rows of bits, 64 a word and the lowest first.

ghost use Rattle.raster_model.specs.Bits.{AreAllBits, AreBitsSet, AreOnes, AreOnesOf, AreOnesSet, DifferInBit, HasOtherBit, TellsNonzero, has_bit as has_bit_at};
ghost use Rattle.std.specs.Prelude.{◌≡◌, ◌+◌, ◌*◌, ◌/◌, ◌<◌, ◌≤◌, ◌^◌, MatchBool, IsTrue, false, true, length};

/// Whether a bit is 1.
pub fn has_bit(words: &[u64], bit: usize) -> bool
    requires { bit < 64 * length words.now }
    ensures { result ≡ has_bit_at words.now bit }
{
    words[bit / 64] >> (bit % 64) & 1 == 1
}

/// The word whose bits from `first` to `last` are 1, both included, and the others 0.
fn ones_between(first: usize, last: usize) -> u64
    requires order { first ≤ last }
    requires inside { last < 64 }
    ensures { AreOnes first last result }
{
    u64::MAX >> (63 - last) & u64::MAX << first
}

/// What the word at a place has of the bits from `first` to `last`, both included, as ones. The bits are numbered
/// through all words.
fn ones_of(place: usize, first: usize, last: usize) -> u64
    requires order { first ≤ last }
    requires meets { (first / 64 ≤ place) × (place ≤ last / 64) }
    ensures { AreOnesOf place first last result }
{
    let start = place * 64;
    ones_between(first.max(start) - start, last.min(start + 63) - start)
}

/// A word with the bits at which `ones` has a 1 set to 1 or to 0.
fn with_ones(word: u64, ones: u64, set: bool) -> u64
    ensures { AreOnesSet word result ones set }
{
    if set { word | ones } else { word & !ones }
}

/// Whether two words differ in a bit.
fn differ(a: u64, b: u64) -> bool
    ensures { MatchBool result (DifferInBit a b) (a ≡ b) }
{
    a != b
}

/// Sets the bits from `first` to `last`, both included, to 1 or to 0. Answers whether one changed.
pub fn set_bits(words: &mut [u64], first: usize, last: usize, set: bool) -> bool
    requires order { first ≤ last }
    requires inside { last < 64 * length words.old }
    requires small { last < 2 ^ 32 }
    ensures len { length words.new ≡ length words.old }
    ensures set { AreBitsSet words.old words.new first (last + 1) set }
    ensures changed { MatchBool result (HasOtherBit words.old first (last + 1) set) (AreAllBits words.old first (last + 1) set) }
{
    let mut changed = false;
    for place in first / 64..last / 64 + 1 {
        let ones = ones_of(place, first, last);
        let word = words[place];
        let new = with_ones(word, ones, set);
        words[place] = new;
        changed |= differ(new, word);
    }
    changed
}

/// Whether the bits from `first` to `last`, both included, are all 1.
pub fn are_all_ones(words: &[u64], first: usize, last: usize) -> bool
    requires order { first ≤ last }
    requires inside { last < 64 * length words.now }
    requires small { last < 2 ^ 32 }
    ensures { MatchBool result (AreAllBits words.now first (last + 1) true) (HasOtherBit words.now first (last + 1) true) }
{
    for place in first / 64..last / 64 + 1 {
        let ones = ones_of(place, first, last);
        if differ(words[place] & ones, ones) {
            return false;
        }
    }
    true
}

/// A word with one bit for each sample from `start` to before `end`: 0 if the sample is 0, else 1. The other bits
/// are 0.
pub fn word_of(samples: &[u16], start: usize, end: usize) -> u64
    requires order { start ≤ end }
    requires inside { end ≤ length samples.now }
    requires one_word { end ≤ start + 64 }
    ensures { TellsNonzero samples.now start end result }
{
    let mut word = 0;
    for place in start..end {
        if samples[place] != 0 {
            word |= 1 << (place - start);
        }
    }
    word
}
