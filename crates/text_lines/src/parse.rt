ghost use Rattle.std.specs.Prelude.{◌≡◌, ◌≢◌, ◌<◌, ◌≤◌, ℕ, MatchOption, None, Some, decimal, length, slice_index};
ghost use Rattle.text_lines.specs.Parsing.{AreWords, IsAfter, IsFieldTaken, IsParsedAs, IsRectOfWords, IsSplit, IsWide, IsWord, IsWordThen, behind, field_then, pair_text};
ghost use Rattle.text_lines.specs.Text.{field_text, rect_text};

use crate::numbers::count_of;
use itoa::Buffer;
use memchr::memchr;
use raster_model::Rect;

/// What is before each field of a line.
const SPACE: &[u8] = b" ";

/// The box after a word, if nothing follows it.
#[tactic(auto, using(crate::proofs::ParseLemmas::read_behind))]
pub fn rect_behind(bytes: &[u8], word: &[u8]) -> Option<Rect>
    ensures { IsParsedAs IsRectOfWords (behind word.now rect_text) bytes.now result }
{
    rect_of(after_word(bytes, word)?)
}

/// Four numbers, each after a space.
#[tactic(auto, unfolding(crate::specs::Text::rect_text))]
pub fn rect_of(bytes: &[u8]) -> Option<Rect>
    ensures { IsParsedAs IsRectOfWords rect_text bytes.now result }
{
    let (x0, (y0, (x1, y1))) = four_of(bytes)?;
    Some(Rect { x0, y0, x1, y1 })
}

/// The two numbers after a word, if nothing follows them.
#[tactic(auto, using(crate::proofs::ParseLemmas::read_behind))]
pub fn pair_behind(line: &[u8], word: &[u8]) -> Option<(u32, u32)>
    ensures { IsParsedAs AreWords (behind word.now pair_text) line.now result }
{
    pair_of(after_word(line, word)?)
}

/// Two numbers, each after a space.
#[tactic(auto, using(crate::proofs::FieldLemmas::last_begins))]
pub fn pair_of(bytes: &[u8]) -> Option<(u32, u32)>
    ensures { IsParsedAs AreWords pair_text bytes.now result }
{
    let (first, second) = take_field(bytes)?;
    with_first(first, last_field(second))
}

/// The number after a space, if nothing follows it.
#[tactic(auto, using(crate::proofs::ParseLemmas::read_behind), unfolding(crate::specs::Text::field_text))]
pub fn last_field(bytes: &[u8]) -> Option<u32>
    ensures { IsParsedAs IsWord field_text bytes.now result }
{
    count_of(after_word(bytes, SPACE)?)
}

/// The number of 128 bits after a space, if nothing follows it.
#[tactic(auto, using(crate::proofs::ParseLemmas::read_behind), unfolding(crate::specs::Text::field_text))]
pub fn last_wide(bytes: &[u8]) -> Option<u128>
    ensures { IsParsedAs IsWide field_text bytes.now result }
{
    wide_of(after_word(bytes, SPACE)?)
}

/// The number after a space at the front, and what follows it.
#[tactic(auto, using(crate::proofs::ParseLemmas::token_read, crate::proofs::FieldLemmas::word_wide), unfolding(crate::specs::Text::field_text))]
pub fn take_field(bytes: &[u8]) -> Option<(u32, &[u8])>
    ensures { IsFieldTaken IsWord bytes.now result }
{
    let (token, rest) = split_field(bytes)?;
    with_rest(count_of(token), rest)
}

/// The number of 128 bits after a space at the front, and what follows it.
#[tactic(auto, using(crate::proofs::ParseLemmas::token_read, crate::proofs::FieldLemmas::word_wide), unfolding(crate::specs::Text::field_text))]
pub fn take_wide(bytes: &[u8]) -> Option<(u128, &[u8])>
    ensures { IsFieldTaken IsWide bytes.now result }
{
    let (token, rest) = split_field(bytes)?;
    with_rest(wide_of(token), rest)
}

/// What is between a space at the front and the next space, and what follows it.
pub fn split_field(bytes: &[u8]) -> Option<(&[u8], &[u8])>
    ensures { IsSplit bytes.now result }
{
    let bytes = after_word(bytes, SPACE)?;
    Some(bytes.split_at(token_length(bytes)))
}

/// How many bytes are before the first space.
fn token_length(bytes: &[u8]) -> usize
    ensures within { result ≤ length bytes.now }
    ensures token { (k : ℕ) → k < result → slice_index bytes.now k ≢ 32 }
    ensures space { result < length bytes.now → slice_index bytes.now result ≡ 32 }
{
    match memchr(b' ', bytes) {
        Some(count) => count,
        None => bytes.len(),
    }
}

/// The number of 128 bits that a token is the decimal of.
pub fn wide_of(token: &[u8]) -> Option<u128>
    ensures { IsParsedAs IsWide decimal token.now result }
{
    let number = std::str::from_utf8(token).ok()?.parse::<u128>().ok()?;
    let mut digits = Buffer::new();
    if digits.format(number).as_bytes() == token {
        Some(number)
    } else {
        None
    }
}

/// What follows a word at the front.
pub(crate) fn after_word<'a>(bytes: &'a [u8], word: &[u8]) -> Option<&'a [u8]>
    ensures { IsAfter word.now bytes.now result }
{
    bytes.strip_prefix(word)
}

/// A number that was found, and what follows it.
fn with_rest<N: Copy>(number: Option<N>, rest: &[u8]) -> Option<(N, &[u8])>
    ensures { MatchOption result (number ≡ None) (λ found. (number ≡ Some found.0) × (found.1.now ≡ rest.now)) }
{
    Some((number?, rest))
}

/// Four numbers, each after a space.
#[tactic(auto, using(crate::proofs::FieldLemmas::field_begins))]
fn four_of(bytes: &[u8]) -> Option<(u32, (u32, (u32, u32)))>
    ensures { IsParsedAs (IsWordThen (IsWordThen AreWords)) (field_then (field_then pair_text)) bytes.now result }
{
    let (first, rest) = take_field(bytes)?;
    with_first(first, three_of(rest))
}

/// Three numbers, each after a space.
#[tactic(auto, using(crate::proofs::ParseLemmas::pair_read, crate::proofs::FieldLemmas::last_begins, crate::proofs::FieldLemmas::field_begins))]
fn three_of(bytes: &[u8]) -> Option<(u32, (u32, u32))>
    ensures { IsParsedAs (IsWordThen AreWords) (field_then pair_text) bytes.now result }
{
    let (first, rest) = take_field(bytes)?;
    with_first(first, pair_of(rest))
}

/// A number and what was found after it.
fn with_first<N: Copy>(first: u32, found: Option<N>) -> Option<(u32, N)>
    ensures { MatchOption result (found ≡ None) (λ both. (both.0 ≡ first) × (found ≡ Some both.1)) }
{
    Some((first, found?))
}
