ghost use Rattle.text_lines.specs.Numbers.{AreLongs, ArePushed, BeginsField, FitsLong, numbers_line, numbers_text};
ghost use Rattle.text_lines.specs.Parsing.{IsParsedAs, IsWord};
ghost use Rattle.std.specs.Fmt.{signed_decimal};
ghost use Rattle.std.specs.Int.{IsInRange};
ghost use Rattle.std.specs.Prelude.{◌≡◌, ◌≢◌, ◌≤◌, ◌<◌, ◌^◌, ◌∷◌, ◌++◌, ◌⊎◌, ℕ, ℤ, List, IfNone, IfOk, IfSome, MatchBool, decimal, length, neg_ℤ, pos, slice_index, take};
ghost use Rattle.std.specs.Str.Parse.{AllDigits, digits_value};

use crate::parse::after_word;
use std::alloc::AllocError;

/// What separates the fields of a line.
const SPACE: u8 = b' ';

/// What comes before a number below 0.
const MINUS: u8 = b'-';

/// No number of 64 bits with a sign has more digits.
const MOST_DIGITS: usize = 19;

/// The number that a text is the one spelling of.
pub fn number_of(text: &[u8]) -> Option<i64>
    ensures found { IfSome result (λ number. text.now ≡ signed_decimal number) }
    ensures none { IfNone result ((number : ℤ) → FitsLong number → text.now ≡ signed_decimal number → ⊥) }
{
    let (number, rest) = split_number(text)?;
    if rest.is_empty() { Some(number) } else { None }
}

/// The number without a sign that a text is the one spelling of.
pub fn count_of(text: &[u8]) -> Option<u32>
    ensures { IsParsedAs IsWord decimal text.now result }
{
    let (count, rest) = split_count(text)?;
    if rest.is_empty() {
        u32::try_from(count).ok()
    } else {
        None
    }
}

/// The number up to the first space, and the rest, which begins with it.
fn split_number(text: &[u8]) -> Option<(i64, &[u8])>
    ensures found { IfSome result (λ parts. text.now ≡ signed_decimal parts.0 ++ parts.1.now) }
    ensures rest { IfSome result (λ parts. BeginsField parts.1.now) }
    ensures none { IfNone result ((number : ℤ) (rest : List ℕ) → FitsLong number → BeginsField rest → text.now ≡ signed_decimal number ++ rest → ⊥) }
{
    match after_byte(text, MINUS) {
        Some(digits) => {
            let (size, rest) = split_count(digits)?;
            Some((negated(size)?, rest))
        }
        None => {
            let (size, rest) = split_count(text)?;
            Some((i64::try_from(size).ok()?, rest))
        }
    }
}

/// The number below 0 of this size.
fn negated(size: u64) -> Option<i64>
    ensures found { IfSome result (λ number. (size ≢ 0) × (number ≡ neg_ℤ (pos size))) }
    ensures none { IfNone result ((size ≡ 0) ⊎ (2 ^ 63 < size)) }
{
    let below = i64::try_from(size.checked_sub(1)?).ok()?;
    Some(-1 - below)
}

/// The number without a sign up to the first space, and the rest, which begins with it; none of more than 19 digits.
fn split_count(text: &[u8]) -> Option<(u64, &[u8])>
    ensures found { IfSome result (λ parts. text.now ≡ decimal parts.0 ++ parts.1.now) }
    ensures rest { IfSome result (λ parts. BeginsField parts.1.now) }
    ensures none { IfNone result ((count : ℕ) (rest : List ℕ) → count < 10 ^ 19 → BeginsField rest → text.now ≡ decimal count ++ rest → ⊥) }
{
    let (count, length) = leading_digits(text);
    let (digits, rest) = text.split_at(length);
    if is_plain(digits) && begins_field(rest) {
        Some((count, rest))
    } else {
        None
    }
}

/// The number of the digits at the front, of which no more than 19 are read, and how many were read.
fn leading_digits(text: &[u8]) -> (u64, usize)
    ensures within { result.1 ≤ length text.now }
    ensures few { result.1 ≤ 19 }
    ensures digits { AllDigits 10 (take result.1 text.now) }
    ensures value { result.0 ≡ digits_value 10 (take result.1 text.now) }
    ensures stops { result.1 < length text.now → result.1 < 19 → IsInRange 48 57 (slice_index text.now result.1) → ⊥ }
{
    let mut number = 0;
    for (count, byte) in text.iter().enumerate() {
        if count == MOST_DIGITS || !byte.is_ascii_digit() {
            return (number, count);
        }
        number = 10 * number + u64::from(byte - b'0');
    }
    (number, text.len())
}

/// What follows this byte at the front.
fn after_byte(bytes: &[u8], front: u8) -> Option<&[u8]>
    ensures found { IfSome result (λ rest. bytes.now ≡ front ∷ rest.now) }
    ensures none { IfNone result ((rest : List ℕ) → bytes.now ≡ front ∷ rest → ⊥) }
{
    match bytes {
        [byte, rest @ ..] if *byte == front => Some(rest),
        _ => None,
    }
}

/// Whether there are digits and none of them is a zero before others.
fn is_plain(digits: &[u8]) -> bool
    ensures { MatchBool result ((0 < length digits.now) × (slice_index digits.now 0 ≡ 48 → length digits.now ≡ 1)) ((length digits.now ≡ 0) ⊎ ((slice_index digits.now 0 ≡ 48) × (1 < length digits.now))) }
{
    !matches!(digits, [] | [b'0', _, ..])
}

/// Whether no bytes are left, or a space is at the front.
fn begins_field(rest: &[u8]) -> bool
    ensures { MatchBool result (BeginsField rest.now) (BeginsField rest.now → ⊥) }
{
    matches!(rest, [] | [SPACE, ..])
}

/// The number from `least` to `most` that comes after a label.
pub fn labelled_count(line: &[u8], label: &[u8], least: u32, most: u32) -> Option<u32>
    ensures within { IfSome result (λ count. (least ≤ count) × (count ≤ most)) }
    ensures found { IfSome result (λ count. line.now ≡ label.now ++ decimal count) }
    ensures none { IfNone result ((count : ℕ) → least ≤ count → count ≤ most → line.now ≡ label.now ++ decimal count → ⊥) }
{
    let count = count_of(after_word(line, label)?)?;
    if least <= count && count <= most {
        Some(count)
    } else {
        None
    }
}

/// Adds the numbers of a text, each of which comes after a space, to a list. If the text is not such numbers, the
/// list may have some of them.
pub fn push_numbers(text: &[u8], numbers: &mut Vec<i64>) -> Result<bool, AllocError>
    ensures { IfOk result (λ all. MatchBool all ((new : List ℤ) × ((numbers.new.items ≡ numbers.old.items ++ new) × ((text.now ≡ numbers_text new) × AreLongs new))) ((new : List ℤ) → AreLongs new → text.now ≡ numbers_text new → ⊥)) }
{
    let mut rest = text;
    while let Some(fields) = after_byte(rest, SPACE) {
        let Some((number, after)) = split_number(fields) else {
            return Ok(false);
        };
        numbers.push(number)?;
        rest = after;
    }
    Ok(rest.is_empty())
}

/// Adds the `count` numbers of a row, with spaces between them, to a list. If the text is not such a row, the list may
/// have some of them.
pub fn push_row(text: &[u8], count: usize, numbers: &mut Vec<i64>) -> Result<bool, AllocError>
    requires { 0 < count }
    ensures { IfOk result (λ all. MatchBool all ((row : List ℤ) × ((numbers.new.items ≡ numbers.old.items ++ row) × ((length row ≡ count) × ((text.now ≡ numbers_line row) × AreLongs row)))) ((row : List ℤ) → AreLongs row → length row ≡ count → text.now ≡ numbers_line row → ⊥)) }
{
    let before = numbers.len();
    Ok(push_first(text, numbers)? && numbers.len() - before == count)
}

/// Adds the numbers of a text, with spaces between them, to a list, if there are any.
fn push_first(text: &[u8], numbers: &mut Vec<i64>) -> Result<bool, AllocError>
    ensures { IfOk result (ArePushed (32 ∷ text.now) numbers.old.items numbers.new.items) }
{
    let Some((number, rest)) = split_number(text) else {
        return Ok(false);
    };
    numbers.push(number)?;
    push_numbers(rest, numbers)
}
