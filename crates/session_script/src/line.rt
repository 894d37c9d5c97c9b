ghost use Rattle.pgm_planes.specs.Gaps.{is_digit as is_digit_byte, capped_number as number_by};
ghost use Rattle.session_script.specs.Fields.{digits_in, field_in, plain_number_in, rect_in, given_field};
ghost use Rattle.session_script.specs.Lines.{Spells, SpellsNone, SpellsEdit, is_plain as is_plain_number};
ghost use Rattle.raster_model.specs.declared.script.Edit.{Edit as AnyEdit};
ghost use Rattle.session_script.specs.declared.word.Word.TheVariants as words;
ghost use Rattle.raster_model.specs.declared.script.Command.TheVariants.{Change};
ghost use Rattle.std.specs.Prelude.{◌≡◌, ◌≤◌, IsTrue, MatchOption, length};
ghost use Rattle.std.specs.List.{list_all};

use crate::word::Word;
use raster_model::{Command, Edit, Rect};

/// The line with which a section begins.
pub const ANALYST: &[u8] = b"analyst";

/// The last line.
pub const END: &[u8] = b"end";

/// The command to settle.
pub const SETTLE: &[u8] = b"settle";

/// The command to show.
pub const SHOW: &[u8] = b"show";

/// The name of an edit that masks.
pub const MASK: &[u8] = b"mask";

/// The name of an edit that opens.
pub const UNMASK: &[u8] = b"unmask";

/// What separates the fields of a line.
const SPACE: u8 = b' ';

/// What a line means, without its line feed.
pub fn word_of(line: &[u8]) -> Option<Word>
    ensures { MatchOption result (SpellsNone line.now) (Spells line.now) }
{
    if line == ANALYST {
        return Some(Word::Analyst);
    }
    if line == END {
        return Some(Word::End);
    }
    if line == SETTLE {
        return Some(Word::Command(Command::Settle));
    }
    if line == SHOW {
        return Some(Word::Command(Command::Show));
    }
    match edit_of(line) {
        Some(edit) => Some(Word::Command(Command::Change(edit))),
        None => None,
    }
}

/// The edit of a line.
fn edit_of(line: &[u8]) -> Option<Edit>
    ensures { MatchOption result ((edit : AnyEdit) → Spells line.now (words.Command (Change edit)) → ⊥) (λ edit. Spells line.now (words.Command (Change edit))) }
{
    if let Some(fields) = line.strip_prefix(MASK) {
        return Some(Edit::Mask(rect_of(fields)?));
    }
    let fields = line.strip_prefix(UNMASK)?;
    Some(Edit::Unmask(rect_of(fields)?))
}

/// The rectangle of an edit: four numbers, each after one SP.
#[tactic(auto, unfolding(crate::specs::Fields::rect_in))]
fn rect_of(bytes: &[u8]) -> Option<Rect>
    ensures { result ≡ rect_in bytes.now }
{
    let (x0, bytes) = take_field(bytes)?;
    let (y0, bytes) = take_field(bytes)?;
    let (x1, bytes) = take_field(bytes)?;
    let (y1, bytes) = take_field(bytes)?;
    if bytes.is_empty() {
        Some(Rect { x0, y0, x1, y1 })
    } else {
        None
    }
}

/// The number after an SP at the front, and what follows it.
#[tactic(auto, unfolding(crate::specs::Fields::field_in))]
fn take_field(bytes: &[u8]) -> Option<(u32, &[u8])>
    ensures { given_field result ≡ field_in bytes.now }
{
    match bytes {
        [SPACE, rest @ ..] => take_number(rest),
        _ => None,
    }
}

/// The plain number at the front, and what follows it.
#[tactic(auto, using(crate::proofs::WordAgain::front_digits), unfolding(crate::specs::Fields::plain_number_in))]
fn take_number(bytes: &[u8]) -> Option<(u32, &[u8])>
    ensures { given_field result ≡ plain_number_in bytes.now }
{
    let (digits, rest) = bytes.split_at(count_digits(bytes));
    if is_plain(digits) {
        Some((number_of(digits), rest))
    } else {
        None
    }
}

/// How many digits are at the front.
#[tactic(auto, using(std::proofs::lemmas::List::Sums::prefix_len_is), unfolding(crate::specs::Fields::digits_in))]
fn count_digits(bytes: &[u8]) -> usize
    ensures count { result ≡ digits_in bytes.now }
    ensures within { result ≤ length bytes.now }
{
    for (count, byte) in bytes.iter().enumerate() {
        if !is_digit(*byte) {
            return count;
        }
    }
    bytes.len()
}

fn is_digit(byte: u8) -> bool
    ensures { result ≡ is_digit_byte byte }
{
    byte.is_ascii_digit()
}

/// Whether digits are a number without leading zeros.
fn is_plain(digits: &[u8]) -> bool
    requires { IsTrue (list_all is_digit_byte digits.now) }
    ensures { result ≡ is_plain_number digits.now }
{
    match digits {
        [] => false,
        [b'0', _, ..] => false,
        _ => true,
    }
}

/// The number that digits spell; it stops growing at the greatest `u32`.
#[tactic(auto, using(crate::proofs::WordAgain::counted_is))]
fn number_of(digits: &[u8]) -> u32
    requires { IsTrue (list_all is_digit_byte digits.now) }
    ensures { result ≡ number_by digits.now }
{
    let mut number = 0u32;
    for digit in digits {
        number = number
            .saturating_mul(10)
            .saturating_add(u32::from(*digit - b'0'));
    }
    number
}
