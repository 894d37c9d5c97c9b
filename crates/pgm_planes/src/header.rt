ghost use Rattle.std.specs.Prelude.{◌≡◌, ◌≤◌, ◌+◌, Some, IfOk, IfSome, IfNone, Ok, true, false};
ghost use Rattle.insar_ports.specs.Feeding.{source_name, limit_of, handed_of, waiting_of};
ghost use Rattle.pgm_planes.specs.Gaps.{is_space as is_space_byte, is_line_end as is_line_end_byte, is_digit as is_digit_byte};
ghost use Rattle.pgm_planes.specs.Planes.{HasMaxval, IsSizeWithin, sought_within};
ghost use Rattle.insar_ports.specs.Calls.{call_of};
ghost use Rattle.pgm_planes.specs.Reading.{Reads, nothing, byte_at, sight_at, octet_at, spelling_of as spelling_of_magic, magic_at, space_at, filling_at, blanks_at, inside_after as inside_after_byte, digits_at, numeral_at, field_at, with_digit as with_digit_byte, header_break as break_of_header, maxval_break as break_of_maxval, header_at, header_of};

use crate::extent::Extent;
use crate::fault::{PlaneFault, ReadPlaneFault, Role};
use crate::spelling::Spelling;
use insar_ports::{Feed, Source};

/// The greatest sample: maxval of a phase plane, and the most that any maxval is.
pub const MAX_SAMPLE: u32 = 65_535;

/// The numbers of a plane's header, which are within the limits.
#[derive(Clone, Copy)]
pub struct Header {
    pub width: u32,
    pub height: u32,
    pub maxval: u16,
}

/// Takes the next byte.
pub fn take_byte<S: Source>(feed: &mut Feed<S>) -> Result<Option<u8>, ReadPlaneFault>
    ensures same_source { source_name feed.new ≡ source_name feed.old }
    ensures limit { limit_of feed.new ≡ limit_of feed.old }
    ensures reads { Reads (λ got. got) result (call_of S.left S.faults feed.old feed.new) byte_at }
    ensures handed { IfOk result (λ got. IfSome got (λ _. handed_of feed.new ≡ handed_of feed.old + 1)) }
    ensures within { handed_of feed.new ≤ limit_of feed.new }
    ensures waited { IfSome (waiting_of feed.old) (λ byte. result ≡ Ok (Some byte)) }
{
    Ok(feed.next()?)
}

/// The next byte, which stays.
pub fn see_byte<S: Source>(feed: &mut Feed<S>) -> Result<Option<u8>, ReadPlaneFault>
    ensures same_source { source_name feed.new ≡ source_name feed.old }
    ensures limit { limit_of feed.new ≡ limit_of feed.old }
    ensures reads { Reads (λ got. got) result (call_of S.left S.faults feed.old feed.new) sight_at }
    ensures handed { handed_of feed.new ≡ handed_of feed.old }
    ensures waiting { IfOk result (λ got. IfSome got (λ byte. waiting_of feed.new ≡ Some byte)) }
{
    Ok(feed.peek()?)
}

/// White space: TAB, LF, VT, FF, CR and SP.
pub fn is_space(byte: u8) -> bool
    ensures { result ≡ is_space_byte byte }
{
    byte == b' ' || (9..=13).contains(&byte)
}

fn is_line_end(byte: u8) -> bool
    ensures { result ≡ is_line_end_byte byte }
{
    byte == b'\n' || byte == b'\r'
}

fn is_digit(byte: u8) -> bool
    ensures { result ≡ is_digit_byte byte }
{
    byte.is_ascii_digit()
}

/// Takes the next byte; `cut` is reported if the input ends before it.
pub fn read_octet<S: Source>(feed: &mut Feed<S>, cut: PlaneFault) -> Result<u8, ReadPlaneFault>
    ensures same_source { source_name feed.new ≡ source_name feed.old }
    ensures limit { limit_of feed.new ≡ limit_of feed.old }
    ensures reads { Reads (λ n. n) result (call_of S.left S.faults feed.old feed.new) (octet_at cut) }
{
    match take_byte(feed)? {
        Some(byte) => Ok(byte),
        None => Err(ReadPlaneFault::Plane(cut)),
    }
}

/// What the magic's letter and the byte after it mean.
fn spelling_of(letter: u8, digit: u8) -> Option<Spelling>
    ensures { result ≡ spelling_of_magic letter digit }
{
    match digit {
        b'5' if letter == b'P' => Some(Spelling::Raw),
        b'2' if letter == b'P' => Some(Spelling::Plain),
        _ => None,
    }
}

/// Takes `P5` or `P2`.
pub fn read_magic<S: Source>(feed: &mut Feed<S>) -> Result<Spelling, ReadPlaneFault>
    ensures same_source { source_name feed.new ≡ source_name feed.old }
    ensures limit { limit_of feed.new ≡ limit_of feed.old }
    ensures reads { Reads (λ s. s) result (call_of S.left S.faults feed.old feed.new) magic_at }
{
    let letter = read_octet(feed, PlaneFault::Magic)?;
    let digit = read_octet(feed, PlaneFault::Magic)?;
    match spelling_of(letter, digit) {
        Some(spelling) => Ok(spelling),
        None => Err(ReadPlaneFault::Plane(PlaneFault::Magic)),
    }
}

/// Takes one byte of white space.
fn read_space<S: Source>(feed: &mut Feed<S>) -> Result<(), ReadPlaneFault>
    ensures same_source { source_name feed.new ≡ source_name feed.old }
    ensures limit { limit_of feed.new ≡ limit_of feed.old }
    ensures reads { Reads (λ _. nothing) result (call_of S.left S.faults feed.old feed.new) space_at }
{
    let fault = PlaneFault::Form(feed.handed());
    let byte = read_octet(feed, fault)?;
    if is_space(byte) {
        Ok(())
    } else {
        Err(ReadPlaneFault::Plane(fault))
    }
}

/// Whether a comment is open after `byte`, if the byte is white space or part of a comment.
fn inside_after(inside: bool, byte: u8) -> Option<bool>
    ensures { result ≡ inside_after_byte inside byte }
{
    if inside {
        Some(!is_line_end(byte))
    } else if is_space(byte) {
        Some(false)
    } else if byte == b'#' {
        Some(true)
    } else {
        None
    }
}

/// Takes white space and comments.
fn skip_filling<S: Source>(feed: &mut Feed<S>) -> Result<(), ReadPlaneFault>
    ensures same_source { source_name feed.new ≡ source_name feed.old }
    ensures limit { limit_of feed.new ≡ limit_of feed.old }
    ensures reads { Reads (λ _. nothing) result (call_of S.left S.faults feed.old feed.new) (filling_at false) }
{
    let mut inside = false;
    loop {
        let Some(byte) = see_byte(feed)? else {
            if inside {
                return Err(ReadPlaneFault::Plane(PlaneFault::Form(feed.handed())));
            }
            return Ok(());
        };
        let Some(after) = inside_after(inside, byte) else {
            return Ok(());
        };
        take_byte(feed)?;
        inside = after;
    }
}

/// Takes white space.
pub fn skip_blanks<S: Source>(feed: &mut Feed<S>) -> Result<(), ReadPlaneFault>
    ensures same_source { source_name feed.new ≡ source_name feed.old }
    ensures limit { limit_of feed.new ≡ limit_of feed.old }
    ensures reads { Reads (λ _. nothing) result (call_of S.left S.faults feed.old feed.new) blanks_at }
{
    loop {
        let Some(byte) = see_byte(feed)? else {
            return Ok(());
        };
        if !is_space(byte) {
            return Ok(());
        }
        take_byte(feed)?;
    }
}

/// A number with one more digit; it stops growing at the greatest `u32`.
fn with_digit(number: u32, byte: u8) -> u32
    requires { is_digit_byte byte ≡ true }
    ensures { result ≡ with_digit_byte number byte }
{
    number
        .saturating_mul(10)
        .saturating_add(u32::from(byte - b'0'))
}

/// Takes further digits of a number.
fn read_digits<S: Source>(feed: &mut Feed<S>, number: u32) -> Result<u32, ReadPlaneFault>
    ensures same_source { source_name feed.new ≡ source_name feed.old }
    ensures limit { limit_of feed.new ≡ limit_of feed.old }
    ensures reads { Reads (λ n. n) result (call_of S.left S.faults feed.old feed.new) (digits_at number) }
{
    let mut number = number;
    loop {
        let Some(byte) = see_byte(feed)? else {
            return Ok(number);
        };
        if !is_digit(byte) {
            return Ok(number);
        }
        take_byte(feed)?;
        number = with_digit(number, byte);
    }
}

/// Takes a number; `cut` is reported if the input ends before it.
pub fn read_number<S: Source>(feed: &mut Feed<S>, cut: PlaneFault) -> Result<u32, ReadPlaneFault>
    ensures same_source { source_name feed.new ≡ source_name feed.old }
    ensures limit { limit_of feed.new ≡ limit_of feed.old }
    ensures reads { Reads (λ n. n) result (call_of S.left S.faults feed.old feed.new) (numeral_at cut) }
{
    let fault = PlaneFault::Form(feed.handed());
    let byte = read_octet(feed, cut)?;
    if is_digit(byte) {
        read_digits(feed, u32::from(byte - b'0'))
    } else {
        Err(ReadPlaneFault::Plane(fault))
    }
}

/// Takes a gap and a number, and says where the number begins.
fn read_field<S: Source>(feed: &mut Feed<S>) -> Result<(u32, u64), ReadPlaneFault>
    ensures same_source { source_name feed.new ≡ source_name feed.old }
    ensures limit { limit_of feed.new ≡ limit_of feed.old }
    ensures reads { Reads (λ f. (f.0, f.1)) result (call_of S.left S.faults feed.old feed.new) field_at }
{
    read_space(feed)?;
    skip_filling(feed)?;
    let place = feed.handed();
    let number = read_number(feed, PlaneFault::Form(place))?;
    Ok((number, place))
}

/// What is wrong with the numbers of a header; `place` is that of maxval's first digit.
fn header_break(
    role: Role,
    extent: Extent,
    width: u32,
    height: u32,
    maxval: u32,
    place: u64,
) -> Option<PlaneFault>
    ensures exact { result ≡ break_of_header (sought_within extent role) width height maxval place }
    ensures fits { IfNone result (IsSizeWithin extent width height × HasMaxval role maxval) }
    ensures valued { IfNone result ((1 ≤ maxval) × (maxval ≤ MAX_SAMPLE)) }
{
    if !extent.has(width, height) {
        return Some(PlaneFault::Size { width, height });
    }
    maxval_break(role, maxval, place)
}

/// What is wrong with a maxval, whose first digit stands at `place`.
fn maxval_break(role: Role, maxval: u32, place: u64) -> Option<PlaneFault>
    ensures exact { result ≡ break_of_maxval role maxval place }
    ensures fits { IfNone result (HasMaxval role maxval) }
    ensures valued { IfNone result ((1 ≤ maxval) × (maxval ≤ MAX_SAMPLE)) }
{
    match role {
        Role::Phase if maxval != MAX_SAMPLE => Some(PlaneFault::PhaseMaxval(maxval)),
        Role::Weight | Role::Mask if maxval == 0 || maxval > MAX_SAMPLE => {
            Some(PlaneFault::Form(place))
        }
        _ => None,
    }
}

/// Takes the numbers of a header and the white space byte after them.
pub fn read_header<S: Source>(
    feed: &mut Feed<S>,
    role: Role,
    extent: Extent,
) -> Result<Header, ReadPlaneFault>
    ensures same_source { source_name feed.new ≡ source_name feed.old }
    ensures limit { limit_of feed.new ≡ limit_of feed.old }
    ensures size { IfOk result (λ header. IsSizeWithin extent header.width header.height) }
    ensures fits { IfOk result (λ header. HasMaxval role header.maxval) }
    ensures valued { IfOk result (λ header. 1 ≤ header.maxval) }
    ensures reads { Reads header_of result (call_of S.left S.faults feed.old feed.new) (header_at (sought_within extent role)) }
{
    let (width, _) = read_field(feed)?;
    let (height, _) = read_field(feed)?;
    let (maxval, place) = read_field(feed)?;
    read_space(feed)?;
    match header_break(role, extent, width, height, maxval, place) {
        Some(fault) => Err(ReadPlaneFault::Plane(fault)),
        None => Ok(Header {
            width,
            height,
            maxval: maxval as u16,
        }),
    }
}
