ghost use Rattle.raster_model.specs.Limits.{IsSlope, IsSteepness};
ghost use Rattle.std.specs.Fmt.{signed_decimal};
ghost use Rattle.text_lines.specs.Numbers.{number_text};
ghost use Rattle.text_lines.specs.Parsing.{IsAnyRule, IsParsedAs};
ghost use Rattle.text_parts.specs.Parts.{IsRamp, IsRasterSize, IsWholeSize};
ghost use Rattle.text_parts.specs.Text.{known_line, ramp_line, rule_line, size_line, steep_line};

use raster_model::{MAX_STEEPNESS, RuleKind, is_raster_size, is_tiled_size};
use text_lines::{labelled_count, number_of, pair_behind, split_field};

// The words of the lines.
const SIZE: &[u8] = b"size";

const RULE: &[u8] = b"rule ";

const RAMP: &[u8] = b"ramp";

const STEEP: &[u8] = b"steep ";

/// What is before each number of a line.
const SPACE: &[u8] = b" ";

/// The width and the height of a line `size W H`, if a raster of that size may have tiles.
pub(crate) fn size_of(line: &[u8]) -> Option<(u32, u32)>
    ensures { IsParsedAs IsRasterSize size_line line.now result }
{
    let (width, height) = whole_size_of(line)?;
    if is_tiled_size(width, height) {
        Some((width, height))
    } else {
        None
    }
}

/// The width and the height of a line `size W H`, if a raster may have that size.
pub(crate) fn whole_size_of(line: &[u8]) -> Option<(u32, u32)>
    ensures { IsParsedAs IsWholeSize size_line line.now result }
{
    let (width, height) = pair_behind(line, SIZE)?;
    if is_raster_size(width, height) {
        Some((width, height))
    } else {
        None
    }
}

/// The rule of a line `rule RULE`.
pub(crate) fn rule_of(line: &[u8]) -> Option<RuleKind>
    ensures { IsParsedAs IsAnyRule rule_line line.now result }
{
    text_lines::rule_of(line.strip_prefix(RULE)?)
}

/// The slopes of a line `ramp GX GY`, along right and down edges.
pub(crate) fn ramp_of(line: &[u8]) -> Option<(i32, i32)>
    ensures { IsParsedAs IsRamp ramp_line line.now result }
{
    let (across, along) = split_field(line.strip_prefix(RAMP)?)?;
    Some((slope_of(across)?, last_slope(along)?))
}

/// The slope after a space, if nothing follows it.
fn last_slope(bytes: &[u8]) -> Option<i32>
    ensures { IsParsedAs IsSlope number_text bytes.now result }
{
    slope_of(bytes.strip_prefix(SPACE)?)
}

/// The slope that a token is the one spelling of: it fits 16 bits with its sign.
fn slope_of(token: &[u8]) -> Option<i32>
    ensures { IsParsedAs IsSlope signed_decimal token.now result }
{
    let slope = i16::try_from(number_of(token)?).ok()?;
    Some(i32::from(slope))
}

/// The steepness of a line `steep Q`, if it is from 1 to 16.
pub(crate) fn steepness_of(line: &[u8]) -> Option<u32>
    ensures { IsParsedAs IsSteepness steep_line line.now result }
{
    labelled_count(line, STEEP, 1, MAX_STEEPNESS)
}

/// A line that is this text.
pub(crate) fn known_in(line: &[u8], text: &[u8]) -> Option<()>
    ensures { IsParsedAs IsAnyRule (known_line text.now) line.now result }
{
    if line == text { Some(()) } else { None }
}
