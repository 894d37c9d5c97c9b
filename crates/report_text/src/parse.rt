ghost use Rattle.raster_model.specs.Limits.{IsTileSide};
ghost use Rattle.report_text.specs.Parsing.{AreCosts, IsEditOfWords, IsRevisedOfWords, IsShownOfWords, edit_text, revised_text, shown_text};
ghost use Rattle.report_text.specs.Contents.{IsEntryOfWords};
ghost use Rattle.report_text.specs.Parts.{MayStand};
ghost use Rattle.report_text.specs.Terms.{IsVersion};
ghost use Rattle.report_text.specs.Text.{costs_line, entry_text, history_line, tile_line, version_line};
ghost use Rattle.std.specs.Prelude.{codes};
ghost use Rattle.text_lines.specs.Parsing.{IsParsedAs, behind};

use raster_model::{Edit, MAX_TILE_SIDE, MIN_TILE_SIDE};
use text_lines::{
    labelled_count, last_field, last_wide, pair_behind, rect_behind, take_field, take_wide,
};
use tile_board::Entry;

// The words of the lines.
const VERSION: &[u8] = b"insar-report ";

const TILE: &[u8] = b"tile ";

const COSTS: &[u8] = b"costs";

const REVISED: &[u8] = b"revised";

const KEPT: &[u8] = b"kept";

const PUBLISHED: &[u8] = b"published";

const SETTLED: &[u8] = b"settled";

const SHOWN: &[u8] = b"shown";

const MASK: &[u8] = b" mask";

const UNMASK: &[u8] = b" unmask";

const NONE: &[u8] = b" none";

const END: &[u8] = b"end";

/// The newest version.
const LAST_VERSION: u32 = 2;

/// The version of a line `insar-report VERSION`, if there is such a version.
pub(crate) fn version_of(line: &[u8]) -> Option<u32>
    ensures { IsParsedAs IsVersion version_line line.now result }
{
    labelled_count(line, VERSION, 1, LAST_VERSION)
}

/// The side of a line `tile SIDE`, if it is from 2 to 128.
pub(crate) fn side_of(line: &[u8]) -> Option<u32>
    ensures { IsParsedAs IsTileSide tile_line line.now result }
{
    labelled_count(line, TILE, MIN_TILE_SIDE, MAX_TILE_SIDE)
}

/// The entry of a line of the history; None of the line `end`.
pub(crate) fn history_of(line: &[u8]) -> Option<Option<Entry>>
    ensures { IsParsedAs MayStand history_line line.now result }
{
    if line == END {
        return Some(None);
    }
    Some(Some(entry_of(line)?))
}

/// The entry of a line.
fn entry_of(line: &[u8]) -> Option<Entry>
    ensures { IsParsedAs IsEntryOfWords entry_text line.now result }
{
    if let Some((tile, stamp)) = pair_behind(line, KEPT) {
        return Some(Entry::Kept { tile, stamp });
    }
    if let Some((analyst, revision)) = pair_behind(line, PUBLISHED) {
        return Some(Entry::Published { analyst, revision });
    }
    if let Some((analyst, revision)) = pair_behind(line, SETTLED) {
        return Some(Entry::Settled { analyst, revision });
    }
    if let Some((analyst, revision)) = shown_of(line) {
        return Some(Entry::Shown { analyst, revision });
    }
    let (analyst, edit) = revised_of(line)?;
    Some(Entry::Revised { analyst, edit })
}

/// The two costs of a line `costs TILECOST SEAMCOST`.
pub(crate) fn costs_of(line: &[u8]) -> Option<(u128, u128)>
    ensures { IsParsedAs AreCosts costs_line line.now result }
{
    let (tiles, seams) = take_wide(line.strip_prefix(COSTS)?)?;
    Some((tiles, last_wide(seams)?))
}

/// The analyst and the edit of a line `revised ANALYST EDIT`.
fn revised_of(line: &[u8]) -> Option<(u32, Edit)>
    ensures { IsParsedAs IsRevisedOfWords (behind (codes "revised") revised_text) line.now result }
{
    let (analyst, edit) = take_field(line.strip_prefix(REVISED)?)?;
    Some((analyst, edit_of(edit)?))
}

/// The edit at the end of a line.
fn edit_of(bytes: &[u8]) -> Option<Edit>
    ensures { IsParsedAs IsEditOfWords edit_text bytes.now result }
{
    if let Some(rect) = rect_behind(bytes, MASK) {
        return Some(Edit::Mask(rect));
    }
    Some(Edit::Unmask(rect_behind(bytes, UNMASK)?))
}

/// The analyst and the revision of a line `shown ANALYST REVISION`; no revision if it says `none`.
fn shown_of(line: &[u8]) -> Option<(u32, Option<u32>)>
    ensures { IsParsedAs IsShownOfWords (behind (codes "shown") shown_text) line.now result }
{
    let (analyst, revision) = take_field(line.strip_prefix(SHOWN)?)?;
    if revision == NONE {
        return Some((analyst, None));
    }
    Some((analyst, Some(last_field(revision)?)))
}
