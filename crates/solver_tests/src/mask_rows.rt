ghost use Rattle.raster_model.specs.Limits.{is_tiled_size};
ghost use Rattle.raster_model.specs.Scripts.{IsRectIn, rect_of};
ghost use Rattle.raster_model.specs.Tiles.{tiles_of};
ghost use Rattle.std.specs.Prelude.{◌≡◌, ◌<◌, ◌≤◌, IsTrue, true};

use crate::outcomes::same;
use crate::raster_rows::add_opened;
use mask_revisions::Revisions;
use raster_model::{Edit, Mask, Rect, Tiling};
use std::alloc::Global;
use std::process::Abort;
use std::str::Split;
use worked_scenes::{field, number};

/// Revision 0 of a raster with every pixel open.
fn all_open(rt: &impl Abort, alloc: Global, tiling: Tiling) -> Revisions
    requires { IsTrue (is_tiled_size tiling.width tiling.height) }
    ensures { result.tiling ≡ tiling }
{
    let mask = Mask::all_open(alloc, tiling.width, tiling.height).expect(rt, "memory");
    Revisions::new(alloc, mask, tiling).expect(rt, "memory")
}

/// Whether a box lies in a raster.
fn fits(rect: Rect, width: u32, height: u32) -> bool
    ensures { result ≡ true → IsRectIn width height rect }
{
    rect.x0 <= rect.x1 && rect.x1 < width && rect.y0 <= rect.y1 && rect.y1 < height
}

/// The next edit of a row.
fn next_edit(rt: &impl Abort, words: &mut Split<'_, char>, tiling: &Tiling) -> Edit
    ensures { IsRectIn tiling.now.width tiling.now.height (rect_of result) }
{
    let opens = field(words) == "unmask";
    let rect = Rect {
        x0: number(words),
        y0: number(words),
        x1: number(words),
        y1: number(words),
    };
    assert!(rt; fits(rect, tiling.width, tiling.height));
    if opens {
        Edit::Unmask(rect)
    } else {
        Edit::Mask(rect)
    }
}

/// Makes an edit, and adds which tiles it changes. Nothing is said of the mask.
fn push(rt: &impl Abort, alloc: Global, revisions: &mut Revisions, edit: Edit, text: &mut String)
    requires { IsRectIn revisions.old.tiling.width revisions.old.tiling.height (rect_of edit) }
    ensures { revisions.new.tiling ≡ revisions.old.tiling }
{
    let tiles = revisions.push(alloc, edit).expect(rt, "memory");
    let tiles = format!(in alloc; " {tiles:?}").expect(rt, "memory");
    text.push_str(&tiles).expect(rt, "memory");
}

/// The tiling of the next words of a row.
fn next_tiling(words: &mut Split<'_, char>) -> Tiling
    ensures { IsTrue (is_tiled_size result.width result.height) }
{
    let (width, height, side) = (number(words), number(words), number(words));
    Tiling::new(width.clamp(1, 199), height.clamp(1, 8), side.clamp(2, 128))
}

/// The revisions of a raster after the two edits of a row, and which tiles each changes.
fn edited(rt: &impl Abort, alloc: Global, row: &str, text: &mut String) -> (Tiling, Revisions)
    ensures { result.1.tiling ≡ result.0 }
{
    let mut words = row.split(' ');
    let tiling = next_tiling(&mut words);
    let mut revisions = all_open(rt, alloc, tiling);
    let first = next_edit(rt, &mut words, &tiling);
    push(rt, alloc, &mut revisions, first, text);
    let second = next_edit(rt, &mut words, &tiling);
    push(rt, alloc, &mut revisions, second, text);
    (tiling, revisions)
}

/// Adds which of the first pixels of the first row are open, `1` if one is.
fn add_row(rt: &impl Abort, revisions: &Revisions, width: u32, text: &mut String)
    requires { (width ≤ revisions.now.tiling.width) × (0 < revisions.now.tiling.height) }
{
    for x in 0..width {
        let is_open = revisions.is_open(x, 0);
        text.push(if is_open { '1' } else { '0' })
            .expect(rt, "memory");
    }
}

/// Adds the stamp of a tile and its pixels, `1` if one is open.
fn add_tile(rt: &impl Abort, alloc: Global, revisions: &Revisions, tile: u32, text: &mut String)
    requires { tile < tiles_of revisions.now.tiling }
{
    let stamp = format!(in alloc; "; {} ", revisions.stamp(tile)).expect(rt, "memory");
    text.push_str(&stamp).expect(rt, "memory");
    for open in revisions.window_mask(alloc, tile).expect(rt, "memory") {
        text.push(if open { '1' } else { '0' }).expect(rt, "memory");
    }
}

/// Adds the stamps and the pixels of the first tiles.
fn add_tiles(rt: &impl Abort, alloc: Global, revisions: &Revisions, count: u32, text: &mut String)
    requires { count ≤ tiles_of revisions.now.tiling }
{
    for tile in 0..count {
        add_tile(rt, alloc, revisions, tile, text);
    }
}

/// The count of revisions after the edits of a row, the first row, all pixels by the mask and by a copy of it, and the tiles.
fn told(rt: &impl Abort, alloc: Global, row: &str) -> String {
    let mut text = String::new(alloc);
    let (tiling, revisions) = edited(rt, alloc, row, &mut text);
    let count = format!(in alloc; " {} ", revisions.count()).expect(rt, "memory");
    text.push_str(&count).expect(rt, "memory");
    add_row(rt, &revisions, tiling.width, &mut text);
    let copy = revisions.mask_copy(alloc).expect(rt, "memory");
    for mask in [revisions.mask(), &copy] {
        text.push(' ').expect(rt, "memory");
        add_opened(rt, mask, &mut text);
    }
    add_tiles(rt, alloc, &revisions, tiling.tile_count(), &mut text);
    text
}

/// Width and height of a raster and the side of its tiles, two edits, and what is told after them. By hand: tiles of side 2 in
/// a raster of 5 by 5, of which the rows 0 and 1 lie in the tiles 0, 1, 2, and the rows 2 and 3 in 3, 4, 5; of the second edit
/// (3, 1) was masked, and (4, 1) is open already. Then an edit without a change, which is a revision.
const EDITS: &str = "\
5 5 2 mask 1 1 3 2 unmask 3 1 4 1 = [0, 1, 3, 4] [1] 2 11111 1111110011100011111111111 1111110011100011111111111; \
    1 1110; 2 1101; 0 11; 1 1011; 1 0011; 0 11; 0 11; 0 11; 0 1
4 1 2 unmask 0 0 3 0 mask 3 0 3 0 = [] [1] 2 1110 1110 1110; 0 11; 2 10";

#[test]
fn the_tiles_with_a_changed_pixel_get_the_new_stamp(rt: HostRuntime) {
    for row in EDITS.lines() {
        let (edits, wanted) = row.split_once(" =").unwrap_or((row, ""));
        same(&rt, edits, &told(&rt, rt.alloc(), edits), wanted);
    }
}

/// The same, but what is told is how many pixels of each row are masked in the end. By hand: a raster of 130 columns has the
/// tiles 0, 1 and 2 from the columns 0, 64 and 128 on, where words of 64 pixels begin as well. The rows are: the whole
/// raster and one pixel; the last pixel and the whole raster; a column of which two pixels are opened; 63, 64 and 65 pixels
/// from the first on, and 64 from the second on; a tile of two words; rasters of 63, 64 and 65 columns up to their last
/// pixel; a box in which nothing is masked.
const SPANS: &str = "\
130 3 64 mask 0 0 129 2 unmask 64 1 64 1 = [0, 1, 2] [1] 130 129 130
130 3 64 mask 129 2 129 2 unmask 0 0 129 2 = [2] [2] open open open
130 3 64 mask 63 0 63 2 unmask 62 1 64 2 = [0] [0] 1 open open
130 1 64 mask 0 0 62 0 unmask 62 0 64 0 = [0] [0] 62
130 1 64 mask 0 0 63 0 unmask 63 0 65 0 = [0] [0] 63
130 1 64 mask 0 0 64 0 unmask 63 0 64 0 = [0, 1] [0, 1] 63
130 1 64 mask 1 0 64 0 unmask 64 0 129 0 = [0, 1] [1] 63
128 1 128 mask 60 0 127 0 unmask 61 0 126 0 = [0] [0] 2
63 2 32 mask 0 0 62 1 unmask 62 1 62 1 = [0, 1] [1] 63 62
64 2 32 mask 0 0 63 1 unmask 63 1 63 1 = [0, 1] [1] 64 63
65 2 32 mask 0 0 64 1 unmask 64 0 64 0 = [0, 1, 2] [2] 64 65
130 1 64 mask 0 0 0 0 unmask 1 0 129 0 = [0] [] 1";

/// How many pixels of a row are masked.
fn count_masked(mask: &Mask, y: u32) -> u32
    requires { y < mask.now.height }
{
    let mut count = 0;
    for x in 0..mask.width() {
        if !mask.is_open(x, y) {
            count += 1;
        }
    }
    count
}

/// Adds how many pixels of each row are masked, or that it is open.
fn add_counts(rt: &impl Abort, alloc: Global, mask: &Mask, text: &mut String) {
    for y in 0..mask.height() {
        let row = if mask.is_open_span(y, 0, mask.width() - 1) {
            String::from_str(alloc, " open")
        } else {
            format!(in alloc; " {}", count_masked(mask, y))
        };
        text.push_str(&row.expect(rt, "memory"))
            .expect(rt, "memory");
    }
}

#[test]
fn boxes_change_their_pixels_over_the_ends_of_words(rt: HostRuntime) {
    let alloc = rt.alloc();
    for row in SPANS.lines() {
        let (edits, wanted) = row.split_once(" =").unwrap_or((row, ""));
        let mut text = String::new(alloc);
        let (_tiling, revisions) = edited(&rt, alloc, edits, &mut text);
        add_counts(&rt, alloc, revisions.mask(), &mut text);
        same(&rt, edits, &text, wanted);
    }
}
