ghost use Rattle.raster_model.specs.Masks.{open_at};
ghost use Rattle.seam_regions.specs.Flood.{HasJoined, IsOpenPiece, IsPiece};
ghost use Rattle.std.specs.Prelude.{◌≡◌, ◌+◌, ◌*◌, ◌<◌, ◌≤◌, IsTrue};

use crate::pieces::Piece;
use joined_cells::{hang, join};
use raster_model::{Mask, Tiling};

/// Joins the open pixels of each region into one tree.
pub fn join_all(parents: &mut [u32], tiling: &Tiling, mask: &Mask)
    requires across { mask.now.width ≡ tiling.now.width }
    requires along { mask.now.height ≡ tiling.now.height }
    requires flood { HasJoined tiling.now (open_at mask.now) 0 parents.old }
    ensures { HasJoined tiling.now (open_at mask.now) (2 * (tiling.now.height * tiling.now.width)) parents.new }
{
    for y in 0..tiling.height {
        join_row(parents, tiling, mask, y);
    }
}

/// Joins the open pixels of row `y` to each other and to those of the row above.
fn join_row(parents: &mut [u32], tiling: &Tiling, mask: &Mask, y: u32)
    requires across { mask.now.width ≡ tiling.now.width }
    requires along { mask.now.height ≡ tiling.now.height }
    requires row { y < tiling.now.height }
    requires flood { HasJoined tiling.now (open_at mask.now) (2 * (y * tiling.now.width)) parents.old }
    ensures { HasJoined tiling.now (open_at mask.now) (2 * ((y + 1) * tiling.now.width)) parents.new }
{
    let top = y % tiling.side == 0;
    let mut first = 0;
    while first < tiling.width {
        let end = (first + tiling.side).min(tiling.width);
        let last = end - 1;
        join_piece(
            parents,
            tiling,
            mask,
            Piece {
                y,
                first,
                last,
                top,
            },
        );
        first = end;
    }
}

/// Joins the pixels of a piece of a row.
fn join_piece(parents: &mut [u32], tiling: &Tiling, mask: &Mask, piece: Piece)
    requires across { mask.now.width ≡ tiling.now.width }
    requires along { mask.now.height ≡ tiling.now.height }
    requires piece { IsPiece tiling.now piece }
    requires flood { HasJoined tiling.now (open_at mask.now) (2 * (piece.y * tiling.now.width + piece.first)) parents.old }
    ensures { HasJoined tiling.now (open_at mask.now) (2 * (piece.y * tiling.now.width + piece.last + 1)) parents.new }
{
    if is_open_piece(tiling, mask, piece) {
        join_open(parents, tiling, mask, piece);
    } else {
        join_pixels(parents, tiling, mask, piece);
    }
}

/// Whether all pixels of a piece are open, and all pixels of its tile right above them.
fn is_open_piece(tiling: &Tiling, mask: &Mask, piece: Piece) -> bool
    requires across { mask.now.width ≡ tiling.now.width }
    requires along { mask.now.height ≡ tiling.now.height }
    requires piece { IsPiece tiling.now piece }
    ensures { IsTrue result → IsOpenPiece mask.now piece }
{
    if !mask.is_open_span(piece.y, piece.first, piece.last) {
        return false;
    }
    if piece.top {
        return true;
    }
    mask.is_open_span(piece.y - 1, piece.first, piece.last)
}

/// Joins the pixels of an open piece: all of them get the parent of its first pixel.
fn join_open(parents: &mut [u32], tiling: &Tiling, mask: &Mask, piece: Piece)
    requires across { mask.now.width ≡ tiling.now.width }
    requires along { mask.now.height ≡ tiling.now.height }
    requires piece { IsPiece tiling.now piece }
    requires open { IsOpenPiece mask.now piece }
    requires flood { HasJoined tiling.now (open_at mask.now) (2 * (piece.y * tiling.now.width + piece.first)) parents.old }
    ensures { HasJoined tiling.now (open_at mask.now) (2 * (piece.y * tiling.now.width + piece.last + 1)) parents.new }
{
    join_first(parents, tiling, mask, piece);
    let row = (piece.y * tiling.width) as usize;
    let parent = parents[row + piece.first as usize];
    for x in piece.first as usize + 1..piece.last as usize + 1 {
        parents[row + x] = parent;
    }
}

/// Joins the first pixel of an open piece to the pixel above it, if that is in the piece's tile.
fn join_first(parents: &mut [u32], tiling: &Tiling, mask: &Mask, piece: Piece)
    requires piece { IsPiece tiling.now piece }
    requires open { IsOpenPiece mask.now piece }
    requires flood { HasJoined tiling.now (open_at mask.now) (2 * (piece.y * tiling.now.width + piece.first)) parents.old }
    ensures { HasJoined tiling.now (open_at mask.now) (2 * (piece.y * tiling.now.width + piece.first + 1)) parents.new }
{
    if !piece.top {
        let place = piece.y * tiling.width + piece.first;
        hang(parents, place, place - tiling.width);
    }
}

/// Joins the pixels of a piece one by one.
fn join_pixels(parents: &mut [u32], tiling: &Tiling, mask: &Mask, piece: Piece)
    requires across { mask.now.width ≡ tiling.now.width }
    requires along { mask.now.height ≡ tiling.now.height }
    requires piece { IsPiece tiling.now piece }
    requires flood { HasJoined tiling.now (open_at mask.now) (2 * (piece.y * tiling.now.width + piece.first)) parents.old }
    ensures { HasJoined tiling.now (open_at mask.now) (2 * (piece.y * tiling.now.width + piece.last + 1)) parents.new }
{
    for x in piece.first..piece.last + 1 {
        join_pixel(parents, tiling, mask, piece, x);
    }
}

/// Joins the pixel of a piece in column `x` to its left and its upper neighbour.
fn join_pixel(parents: &mut [u32], tiling: &Tiling, mask: &Mask, piece: Piece, x: u32)
    requires across { mask.now.width ≡ tiling.now.width }
    requires along { mask.now.height ≡ tiling.now.height }
    requires piece { IsPiece tiling.now piece }
    requires column { (piece.first ≤ x) × (x ≤ piece.last) }
    requires flood { HasJoined tiling.now (open_at mask.now) (2 * (piece.y * tiling.now.width + x)) parents.old }
    ensures { HasJoined tiling.now (open_at mask.now) (2 * (piece.y * tiling.now.width + x + 1)) parents.new }
{
    if mask.is_open(x, piece.y) {
        join_left(parents, tiling, mask, piece, x);
        join_upper(parents, tiling, mask, piece, x);
    }
}

/// Joins an open pixel of a piece to its left neighbour, if that is open and in the piece.
fn join_left(parents: &mut [u32], tiling: &Tiling, mask: &Mask, piece: Piece, x: u32)
    requires across { mask.now.width ≡ tiling.now.width }
    requires along { mask.now.height ≡ tiling.now.height }
    requires piece { IsPiece tiling.now piece }
    requires column { (piece.first ≤ x) × (x ≤ piece.last) }
    requires open { IsTrue (open_at mask.now x piece.y) }
    requires flood { HasJoined tiling.now (open_at mask.now) (2 * (piece.y * tiling.now.width + x)) parents.old }
    ensures { HasJoined tiling.now (open_at mask.now) (2 * (piece.y * tiling.now.width + x) + 1) parents.new }
{
    if x == piece.first {
        return;
    }
    if mask.is_open(x - 1, piece.y) {
        let place = piece.y * tiling.width + x;
        hang(parents, place, place - 1);
    }
}

/// Joins an open pixel of a piece to its upper neighbour, if that is open and in the piece's tile.
fn join_upper(parents: &mut [u32], tiling: &Tiling, mask: &Mask, piece: Piece, x: u32)
    requires across { mask.now.width ≡ tiling.now.width }
    requires along { mask.now.height ≡ tiling.now.height }
    requires piece { IsPiece tiling.now piece }
    requires column { (piece.first ≤ x) × (x ≤ piece.last) }
    requires open { IsTrue (open_at mask.now x piece.y) }
    requires flood { HasJoined tiling.now (open_at mask.now) (2 * (piece.y * tiling.now.width + x) + 1) parents.old }
    ensures { HasJoined tiling.now (open_at mask.now) (2 * (piece.y * tiling.now.width + x + 1)) parents.new }
{
    if piece.top {
        return;
    }
    if mask.is_open(x, piece.y - 1) {
        let place = piece.y * tiling.width + x;
        join(parents, place - tiling.width, place);
    }
}
