ghost use Rattle.offset_network.specs.Places.{ArePlaces, IsSpotOf, tile_place};
ghost use Rattle.raster_model.specs.Limits.{IsTileSide, max_tiled_side};
ghost use Rattle.raster_model.specs.Tiles.{columns_of_tiles};
ghost use Rattle.std.specs.Prelude.{◌*◌, ◌≡◌, ◌<◌, ◌≤◌, IfOk};

use raster_model::{MAX_TILED_SIDE, Tiling, Window};
use std::alloc::{AllocError, Global};

/// Where a column or a row of a raster lies among the tiles.
#[derive(Clone, Copy)]
pub(crate) struct Place {
    /// Its part of the number of each tile there. That of a tile is the sum of the parts of a column and a row.
    pub(crate) tile: u32,
    /// The first column or row of the tiles there.
    pub(crate) first: u32,
    /// The last one.
    pub(crate) last: u32,
}

/// The tile of a pixel.
#[derive(Clone, Copy)]
pub(crate) struct Spot {
    /// The tile's number.
    pub(crate) tile: u32,
    /// The tile's pixels.
    pub(crate) window: Window,
}

/// Where each column and each row of a tiled raster lies among the tiles. The table is made once, and spares divisions at
/// each pixel.
#[derive(Drop)]
pub(crate) struct TilePlaces {
    pub(crate) tiling: Tiling,
    columns: Vec<Place>,
    rows: Vec<Place>,
    ghost across: { ArePlaces tiling.width tiling.side 1 tiling.width columns.items },
    ghost along: { ArePlaces tiling.height tiling.side (columns_of_tiles tiling) tiling.height rows.items },
}

impl TilePlaces {
    /// The places in a tiling. It fails only for lack of memory.
    pub(crate) fn of(alloc: Global, tiling: &Tiling) -> Result<TilePlaces, AllocError>
        ensures { IfOk result (λ made. made.tiling ≡ tiling.now) }
    {
        let side = tiling.side;
        let across = (tiling.width + side - 1) / side;
        Ok(TilePlaces {
            tiling: *tiling,
            columns: places(alloc, tiling.width, side, 1)?,
            rows: places(alloc, tiling.height, side, across)?,
        })
    }

    /// The tile of a pixel.
    #[inline(always)]
    pub(crate) fn locate(&self, x: u32, y: u32) -> Spot
        requires across { x < self.now.tiling.width }
        requires along { y < self.now.tiling.height }
        ensures { IsSpotOf self.now.tiling x y result }
    {
        let column = self.columns[x as usize];
        let row = self.rows[y as usize];
        Spot {
            tile: row.tile + column.tile,
            window: Window {
                x0: column.first,
                y0: row.first,
                x1: column.last,
                y1: row.last,
            },
        }
    }
}

/// The place of a column or a row, of which there are `count`. From one tile to the next its part of the number is `step`
/// more.
fn one_place(index: u32, count: u32, side: u32, step: u32) -> Place
    requires within { (index < count) × (count ≤ max_tiled_side) }
    requires side { IsTileSide side }
    requires step { step ≤ 2 * MAX_TILED_SIDE }
    ensures { result ≡ tile_place count side step index }
{
    let block = index / side;
    let first = block * side;
    Place {
        tile: block * step,
        first,
        last: (first + side).min(count) - 1,
    }
}

/// The places of all columns or of all rows.
fn places(alloc: Global, count: u32, side: u32, step: u32) -> Result<Vec<Place>, AllocError>
    requires few { count ≤ max_tiled_side }
    requires side { IsTileSide side }
    requires step { step ≤ 2 * MAX_TILED_SIDE }
    ensures { IfOk result (λ places. ArePlaces count side step count places.items) }
{
    let mut places = Vec::with_capacity(alloc, count as usize)?;
    for index in 0..count {
        places.push(one_place(index, count, side, step))?;
    }
    Ok(places)
}
