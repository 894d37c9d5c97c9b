ghost use Rattle.certificates.specs.TileSets.{shared_results};
ghost use Rattle.std.specs.Prelude.{◌≡◌, IfOk};

use crate::results::TileResult;
use raster_model::Tiling;
use std::alloc::{AllocError, Global};
use std::marker::Model;
use std::sync::Arc;

/// A result for each tile of a raster. Each result is shared with whoever else holds it.
#[derive(Drop)]
pub struct TileSet {
    tiling: Tiling,
    results: Vec<Arc<TileResult>>,
}

impl Model for TileSet {
    ghost use Rattle.certificates.specs.TileSets.{HasOneForEach, TileSetView, shared_results};

    ghost Value = { TileSetView };

    ghost view = { λ s. record { tiling = s.tiling; results = shared_results s.results.items } };

    ghost invariant = { λ s. HasOneForEach s.tiling (shared_results s.results.items) };
}

impl TileSet {
    ghost use Rattle.certificates.specs.TileSets.{HasOneForEach, shared_results};
    ghost use Rattle.raster_model.specs.Tiles.{tiles_of};
    ghost use Rattle.std.specs.Prelude.{◌≡◌, ◌<◌, IfOk, Some, slice_get};

    /// The set of the results of a tiling's tiles. They come in the order of the tiles' numbers.
    pub fn of_shared(tiling: &Tiling, results: Vec<Arc<TileResult>>) -> TileSet
        requires { HasOneForEach tiling.now (shared_results results.items) }
        ensures tiling { result.tiling ≡ tiling.now }
        ensures results { result.results ≡ shared_results results.items }
    {
        TileSet {
            tiling: *tiling,
            results,
        }
    }

    /// The result of a tile.
    pub fn tile(&self, tile: u32) -> &TileResult
        requires { tile < tiles_of self.now.tiling }
        ensures place { slice_get self.now.results tile ≡ Some result.now }
        ensures number { result.now.tile ≡ tile }
    {
        &self.results[tile as usize]
    }

    /// A set of the same results, which both sets share. It fails only for lack of memory.
    pub fn try_copy(&self, alloc: Global) -> Result<TileSet, AllocError>
        ensures { IfOk result (λ copy. copy ≡ self.now) }
    {
        Ok(TileSet {
            tiling: self.tiling,
            results: shared_again(alloc, &self.results)?,
        })
    }
}

/// The same results, shared once more.
fn shared_again(
    alloc: Global,
    results: &[Arc<TileResult>],
) -> Result<Vec<Arc<TileResult>>, AllocError>
    ensures { IfOk result (λ shared. shared_results shared.items ≡ shared_results results.now) }
{
    let mut shared = Vec::with_capacity(alloc, results.len())?;
    for result in results {
        shared.push(result.clone()?)?;
    }
    Ok(shared)
}
