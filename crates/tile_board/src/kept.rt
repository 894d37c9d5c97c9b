ghost use Rattle.certificates.specs.TileSets.{shared_results};
ghost use Rattle.std.specs.Arc.{arc_value};
ghost use Rattle.std.specs.Prelude.{◌≡◌, IfOk, Some, map};
ghost use Rattle.tile_board.specs.States.{HaveResults, held_results};

use crate::places::{empty, first_gap, no_items};
use certificates::TileResult;
use std::alloc::{AllocError, Global};
use std::marker::Model;
use std::sync::Arc;

/// The kept result of each tile, if there is one. Gathered and published surfaces share it.
#[derive(Drop)]
pub(crate) struct KeptResults {
    /// By tile.
    results: Vec<Option<Arc<TileResult>>>,
}

impl Model for KeptResults {
    ghost use Rattle.certificates.specs.declared.results.TileResult.{TileResult as Solved};
    ghost use Rattle.std.specs.Prelude.{List, Option};
    ghost use Rattle.tile_board.specs.States.{held_results};

    ghost Value = { List (Option Solved) };

    ghost view = { λ k. held_results k.results.items };
}

impl KeptResults {
    ghost use Rattle.certificates.specs.TileSets.{shared_results};
    ghost use Rattle.std.specs.Arc.{arc_value};
    ghost use Rattle.std.specs.Prelude.{
      ℕ,
      ◌<◌,
      ◌^◌,
      IfOk,
      MatchBool,
      MatchOption,
      None,
      Some,
      length,
      map,
      replicate,
      set,
      slice_index,
    };
    ghost use Rattle.tile_board.specs.Places.{AreSet};
    ghost use Rattle.tile_board.specs.States.{HasResult, HaveResults, IsFirstGap, IsGap};

    /// The list of so many tiles, none of which has a result.
    pub(crate) fn none(alloc: Global, tiles: u32) -> Result<KeptResults, AllocError>
        ensures { IfOk result (λ kept. kept ≡ replicate tiles None) }
    {
        Ok(KeptResults {
            results: no_items(alloc, tiles)?,
        })
    }

    /// Whether a tile has a result.
    pub(crate) fn has(&self, tile: u32) -> bool
        requires { tile < length self.now }
        ensures { MatchBool result (HasResult self.now tile) (IsGap self.now tile) }
    {
        self.results[tile as usize].is_some()
    }

    /// The lowest-numbered tile that has no result.
    pub(crate) fn first_gap(&self) -> Option<u32>
        requires { length self.now < 2 ^ 32 }
        ensures { MatchOption result (HaveResults self.now) (IsFirstGap self.now) }
    {
        first_gap(&self.results)
    }

    /// All results, each shared once more.
    pub(crate) fn shared(&self, alloc: Global) -> Result<Vec<Arc<TileResult>>, AllocError>
        requires { HaveResults self.now }
        ensures { IfOk result (λ shared. map Some (shared_results shared.items) ≡ self.now) }
    {
        share_all(alloc, &self.results)
    }

    /// Keeps a tile's result.
    pub(crate) fn keep(&mut self, tile: u32, solved: Arc<TileResult>)
        requires { tile < length self.old }
        ensures { self.new ≡ set self.old tile (Some (arc_value solved)) }
    {
        self.results[tile as usize] = Some(solved);
    }

    /// Takes away the results of some tiles.
    pub(crate) fn empty(&mut self, tiles: &[u32])
        requires { (i : ℕ) → i < length tiles.now → slice_index tiles.now i < length self.old }
        ensures { AreSet self.old self.new tiles.now (length tiles.now) None }
    {
        empty(&mut self.results, tiles);
    }
}

/// The results of all tiles, each shared once more. Each tile has one.
fn share_all(
    alloc: Global,
    results: &[Option<Arc<TileResult>>],
) -> Result<Vec<Arc<TileResult>>, AllocError>
    requires { HaveResults results.now }
    ensures { IfOk result (λ shared. map Some (shared_results shared.items) ≡ held_results results.now) }
{
    let mut shared = Vec::with_capacity(alloc, results.len())?;
    for place in results {
        if let Some(solved) = place {
            shared.push(solved.clone()?)?;
        }
    }
    Ok(shared)
}

/// A result that can be shared.
pub(crate) fn share(alloc: Global, solved: TileResult) -> Result<Arc<TileResult>, AllocError>
    ensures { IfOk result (λ shared. arc_value shared ≡ solved) }
{
    Ok(Arc::new(alloc, solved)?)
}
