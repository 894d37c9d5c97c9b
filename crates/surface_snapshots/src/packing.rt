ghost use Rattle.raster_model.specs.Limits.{max_tiled_side};
ghost use Rattle.std.specs.Prelude.{◌≡◌, ℕ, ◌+◌, ◌*◌, ◌<◌, ◌≤◌, IfOk, IfSome, Some, [], length, slice_get, slice_index};
ghost use Rattle.surface_snapshots.specs.Runs.{ArePacked, Extends, runs_of};
ghost use Rattle.surface_snapshots.specs.Packing.{AreLabelsBefore};

use crate::runs::{Run, TileRuns};
use raster_model::{MAX_TILED_NODES, Window};
use std::alloc::{AllocError, Global};
use std::sync::Arc;

/// What is being packed.
#[derive(Drop)]
pub(crate) struct Packing {
    /// The labels of the tiles that were packed, one tile after another. The first label of each tile is that of
    /// masked pixels.
    pub(crate) labels: Vec<u32>,
    /// For each region that was met, its number in its tile.
    known: Vec<u32>,
}

impl Packing {
    /// Nothing is packed yet of so many regions in so many tiles.
    pub(crate) fn new(alloc: Global, regions: u32, tiles: u32) -> Result<Packing, AllocError>
        ensures { IfOk result (λ made. made.labels.items ≡ []) }
    {
        let known = vec![in alloc; 0; regions as usize]?;
        let labels = Vec::with_capacity(alloc, regions as usize + tiles as usize)?;
        Ok(Packing { labels, known })
    }

    /// The runs of a tile whose pixels have these labels in row order.
    pub(crate) fn pack(&mut self, alloc: Global, list: &[u32]) -> Result<TileRuns, AllocError>
        requires few { length list.now ≤ MAX_TILED_NODES }
        ensures kept { IfOk result (λ tile. Extends self.new.labels.items self.old.labels.items) }
        ensures packed { IfOk result (λ tile. ArePacked self.new.labels.items (runs_of tile).first (runs_of tile).runs list.now (length list.now)) }
    {
        let first = self.labels.len();
        self.labels.push(u32::MAX)?;
        let mut runs = Vec::new(alloc);
        let mut at = 0;
        while at < list.len() {
            let number = self.number(first, list[at])?;
            at = span_end(list, at);
            let end = at as u32;
            runs.push(Run { end, number })?;
        }
        runs.shrink_to_fit();
        let runs = Arc::new(alloc, runs)?;
        Ok(TileRuns { first, runs })
    }

    /// The number of a label among those of the tile that is packed, which begin at `first`. A label that is not
    /// among them becomes the last of them.
    fn number(&mut self, first: usize, label: u32) -> Result<u32, AllocError>
        requires first { first < length self.old.labels.items }
        requires few { length self.old.labels.items ≤ first + (MAX_TILED_NODES + 1) }
        ensures kept { IfOk result (λ number. Extends self.new.labels.items self.old.labels.items) }
        ensures more { IfOk result (λ number. length self.new.labels.items ≤ length self.old.labels.items + 1) }
        ensures told { IfOk result (λ number. slice_get self.new.labels.items (first + number) ≡ Some label) }
    {
        if let Some(number) = self.known_number(first, label) {
            return Ok(number);
        }
        let number = (self.labels.len() - first) as u32;
        self.labels.push(label)?;
        if let Some(place) = self.known.get_mut(label as usize) {
            *place = number;
        }
        Ok(number)
    }

    /// The number of a label that is known to be among them.
    fn known_number(&self, first: usize, label: u32) -> Option<u32>
        requires { first < length self.now.labels.items }
        ensures { IfSome result (λ number. slice_get self.now.labels.items (first + number) ≡ Some label) }
    {
        let number = self.known.get(label as usize).copied().unwrap_or(0);
        let found = self.labels.get(first + number as usize).copied()?;
        if found != label {
            return None;
        }
        Some(number)
    }
}

/// The place after the labels of a list that are equal to the one at `at` and follow it.
fn span_end(list: &[u32], at: usize) -> usize
    requires { at < length list.now }
    ensures within { (at < result) × (result ≤ length list.now) }
    ensures same { (p : ℕ) → at ≤ p → p < result → slice_index list.now p ≡ slice_index list.now at }
{
    let mut end = at + 1;
    while end < list.len() && list[end] == list[at] {
        end += 1;
    }
    end
}

/// Puts the labels of a window's pixels into a list, in row order, in place of what it has. `all` has those of a
/// raster of `width` columns.
pub(crate) fn list_labels(
    all: &[u32],
    width: u32,
    window: Window,
    list: &mut Vec<u32>,
) -> Result<(), AllocError>
    requires across { (window.x0 ≤ window.x1) × (window.x1 < width) × (width ≤ max_tiled_side) }
    requires along { (window.y0 ≤ window.y1) × (window.y1 < max_tiled_side) }
    requires size { (window.y1 + 1) * width ≤ length all.now }
    ensures { IfOk result (λ _. AreLabelsBefore all.now width window (window.y1 + 1) list.new.items) }
{
    list.clear();
    for y in window.y0..window.y1 + 1 {
        let row = (y * width) as usize;
        list.extend_from_slice(&all[row + window.x0 as usize..row + window.x1 as usize + 1])?;
    }
    Ok(())
}
