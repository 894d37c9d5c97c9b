ghost use Rattle.raster_model.specs.Masks.{open_at};
ghost use Rattle.std.specs.Arc.{arc_value};
ghost use Rattle.std.specs.Prelude.{◌≡◌, ◌<◌, ◌≤◌, ◌^◌, length, pos, unsigned_abs};
ghost use Rattle.surface_snapshots.specs.Parts.{HaveCosts, IsPublished, parts_from};
ghost use Rattle.surface_snapshots.specs.Surfaces.{parts_in};

use crate::costs::{Certified, certified_costs, judged_costs};
use crate::fault::BuildFault;
use crate::packed::PackedRegions;
use crate::shifted::{NO_CYCLES, ShiftedTiles};
use crate::surface::Surface;
use certificates::{SeamResult, TileSet, level};
use raster_model::{Heights, Mask, Session};
use seam_regions::Regions;
use std::alloc::{AllocError, Global};
use std::sync::Arc;
use std::thread::Threads;

/// What a snapshot has, if there is one.
fn surface_of(snapshot: Option<&Snapshot>) -> Option<&Surface> {
    match snapshot {
        Some(snapshot) => Some(&*snapshot.surface),
        None => None,
    }
}

/// A published surface: the surface of a revision of the mask, with the numbers that certify it.
#[derive(Drop)]
pub struct Snapshot {
    surface: Arc<Surface>,
    pub ghost published: { IsPublished (parts_in (arc_value surface)) },
    pub ghost costs: { HaveCosts (parts_in (arc_value surface)) (arc_value surface).tile_cost (arc_value surface).seam_cost },
}

impl Heights for Snapshot {
    ghost use Rattle.surface_snapshots.specs.Parts.{cycles_in_parts, is_open_in};
    ghost use Rattle.surface_snapshots.specs.Views.{parts_of};

    ghost knows = { λ s. is_open_in (parts_of s) };

    ghost cycles_at = { λ s. cycles_in_parts (parts_of s) };

    fn cycles(&self, x: u32, y: u32) -> i64 {
        self.shifted().at(x, y)
    }
}

impl Snapshot {
    ghost use Rattle.certificates.specs.declared.verdicts.SeamVerdict.TheVariants.{Good};
    ghost use Rattle.raster_model.specs.Best.{IsBest};
    ghost use Rattle.raster_model.specs.Raster.{seam_cost as seam_cost_of};
    ghost use Rattle.raster_model.specs.Seams.{IsAnchored};
    ghost use Rattle.raster_model.specs.Tiles.{tiles_of};
    ghost use Rattle.seam_regions.specs.Regions.{AreRegionsOf};
    ghost use Rattle.std.specs.Prelude.{IfErr, IfOk, IfSome};
    ghost use Rattle.surface_snapshots.specs.Parts.{
      AreGoodTiles,
      BeginsWithRow,
      faces_in,
      flows_in,
      open_in,
      raster_in,
      surface_in,
      tile_costs,
      value_in,
      value_or,
    };
    ghost use Rattle.surface_snapshots.specs.Packed.{ArePackedRegionsOf};
    ghost use Rattle.surface_snapshots.specs.Shifted.{level_in};
    ghost use Rattle.surface_snapshots.specs.Verdicts.{IsFault, IsPartsVerdict};
    ghost use Rattle.surface_snapshots.specs.Views.{parts_of};

    /// Makes the snapshot of a session's surface under a mask. The surface lies above the phase by the cycles of the
    /// tiles' results and the offsets of the regions. It is refused if the offsets and flows do not certify it, with
    /// the first break, or for lack of memory. (Chen and Zebker 2002.)
    pub fn build(
        alloc: Global,
        session: Arc<Session>,
        mask: Mask,
        regions: Regions,
        tiles: TileSet,
        seams: SeamResult,
    ) -> Result<Snapshot, BuildFault>
        requires across { mask.width ≡ (arc_value session).scene.phase.width }
        requires along { mask.height ≡ (arc_value session).scene.phase.height }
        requires tiling { tiles.tiling ≡ (arc_value session).scene.tiling }
        requires tiles { AreGoodTiles (arc_value session).scene (open_at mask) tiles.results }
        requires regions { AreRegionsOf (arc_value session).scene.tiling mask regions }
        ensures parts { IfOk result (λ made. parts_of made ≡ parts_from (arc_value session) mask regions tiles seams) }
        ensures certified { IfOk result (λ made. IsPartsVerdict (parts_of made) Good) }
        ensures anchored { IfOk result (λ made. IsAnchored (raster_in (parts_of made)) (open_in (parts_of made)) (surface_in (parts_of made))) }
        ensures best { IfOk result (λ made. IsBest (raster_in (parts_of made)) (open_in (parts_of made)) (surface_in (parts_of made))) }
        ensures refused { IfErr result (IsFault (parts_from (arc_value session) mask regions tiles seams)) }
    {
        Snapshot::build_beside(alloc, None, session, mask, regions, tiles, seams)
    }

    /// The same beside an earlier snapshot, if there is one. What the new one keeps of a tile's regions, and its flows,
    /// are shared with the earlier one, if that has the same.
    pub fn build_beside(
        alloc: Global,
        earlier: Option<&Snapshot>,
        session: Arc<Session>,
        mask: Mask,
        regions: Regions,
        tiles: TileSet,
        seams: SeamResult,
    ) -> Result<Snapshot, BuildFault>
        requires across { mask.width ≡ (arc_value session).scene.phase.width }
        requires along { mask.height ≡ (arc_value session).scene.phase.height }
        requires tiling { tiles.tiling ≡ (arc_value session).scene.tiling }
        requires tiles { AreGoodTiles (arc_value session).scene (open_at mask) tiles.results }
        requires regions { AreRegionsOf (arc_value session).scene.tiling mask regions }
        ensures parts { IfOk result (λ made. parts_of made ≡ parts_from (arc_value session) mask regions tiles seams) }
        ensures certified { IfOk result (λ made. IsPartsVerdict (parts_of made) Good) }
        ensures anchored { IfOk result (λ made. IsAnchored (raster_in (parts_of made)) (open_in (parts_of made)) (surface_in (parts_of made))) }
        ensures best { IfOk result (λ made. IsBest (raster_in (parts_of made)) (open_in (parts_of made)) (surface_in (parts_of made))) }
        ensures refused { IfErr result (IsFault (parts_from (arc_value session) mask regions tiles seams)) }
    {
        let certified = judged_costs(alloc, &session, &mask, &regions, &tiles, &seams)?;
        let surface = Surface::of(
            alloc,
            surface_of(earlier),
            certified,
            session,
            mask,
            regions,
            tiles,
            seams,
        )?;
        Ok(Snapshot::of(alloc, surface)?)
    }

    /// The same of offsets and flows that are known to certify the surface, which is not checked again, and of regions that
    /// are packed. At most `threads` threads, and at least one, find its cycles and count its costs side by side, each of a
    /// strip of rows. It fails only for lack of memory.
    pub fn build_certified<R: Threads + Sync>(
        rt: &R,
        threads: u32,
        alloc: Global,
        earlier: Option<&Snapshot>,
        session: Arc<Session>,
        mask: Mask,
        packed: PackedRegions,
        tiles: TileSet,
        seams: SeamResult,
    ) -> Result<Snapshot, AllocError>
        requires across { mask.width ≡ (arc_value session).scene.phase.width }
        requires along { mask.height ≡ (arc_value session).scene.phase.height }
        requires tiling { tiles.tiling ≡ (arc_value session).scene.tiling }
        requires tiles { AreGoodTiles (arc_value session).scene (open_at mask) tiles.results }
        requires regions { ArePackedRegionsOf (arc_value session).scene.tiling mask packed }
        requires certified { IsPartsVerdict (parts_from (arc_value session) mask packed.regions tiles seams) Good }
        ensures parts { IfOk result (λ made. parts_of made ≡ parts_from (arc_value session) mask packed.regions tiles seams) }
        ensures certified { IfOk result (λ made. IsPartsVerdict (parts_of made) Good) }
        ensures anchored { IfOk result (λ made. IsAnchored (raster_in (parts_of made)) (open_in (parts_of made)) (surface_in (parts_of made))) }
        ensures best { IfOk result (λ made. IsBest (raster_in (parts_of made)) (open_in (parts_of made)) (surface_in (parts_of made))) }
    {
        let costs = certified_costs(rt, threads, alloc, &session, &mask, &packed, &tiles, &seams)?;
        let PackedRegions { regions, tiled, .. } = packed;
        let certified = Certified {
            regions: tiled,
            costs,
        };
        let surface = Surface::of(
            alloc,
            surface_of(earlier),
            certified,
            session,
            mask,
            regions,
            tiles,
            seams,
        )?;
        Snapshot::of(alloc, surface)
    }

    /// The snapshot of a surface.
    fn of(alloc: Global, surface: Surface) -> Result<Snapshot, AllocError>
        ensures { IfOk result (λ made. parts_of made ≡ parts_in surface) }
    {
        Ok(Snapshot {
            surface: Arc::new(alloc, surface)?,
        })
    }

    /// The same snapshot. Both share all that they have. It fails only if too many share it.
    pub fn share(&self) -> Result<Snapshot, AllocError>
        ensures { IfOk result (λ shared. parts_of shared ≡ parts_of self.now) }
    {
        Ok(Snapshot {
            surface: self.surface.clone()?,
        })
    }

    /// Pixels in a row.
    pub fn width(&self) -> u32
        ensures { result ≡ (parts_of self.now).session.scene.phase.width }
    {
        self.surface.session.scene.phase.width
    }

    /// Rows.
    pub fn height(&self) -> u32
        ensures { result ≡ (parts_of self.now).session.scene.phase.height }
    {
        self.surface.session.scene.phase.height
    }

    /// The revision of the mask.
    pub fn revision(&self) -> u32
        ensures { result ≡ (parts_of self.now).seams.revision }
    {
        self.surface.revision
    }

    /// What all tiles cost together. (Costantini 1998.)
    pub fn tile_cost(&self) -> u128
        ensures { pos result ≡ tile_costs (raster_in (parts_of self.now)) (open_in (parts_of self.now)) (surface_in (parts_of self.now)) }
    {
        self.surface.tile_cost
    }

    /// What the seams cost. (Chen and Zebker 2002.)
    pub fn seam_cost(&self) -> u128
        ensures { pos result ≡ seam_cost_of (raster_in (parts_of self.now)) (open_in (parts_of self.now)) (surface_in (parts_of self.now)) }
    {
        self.surface.seam_cost
    }

    /// The faces that certify the surface in a tile, one for each of its cells in row order.
    pub fn faces(&self, tile: u32) -> &[i64]
        requires { tile < tiles_of (parts_of self.now).session.scene.tiling }
        ensures { result.now ≡ faces_in (parts_of self.now) tile }
    {
        &self.surface.tiles.tile(tile).faces
    }

    /// The flows that certify the surface at its seams, one for each seam edge in edge order.
    pub fn flows(&self) -> &[i64]
        ensures { result.now ≡ flows_in (parts_of self.now) }
    {
        &self.surface.flows
    }

    /// The surface's value at a pixel, in units of 1/65536 cycle; None exactly if the pixel is masked.
    pub fn value(&self, x: u32, y: u32) -> Option<i64>
        requires across { x < (parts_of self.now).session.scene.phase.width }
        requires along { y < (parts_of self.now).session.scene.phase.height }
        ensures value { result ≡ value_in (parts_of self.now) x y }
        ensures small { IfSome result (λ value. unsigned_abs value < 2 ^ 63) }
    {
        if !self.surface.regions.is_open(x, y) {
            return None;
        }
        let sample = self.surface.session.scene.phase.sample(x, y);
        Some(level(sample, self.shifted().at(x, y)))
    }

    /// Puts the values of row `y`, in units of 1/65536 cycle, into the front of `row`, with `masked` for each pixel
    /// that is masked. What stands after them in `row` may change.
    pub fn fill_row(&self, y: u32, masked: i64, row: &mut [i64])
        requires along { y < (parts_of self.now).session.scene.phase.height }
        requires room { (parts_of self.now).session.scene.phase.width ≤ length row.old }
        ensures same { length row.new ≡ length row.old }
        ensures front { BeginsWithRow (value_or (parts_of self.now) masked) y (parts_of self.now).session.scene.phase.width row.new }
    {
        self.shifted().fill_row(y, row);
        for x in 0..self.width() {
            row[x as usize] = self.value_above(row[x as usize], masked, x, y);
        }
    }

    /// The value that lies this many cycles above the phase, or `masked` if there are none.
    fn value_above(&self, cycles: i64, masked: i64, x: u32, y: u32) -> i64
        requires across { x < (parts_of self.now).session.scene.phase.width }
        requires along { y < (parts_of self.now).session.scene.phase.height }
        requires cycles { cycles ≡ level_in (parts_of self.now) x y }
        ensures { result ≡ value_or (parts_of self.now) masked x y }
    {
        if cycles == NO_CYCLES {
            return masked;
        }
        level(self.surface.session.scene.phase.sample(x, y), cycles)
    }

    /// The tiles' results with the offsets of the regions.
    fn shifted(&self) -> ShiftedTiles<'_>
        ensures scene { result.scene.now ≡ (arc_value (arc_value self.now.surface).session).scene }
        ensures regions { result.regions.now ≡ (arc_value self.now.surface).regions }
        ensures tiles { result.tiles.now ≡ (arc_value self.now.surface).tiles }
        ensures offsets { result.offsets.now ≡ (arc_value self.now.surface).offsets.items }
    {
        let surface = &*self.surface;
        ShiftedTiles {
            scene: &surface.session.scene,
            regions: &surface.regions,
            tiles: &surface.tiles,
            offsets: &surface.offsets,
        }
    }
}
