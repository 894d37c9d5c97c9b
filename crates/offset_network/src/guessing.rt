ghost use Rattle.certificates.specs.SeamVerdicts.{IsGoodAtSeams};
ghost use Rattle.offset_network.specs.Guesses.{IsJudgedGuess};
ghost use Rattle.offset_network.specs.Links.{AreLinks};
ghost use Rattle.offset_network.specs.Seams.{AreSeamLinks};
ghost use Rattle.certificates.specs.TileSets.{solved_cycles};
ghost use Rattle.raster_model.specs.Masks.{open_at};
ghost use Rattle.raster_model.specs.Scene.{raster_of};
ghost use Rattle.raster_model.specs.Seams.{IsFirstOpen};
ghost use Rattle.seam_regions.specs.Offsets.{AreNear};
ghost use Rattle.seam_regions.specs.Regions.{AreRegionsOf, region_label, shifted_by};
ghost use Rattle.std.specs.Prelude.{◌≡◌, ℕ, IfOk, IsTrue, length};

use crate::fairness::are_fair_flows;
use crate::surface::TileSurface;
use certificates::SeamResult;
use offset_guess::{Guess, Link, guess_offsets, guess_planned};
use raster_model::{Tiling, first_open};
use seam_regions::{Regions, first_far};
use seam_walk::{Layout, Plan, plan_offsets};
use std::alloc::{AllocError, Global};

/// What is there before the links are found, to guess offsets faster.
#[derive(Drop)]
pub enum Hint<'a> {
    Nothing,
    /// What `plan_seams` made over the same regions.
    Plan(&'a Plan),
    /// Offsets and flows.
    Guess(Guess),
}

/// What the check makes of a guess.
#[derive(Drop)]
pub(crate) enum Judged {
    /// The offsets and flows certify the surface at its seams.
    Certified(SeamResult),
    /// They do not, and these are the offsets.
    Dropped(Vec<i64>),
}

/// What a guess at the offsets of regions needs that depends on the regions alone, so that it can be made before the tiles are
/// solved. It promises nothing.
pub fn plan_seams(alloc: Global, tiling: &Tiling, regions: &Regions) -> Result<Plan, AllocError> {
    plan_offsets(alloc, layout(tiling, regions))
}

/// Where the regions of a tiling's raster lie.
fn layout<'a>(tiling: &Tiling, regions: &'a Regions) -> Layout<'a> {
    Layout {
        width: tiling.width,
        height: tiling.height,
        side: tiling.side,
        labels: regions.labels(),
    }
}

/// The guess that is given, or that of the fast solver.
pub(crate) fn guess_or_solver(
    alloc: Global,
    surface: &TileSurface,
    regions: &Regions,
    links: &[Option<Link>],
    hint: Hint<'_>,
) -> Result<Guess, AllocError> {
    let steep = surface.scene.terms.steep;
    match hint {
        Hint::Guess(guess) => Ok(guess),
        Hint::Plan(plan) => guess_planned(alloc, regions.count(), steep, links, plan),
        Hint::Nothing => {
            let layout = layout(&surface.scene.tiling, regions);
            guess_offsets(alloc, layout, regions.count(), steep, links)
        }
    }
}

/// Judges a guess, with its offsets lowered so that the surface meets the first open pixel. A guess promises nothing: all
/// rests on the check.
pub(crate) fn judge(
    alloc: Global,
    surface: &TileSurface,
    regions: &Regions,
    links: &[Option<Link>],
    guess: Guess,
    revision: u32,
) -> Result<Judged, AllocError>
    requires regions { AreRegionsOf surface.now.scene.now.tiling surface.now.mask.now regions.now }
    requires links { AreLinks regions.now.count links.now }
    requires seams { AreSeamLinks (raster_of surface.now.scene.now) (open_at surface.now.mask.now) (region_label regions.now) (solved_cycles surface.now.scene.now surface.now.tiles.now.results) links.now }
    ensures { IfOk result (IsJudgedGuess surface.now.scene.now surface.now.mask.now regions.now surface.now.tiles.now revision) }
{
    let mut offsets = guess.offsets;
    let height = first_height(surface, regions, &offsets);
    lower(&mut offsets, height);
    if offsets.len() != regions.count() as usize || first_far(&offsets).is_some() {
        return Ok(Judged::Dropped(offsets));
    }
    if !certifies(alloc, surface, regions, &offsets, links, &guess.flows)? {
        return Ok(Judged::Dropped(offsets));
    }
    Ok(Judged::Certified(SeamResult {
        revision,
        offsets,
        flows: guess.flows,
    }))
}

/// Whether offsets and flows certify the surface at its seams, by the links of the seam edges.
fn certifies(
    alloc: Global,
    surface: &TileSurface,
    regions: &Regions,
    offsets: &[i64],
    links: &[Option<Link>],
    flows: &[i64],
) -> Result<bool, AllocError>
    requires regions { AreRegionsOf surface.now.scene.now.tiling surface.now.mask.now regions.now }
    requires count { length offsets.now ≡ regions.now.count }
    requires near { AreNear offsets.now }
    requires links { AreLinks regions.now.count links.now }
    requires seams { AreSeamLinks (raster_of surface.now.scene.now) (open_at surface.now.mask.now) (region_label regions.now) (solved_cycles surface.now.scene.now surface.now.tiles.now.results) links.now }
    ensures { IfOk result (λ good. IsTrue good → IsGoodAtSeams (raster_of surface.now.scene.now) (open_at surface.now.mask.now) (shifted_by regions.now offsets.now (solved_cycles surface.now.scene.now surface.now.tiles.now.results)) flows.now) }
{
    if first_height(surface, regions, offsets) != 0 {
        return Ok(false);
    }
    are_fair_flows(alloc, surface.scene.terms, offsets, links, flows)
}

/// How high the first open pixel lies: its cycles and the offset of its region. 0 if no pixel is open.
fn first_height(surface: &TileSurface, regions: &Regions, offsets: &[i64]) -> i64
    requires regions { AreRegionsOf surface.now.scene.now.tiling surface.now.mask.now regions.now }
    ensures { length offsets.now ≡ regions.now.count → AreNear offsets.now → (x y : ℕ) → IsFirstOpen (raster_of surface.now.scene.now) (open_at surface.now.mask.now) x y → result ≡ shifted_by regions.now offsets.now (solved_cycles surface.now.scene.now surface.now.tiles.now.results) x y }
{
    let Some((x, y)) = first_open(surface.scene, surface.mask) else {
        return 0;
    };
    let Some(region) = regions.region(x, y) else {
        return 0;
    };
    let offset = offsets.get(region as usize).copied().unwrap_or(0);
    offset.wrapping_add(i64::from(surface.at(x, y)))
}

/// Takes a number from each.
fn lower(offsets: &mut [i64], by: i64) {
    for offset in offsets {
        *offset = offset.wrapping_sub(by);
    }
}
