//! Planes, scenes, masks and results of tiles.
ghost use Rattle.raster_model.specs.Terms.{ArePlainTerms};
ghost use Rattle.std.specs.Prelude.{◌≡◌, IfOk};

use certificates::TileResult;
use raster_model::{Mask, Plane, PlaneShape, RuleKind, Scene, Terms, Tiling, plain};
use std::alloc::{AllocError, Global};

/// Why there is no such scene or mask.
#[derive(Debug, Drop)]
pub enum SceneFault {
    /// The samples are not a plane.
    Shape(PlaneShape),
    /// Lack of memory.
    Memory,
}

impl From<PlaneShape> for SceneFault {
    fn from(shape: PlaneShape) -> SceneFault {
        SceneFault::Shape(shape)
    }
}

impl From<AllocError> for SceneFault {
    fn from(_: AllocError) -> SceneFault {
        SceneFault::Memory
    }
}

/// A plane of a tiling's size, with its samples in row order.
pub fn plane(
    alloc: Global,
    tiling: &Tiling,
    maxval: u16,
    samples: &[u16],
) -> Result<Plane, SceneFault>
    ensures width { IfOk result (λ made. made.width ≡ tiling.now.width) }
    ensures height { IfOk result (λ made. made.height ≡ tiling.now.height) }
    ensures maxval { IfOk result (λ made. made.maxval ≡ maxval) }
{
    let samples = samples.iter().copied().collect(alloc)?;
    Ok(Plane::new(tiling.width, tiling.height, maxval, samples)?)
}

/// A scene by the rule least and on the plain terms, with weights up to `maxval`.
pub fn scene(
    alloc: Global,
    tiling: Tiling,
    maxval: u16,
    phases: &[u16],
    weights: &[u16],
) -> Result<Scene, SceneFault>
    ensures tiling { IfOk result (λ made. made.tiling ≡ tiling) }
    ensures terms { IfOk result (λ made. ArePlainTerms made.terms) }
{
    scene_on(alloc, Terms::plain(), tiling, maxval, phases, weights)
}

/// The same on these terms.
pub fn scene_on(
    alloc: Global,
    terms: Terms,
    tiling: Tiling,
    maxval: u16,
    phases: &[u16],
    weights: &[u16],
) -> Result<Scene, SceneFault>
    ensures tiling { IfOk result (λ made. made.tiling ≡ tiling) }
    ensures terms { IfOk result (λ made. made.terms ≡ terms) }
{
    let phase = plane(alloc, &tiling, 65535, phases)?;
    let weights = plane(alloc, &tiling, maxval, weights)?;
    let edges = plain::weigh(alloc, RuleKind::Least, &weights)?;
    Ok(Scene {
        phase,
        weights,
        rule: RuleKind::Least,
        edges,
        tiling,
        terms,
    })
}

/// The mask of a tiling's size that is open where a sample is not 0.
pub fn masked(alloc: Global, tiling: &Tiling, samples: &[u16]) -> Result<Mask, SceneFault>
    ensures width { IfOk result (λ made. made.width ≡ tiling.now.width) }
    ensures height { IfOk result (λ made. made.height ≡ tiling.now.height) }
{
    Ok(Mask::of_plane(alloc, &plane(alloc, tiling, 1, samples)?)?)
}

/// A result for a tile and a stamp.
pub fn tile_result(
    alloc: Global,
    tile: u32,
    stamp: u32,
    cycles: &[i32],
    faces: &[i64],
) -> Result<TileResult, AllocError>
    ensures tile { IfOk result (λ made. made.tile ≡ tile) }
    ensures stamp { IfOk result (λ made. made.stamp ≡ stamp) }
{
    Ok(TileResult {
        tile,
        stamp,
        cycles: cycles.iter().copied().collect(alloc)?,
        faces: faces.iter().copied().collect(alloc)?,
    })
}
