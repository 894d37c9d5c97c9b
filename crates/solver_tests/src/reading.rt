//! Rows of tests that are written as text.
ghost use Rattle.certificates.specs.Results.{pixels_in};
ghost use Rattle.raster_model.specs.Tiles.{tiles_of, window_of};
ghost use Rattle.std.specs.Prelude.{◌≡◌, ◌<◌, length};

use raster_model::{Scene, Terms, Tiling};
use std::alloc::{AllocError, Global};
use std::process::Abort;
use worked_scenes::{field, number, samples, scene_on};

/// A raster in one tile, and the samples of its mask.
#[derive(Drop)]
pub(crate) struct Raster {
    pub(crate) scene: Scene,
    pub(crate) opened: Vec<u16>,
}

/// A full turn, whose one cell has the residue 1, and whose edges weigh 5 above, 3 below, 3 on the left and 5 on the right.
pub(crate) const TURN: &str = "2|2|0 16384 49152 32768|5 5 3 9|1 1 1 1";

/// The raster of a row, which begins with the width, the height, the phases, the weights and the mask.
pub(crate) fn read_raster(rt: &impl Abort, alloc: Global, row: &str) -> Raster
    ensures { 0 < tiles_of result.scene.tiling }
{
    read_at(rt, alloc, 1, row)
}

/// The same at the steepness at the beginning of a row.
pub(crate) fn read_steep(rt: &impl Abort, alloc: Global, row: &str) -> Raster
    ensures { 0 < tiles_of result.scene.tiling }
{
    let (steep, row) = row.split_once('|').unwrap_or((row, ""));
    read_at(rt, alloc, steep.parse().unwrap_or(0), row)
}

/// No ramp, and a steepness.
pub(crate) fn terms_at(steep: u32) -> Terms {
    Terms {
        ramp_x: 0,
        ramp_y: 0,
        steep: steep.clamp(1, 16),
    }
}

/// The raster of a row that does not tell the steepness.
pub(crate) fn read_at(rt: &impl Abort, alloc: Global, steep: u32, row: &str) -> Raster
    ensures { 0 < tiles_of result.scene.tiling }
{
    let mut fields = row.split('|');
    let (width, height) = (
        number(&mut fields).clamp(1, 9),
        number(&mut fields).clamp(1, 9),
    );
    let phases = samples(alloc, field(&mut fields)).expect(rt, "memory");
    let weights = samples(alloc, field(&mut fields)).expect(rt, "memory");
    let opened = samples(alloc, field(&mut fields)).expect(rt, "memory");
    let (tiling, terms) = (Tiling::new(width, height, 128), terms_at(steep));
    let scene = scene_on(alloc, terms, tiling, 9, &phases, &weights).expect(rt, "a scene");
    assert!(rt; 0 < scene.tiling.tile_count());
    Raster { scene, opened }
}

/// Which pixels of a scene's one tile are open by these samples, of which there has to be one for each.
pub(crate) fn unmasked(rt: &impl Abort, alloc: Global, scene: &Scene, opened: &[u16]) -> Vec<bool>
    requires { 0 < tiles_of scene.now.tiling }
    ensures { length result.items ≡ pixels_in (window_of scene.now.tiling 0) }
{
    let collected: Result<Vec<bool>, AllocError> = opened
        .iter()
        .map(|&sample| sample != 0)
        .collect(alloc);
    let unmasked = collected.expect(rt, "memory");
    let window = scene.tiling.window(0);
    let across = (window.x1 - window.x0 + 1) as usize;
    let along = (window.y1 - window.y0 + 1) as usize;
    assert!(rt; across <= 9 && along <= 9);
    let pixels = across * along;
    assert!(rt; unmasked.len() == pixels);
    unmasked
}
