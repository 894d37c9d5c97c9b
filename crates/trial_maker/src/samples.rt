ghost use Rattle.sums_and_lists.specs.Sums.{one_if};
ghost use Rattle.raster_model.specs.Limits.{is_tiled_size, max_tiled_side};
ghost use Rattle.std.specs.Prelude.{◌≡◌, ◌*◌, ◌<◌, ◌++◌, ◌∷◌, [], IfOk, IsTrue, OnOk};
ghost use Rattle.trial_maker.specs.Drawn.{AreDrawn, HaveRoom};
ghost use Rattle.trial_maker.specs.Trials.{is_open, phase_of as phase_is, weight_of as weight_is};

use crate::numbers::{mask_of, next, phase_of, weight_of};
use std::alloc::{AllocError, Global};

/// The samples of the three planes in row order.
#[derive(Drop)]
pub struct Samples {
    /// Wrapped phases, in units of 1/65536 cycle.
    pub phase: Vec<u16>,
    /// Weights, from 1 to 256.
    pub weights: Vec<u16>,
    /// 0 at masked pixels, and otherwise 1.
    pub mask: Vec<u16>,
}

/// The samples that a seed gives to the pixels of a raster.
pub fn draw(alloc: Global, seed: u64, width: u32, height: u32) -> Result<Samples, AllocError>
    requires { IsTrue (is_tiled_size width height) }
    ensures { IfOk result (λ samples. AreDrawn seed width (width * height) samples.phase.items samples.weights.items samples.mask.items) }
{
    let mut samples = room_for(alloc, width as usize * height as usize)?;
    let mut state = seed;
    for pixel in 0..width * height {
        state = next(state);
        append(&mut samples, state, pixel % width, pixel / width)?;
    }
    Ok(samples)
}

/// Empty lists with room for the given number of pixels.
fn room_for(alloc: Global, pixels: usize) -> Result<Samples, AllocError>
    ensures { IfOk result (HaveRoom pixels) }
{
    Ok(Samples {
        phase: Vec::with_capacity(alloc, pixels)?,
        weights: Vec::with_capacity(alloc, pixels)?,
        mask: Vec::with_capacity(alloc, pixels)?,
    })
}

/// Appends the samples of a pixel.
fn append(samples: &mut Samples, state: u64, x: u32, y: u32) -> Result<(), AllocError>
    requires across { x < max_tiled_side }
    requires along { y < max_tiled_side }
    ensures phase { OnOk result (samples.new.phase.items ≡ samples.old.phase.items ++ phase_is state x y ∷ []) }
    ensures weights { OnOk result (samples.new.weights.items ≡ samples.old.weights.items ++ weight_is state ∷ []) }
    ensures mask { OnOk result (samples.new.mask.items ≡ samples.old.mask.items ++ one_if (is_open state) ∷ []) }
{
    samples.phase.push(phase_of(state, x, y))?;
    samples.weights.push(weight_of(state))?;
    samples.mask.push(mask_of(state))?;
    Ok(())
}
