ghost use Rattle.raster_model.specs.Limits.{is_tiled_size};
ghost use Rattle.std.specs.Prelude.{◌≡◌, IfOk, IsTrue};
ghost use Rattle.trial_maker.specs.Drawn.{AreDrawnPlanes};

use crate::numbers::MAX_TRIAL_WEIGHT;
use crate::samples::{Samples, draw};
use raster_model::Plane;
use std::alloc::{AllocError, Global};

/// The planes of a session, which have one size.
#[derive(Drop)]
pub struct Planes {
    /// The wrapped phase, in units of 1/65536 cycle.
    pub phase: Plane,
    /// The weights of the pixels.
    pub weights: Plane,
    /// 0 at masked pixels.
    pub mask: Plane,
}

/// The planes that a seed gives.
pub fn draw_planes(alloc: Global, seed: u64, width: u32, height: u32) -> Result<Planes, AllocError>
    requires { IsTrue (is_tiled_size width height) }
    ensures { IfOk result (λ planes. AreDrawnPlanes seed width height planes.phase planes.weights planes.mask) }
{
    let Samples {
        phase,
        weights,
        mask,
    } = draw(alloc, seed, width, height)?;
    Ok(Planes {
        phase: Plane {
            width,
            height,
            maxval: 65535,
            samples: phase,
        },
        weights: Plane {
            width,
            height,
            maxval: MAX_TRIAL_WEIGHT,
            samples: weights,
        },
        mask: Plane {
            width,
            height,
            maxval: 1,
            samples: mask,
        },
    })
}
