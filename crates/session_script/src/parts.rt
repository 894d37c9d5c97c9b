ghost use Rattle.pgm_planes.specs.Planes.{max_sample};
ghost use Rattle.std.specs.Prelude.{◌≡◌};

use raster_model::Plane;

/// The planes of an input, which have one size.
#[derive(Drop)]
pub struct Planes {
    /// The wrapped phase, in units of 1/65536 cycle.
    pub phase: Plane,
    /// The weights of the pixels.
    pub weights: Plane,
    /// 0 at masked pixels.
    pub mask: Plane,
    pub ghost cycle: { phase.maxval ≡ max_sample },
    pub ghost same_width: { (weights.width ≡ phase.width) × (mask.width ≡ phase.width) },
    pub ghost same_height: { (weights.height ≡ phase.height) × (mask.height ≡ phase.height) },
}
