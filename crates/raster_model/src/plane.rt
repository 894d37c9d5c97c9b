ghost use Rattle.raster_model.specs.Limits.{max_pixels, max_side};
ghost use Rattle.std.specs.Prelude.{
  ◌≡◌,
  ◌*◌,
  ◌≤◌,
  ◌<◌,
  ℕ,
  slice_index,
  vec_len,
  length,
  position,
  nat_lt,
  IfNone,
  IfSome,
};

use crate::limits::is_raster_size;

/// A raster of samples in row order: by rows from the top, each from the left.
#[derive(Drop)]
pub struct Plane {
    /// Pixels in a row.
    pub width: u32,
    /// Rows.
    pub height: u32,
    /// The number that no sample is above.
    pub maxval: u16,
    /// One for each pixel.
    pub samples: Vec<u16>,
    pub ghost wide: { (1 ≤ width) × (width ≤ max_side) },
    pub ghost high: { (1 ≤ height) × (height ≤ max_side) },
    pub ghost few: { width * height ≤ max_pixels },
    pub ghost valued: { 1 ≤ maxval },
    pub ghost full: { vec_len samples ≡ width * height },
    pub ghost below: { (k : ℕ) → slice_index samples.items k ≤ maxval },
}

/// Why numbers and samples do not make a plane. If several apply, the first variant is returned.
#[derive(Clone, Copy, Debug, PartialEq, Eq)]
pub enum PlaneShape {
    /// A side or the number of pixels breaks a limit.
    Size,
    /// The maxval is 0.
    Maxval,
    /// There is not one sample for each pixel. It carries the number of samples.
    Count(u64),
    /// A sample is above maxval. It carries the index of the first such sample.
    Above(u32),
}

impl Plane {
    ghost use Rattle.raster_model.specs.Planes.{plane_refusal, plane_sample};
    ghost use Rattle.std.specs.Prelude.{IfOk, IsOkAnd};

    /// The plane with these fields. Samples are in row order. It takes no memory.
    pub fn new(width: u32, height: u32, maxval: u16, samples: Vec<u16>) -> Result<Plane, PlaneShape>
        ensures refused { IfSome (plane_refusal width height maxval samples.items) (λ reason. result ≡ Err reason) }
        ensures accepted { IfNone (plane_refusal width height maxval samples.items) (IsOkAnd result (λ plane. (plane.width ≡ width) × (plane.height ≡ height) × (plane.maxval ≡ maxval) × (plane.samples ≡ samples))) }
        ensures fields { IfOk result (λ plane. (plane.width ≡ width) × (plane.height ≡ height) × (plane.maxval ≡ maxval) × (plane.samples ≡ samples)) }
    {
        if !is_raster_size(width, height) {
            return Err(PlaneShape::Size);
        }
        if maxval == 0 {
            return Err(PlaneShape::Maxval);
        }
        if samples.len() != width as usize * height as usize {
            return Err(PlaneShape::Count(samples.len() as u64));
        }
        match first_above(&samples, maxval) {
            Some(index) => Err(PlaneShape::Above(index as u32)),
            None => Ok(Plane {
                width,
                height,
                maxval,
                samples,
            }),
        }
    }

    /// The sample of a pixel.
    pub fn sample(&self, x: u32, y: u32) -> u16
        requires across { x < self.now.width }
        requires along { y < self.now.height }
        ensures value { result ≡ plane_sample self.now x y }
        ensures small { result ≤ self.now.maxval }
    {
        self.samples[y as usize * self.width as usize + x as usize]
    }
}

/// The index of the first sample above `maxval`.
fn first_above(samples: &[u16], maxval: u16) -> Option<usize>
    ensures first { result ≡ position (λ sample. nat_lt maxval sample) samples.now }
    ensures none { IfNone result ((k : ℕ) → slice_index samples.now k ≤ maxval) }
    ensures small { IfSome result (λ index. index < length samples.now) }
{
    samples.iter().position(|&sample| sample > maxval)
}
