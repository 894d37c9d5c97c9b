ghost use Rattle.grid_writer.specs.Grids.{grid_of};
ghost use Rattle.loop_closure.specs.Closure.{AreCycles, AreMisclosed};

use auto_masks::Patches;
use grid_writer::Grid;

/// The closures of a loop of three interferograms, the whole cycles in them, and the patches of pixels that are misclosed by
/// one number of cycles. Both grids have NODATA where one of the three has no value.
#[derive(Drop)]
pub struct Loops {
    /// In units of 1/65536 cycle.
    pub closures: Grid,
    /// In cycles. Without them a closure is from -32768 to 32767.
    pub cycles: Grid,
    /// Pixels of one number of cycles other than 0 that are joined.
    pub patches: Patches,
    pub ghost whole: { AreCycles (grid_of closures) (grid_of cycles) },
    pub ghost misclosed: { ∥ AreMisclosed cycles patches ∥₁ },
}
