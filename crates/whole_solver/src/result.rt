ghost use Rattle.whole_solver.specs.Cycles.{AreSmallCycles};
ghost use Rattle.std.specs.Prelude.{◌≡◌};

use raster_model::Heights;

/// The surface that costs least over the whole raster of a sheet, and the numbers that prove it.
#[derive(Drop)]
pub struct WholeResult {
    /// Pixels in a row.
    pub width: u32,
    /// What the surface costs: the sum of weight times the steps of the departure over all edges with open ends.
    pub cost: u128,
    /// Whole cycles above the phase at the pixels, in row order.
    pub cycles: Vec<i64>,
    /// The faces of the cells, in row order: the numbers that certify the cycles. (Costantini 1998.)
    pub faces: Vec<i64>,
    pub ghost small: { AreSmallCycles cycles.items },
}

impl Heights for WholeResult {
    ghost use Rattle.whole_solver.specs.Cycles.{has_cycles, whole_cycles};

    ghost knows = { λ w. has_cycles w.width w.cycles.items };

    ghost cycles_at = { λ w. whole_cycles w.width w.cycles.items };

    fn cycles(&self, x: u32, y: u32) -> i64 {
        self.cycles[y as usize * self.width as usize + x as usize]
    }
}
