ghost use Rattle.raster_model.specs.Limits.{max_side};

/// The edge from the pixel (`x`, `y`) to its right neighbour, or to its lower one. Edges are ordered by the
/// rows of their first pixels, and the right edge comes before the down edge.
#[derive(Clone, Copy, Debug, PartialEq, Eq)]
pub struct Edge {
    pub x: u32,
    pub y: u32,
    /// To the lower neighbour.
    pub down: bool,
}

impl Edge {
    ghost use Rattle.raster_model.specs.Sums.{end_x as end_column, end_y as end_row};
    ghost use Rattle.std.specs.Prelude.{◌≡◌, ◌<◌};

    /// The column of the edge's other end.
    pub fn end_x(self) -> u32
        requires { self.x < max_side }
        ensures { result ≡ end_column self }
    {
        if self.down { self.x } else { self.x + 1 }
    }

    /// The row of the edge's other end.
    pub fn end_y(self) -> u32
        requires { self.y < max_side }
        ensures { result ≡ end_row self }
    {
        if self.down { self.y + 1 } else { self.y }
    }
}
