ghost use Rattle.joined_cells.specs.Joining.{Joining, joins};
ghost use Rattle.raster_model.specs.Limits.{is_raster_size};
ghost use Rattle.raster_model.specs.Sums.{at_edge_end, is_edge};
ghost use Rattle.std.specs.Prelude.{◌≡◌, ◌<◌, IsTrue};

use raster_model::Edge;

/// The open pixels of a raster, and which of its edges join them.
pub trait EdgeTest {
    /// What it tells.
    ghost joining: { Self → Joining };

    /// Pixels in a row.
    fn width(&self) -> u32
        ensures width { result ≡ (joining self.now).width }
        ensures sized { IsTrue (is_raster_size (joining self.now).width (joining self.now).height) };

    /// Rows.
    fn height(&self) -> u32
        ensures { result ≡ (joining self.now).height };

    /// Whether a pixel is open.
    fn is_open(&self, x: u32, y: u32) -> bool
        requires across { x < (joining self.now).width }
        requires along { y < (joining self.now).height }
        ensures { result ≡ (joining self.now).mask x y };

    /// Whether an edge joins its ends. Its other end is open.
    fn joins(&self, edge: Edge) -> bool
        requires is_edge { IsTrue (is_edge (joining self.now).width (joining self.now).height edge) }
        requires end { IsTrue (at_edge_end (joining self.now).mask edge) }
        ensures { result ≡ joins (joining self.now) edge };
}
