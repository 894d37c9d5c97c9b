ghost use Rattle.grid_writer.specs.Grids.{GridOf};
ghost use Rattle.grid_writer.specs.Shown.{shown_grid};
ghost use Rattle.raster_model.specs.Limits.{is_tiled_size};
ghost use Rattle.std.specs.Prelude.{◌≡◌, ◌<◌, ◌≤◌, IsTrue, length};
ghost use Rattle.surface_snapshots.specs.Parts.{BeginsWithRow};
ghost use Rattle.surface_snapshots.specs.Views.{parts_of};

use crate::values::NO_DATA;
use surface_snapshots::Snapshot;

/// Rows of values, from the top, that can be written as a grid.
pub trait Rows {
    /// The grid that they make.
    ghost grid: { Self → GridOf };

    /// Pixels in a row.
    fn width(&self) -> u32
        ensures width { result ≡ (grid self.now).width }
        ensures sized { IsTrue (is_tiled_size (grid self.now).width (grid self.now).height) };

    /// Rows.
    fn height(&self) -> u32
        ensures { result ≡ (grid self.now).height };

    /// Puts row `y` into the front of `row`, which has room for it.
    fn fill_row(&self, y: u32, row: &mut [i64])
        requires along { y < (grid self.now).height }
        requires room { (grid self.now).width ≤ length row.old }
        ensures same { length row.new ≡ length row.old }
        ensures front { BeginsWithRow (grid self.now).values y (grid self.now).width row.new };
}

/// A masked pixel has the NODATA value.
impl Rows for Snapshot {
    ghost grid = { λ snapshot. shown_grid (parts_of snapshot) };

    fn width(&self) -> u32
        ensures width { result ≡ (shown_grid (parts_of self.now)).width }
        ensures sized { IsTrue (is_tiled_size (shown_grid (parts_of self.now)).width (shown_grid (parts_of self.now)).height) }
    {
        self.width()
    }

    fn height(&self) -> u32
        ensures { result ≡ (shown_grid (parts_of self.now)).height }
    {
        self.height()
    }

    fn fill_row(&self, y: u32, row: &mut [i64])
        requires along { y < (shown_grid (parts_of self.now)).height }
        requires room { (shown_grid (parts_of self.now)).width ≤ length row.old }
        ensures same { length row.new ≡ length row.old }
        ensures front { BeginsWithRow (shown_grid (parts_of self.now)).values y (shown_grid (parts_of self.now)).width row.new }
    {
        self.fill_row(y, NO_DATA, row);
    }
}
