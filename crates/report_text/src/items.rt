ghost use Rattle.report_text.specs.Reports.{HasSurface};

use grid_writer::Grid;
use tile_board::Entry;

/// An entry of the history, and the surface after a publication.
#[derive(Drop)]
pub struct Item {
    pub entry: Entry,
    pub surface: Option<Box<ReportSurface>>,
    pub ghost published: { HasSurface entry surface },
}

/// A published surface as a report gives it: its costs, its grid, and what certifies it.
#[derive(Drop)]
pub struct ReportSurface {
    /// The sum of the costs of all tiles.
    pub tile_cost: u128,
    /// The cost at the seams.
    pub seam_cost: u128,
    /// The values, in units of 1/65536 cycle.
    pub grid: Grid,
    /// For each tile in order its faces, in row order of its cells.
    pub faces: Vec<Vec<i64>>,
    /// For each seam edge in edge order its flow.
    pub flows: Vec<i64>,
}
