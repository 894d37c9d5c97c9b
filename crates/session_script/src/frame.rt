ghost use Rattle.raster_model.specs.Limits.{max_settled_pixels};
ghost use Rattle.std.specs.Prelude.{◌≡◌, ◌≤◌};

use raster_model::Tiling;

/// The raster that scripts are for, and what their commands count there.
#[derive(Clone, Copy)]
pub struct ScriptFrame {
    /// Pixels in a row.
    pub width: u32,
    /// Rows.
    pub height: u32,
    /// How many pixels a settle command settles.
    pub settled: u32,
    /// How many tiles a change command may change.
    pub changed: u32,
    pub ghost few: { settled ≤ max_settled_pixels },
}

impl ScriptFrame {
    ghost use Rattle.session_script.specs.Sections.{frame_of, frame_of_tiling, whole_frame};

    /// A raster in tiles.
    pub fn of_tiling(tiling: &Tiling) -> ScriptFrame
        ensures { frame_of result ≡ frame_of_tiling tiling.now }
    {
        ScriptFrame {
            width: tiling.width,
            height: tiling.height,
            settled: tiling.width * tiling.height,
            changed: tiling.tile_count(),
        }
    }

    /// A raster without tiles, whose scripts are not run.
    pub fn of_whole(width: u32, height: u32) -> ScriptFrame
        ensures { frame_of result ≡ whole_frame width height }
    {
        ScriptFrame {
            width,
            height,
            settled: 0,
            changed: 0,
        }
    }
}
