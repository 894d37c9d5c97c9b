ghost use Rattle.raster_model.specs.Limits.{is_raster_size as fits_limits, is_tiled_size as fits_tiles};
ghost use Rattle.std.specs.Prelude.{◌≡◌};

/// The greatest width or height of a raster, in pixels.
pub const MAX_SIDE: u32 = 65_535;

/// The greatest number of pixels of a raster.
pub const MAX_PIXELS: u32 = 268_435_456;

/// The greatest width or height of a raster that has tiles, in pixels.
pub const MAX_TILED_SIDE: u32 = 4096;

/// The greatest number of pixels of a raster that has tiles.
pub const MAX_TILED_PIXELS: u32 = 4_194_304;

/// The greatest weight of an edge.
pub const MAX_WEIGHT: u32 = 65_535;

/// The greatest steepness of costs.
pub const MAX_STEEPNESS: u32 = 16;

/// The most that one cycle of an edge's departure costs: the greatest steepness times the greatest weight.
pub const MAX_CYCLE_COST: u32 = MAX_STEEPNESS * MAX_WEIGHT;

/// The most that a cycle beyond the first costs more than the first one.
pub const MAX_FURTHER_COST: u32 = (MAX_STEEPNESS - 1) * MAX_WEIGHT;

/// The greatest absolute number of cycles at an open pixel of a solved tile.
pub const MAX_TILE_CYCLES: u32 = 8_388_608;

/// The greatest absolute departure of an edge between two tiles, before their regions are moved.
pub const MAX_SEAM_DEPARTURE: u64 = 2 * MAX_TILE_CYCLES as u64 + 1;

/// The most regions of a raster.
pub const MAX_REGIONS: u32 = 3_145_728;

/// The greatest absolute offset of a region, in whole cycles.
pub const MAX_OFFSET: u64 = 1 << 46;

/// The greatest absolute number of cycles at a pixel of the whole raster's surface.
pub const MAX_WHOLE_CYCLES: u64 = 1 << 46;

/// The greatest absolute number of cycles to which corrections of a window add up.
pub const MAX_REACHED_CYCLES: u64 = 1 << 48;

/// The greatest absolute number of cycles of a surface at a pixel.
pub const MAX_HEIGHT: u64 = 1 << 48;

/// The greatest absolute departure of a surface at an edge.
pub const MAX_DEPARTURE: u64 = 2 * MAX_HEIGHT + 1;

/// The most nodes of a network over a raster.
pub const MAX_NETWORK_NODES: u32 = 1 << 28;

/// The most nodes of a network over a raster that has tiles.
pub const MAX_TILED_NODES: u32 = 1 << 24;

/// The least side of a tile, in pixels.
pub const MIN_TILE_SIDE: u32 = 2;

/// The greatest side of a tile, in pixels.
pub const MAX_TILE_SIDE: u32 = 128;

/// The side of a tile if none is named, in pixels.
pub const DEFAULT_TILE_SIDE: u32 = 64;

/// The greatest number of analysts of a session.
pub const MAX_ANALYSTS: u32 = 8;

/// The greatest number of commands of one analyst.
pub const MAX_COMMANDS: u32 = 4096;

/// The greatest product of settle commands and pixels in a session.
pub const MAX_SETTLED_PIXELS: u32 = 67_108_864;

/// The greatest product of change commands and tiles in a session.
pub const MAX_CHANGED_TILES: u32 = 16_777_216;

/// The greatest number of workers.
pub const MAX_WORKERS: u32 = 8;

/// The number of workers if none is named.
pub const DEFAULT_WORKERS: u32 = 2;

/// The greatest number of bytes of a session's text.
pub const MAX_SESSION_BYTES: u64 = 268_435_456;

/// The greatest number of bytes of a report's text that is read.
pub const MAX_REPORT_BYTES: u64 = 4_294_967_296;

/// Whether a raster may have this width and height: each from 1 to `MAX_SIDE`, and no more than `MAX_PIXELS` pixels.
pub fn is_raster_size(width: u32, height: u32) -> bool
    ensures { result ≡ fits_limits width height }
{
    1 <= width
        && width <= MAX_SIDE
        && 1 <= height
        && height <= MAX_SIDE
        && width * height <= MAX_PIXELS
}

/// Whether a raster of this width and height may have tiles: each from 1 to `MAX_TILED_SIDE`, and no more than
/// `MAX_TILED_PIXELS` pixels.
pub fn is_tiled_size(width: u32, height: u32) -> bool
    ensures { result ≡ fits_tiles width height }
{
    1 <= width
        && width <= MAX_TILED_SIDE
        && 1 <= height
        && height <= MAX_TILED_SIDE
        && width * height <= MAX_TILED_PIXELS
}
