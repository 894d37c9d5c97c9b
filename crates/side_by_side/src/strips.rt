ghost use Rattle.std.specs.Prelude.{◌<◌, ◌≤◌};

/// How many pixels are worth a thread.
const SHARE: u32 = 1 << 14;

/// How many of a raster's rows each strip has, if at most `threads` threads take one each, and no more than so many pixels are
/// worth.
pub fn strip_rows(height: u32, pixels: u32, threads: u32) -> u32
    requires { 0 < height }
    ensures some { 0 < result }
    ensures within { result ≤ height }
{
    height.div_ceil(threads.min(pixels / SHARE).max(1))
}
