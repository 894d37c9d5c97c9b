ghost use Rattle.std.specs.Prelude.{◌*◌, ◌≤◌, ℕ, IfOk};
ghost use Rattle.text_pages.specs.Rooms.{ArePages};

use raster_model::Plane;
use side_by_side::processors;
use std::alloc::{AllocError, Global};
use std::thread::Threads;
use text_pages::Pages;

/// About how many bytes a grid has for each pixel.
const BYTES_OF_PIXEL: u32 = 8;

/// Pages for the surfaces over a phase plane, two for each worker, though not for more workers than there are processors; none
/// for one alone.
pub fn pages_for<R: Threads>(
    rt: &R,
    alloc: Global,
    phase: &Plane,
    workers: u32,
) -> Result<Pages, AllocError>
    ensures { IfOk result (λ pages. (threads : ℕ) × (threads ≤ workers) × ArePages threads (phase.now.width * phase.now.height * BYTES_OF_PIXEL) pages) }
{
    let pixels = phase.width.saturating_mul(phase.height);
    let threads = workers.min(processors(rt));
    Pages::new(alloc, threads, pixels.saturating_mul(BYTES_OF_PIXEL))
}
