ghost use Rattle.grid_writer.specs.Grids.{grid_of};
ghost use Rattle.raster_model.specs.Limits.{is_tiled_size};
ghost use Rattle.std.specs.Prelude.{◌≡◌, ◌<◌, ◌≤◌, IsTrue, length};
ghost use Rattle.surface_snapshots.specs.Parts.{BeginsWithRow};

use grid_writer::{Grid, Rows, add_grid_side_by_side};
use insar_ports::{MemorySink, Sink, WriteFault};
use std::alloc::Global;
use std::process::Abort;
use std::thread::Threads;
use text_lines::TextWriter;
use text_pages::Pages;

/// A grid that is handed out by rows.
#[derive(Drop)]
struct Flat {
    grid: Grid,
}

impl Rows for Flat {
    ghost grid = { λ flat. grid_of flat.grid };

    fn width(&self) -> u32
        ensures width { result ≡ (grid_of self.now.grid).width }
        ensures sized { IsTrue (is_tiled_size (grid_of self.now.grid).width (grid_of self.now.grid).height) }
    {
        self.grid.width
    }

    fn height(&self) -> u32
        ensures { result ≡ (grid_of self.now.grid).height }
    {
        self.grid.height
    }

    fn fill_row(&self, y: u32, row: &mut [i64])
        requires along { y < (grid_of self.now.grid).height }
        requires room { (grid_of self.now.grid).width ≤ length row.old }
        ensures same { length row.new ≡ length row.old }
        ensures front { BeginsWithRow (grid_of self.now.grid).values y (grid_of self.now.grid).width row.new }
    {
        let width = self.grid.width as usize;
        let start = y as usize * width;
        row[..width].copy_from_slice(&self.grid.values[start..start + width]);
    }
}

/// A grid of that size, which is 0 everywhere.
fn zeros(rt: &impl Abort, alloc: Global, width: u32, height: u32) -> Flat
    requires { IsTrue (is_tiled_size width height) }
{
    let pixels = width as usize * height as usize;
    let values = vec![in alloc; 0; pixels].expect(rt, "memory");
    Flat {
        grid: Grid {
            width,
            height,
            values,
        },
    }
}

/// Writes a grid, on pages.
fn write<R: Threads + Sync, K: Sink>(
    rt: &R,
    pages: &mut Pages,
    flat: &Flat,
    sink: &mut K,
) -> Result<(), WriteFault> {
    let mut text = TextWriter::new(sink);
    add_grid_side_by_side(rt, pages, &mut text, flat);
    text.finish()
}

/// Four threads write a square of the most pixels: its head has 91 bytes, and each pixel two.
#[test]
fn pages_of_the_largest_square_are_had(rt: HostRuntime) {
    let alloc = rt.alloc();
    let flat = zeros(&rt, alloc, 2048, 2048);
    let mut pages = Pages::new(alloc, 4, 8 * 2048 * 2048).expect(&rt, "memory");
    let mut sink = MemorySink::new(alloc, 16_777_216, 65_536, Vec::new(alloc)).expect(
        &rt, "memory",
    );
    write(&rt, &mut pages, &flat, &mut sink).expect(&rt, "room");
    assert!(rt; sink.bytes().len() == 91 + 2 * 2048 * 2048);
}
