ghost use Rattle.displacement.specs.Displacements.{IsBlockSide, IsWavelength};

use crate::outcomes::same;
use displacement::{MAX_BLOCK, MAX_WAVELENGTH, Sight, SightFault, displace};
use grid_writer::{Grid, read_grid};
use insar_ports::{Feed, MemorySource};
use std::alloc::Global;
use std::process::Abort;
use std::str::Split;
use worked_scenes::{field, number};

/// A grid's size and rows, wavelength, reference pixel and block, and what is answered, each found by hand. `N` is NODATA.
const ROWS: &str = "\
    4|1|0 -25536 -51072 -76608|56000000|0|0|1|4 1 [0, -10910157, -21820313, -32730469];\
    4|1|0 -25536 -51072 -76608|56000000|0|0|2|2 1 [-5455079, -27275391];\
    4|1|0 -25536 -51072 -76608|56000000|4|0|1|Reference;\
    3|3|1 2 N\n3 4 N\n5 6 7|131072|0|0|2|2 2 [1, N, 4, 6];\
    3|3|1 2 N\n3 4 N\n5 6 7|131072|2|2|64|1 1 [-3];\
    3|3|1 2 N\n3 4 N\n5 6 7|131072|2|1|2|Reference;\
    3|3|1 2 N\n3 4 N\n5 6 7|131072|0|3|2|Reference;\
    2|1|0 9223372036854775807|131072|0|0|1|2 1 [0, 9223372036854775807];\
    2|1|1 -9223372036854775807|131072|0|0|1|Wide { x: 1, y: 0 };\
    2|2|0 0\n9223372036854775807 9223372036854775807|1000000000|0|0|1|Wide { x: 0, y: 1 };";

/// The grid of the next three fields of a row.
fn grid_of(rt: &impl Abort, alloc: Global, fields: &mut Split<'_, char>) -> Grid {
    let (width, height, rows) = (field(fields), field(fields), field(fields));
    let rows = rows
        .replace(alloc, "N", "-9223372036854775808")
        .expect(rt, "memory");
    let text = format!(in alloc;
        "ncols {width}\nnrows {height}\nxllcorner 0\nyllcorner 0\ncellsize 1\nNODATA_value -9223372036854775808\n{rows}\n"
    );
    let bytes = text.expect(rt, "memory").into_bytes();
    let mut source = MemorySource::new(bytes, 7, Vec::new(alloc));
    let mut feed = Feed::new(alloc, &mut source, 1000).expect(rt, "memory");
    read_grid(alloc, &mut feed).expect(rt, "a grid")
}

/// The line of sight of the next four fields of a row.
fn sight_of(fields: &mut Split<'_, char>) -> Sight
    ensures wavelength { IsWavelength result.wavelength }
    ensures block { IsBlockSide result.block }
{
    Sight {
        wavelength: number(fields).clamp(1, MAX_WAVELENGTH),
        x: number(fields),
        y: number(fields),
        block: number(fields).clamp(1, MAX_BLOCK),
    }
}

/// What is answered, in words.
fn told(rt: &impl Abort, alloc: Global, answered: Result<Grid, SightFault>) -> String {
    let told = match answered {
        Ok(grid) => format!(in alloc; "{} {} {:?}", grid.width, grid.height, grid.values),
        Err(fault) => format!(in alloc; "{fault:?}"),
    };
    told.expect(rt, "memory")
}

/// What is answered for a row, in words, with `N` for NODATA.
fn displaced(rt: &impl Abort, alloc: Global, fields: &mut Split<'_, char>) -> String {
    let grid = grid_of(rt, alloc, fields);
    let answered = displace(alloc, &grid, sight_of(fields));
    let told = told(rt, alloc, answered);
    told.replace(alloc, "-9223372036854775808", "N")
        .expect(rt, "memory")
}

#[test]
fn rows_are_displaced(rt: HostRuntime) {
    for row in ROWS.split_terminator(';') {
        let mut fields = row.split('|');
        let found = displaced(&rt, rt.alloc(), &mut fields);
        same(&rt, row, &found, field(&mut fields));
    }
}
