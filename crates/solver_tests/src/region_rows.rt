use crate::outcomes::same;
use raster_model::Tiling;
use seam_regions::Regions;
use std::alloc::Global;
use std::process::Abort;
use worked_scenes::{field, masked, number, samples};

/// Width and height of a raster and the side of its tiles, its mask by rows, 1 if a pixel is open, the count of its
/// regions, each pixel's label by rows, and the region of the last pixel. By hand: a masked column splits the upper tile
/// into two regions, and the row below it is a tile of its own. In `0 1 0 1 / 1 0 0 1 / 1 1 1 1` the pixel (1, 0) touches
/// the others only at a corner, and (0, 1) is joined to (3, 0) around the bottom. A ring is one region that closes at its
/// last pixel. One pixel is a region, and masked ones are none.
const ROWS: &str = "\
3 4 3|1 0 1 1 0 1 1 0 1 1 1 1|3 0.10.10.1222 Some(2)
4 3 4|0 1 0 1 1 0 0 1 1 1 1 1|2 .0.11..11111 Some(1)
3 3 4|1 1 1 1 0 1 1 1 1|1 0000.0000 Some(0)
3 2 2|1 1 1 1 1 1|2 001001 Some(1)
1 1 2|1|1 0 Some(0)
2 1 2|0 0|0 .. None";

/// The tiling of a row's first field.
fn tiling(field: &str) -> Tiling {
    let mut words = field.split(' ');
    let (width, height, side) = (number(&mut words), number(&mut words), number(&mut words));
    Tiling::new(width.clamp(1, 8), height.clamp(1, 8), side.clamp(2, 8))
}

/// Labels as digits, and a point if there is none.
fn drawn(rt: &impl Abort, alloc: Global, labels: &[u32]) -> String {
    let mut text = String::new(alloc);
    for &label in labels {
        text.push(char::from_digit(label, 10).unwrap_or('.'))
            .expect(rt, "memory");
    }
    text
}

/// The regions of a mask in words.
fn told(rt: &impl Abort, alloc: Global, tiling: Tiling, open: &str) -> String {
    let open = samples(alloc, open).expect(rt, "memory");
    let mask = masked(alloc, &tiling, &open).expect(rt, "a mask");
    let regions = Regions::of(alloc, &tiling, &mask).expect(rt, "memory");
    let labels = drawn(rt, alloc, regions.labels());
    let last = regions.region(tiling.width - 1, tiling.height - 1);
    format!(in alloc; "{} {labels} {last:?}", regions.count()).expect(rt, "memory")
}

#[test]
fn regions_are_numbered_by_their_first_pixels(rt: HostRuntime) {
    for row in ROWS.lines() {
        let mut fields = row.split('|');
        let tiling = tiling(field(&mut fields));
        let found = told(&rt, rt.alloc(), tiling, field(&mut fields));
        same(&rt, row, &found, field(&mut fields));
    }
}
