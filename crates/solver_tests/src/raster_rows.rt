ghost use Rattle.std.specs.Prelude.{◌≡◌, ◌&&◌, if◌then◌else◌, nat_le, pos, true};

use crate::outcomes::same;
use crate::reading::{TURN, read_raster};
use raster_model::{Edge, Heights, Mask, Plane, Rect, Tiling, Window, plain};
use std::alloc::Global;
use std::process::Abort;
use worked_scenes::{field, masked, number, plane};

/// The phase, raised by whole cycles in a box.
#[derive(Drop)]
pub(crate) struct Raised {
    rect: Rect,
    cycles: i8,
}

impl Heights for Raised {
    ghost knows = { λ _ _ _. true };

    ghost cycles_at = { λ s x y. if nat_le s.rect.x0 x && nat_le x s.rect.x1 && nat_le s.rect.y0 y && nat_le y s.rect.y1 then s.cycles else pos 0 };

    fn cycles(&self, x: u32, y: u32) -> i64 {
        let rect = self.rect;
        if rect.x0 <= x && x <= rect.x1 && rect.y0 <= y && y <= rect.y1 {
            i64::from(self.cycles)
        } else {
            0
        }
    }
}

/// Width, height and maxval of planes with the samples 5, 7 and 8, and the first reason why there is no such plane.
const SHAPES: &str = "\
0 0 0 = Some(Size)
65536 1 9 = Some(Size)
65535 4097 9 = Some(Size)
16384 16384 9 = Some(Count(3))
1 0 9 = Some(Size)
2 2 0 = Some(Maxval)
2 2 6 = Some(Count(3))
2 1 6 = Some(Count(3))
3 1 6 = Some(Above(1))
1 3 7 = Some(Above(2))
3 1 8 = None";

/// The first reason why there is no plane of these numbers.
fn refused(rt: &impl Abort, alloc: Global, numbers: &str) -> String {
    let mut words = numbers.split(' ');
    let (width, height) = (number(&mut words), number(&mut words));
    let maxval = field(&mut words).parse().unwrap_or(0);
    let samples = vec![in alloc; 5, 7, 8].expect(rt, "memory");
    let reason = Plane::new(width, height, maxval, samples).err();
    format!(in alloc; "{reason:?}").expect(rt, "memory")
}

#[test]
fn tells_the_first_reason_why_there_is_no_plane(rt: HostRuntime) {
    for row in SHAPES.lines() {
        let (numbers, wanted) = row.split_once(" = ").unwrap_or((row, ""));
        let found = refused(&rt, rt.alloc(), numbers);
        same(&rt, numbers, &found, wanted);
    }
}

/// Which pixels are open, row by row, `1` if one is.
pub(crate) fn add_opened(rt: &impl Abort, mask: &Mask, text: &mut String) {
    for place in 0..mask.width() * mask.height() {
        let is_open = mask.is_open(place % mask.width(), place / mask.width());
        text.push(if is_open { '1' } else { '0' })
            .expect(rt, "memory");
    }
}

/// The mask of the pixels `0 1 / 9 0`.
fn mask_of_samples(rt: &impl Abort, alloc: Global) -> Mask
    ensures { (result.width ≡ 2) × (result.height ≡ 2) }
{
    let plane = plane(alloc, &Tiling::new(2, 2, 2), 9, &[0, 1, 9, 0]).expect(rt, "a plane");
    Mask::of_plane(alloc, &plane).expect(rt, "memory")
}

/// Of a copy the first pixel is opened and the second masked.
#[test]
fn masks_are_zero_samples(rt: HostRuntime) {
    let mask = mask_of_samples(&rt, rt.alloc());
    let mut copy = mask.try_copy(rt.alloc()).expect(&rt, "memory");
    copy.set(0, 0, true);
    copy.set(1, 0, false);
    let mut text = String::new(rt.alloc());
    add_opened(&rt, &mask, &mut text);
    add_opened(&rt, &copy, &mut text);
    same(&rt, "a mask and its copy", &text, "01101010");
}

/// The tile of each pixel, row by row.
fn add_tiles(rt: &impl Abort, tiling: &Tiling, text: &mut String) {
    for place in 0..tiling.width * tiling.height {
        let tile = tiling.tile_of(place % tiling.width, place / tiling.width);
        text.push(char::from_digit(tile, 10).unwrap_or('.'))
            .expect(rt, "memory");
    }
}

#[test]
fn numbers_tiles_row_by_row(rt: HostRuntime) {
    let tiling = Tiling::new(7, 5, 3);
    let mut text = String::new(rt.alloc());
    add_tiles(&rt, &tiling, &mut text);
    same(&rt, "tiles", &text, "00011120001112000111233344453334445");
    let last = Window {
        x0: 6,
        y0: 3,
        x1: 6,
        y1: 4,
    };
    assert!(rt; tiling.tile_count() == 6 && tiling.window(5) == last);
}

/// The phase, raised at one pixel.
pub(crate) fn lifted(x: u32, y: u32, cycles: i8) -> Raised {
    let rect = Rect {
        x0: x,
        y0: y,
        x1: x,
        y1: y,
    };
    Raised { rect, cycles }
}

/// A full turn whose third pixel lies one cycle lower: each slow call is made once.
#[test]
fn a_residue_costs_its_lightest_edge(rt: HostRuntime) {
    let scene = read_raster(&rt, rt.alloc(), TURN).scene;
    assert!(rt; scene.phase.width == 2 && scene.phase.height == 2);
    let mask = masked(rt.alloc(), &scene.tiling, &[1; 4]).expect(&rt, "a mask");
    let heights = lifted(0, 1, -1);
    let bottom = Edge {
        x: 0,
        y: 1,
        down: false,
    };
    let tile = plain::tile_cost(&scene, &mask, &heights, 0);
    let seams = plain::seam_cost(&scene, &mask, &heights);
    assert!(rt; tile == 3 && seams == 0 && plain::gradient(&scene, bottom) == -16384);
}
