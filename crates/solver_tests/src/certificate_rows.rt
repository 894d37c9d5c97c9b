use crate::outcomes::same;
use crate::raster_rows::lifted;
use crate::reading::{TURN, read_at};
use certificates::{TileSet, TileVerdict, check_faces, check_tile};
use raster_model::{Mask, Tiling};
use std::alloc::Global;
use std::process::Abort;
use std::sync::Arc;
use worked_scenes::{cycles, field, masked, number, numbers, samples, scene, tile_result};

/// Steepness, mask, cycles and face of the full turn, and what the check says. By hand, the edges weigh 5 at the top and on
/// the right, and 3 at the bottom and on the left, so no surface costs less than 3; masked edges weigh nothing. At the
/// steepness 3 the face 3 is above no weight, the face 4 is above two by 1 each, and the face 9 by 4, 4, 6 and 6. Where the
/// last pixel is two cycles low, the edges at the bottom and on the right count for 4 each.
const ROWS: &str = "\
1|1 1 1 1|0 0 -1 0|3|Good
1|1 1 1 1|0 0 0 0|3|Good
1|1 1 1 1|0 0 0 -1|3|CostDiffers { cost: 11, bound: 3 }
1|1 1 1 1|0 0 -1 0|4|FaceAtEdge(Edge { x: 0, y: 0, down: true })
1|1 1 1 1|0 0 -1 0|-6|FaceAtEdge(Edge { x: 0, y: 0, down: false })
1|1 1 1 1|0 0 0 -8388609|6|Range { x: 1, y: 1 }
1|1 1 1 1|8388609 0 0|3|Shape
1|0 0 0 0|8388609 0 0 0|0|Good
3|1 1 1 1|0 0 0 0|3|Good
3|1 1 1 1|0 0 0 0|4|CostDiffers { cost: 3, bound: 2 }
3|1 1 1 1|0 0 0 0|9|CostDiffers { cost: 3, bound: -11 }
3|1 1 1 1|0 0 0 0|10|FaceAtEdge(Edge { x: 0, y: 0, down: true })
1|1 1 1 1|0 0 0 -2|3|CostDiffers { cost: 19, bound: 3 }
3|1 1 1 1|0 0 0 -2|3|CostDiffers { cost: 35, bound: 3 }";

/// What the check says of the turn at a steepness, with the mask, the cycles and the face of these fields.
fn verdict(
    rt: &impl Abort,
    alloc: Global,
    steep: u32,
    open: &str,
    own: &str,
    face: &str,
) -> TileVerdict {
    let scene = read_at(rt, alloc, steep, TURN).scene;
    let open = samples(alloc, open).expect(rt, "memory");
    let mask = masked(alloc, &scene.tiling, &open).expect(rt, "a mask");
    let own = cycles(alloc, own).expect(rt, "memory");
    let face = numbers(alloc, face).expect(rt, "memory");
    let result = tile_result(alloc, 0, 1, &own, &face).expect(rt, "memory");
    check_tile(&scene, &mask, &result)
}

/// Refuses a row of which the check says something else.
fn is_as_told(rt: &impl Abort, alloc: Global, row: &str) {
    let mut fields = row.split('|');
    let steep = number(&mut fields);
    let (open, own, face) = (field(&mut fields), field(&mut fields), field(&mut fields));
    let verdict = verdict(rt, alloc, steep, open, own, face);
    let found = format!(in alloc; "{verdict:?}").expect(rt, "memory");
    same(rt, row, &found, field(&mut fields));
}

#[test]
fn tells_the_first_break_of_a_tile(rt: HostRuntime) {
    for row in ROWS.lines() {
        is_as_told(&rt, rt.alloc(), row);
    }
}

/// What the check says of faces of the second tile of a row, which is one pixel wide, so that it has no cell.
fn faces_verdict(rt: &impl Abort, alloc: Global, faces: &[i64]) -> TileVerdict {
    let phases = [0, 0, 0, 0, 0, 0, 0, 20000, 0, 0, 0, 40000];
    let scene = scene(alloc, Tiling::new(4, 3, 3), 9, &phases, &[9; 12]).expect(rt, "a scene");
    let mask = Mask::all_open(alloc, 4, 3).expect(rt, "memory");
    check_faces(&scene, &mask, 1, &lifted(0, 0, 0), faces)
}

#[test]
fn a_tile_without_cells_needs_no_faces(rt: HostRuntime) {
    assert!(rt; faces_verdict(&rt, rt.alloc(), &[]) == TileVerdict::Good);
    assert!(rt; faces_verdict(&rt, rt.alloc(), &[0]) == TileVerdict::Shape);
}

#[test]
fn keeps_a_result_for_each_tile(rt: HostRuntime) {
    let alloc = rt.alloc();
    let result = tile_result(alloc, 0, 1, &[0, 0, -1, 0], &[3]).expect(&rt, "memory");
    let result = Arc::new(alloc, result).expect(&rt, "memory");
    let results = vec![in alloc; result].expect(&rt, "memory");
    let set = TileSet::of_shared(&Tiling::new(2, 2, 128), results);
    let copies = set.try_copy(alloc).expect(&rt, "memory");
    let copy = copies.tile(0);
    assert!(rt; copy.stamp == 1 && copy.cycles.as_slice() == [0, 0, -1, 0].as_slice());
    assert!(rt; copy.faces.as_slice() == [3].as_slice());
}
