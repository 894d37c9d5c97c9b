ghost use Rattle.raster_model.specs.Tiles.{tiles_of};
ghost use Rattle.std.specs.Prelude.{◌≡◌, ◌<◌};

use crate::outcomes::holds;
use crate::reading::{Raster, read_raster, read_steep, unmasked};
use certificates::{TileResult, TileVerdict, check_tile};
use raster_model::{Scene, Terms, Tiling};
use std::alloc::Global;
use std::process::Abort;
use tile_solver::solve_tile;
use worked_scenes::{masked, scene_on, tile_result};

/// Rows of `read_raster`: width, height, phases, weights and mask of a raster in one tile, and the least cost of its surfaces. First a full turn by
/// hand, whole, with a pixel masked and with all; a line; a ramp that turns over between its first columns, under two masks.
/// Then random rasters, whose costs `network_simplex` of networkx 3.6.1 found over the residues; on smaller ones it agreed
/// with a search through all cycles from -1 to 1.
pub(crate) const ROWS: &str = "\
2|2|0 16384 49152 32768|5 5 3 9|1 1 1 1|3
2|2|0 16384 49152 32768|5 5 3 9|0 1 1 1|0
2|2|0 16384 49152 32768|5 5 3 9|0 0 0 0|0
4|1|0 20000 40000 60000|1 1 1 1|1 1 1 1|0
3|2|60000 4000 14000 62000 6000 16000|5 0 3 9 1 7|1 1 1 1 1 1|0
3|2|60000 4000 14000 62000 6000 16000|5 0 3 9 1 7|1 0 1 0 1 1|0
5|4|13037 21675 41434 21825 47648 19849 61187 57663 63037 58550 57558 40106 49185 17513 3903 \
    64553 24184 37472 32599 30102|8 7 1 1 2 8 1 7 2 9 4 4 1 3 9 9 5 7 8 8|1 1 1 1 1 1 1 1 1 1 1 1 1 \
    1 1 1 1 1 1 1|8
5|4|46191 21014 683 18723 7305 4746 57404 3014 55298 36561 56083 56600 62890 29200 36216 8657 \
    52874 62787 5568 61092|0 3 3 6 5 8 4 0 8 9 1 0 1 7 7 6 8 3 9 2|1 1 1 1 1 1 1 1 1 1 1 1 1 1 1 1 \
    1 1 1 1|8
5|4|23688 35226 31355 50113 25004 61619 13927 31503 52610 25967 52712 51505 19020 45672 36544 \
    14904 9917 61928 31071 55999|7 7 7 2 9 0 4 1 9 9 6 9 0 1 9 3 6 8 1 1|1 1 1 1 1 1 1 1 1 1 1 1 1 \
    1 1 1 1 1 1 1|1
5|4|40058 30516 22246 38018 14095 42256 15514 26586 39620 9605 46399 7897 22690 18678 16623 \
    22579 15862 37713 41774 8988|9 7 2 1 1 1 3 5 4 3 7 9 5 9 6 2 4 6 7 8|1 1 0 1 1 1 1 1 1 1 1 1 1 \
    0 1 1 1 0 1 1|3
5|4|28422 43734 43623 63012 49376 33276 36839 171 30599 16949 35678 23082 2134 2914 53204 28092 \
    54389 27076 25752 45638|4 5 5 9 6 0 9 3 5 1 3 7 8 7 9 3 1 0 0 1|0 1 1 1 1 1 1 1 1 1 1 1 1 1 1 0 \
    0 1 1 1|6";

/// The result of a raster in one tile.
fn solved(rt: &impl Abort, alloc: Global, scene: &Scene, opened: &[u16]) -> TileResult
    requires { 0 < tiles_of scene.now.tiling }
    ensures { result.tile ≡ 0 }
{
    let unmasked = unmasked(rt, alloc, scene, opened);
    solve_tile(alloc, scene, 0, 7, &unmasked).expect(rt, "memory")
}

/// A result with its own cycles and every face 0.
fn bare(rt: &impl Abort, alloc: Global, solved: &TileResult) -> TileResult
    ensures { result.tile ≡ solved.now.tile }
{
    let faces = vec![in alloc; 0; solved.faces.len()].expect(rt, "memory");
    tile_result(alloc, solved.tile, solved.stamp, &solved.cycles, &faces).expect(rt, "memory")
}

/// What the check says of a row's raster with the solver's faces, and what with every face 0: then it counts what the
/// surface costs.
fn verdicts(rt: &impl Abort, alloc: Global, raster: &Raster) -> [TileVerdict; 2]
    requires { 0 < tiles_of raster.now.scene.tiling }
{
    let scene = &raster.scene;
    let mask = masked(alloc, &scene.tiling, &raster.opened).expect(rt, "a mask");
    let solved = solved(rt, alloc, scene, &raster.opened);
    let bare = bare(rt, alloc, &solved);
    [
        check_tile(scene, &mask, &solved),
        check_tile(scene, &mask, &bare),
    ]
}

/// The cost at the end of a row.
fn cost_of(row: &str) -> u128 {
    row.rsplit('|').next().unwrap_or("").parse().unwrap_or(99)
}

#[test]
fn tiles_cost_what_another_solver_finds(rt: HostRuntime) {
    for row in ROWS.lines() {
        let raster = read_raster(&rt, rt.alloc(), row);
        let counted = match cost_of(row) {
            0 => TileVerdict::Good,
            cost => TileVerdict::CostDiffers { cost, bound: 0 },
        };
        let verdicts = verdicts(&rt, rt.alloc(), &raster);
        holds(&rt, row, verdicts == [TileVerdict::Good, counted]);
    }
}

/// Rows of `read_steep`, with the least cost at the end. The full turn's one correction costs as much at
/// each steepness. The cost of the other raster was found by a search through all cycles from -4 to 4 at each pixel, row by row: at
/// steepness 1 an edge of weight 1 is corrected by more than one cycle.
pub(crate) const STEEP_ROWS: &str = "\
3|2|2|0 16384 49152 32768|5 5 3 9|1 1 1 1|3
1|3|5|2981 8702 56626 27674 26720 31186 12442 42913 3973 41967 5006 40351 4786 25141 12322|\
    9 9 9 9 1 9 9 8 5 7 9 9 5 1 9|1 1 1 1 1 1 1 1 1 1 1 1 1 1 1|12
4|3|5|2981 8702 56626 27674 26720 31186 12442 42913 3973 41967 5006 40351 4786 25141 12322|\
    9 9 9 9 1 9 9 8 5 7 9 9 5 1 9|1 1 1 1 1 1 1 1 1 1 1 1 1 1 1|15
16|3|5|2981 8702 56626 27674 26720 31186 12442 42913 3973 41967 5006 40351 4786 25141 12322|\
    9 9 9 9 1 9 9 8 5 7 9 9 5 1 9|1 1 1 1 1 1 1 1 1 1 1 1 1 1 1|15";

#[test]
fn steep_tiles_cost_what_a_search_finds(rt: HostRuntime) {
    for row in STEEP_ROWS.lines() {
        let raster = read_steep(&rt, rt.alloc(), row);
        let cost = cost_of(row);
        let counted = TileVerdict::CostDiffers { cost, bound: 0 };
        let verdicts = verdicts(&rt, rt.alloc(), &raster);
        holds(&rt, row, verdicts == [TileVerdict::Good, counted]);
    }
}

/// Where a rise of 30000 is expected along a row, the line `0 40000 14464 54464` is `0 40000 80000 120000`, and what is a
/// full turn without a ramp is `0 16384 / -16384 32768`. Neither costs anything, so faces of 0 certify it.
#[test]
fn a_tile_follows_its_ramp(rt: HostRuntime) {
    let steps = [0, 40000, 14464, 54464];
    follows(
        &rt,
        rt.alloc(),
        Tiling::new(4, 1, 128),
        &steps,
        &[0, 0, 1, 1],
    );
    let turn = [0, 16384, 49152, 32768];
    follows(
        &rt,
        rt.alloc(),
        Tiling::new(2, 2, 128),
        &turn,
        &[0, 0, -1, 0],
    );
}

/// Solves a raster around that ramp, whose surface has to have these cycles and to cost nothing.
fn follows(rt: &impl Abort, alloc: Global, tiling: Tiling, phases: &[u16], cycles: &[i32]) {
    let terms = Terms {
        ramp_x: 30000,
        ramp_y: 0,
        steep: 1,
    };
    let scene = scene_on(alloc, terms, tiling, 9, phases, &[5, 5, 3, 9]).expect(rt, "a scene");
    assert!(rt; 0 < scene.tiling.tile_count());
    let solved = solved(rt, alloc, &scene, &[1; 4]);
    assert!(rt; solved.cycles.as_slice() == cycles);
    let mask = masked(alloc, &scene.tiling, &[1; 4]).expect(rt, "a mask");
    let bare = bare(rt, alloc, &solved);
    assert!(rt; check_tile(&scene, &mask, &bare) == TileVerdict::Good);
}
