use crate::outcomes::same;
use raster_model::{Scene, Terms, Tiling};
use std::alloc::Global;
use std::process::Abort;
use std::thread::Threads;
use whole_guess::{Guess, Reached, guess_whole};
use whole_solver::{WholeResult, solve_whole, solve_whole_from};
use worked_scenes::{cycles, field, masked, numbers, scene_on};

/// The raster of four by two pixels in two tiles, with these phases and weights.
fn raster(rt: &impl Abort, alloc: Global, phases: &[u16], weights: &[u16]) -> Scene {
    let tiling = Tiling::new(4, 2, 2);
    scene_on(alloc, Terms::plain(), tiling, 9, phases, weights).expect(rt, "a scene")
}

/// A full turn by hand, round the cell between two tiles: no cell of a tile has a residue. Only the two edges at the top that
/// end at the light pixel, and the one below it, have the weight 7, and all others 9. So it costs least to correct the edge
/// above the cell, which is one of them, by a cycle, and the cell's face is what that costs.
fn turn(rt: &impl Abort, alloc: Global) -> Scene {
    let phases = [0, 0, 16384, 16384, 49152, 49152, 32768, 32768];
    let weights = [9, 7, 9, 9, 9, 9, 9, 9];
    raster(rt, alloc, &phases, &weights)
}

/// The surface of a raster whose pixels are all open, solved from a guess, if one is given, or else by the network.
fn solved<R: Abort + Threads + Sync>(
    rt: &R,
    alloc: Global,
    scene: &Scene,
    guess: Option<Guess>,
) -> WholeResult {
    let mask = masked(alloc, &scene.tiling, &[1; 8]).expect(rt, "a mask");
    solve_whole_from(rt, alloc, &scene.sheet(), &mask, 2, guess).expect(rt, "memory")
}

/// The cycles of a surface and its cost, in words.
fn told(rt: &impl Abort, alloc: Global, solved: &WholeResult) -> String {
    format!(in alloc; "{:?} {}", solved.cycles, solved.cost).expect(rt, "memory")
}

/// Without a guess the network solves the turn.
#[test]
fn a_turn_between_tiles_is_solved_over_the_whole_raster(rt: HostRuntime) {
    let alloc = rt.alloc();
    let scene = turn(&rt, alloc);
    let solved = solved(&rt, alloc, &scene, None);
    let found = told(&rt, alloc, &solved);
    same(&rt, "turn", &found, "[0, 0, -1, -1, -1, -1, -1, -1] 7");
    assert!(rt; solved.faces.len() == 3 && solved.faces.get(1).copied() == Some(7));
}

/// Corrections of right edges and of down edges, and faces, from which the turn is solved: nothing; the right face alone;
/// the correction that cancels the residue, with and without the face; its opposite; a face that is too high, numbers that
/// are too great, and lists that are too short or too long.
const STARTS: &str = "\
0 0 0 0 0 0|0 0 0 0|0 0 0
0 0 0 0 0 0|0 0 0 0|0 7 0
0 1 0 0 0 0|0 0 0 0|0 7 0
0 -1 0 0 0 0|0 0 0 0|0 7 0
0 -1 0 0 0 0|0 0 0 0|0 0 0
0 0 0 0 0 0|0 0 0 0|0 8 0
0 0 0 0 0 0|0 0 0 0|-9223372036854775808 -9223372036854775808 -9223372036854775808
-2147483648 -2147483648 -2147483648 -2147483648 -2147483648 -2147483648|\
    2147483647 2147483647 2147483647 2147483647|0 0 0
0 0 0 0 0 0|0 0 0 0|
0 0 0 0 0 0 0 0 0|0 0|0 0 0";

/// What was reached by a row.
fn reached(rt: &impl Abort, alloc: Global, row: &str) -> Reached {
    let mut fields = row.split('|');
    let right = cycles(alloc, field(&mut fields)).expect(rt, "memory");
    let down = cycles(alloc, field(&mut fields)).expect(rt, "memory");
    let faces = numbers(alloc, field(&mut fields)).expect(rt, "memory");
    Reached { right, down, faces }
}

/// The turn is solved alike from whatever was reached.
#[test]
fn what_was_reached_changes_no_answer(rt: HostRuntime) {
    let alloc = rt.alloc();
    let scene = turn(&rt, alloc);
    for row in STARTS.lines() {
        let guess = Guess::Reached(reached(&rt, alloc, row));
        let found = told(&rt, alloc, &solved(&rt, alloc, &scene, Some(guess)));
        same(&rt, row, &found, "[0, 0, -1, -1, -1, -1, -1, -1] 7");
    }
}

/// All surfaces within two cycles were counted: this one alone costs 5, and those that cost least in each of the two tiles
/// cost 7 or more.
#[test]
fn the_whole_costs_less_than_its_tiles(rt: HostRuntime) {
    let alloc = rt.alloc();
    let phases = [49152, 16384, 12288, 49152, 20480, 61440, 40960, 20480];
    let scene = raster(&rt, alloc, &phases, &[2, 8, 5, 9, 9, 9, 6, 2]);
    let mask = masked(alloc, &scene.tiling, &[1; 8]).expect(&rt, "a mask");
    let solved = solve_whole(&rt, alloc, &scene.sheet(), &mask, 2).expect(&rt, "memory");
    let found = told(&rt, alloc, &solved);
    same(&rt, "whole", &found, "[0, 0, 0, -1, 0, -1, -1, -1] 5");
}

/// The side of a raster round whose middle cell the phase makes a full turn.
const ROUND: u32 = 260;

/// The phase of a pixel by its quarter of that raster.
fn quarter_phase(x: u32, y: u32) -> u16 {
    match (x < ROUND / 2, y < ROUND / 2) {
        (true, true) => 0,
        (false, true) => 16384,
        (false, false) => 32768,
        (true, false) => 49152,
    }
}

/// That raster, in which each weight is 255.
fn round(rt: &impl Abort, alloc: Global) -> Scene {
    let mut phases = Vec::new(alloc);
    for place in 0..ROUND * ROUND {
        let phase = quarter_phase(place % ROUND, place / ROUND);
        phases.push(phase).expect(rt, "memory");
    }
    let weights = vec![in alloc; 255; phases.len()].expect(rt, "memory");
    let tiling = Tiling::new(ROUND, ROUND, 64);
    scene_on(alloc, Terms::plain(), tiling, 255, &phases, &weights).expect(rt, "a scene")
}

/// The middle cell is 130 edges away from the border, and each has to be corrected by a cycle: 130 times 255. That is the cell's
/// face, and more than 16 bits hold.
#[test]
fn a_guess_goes_on_in_wide_cells(rt: HostRuntime) {
    let alloc = rt.alloc();
    let scene = round(&rt, alloc);
    let ones = vec![in alloc; 1; (ROUND * ROUND) as usize].expect(&rt, "memory");
    let mask = masked(alloc, &scene.tiling, &ones).expect(&rt, "a mask");
    let guess = guess_whole(&rt, alloc, &scene.sheet(), &mask, 2).expect(&rt, "memory");
    assert!(rt; matches!(&guess, Guess::Surface { .. }));
    let solved = solve_whole_from(&rt, alloc, &scene.sheet(), &mask, 2, Some(guess)).expect(
        &rt, "memory",
    );
    assert!(rt;
        solved.cost == 33_150
            && solved
                .faces
                .iter()
                .any(|face| face.unsigned_abs() == 33_150)
    );
}
