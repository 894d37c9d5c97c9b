ghost use Rattle.raster_model.specs.Scene.{raster_of};
ghost use Rattle.raster_model.specs.Tiles.{tiles_of, window_of};
ghost use Rattle.std.specs.Prelude.{◌≡◌, ◌<◌};
ghost use Rattle.wrapped_gradient.specs.Gradients.{AreGradientsOf};

use crate::outcomes::holds;
use crate::reading::{Raster, TURN, read_at, read_raster, read_steep, unmasked};
use crate::tile_rows::{ROWS, STEEP_ROWS};
use certificates::{TileVerdict, check_tile};
use dual_grid::{DualGrid, Problem};
use raster_model::Scene;
use std::alloc::Global;
use std::process::Abort;
use tile_guess::{Grid, Guess, guess_flow};
use tile_solver::solve_tile_from;
use worked_scenes::{cycles, field, masked, numbers};
use wrapped_gradient::{Corrections, Gradients};

/// Rows of `guess`: corrections of the right and of the down edges, faces, and whether these answer the full turn, whose one cell has the
/// residue 1, and whose edges weigh 5 above, 3 below, 3 on the left and 5 on the right. By hand: one cycle goes across the
/// edge below or across that on the left, so that the face is 3. Then a flow is missing, goes the other way, across a heavy
/// edge or round twice; the face is off by one, turned, that of a tile without a residue, that of the full turn whose edges
/// all weigh 5, missing or one of two; there are too few corrections, or too many; numbers lie at the ends of their types.
const GUESSES: &str = "\
0 1|0 0|3|true
0 0|1 0|3|true
0 0|0 0|3|false
0 -1|0 0|3|false
-1 0|0 0|3|false
0 2|-1 0|3|false
0 1|0 0|2|false
0 1|0 0|4|false
0 1|0 0|-3|false
0 1|0 0|0|false
0 1|0 0|5|false
0 1|0 0||false
0 1|0 0|3 0|false
1|0 0|3|false
0 1|0|3|false
0 1 0|0 0|3|false
0 2147483647|-2147483648 0|3|false
0 1|0 0|9223372036854775807|false
0 1|0 0|-9223372036854775808|false";

/// The guess at the beginning of a row.
fn guess(rt: &impl Abort, alloc: Global, row: &str) -> Guess {
    let mut fields = row.split('|');
    let right = cycles(alloc, field(&mut fields)).expect(rt, "memory");
    let down = cycles(alloc, field(&mut fields)).expect(rt, "memory");
    let faces = numbers(alloc, field(&mut fields)).expect(rt, "memory");
    Guess { right, down, faces }
}

/// The full turn in one tile.
fn full_turn(rt: &impl Abort, alloc: Global) -> Scene
    ensures { 0 < tiles_of result.tiling }
{
    read_raster(rt, alloc, TURN).scene
}

/// The gradients of a scene's one tile.
fn gradients_of(rt: &impl Abort, alloc: Global, scene: &Scene) -> Gradients
    requires { 0 < tiles_of scene.now.tiling }
    ensures window { result.window ≡ window_of scene.now.tiling 0 }
    ensures differences { AreGradientsOf (raster_of scene.now) result }
{
    Gradients::of(alloc, scene, scene.tiling.window(0)).expect(rt, "memory")
}

/// What a scene's one tile asks under a mask.
fn problem_of(rt: &impl Abort, alloc: Global, scene: &Scene, opened: &[u16]) -> Problem
    requires { 0 < tiles_of scene.now.tiling }
{
    let gradients = gradients_of(rt, alloc, scene);
    let unmasked = unmasked(rt, alloc, scene, opened);
    Problem::of(alloc, scene, &gradients, 0, &unmasked).expect(rt, "memory")
}

/// Whether the guess of a row is taken as an answer exactly if the row says so.
fn is_as_told(rt: &impl Abort, alloc: Global, problem: &Problem, row: &str) -> bool {
    let Guess { right, down, faces } = guess(rt, alloc, row);
    let corrections = Corrections { right, down };
    problem.is_answered_by(&corrections, &faces) == row.ends_with("true")
}

/// Guesses are taken where they are answers, and nowhere else.
#[test]
fn guesses_are_taken_where_they_answer(rt: HostRuntime) {
    let alloc = rt.alloc();
    let scene = full_turn(&rt, alloc);
    let problem = problem_of(&rt, alloc, &scene, &[1; 4]);
    for row in GUESSES.lines() {
        holds(&rt, row, is_as_told(&rt, alloc, &problem, row));
    }
}

/// The fast solver's guess at what a tile asks.
fn guess_at(rt: &impl Abort, alloc: Global, problem: &Problem) -> Guess {
    let window = problem.window;
    let grid = Grid {
        across: window.x1 - window.x0,
        along: window.y1 - window.y0,
        right: &problem.right,
        down: &problem.down,
        residues: &problem.residues,
        steep: problem.steep,
    };
    guess_flow(alloc, grid).expect(rt, "memory")
}

/// Whether the fast solver's guess at a raster's one tile is taken as an answer.
fn is_taken(rt: &impl Abort, alloc: Global, raster: &Raster) -> bool
    requires { 0 < tiles_of raster.now.scene.tiling }
{
    let problem = problem_of(rt, alloc, &raster.scene, &raster.opened);
    let Guess { right, down, faces } = guess_at(rt, alloc, &problem);
    problem.is_answered_by(&Corrections { right, down }, &faces)
}

/// The fast solver answers each raster at each of these steepnesses: if its guess is declined, the network still answers, so
/// nothing else tells.
#[test]
fn no_guess_of_a_tile_is_declined(rt: HostRuntime) {
    let alloc = rt.alloc();
    for steep in [1, 2, 4, 16] {
        for row in ROWS.lines() {
            let raster = read_at(&rt, alloc, steep, row);
            holds(&rt, row, is_taken(&rt, alloc, &raster));
        }
    }
}

/// Rows of `guess`: corrections and faces from which the full turn may be solved, and whether its grid takes them. By hand:
/// faces up to 3 on either side of 0 go with no flow, and a whole answer is taken. Then the face is above a weight or below
/// that of a flow, a flow goes the other way, and so much that more is to flow than there are cells; a face is missing, or
/// one of two; there are too few corrections; numbers lie at the ends of their types.
const STARTS: &str = "\
0 0|0 0|0|true
0 0|0 0|3|true
0 0|0 0|-3|true
0 1|0 0|3|true
0 0|1 0|3|true
0 0|0 0|4|false
0 0|0 0|-4|false
0 1|0 0|2|false
0 -1|0 0|3|false
0 -1|0 0|-3|false
0 0|0 0||false
0 0|0 0|3 0|false
0|0 0|0|false
0 2147483647|-2147483648 0|3|false
0 0|0 0|9223372036854775807|false
0 0|0 0|-9223372036854775808|false";

/// Whether the grid of a scene's one tile takes the corrections and faces of a row exactly if the row says so.
fn starts_as_told(rt: &impl Abort, alloc: Global, scene: &Scene, row: &str) -> bool
    requires { 0 < tiles_of scene.now.tiling }
{
    let (sheet, window) = (scene.sheet(), scene.tiling.window(0));
    let gradients = Gradients::over(alloc, &sheet, window).expect(rt, "memory");
    let unmasked = unmasked(rt, alloc, scene, &[1; 4]);
    let Guess { right, down, faces } = guess(rt, alloc, row);
    let corrections = Corrections { right, down };
    let grid = DualGrid::reached(alloc, &sheet, &gradients, &unmasked, corrections, &faces);
    grid.expect(rt, "memory").is_some() == row.ends_with("true")
}

/// A grid takes flows and faces that go together, and nothing else.
#[test]
fn grids_take_what_goes_together(rt: HostRuntime) {
    let alloc = rt.alloc();
    let scene = full_turn(&rt, alloc);
    for row in STARTS.lines() {
        holds(&rt, row, starts_as_told(&rt, alloc, &scene, row));
    }
}

/// What the check says of a scene's one tile, solved from a guess.
fn verdict(
    rt: &impl Abort,
    alloc: Global,
    scene: &Scene,
    opened: &[u16],
    guess: Guess,
) -> TileVerdict
    requires { 0 < tiles_of scene.now.tiling }
{
    let mask = masked(alloc, &scene.tiling, opened).expect(rt, "a mask");
    let unmasked = unmasked(rt, alloc, scene, opened);
    let solved = solve_tile_from(alloc, scene, 0, 7, &unmasked, Some(guess)).expect(rt, "memory");
    check_tile(scene, &mask, &solved)
}

/// From any guess the full turn gets a result that is certified.
#[test]
fn any_guess_ends_in_a_certified_tile(rt: HostRuntime) {
    let alloc = rt.alloc();
    let scene = full_turn(&rt, alloc);
    for row in GUESSES.lines() {
        let guess = guess(&rt, alloc, row);
        let verdict = verdict(&rt, alloc, &scene, &[1, 1, 1, 1], guess);
        holds(&rt, row, verdict == TileVerdict::Good);
    }
}

/// What the check says of a raster, solved by the network alone.
fn network_verdict(rt: &impl Abort, alloc: Global, raster: &Raster) -> TileVerdict
    requires { 0 < tiles_of raster.now.scene.tiling }
{
    let nothing = Guess {
        right: Vec::new(alloc),
        down: Vec::new(alloc),
        faces: Vec::new(alloc),
    };
    verdict(rt, alloc, &raster.scene, &raster.opened, nothing)
}

/// The network alone certifies each raster whose least cost is known.
#[test]
fn the_network_certifies_too(rt: HostRuntime) {
    for row in ROWS.lines() {
        let raster = read_raster(&rt, rt.alloc(), row);
        let verdict = network_verdict(&rt, rt.alloc(), &raster);
        holds(&rt, row, verdict == TileVerdict::Good);
    }
}

/// So it does at other steepnesses.
#[test]
fn the_network_certifies_steep_tiles(rt: HostRuntime) {
    for row in STEEP_ROWS.lines() {
        let raster = read_steep(&rt, rt.alloc(), row);
        let verdict = network_verdict(&rt, rt.alloc(), &raster);
        holds(&rt, row, verdict == TileVerdict::Good);
    }
}
