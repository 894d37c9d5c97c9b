ghost use Rattle.certificates.specs.Results.{IsGoodTile, pixels_in};
ghost use Rattle.dual_grid.specs.Answers.{AreCertifiedCorrections};
ghost use Rattle.dual_grid.specs.Starts.{TellsMask};
ghost use Rattle.raster_model.specs.Scene.{raster_of};
ghost use Rattle.raster_model.specs.Sums.{Field};
ghost use Rattle.raster_model.specs.Tiles.{tiles_of, window_of};
ghost use Rattle.std.specs.Prelude.{◌≡◌, ◌<◌, Bool, IfOk, IfSome, length};
ghost use Rattle.dual_grid.specs.Problems.{IsAnsweredBy};
ghost use Rattle.tile_solver.specs.Zeros.{AnswersWithoutResidue};
ghost use Rattle.wrapped_gradient.specs.Gradients.{AreGradientsOf};

use certificates::TileResult;
use dual_grid::Problem;
use network_solver::network_corrections;
use raster_model::Scene;
use std::alloc::{AllocError, Global};
use surface_integration::integrate;
use tile_guess::{Grid, Guess, guess_flow};
use wrapped_gradient::{Corrections, Gradients};

/// Solves one tile of a scene. `unmasked` tells the mask: for each pixel of the tile's window, in row order, whether it
/// is open. The result has the cycles of a congruent surface whose weighted departures cost least in the tile, and the
/// faces that prove it. It fails only for lack of memory. (Costantini 1998.)
pub fn solve_tile(
    alloc: Global,
    scene: &Scene,
    tile: u32,
    stamp: u32,
    unmasked: &[bool],
) -> Result<TileResult, AllocError>
    requires tile { tile < tiles_of scene.now.tiling }
    requires count { length unmasked.now ≡ pixels_in (window_of scene.now.tiling tile) }
    ensures named { IfOk result (λ solved. (solved.tile ≡ tile) × (solved.stamp ≡ stamp)) }

    // The mask is any that agrees with `unmasked` over the tile's window.
    ensures good { IfOk result (λ solved. (mask : Field Bool) → TellsMask (window_of scene.now.tiling tile) unmasked.now mask → IsGoodTile scene.now mask solved) }
{
    solve_tile_from(alloc, scene, tile, stamp, unmasked, None)
}

/// Solves one tile as `solve_tile` does, from a guess at its corrections and faces. If none is given, the guess is that
/// of `tile_guess`. A guess that is an answer is taken, and any other is dropped, so a guess can cost time and nothing
/// else. (McConnell, Mehlhorn, Naeher and Schweitzer 2011.)
pub fn solve_tile_from(
    alloc: Global,
    scene: &Scene,
    tile: u32,
    stamp: u32,
    unmasked: &[bool],
    guess: Option<Guess>,
) -> Result<TileResult, AllocError>
    requires tile { tile < tiles_of scene.now.tiling }
    requires count { length unmasked.now ≡ pixels_in (window_of scene.now.tiling tile) }
    ensures named { IfOk result (λ solved. (solved.tile ≡ tile) × (solved.stamp ≡ stamp)) }
    ensures good { IfOk result (λ solved. (mask : Field Bool) → TellsMask (window_of scene.now.tiling tile) unmasked.now mask → IsGoodTile scene.now mask solved) }
{
    let window = scene.tiling.window(tile);
    let gradients = Gradients::of(alloc, scene, window)?;
    let (corrections, faces) = least_corrections(alloc, scene, &gradients, tile, unmasked, guess)?;
    let cycles = integrate(alloc, scene, &gradients, &corrections)?;
    Ok(TileResult {
        tile,
        stamp,
        cycles,
        faces,
    })
}

/// The corrections of a tile that cancel its residues at least cost, and the faces that certify them.
fn least_corrections(
    alloc: Global,
    scene: &Scene,
    gradients: &Gradients,
    tile: u32,
    unmasked: &[bool],
    guess: Option<Guess>,
) -> Result<(Corrections, Vec<i64>), AllocError>
    requires tile { tile < tiles_of scene.now.tiling }
    requires gradients { AreGradientsOf (raster_of scene.now) gradients.now }
    requires window { gradients.now.window ≡ window_of scene.now.tiling tile }
    requires count { length unmasked.now ≡ pixels_in gradients.now.window }
    ensures { IfOk result (λ made. (mask : Field Bool) → TellsMask (window_of scene.now.tiling tile) unmasked.now mask → AreCertifiedCorrections (raster_of scene.now) mask tile (window_of scene.now.tiling tile) made.0 made.1.items) }
{
    if gradients.first_residue().is_none() {
        return no_corrections(alloc, gradients);
    }
    let problem = Problem::of(alloc, scene, gradients, tile, unmasked)?;
    if let Some(answer) = guessed_corrections(alloc, &problem, guess)? {
        return Ok(answer);
    }
    network_corrections(alloc, &scene.sheet(), gradients, unmasked)
}

/// The given guess, or that of the fast solver, if it is found to be an answer, and otherwise None. Neither promises
/// anything: all rests on the check.
fn guessed_corrections(
    alloc: Global,
    problem: &Problem,
    guess: Option<Guess>,
) -> Result<Option<(Corrections, Vec<i64>)>, AllocError>
    ensures { IfOk result (λ found. IfSome found (λ made. IsAnsweredBy problem.now made.0 made.1.items)) }
{
    let guess = guess_or_solver(alloc, problem, guess)?;
    let corrections = Corrections {
        right: guess.right,
        down: guess.down,
    };
    if problem.is_answered_by(&corrections, &guess.faces) {
        Ok(Some((corrections, guess.faces)))
    } else {
        Ok(None)
    }
}

/// The guess that is given, or that of the fast solver.
fn guess_or_solver(
    alloc: Global,
    problem: &Problem,
    guess: Option<Guess>,
) -> Result<Guess, AllocError> {
    if let Some(guess) = guess {
        return Ok(guess);
    }
    let window = problem.window;
    guess_flow(
        alloc,
        Grid {
            across: window.x1 - window.x0,
            along: window.y1 - window.y0,
            right: &problem.right,
            down: &problem.down,
            residues: &problem.residues,
            steep: problem.steep,
        },
    )
}

/// The correction 0 for each edge of a window, and the face 0 for each of its cells. If no cell has a residue, they are
/// an answer under any mask, and no network is needed.
fn no_corrections(
    alloc: Global,
    gradients: &Gradients,
) -> Result<(Corrections, Vec<i64>), AllocError>
    ensures { IfOk result (λ made. AnswersWithoutResidue gradients.now made.0 made.1.items) }
{
    let window = gradients.window();
    let across = (window.x1 - window.x0) as usize;
    let along = (window.y1 - window.y0) as usize;
    let corrections = Corrections {
        right: vec![in alloc; 0; across * (along + 1)]?,
        down: vec![in alloc; 0; (across + 1) * along]?,
    };
    let faces = vec![in alloc; 0; across * along]?;
    Ok((corrections, faces))
}
