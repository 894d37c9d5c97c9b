ghost use Rattle.raster_model.specs.Limits.{IsSteepness};
ghost use Rattle.raster_model.specs.Tiles.{tiles_of};
ghost use Rattle.std.specs.Prelude.{◌≡◌, ◌<◌};

use certificates::{TileResult, TileVerdict, check_tile};
use raster_model::{Mask, RuleKind, Scene, Session, Terms};
use std::alloc::Global;
use std::process::Abort;
use std::thread::Threads;
use trial_maker::make_session;
use whole_guess::{Guess, guess_whole};
use worked_scenes::tile_result;

/// Seeds, widths, heights and the least costs of the trials' surfaces over the whole, which the network simplex of LEMON
/// 1.3.1 found.
pub(crate) const TRIALS: [(u64, u32, u32, u128); 2] = [(7, 96, 70, 28001), (3, 100, 77, 35731)];

/// The guess at a raster of one tile, as that tile's result, with the guess's faces or with faces of 0.
fn guessed<R: Abort + Threads + Sync>(
    rt: &R,
    alloc: Global,
    scene: &Scene,
    mask: &Mask,
    workers: u32,
    faced: bool,
) -> TileResult
    ensures { result.tile ≡ 0 }
{
    let guess = guess_whole(rt, alloc, &scene.sheet(), mask, workers).expect(rt, "memory");
    let Guess::Surface { cycles, faces } = guess else {
        panic!(rt; "no surface");
    };
    let short = narrowed(rt, alloc, &cycles);
    let bare = vec![in alloc; 0; faces.len()].expect(rt, "memory");
    let faces = if faced { faces } else { bare };
    tile_result(alloc, 0, 0, &short, &faces).expect(rt, "memory")
}

/// Cycles as numbers of 32 bits.
fn narrowed(rt: &impl Abort, alloc: Global, cycles: &[i64]) -> Vec<i32> {
    let mut short = Vec::new(alloc);
    for number in cycles {
        short
            .push(i32::try_from(*number).unwrap_or(99))
            .expect(rt, "memory");
    }
    short
}

/// What the check says of the guess at a raster of one tile.
fn verdict<R: Abort + Threads + Sync>(
    rt: &R,
    alloc: Global,
    session: &Session,
    workers: u32,
    faced: bool,
) -> TileVerdict
    requires { 0 < tiles_of session.now.scene.tiling }
{
    let (scene, mask) = (&session.scene, &session.first_mask);
    let solved = guessed(rt, alloc, scene, mask, workers, faced);
    check_tile(scene, mask, &solved)
}

/// A trial of one tile.
pub(crate) fn trial(rt: &impl Abort, alloc: Global, seed: u64, width: u32, height: u32) -> Session
    ensures { 0 < tiles_of result.scene.tiling }
{
    let made = make_session(alloc, seed, width, height, 128, RuleKind::Least);
    let session = made.expect(rt, "a session");
    assert!(rt; 0 < session.scene.tiling.tile_count());
    session
}

/// The guesses are certified, and cost what another solver finds, with one worker and with three.
#[test]
fn guesses_cost_what_another_solver_finds(rt: HostRuntime) {
    let alloc = rt.alloc();
    for (seed, width, height, cost) in TRIALS {
        let session = trial(&rt, alloc, seed, width, height);
        let counted = TileVerdict::CostDiffers { cost, bound: 0 };
        for workers in [1, 3] {
            assert!(rt; verdict(&rt, alloc, &session, workers, true) == TileVerdict::Good);
            assert!(rt; verdict(&rt, alloc, &session, workers, false) == counted);
        }
    }
}

/// A ramp with a steepness.
fn leaned(steep: u32) -> Terms
    requires { IsSteepness steep }
{
    Terms {
        ramp_x: 700,
        ramp_y: -300,
        steep,
    }
}

/// Whether the guess at a trial on other terms is certified.
fn is_certified<R: Abort + Threads + Sync>(
    rt: &R,
    alloc: Global,
    terms: Terms,
    width: u32,
    height: u32,
) -> bool {
    let session = trial(rt, alloc, 5, width, height).with_terms(terms);
    assert!(rt; 0 < session.scene.tiling.tile_count());
    verdict(rt, alloc, &session, 2, true) == TileVerdict::Good
}

/// So they are at other steepnesses, around ramps, and on rasters that are one pixel wide or high.
#[test]
fn guesses_are_certified_on_other_terms(rt: HostRuntime) {
    let alloc = rt.alloc();
    assert!(rt; is_certified(&rt, alloc, leaned(2), 70, 40));
    assert!(rt; is_certified(&rt, alloc, leaned(16), 40, 70));
    assert!(rt; is_certified(&rt, alloc, leaned(3), 1, 50));
    assert!(rt; is_certified(&rt, alloc, leaned(4), 50, 1));
}
