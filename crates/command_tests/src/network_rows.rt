use crate::whole_rows::{TRIALS, trial};
use raster_model::Session;
use std::alloc::Global;
use std::process::Abort;
use std::thread::Threads;
use whole_guess::guess_whole_within;
use whole_solver::solve_whole_from;

/// What the surface of a raster costs that is solved from what a guess with a patience has reached.
fn cost_from<R: Abort + Threads + Sync>(
    rt: &R,
    alloc: Global,
    session: &Session,
    patience: u64,
) -> u128 {
    let (scene, mask) = (&session.scene, &session.first_mask);
    let guess = guess_whole_within(rt, alloc, &scene.sheet(), mask, 2, patience).expect(
        rt, "memory",
    );
    let solved = solve_whole_from(rt, alloc, &scene.sheet(), mask, 2, Some(guess)).expect(
        rt, "memory",
    );
    solved.cost
}

/// What a guess of no patience or little has reached is solved at the least cost.
#[test]
fn what_was_reached_is_solved_at_least_cost(rt: HostRuntime) {
    let alloc = rt.alloc();
    for (seed, width, height, cost) in TRIALS {
        let session = trial(&rt, alloc, seed, width, height);
        assert!(rt; cost_from(&rt, alloc, &session, 0) == cost);
        assert!(rt; cost_from(&rt, alloc, &session, 1) == cost);
    }
}
