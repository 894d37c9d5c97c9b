ghost use Rattle.collector_core.specs.Collecting.{WillPublish, CertifyGathered};
ghost use Rattle.seam_regions.specs.Regions.{AreRegionsOf};
ghost use Rattle.std.specs.Arc.{arc_value};
ghost use Rattle.std.specs.Prelude.{◌≡◌, IfOk};

use certificates::SeamResult;
use offset_guess::Guess;
use offset_network::{Hint, solve_offsets_from, solve_offsets_side_by_side};
use seam_regions::Regions;
use seam_walk::Plan;
use std::alloc::{AllocError, Global};
use std::thread::Threads;
use tile_board::Gathered;

/// Offsets of the regions of a gathered mask and the flows that certify them, for the gathered revision. Published with
/// the gathered results they are never refused as uncertified. It is refused only for lack of memory. (Chen and Zebker
/// 2002.)
pub fn collect(alloc: Global, gathered: &Gathered) -> Result<SeamResult, AllocError>
    ensures revision { IfOk result (λ seams. seams.revision ≡ gathered.now.revision) }
    ensures good { IfOk result (CertifyGathered gathered.now) }
    ensures publishable { IfOk result (WillPublish gathered.now) }
{
    collect_from(alloc, gathered, None)
}

/// Collects as `collect` does, over the regions of the gathered mask, which are given, and faster with a plan of a guess over
/// these. A wrong plan costs time, and nothing else. At most `threads` threads, no more than there are processors, list the
/// links of the seam edges side by side.
pub fn collect_over<R: Threads + Sync>(
    rt: &R,
    threads: u32,
    alloc: Global,
    gathered: &Gathered,
    regions: &Regions,
    plan: Option<&Plan>,
) -> Result<SeamResult, AllocError>
    requires { AreRegionsOf (arc_value gathered.now.session).scene.tiling gathered.now.mask regions.now }
    ensures revision { IfOk result (λ seams. seams.revision ≡ gathered.now.revision) }
    ensures good { IfOk result (CertifyGathered gathered.now) }
    ensures publishable { IfOk result (WillPublish gathered.now) }
{
    let hint = match plan {
        Some(plan) => Hint::Plan(plan),
        None => Hint::Nothing,
    };
    let (scene, mask) = (&gathered.session.scene, &gathered.mask);
    solve_offsets_side_by_side(
        rt,
        threads,
        alloc,
        scene,
        mask,
        regions,
        &gathered.tiles,
        gathered.revision,
        hint,
    )
}

/// Collects as `collect` does, from a guess at offsets and flows, or from that of `offset_guess` if none is given. A wrong
/// guess costs time, and nothing else.
pub fn collect_from(
    alloc: Global,
    gathered: &Gathered,
    guess: Option<Guess>,
) -> Result<SeamResult, AllocError>
    ensures revision { IfOk result (λ seams. seams.revision ≡ gathered.now.revision) }
    ensures good { IfOk result (CertifyGathered gathered.now) }
    ensures publishable { IfOk result (WillPublish gathered.now) }
{
    let regions = Regions::of(alloc, &gathered.session.scene.tiling, &gathered.mask)?;
    let hint = match guess {
        Some(guess) => Hint::Guess(guess),
        None => Hint::Nothing,
    };
    collect_over_from(alloc, gathered, &regions, hint)
}

/// Collects over given regions, with what is there for a guess.
fn collect_over_from(
    alloc: Global,
    gathered: &Gathered,
    regions: &Regions,
    hint: Hint<'_>,
) -> Result<SeamResult, AllocError>
    requires { AreRegionsOf (arc_value gathered.now.session).scene.tiling gathered.now.mask regions.now }
    ensures revision { IfOk result (λ seams. seams.revision ≡ gathered.now.revision) }
    ensures good { IfOk result (CertifyGathered gathered.now) }
    ensures publishable { IfOk result (WillPublish gathered.now) }
{
    let scene = &gathered.session.scene;
    solve_offsets_from(
        alloc,
        scene,
        &gathered.mask,
        regions,
        &gathered.tiles,
        gathered.revision,
        hint,
    )
}
