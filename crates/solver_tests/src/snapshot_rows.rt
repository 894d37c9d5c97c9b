ghost use Rattle.collector_core.specs.Collecting.{CertifyGathered};
ghost use Rattle.std.specs.Prelude.{◌<◌};
ghost use Rattle.surface_snapshots.specs.Views.{parts_of};

use crate::offset_rows::{guess, row_board};
use crate::outcomes::same;
use crate::square_rows::{flat_board, samples};
use certificates::SeamResult;
use collector_core::collect;
use offset_guess::Guess;
use raster_model::Heights;
use seam_regions::Regions;
use std::alloc::{AllocError, Global};
use std::process::Abort;
use std::thread::Threads;
use surface_snapshots::{BuildFault, PackedRegions, Snapshot};
use tile_board::Gathered;
use worked_scenes::field;

/// A surface, or why there is none.
type Built = Result<Snapshot, BuildFault>;

/// The columns `0 0 0 0 / 0 0 0 20000 / 0 0 0 40000` in two tiles, as in the rows of `offset_rows`. Across the seam, whose
/// edges weigh 4, 4 and 9, the phase rises by 0, 20000 and 40000, of which the last is more than half a cycle.
const COLUMNS: &str = "\
3|P2 4 3 65535 0 0 0 0 0 0 0 20000 0 0 0 40000 P2 4 3 9 4 4 4 4 4 4 4 4 9 9 9 9|\
    0 0 0 0 0 0 0 0 0/0 0 0 0;0 0 0/";

/// A row of two tiles, `100 200` and `300`, whose first pixel is masked, so that its cycles are any number.
const LINE: &str = "2|P2 3 1 65535 100 200 300 P2 3 1 9 9 5 7 P2 3 1 1 0 1 1|9000000 3/;-2/";

/// Two tiles, `100 _ 300` and `400`, of which the first has a masked pixel and so two regions.
const GAP: &str =
    "3|P2 4 1 65535 100 200 300 400 P2 4 1 9 9 5 7 4 P2 4 1 1 1 0 1 1|0 9000000 5/;-2/";

/// The raster, offsets, flows, and the surface that is built. The second tile of the columns lies best one cycle lower: then
/// two edges of weight 4 depart by a cycle, and not one of weight 9.
const SURFACES: &str = "\
columns|0 -1|-4 -4 8|7 (0, 8) 0 by 0, 0 by 0, 0 by 0, -65536 by -1, 0 by 0, 0 by 0, 0 by 0, -45536 by -1, \
    0 by 0, 0 by 0, 0 by 0, -25536 by -1, [-4, -4, 8] [0, 0, 0, 0]
line|-3 2|0|7 (0, 0) N, 200 by 0, 300 by 0, [0] []
gap|0 -3 4|0|7 (0, 0) 100 by 0, N, 131372 by 2, 131472 by 2, [0] []";

/// The same where nothing is built. Of several breaks the first in the order of the verdicts is reported.
const FAULTS: &str = "\
columns|0 -1|-4 -4|Uncertified(Shape)
columns|0|-4 -4 8|Uncertified(Shape)
columns|-70368744177665|-4 -4 8|Uncertified(Shape)
columns|0 -70368744177665|-4 -4 8|Uncertified(Range(1))
columns|-70368744177665 70368744177665|-4 -4 8|Uncertified(Range(0))
columns|1 0|-4 -4 8|Uncertified(Anchor(1))
columns|0 -1|-5 -4 9|Uncertified(FlowAtEdge(Edge { x: 2, y: 0, down: false }))
columns|0 -1|-4 -4 9|Uncertified(Unbalanced(0))
columns|0 0|-4 -4 8|Uncertified(CostDiffers { cost: 9, bound: 8 })";

/// Adds a pixel's value and its cycles above the phase, or `N` if it is masked.
fn add_pixel(rt: &impl Abort, alloc: Global, snapshot: &Snapshot, x: u32, y: u32, text: &mut String)
    requires { (x < (parts_of snapshot.now).session.scene.phase.width) × (y < (parts_of snapshot.now).session.scene.phase.height) }
{
    let pixel = match snapshot.value(x, y) {
        Some(value) => format!(in alloc; "{value} by {}, ", snapshot.cycles(x, y)),
        None => String::from_str(alloc, "N, "),
    };
    text.push_str(&pixel.expect(rt, "memory"))
        .expect(rt, "memory");
}

/// The pixels of a surface by rows.
fn pixels(rt: &impl Abort, alloc: Global, snapshot: &Snapshot) -> String {
    let mut text = String::new(alloc);
    for y in 0..snapshot.height() {
        for x in 0..snapshot.width() {
            add_pixel(rt, alloc, snapshot, x, y, &mut text);
        }
    }
    text
}

/// A surface in words: its revision, the costs of its tiles and of its seams, its pixels, the flows, and the faces of its
/// first tile.
fn surface(rt: &impl Abort, alloc: Global, snapshot: &Snapshot) -> String {
    let pixels = pixels(rt, alloc, snapshot);
    let (tiles, seams) = (snapshot.tile_cost(), snapshot.seam_cost());
    let (flows, faces) = (snapshot.flows(), snapshot.faces(0));
    format!(in alloc;
        "{} ({tiles}, {seams}) {pixels}{flows:?} {faces:?}",
        snapshot.revision()
    )
    .expect(rt, "memory")
}

/// What was built, in words.
fn told(rt: &impl Abort, alloc: Global, built: &Built) -> String {
    match built {
        Ok(snapshot) => surface(rt, alloc, snapshot),
        Err(fault) => format!(in alloc; "{fault:?}").expect(rt, "memory"),
    }
}

/// What is gathered of a raster's tiles.
fn gathered(rt: &impl Abort, alloc: Global, raster: &str) -> Gathered {
    let raster = match raster {
        "line" => LINE,
        "gap" => GAP,
        _ => COLUMNS,
    };
    let board = row_board(rt, alloc, 1, raster);
    board.gather(alloc).expect(rt, "a result of each tile")
}

/// Offsets and flows of revision 7.
fn seams(rt: &impl Abort, alloc: Global, offsets: &str, flows: &str) -> SeamResult {
    let Guess { offsets, flows } = guess(rt, alloc, offsets, flows);
    SeamResult {
        revision: 7,
        offsets,
        flows,
    }
}

/// What is built of gathered results beside an earlier surface.
fn build(
    alloc: Global,
    earlier: Option<&Snapshot>,
    gathered: Gathered,
    seams: SeamResult,
) -> Built {
    let regions = Regions::of(alloc, &gathered.session.scene.tiling, &gathered.mask)?;
    Snapshot::build_beside(
        alloc,
        earlier,
        gathered.session,
        gathered.mask,
        regions,
        gathered.tiles,
        seams,
    )
}

/// What is built of a row, which begins with the raster, the offsets and the flows.
fn built(rt: &impl Abort, alloc: Global, earlier: Option<&Snapshot>, row: &str) -> Built {
    let mut fields = row.split('|');
    let gathered = gathered(rt, alloc, field(&mut fields));
    let seams = seams(rt, alloc, field(&mut fields), field(&mut fields));
    build(alloc, earlier, gathered, seams)
}

/// What a row says is built.
fn wanted(row: &str) -> &str {
    row.rsplit('|').next().unwrap_or("")
}

#[test]
fn a_snapshot_is_built_or_its_first_break_is_told(rt: HostRuntime) {
    let alloc = rt.alloc();
    for row in FAULTS.lines() {
        let found = told(&rt, alloc, &built(&rt, alloc, None, row));
        same(&rt, row, &found, wanted(row));
    }
}

/// Refuses a surface that reads otherwise than its row says, alone, beside that of an earlier row, or shared.
fn reads_beside(rt: &impl Abort, alloc: Global, earlier: &str, row: &str) {
    let earlier = built(rt, alloc, None, earlier).expect(rt, "a surface");
    let made = built(rt, alloc, Some(&earlier), row).expect(rt, "a surface");
    let shared = made.share().expect(rt, "memory");
    same(rt, row, &surface(rt, alloc, &made), wanted(row));
    same(rt, row, &surface(rt, alloc, &shared), wanted(row));
}

#[test]
fn a_surface_that_shares_with_another_reads_the_same(rt: HostRuntime) {
    let alloc = rt.alloc();
    for row in SURFACES.lines() {
        let found = told(&rt, alloc, &built(&rt, alloc, None, row));
        same(&rt, row, &found, wanted(row));
        for earlier in SURFACES.lines() {
            reads_beside(&rt, alloc, earlier, row);
        }
    }
}

/// Two tiles of side 128, one below the other: the phase is 0 in the first and 40000 in the second, more than half a cycle
/// higher.
fn raised(rt: &impl Abort, alloc: Global) -> String {
    let first = samples(rt, alloc, " 0", 128 * 128);
    let second = samples(rt, alloc, " 40000", 128 * 128);
    format!(in alloc; "P2 128 256 65535{first}{second}").expect(rt, "memory")
}

/// What two threads build of gathered results and the seams that were collected from them.
fn built_by_two<R: Threads + Sync>(
    rt: &R,
    alloc: Global,
    gathered: Gathered,
    seams: SeamResult,
) -> Result<Snapshot, AllocError>
    requires { CertifyGathered gathered seams }
{
    let regions = Regions::of(alloc, &gathered.session.scene.tiling, &gathered.mask)?;
    let packed = PackedRegions::of(alloc, &gathered.session.scene.tiling, regions)?;
    Snapshot::build_certified(
        rt,
        2,
        alloc,
        None,
        gathered.session,
        gathered.mask,
        packed,
        gathered.tiles,
        seams,
    )
}

/// Each thread has one of the tiles as its strip. The second tile lies one cycle lower.
#[test]
fn threads_make_a_surface_strip_by_strip(rt: HostRuntime) {
    let alloc = rt.alloc();
    let board = flat_board(&rt, alloc, &raised(&rt, alloc), 128, 2);
    let gathered = board.gather(alloc).expect(&rt, "a result of each tile");
    let seams = collect(alloc, &gathered).expect(&rt, "memory");
    assert!(rt; seams.offsets.as_slice() == [0, -1].as_slice());
    let made = built_by_two(&rt, alloc, gathered, seams).expect(&rt, "memory");
    assert!(rt; made.tile_cost() == 0 && made.seam_cost() == 0);
}
