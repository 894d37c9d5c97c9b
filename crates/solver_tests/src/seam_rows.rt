ghost use Rattle.seam_regions.specs.Regions.{AreRegionsOf};
ghost use Rattle.std.specs.Prelude.{◌≡◌, ◌==◌, if◌then◌else◌, nat_lt, negsuc, pos, true};

use crate::outcomes::same;
use crate::reading::terms_at;
use certificates::{SeamVerdict, check_flows};
use raster_model::{Heights, Mask, Scene, Tiling};
use seam_regions::Regions;
use std::alloc::{AllocError, Global};
use std::process::Abort;
use worked_scenes::{field, number, numbers, scene_on};

/// Three columns that fall by almost half a cycle from row to row, and a tile of one column beside them that rises as much:
/// either from the phase at its top, or from one cycle below it.
#[derive(Drop)]
struct Parting {
    lowered: bool,
}

impl Heights for Parting {
    ghost knows = { λ _ _ _. true };

    ghost cycles_at = { λ s x y. if (if x == 3 then s.lowered else nat_lt 0 y) then negsuc 0 else pos 0 };

    fn cycles(&self, x: u32, y: u32) -> i64 {
        let low = if x == 3 { self.lowered } else { 0 < y };
        if low { -1 } else { 0 }
    }
}

const PHASES: [u16; 12] = [
    0, 0, 0, 0, 33536, 33536, 33536, 32000, 1536, 1536, 1536, 64000,
];

const WEIGHTS: [u16; 12] = [9, 9, 9, 9, 1, 1, 1, 1, 4, 4, 4, 4];

/// Steepness, whether the last column is lowered, its flows, and what the check says. By hand, the seam edges depart by 0,
/// 1 and 2 cycles, or lowered by -1, 0 and 1, and weigh 9, 1 and 4.
const ROWS: &str = "\
1|0|-5 1 4|Good
3|0|-5 1 4|CostDiffers { cost: 17, bound: 9 }
3|1|-9 0 9|Good
1|1|-9 0 9|FlowAtEdge(Edge { x: 2, y: 2, down: false })
3|1|-13 0 13|FlowAtEdge(Edge { x: 2, y: 2, down: false })";

/// What the check says of flows over the regions of a mask.
fn checked(
    alloc: Global,
    scene: &Scene,
    mask: &Mask,
    regions: &Regions,
    surface: &Parting,
    flows: &[i64],
) -> Result<SeamVerdict, AllocError>
    requires same_size { (mask.now.width ≡ scene.now.phase.width) × (mask.now.height ≡ scene.now.phase.height) }
    requires regions { AreRegionsOf scene.now.tiling mask.now regions.now }
{
    let mut scratch = vec![in alloc; 0; regions.count() as usize]?;
    let labels = regions.labels();
    Ok(check_flows(scene, mask, labels, surface, flows, &mut scratch))
}

/// What the check says of the flows at a steepness.
fn verdict(
    rt: &impl Abort,
    alloc: Global,
    steep: u32,
    surface: &Parting,
    flows: &[i64],
) -> SeamVerdict {
    let (tiling, terms) = (Tiling::new(4, 3, 3), terms_at(steep));
    let scene = scene_on(alloc, terms, tiling, 9, &PHASES, &WEIGHTS).expect(rt, "a scene");
    let mask = Mask::all_open(alloc, 4, 3).expect(rt, "memory");
    let regions = Regions::of(alloc, &scene.tiling, &mask).expect(rt, "memory");
    let checked = checked(alloc, &scene, &mask, &regions, surface, flows);
    checked.expect(rt, "memory")
}

/// Refuses a row of which the check says something else.
fn is_as_told(rt: &impl Abort, alloc: Global, row: &str) {
    let mut fields = row.split('|');
    let steep = number(&mut fields);
    let surface = Parting {
        lowered: number(&mut fields) == 1,
    };
    let flows = numbers(alloc, field(&mut fields)).expect(rt, "memory");
    let verdict = verdict(rt, alloc, steep, &surface, &flows);
    let found = format!(in alloc; "{verdict:?}").expect(rt, "memory");
    same(rt, row, &found, field(&mut fields));
}

#[test]
fn takes_off_what_flows_are_above_the_weights(rt: HostRuntime) {
    for row in ROWS.lines() {
        is_as_told(&rt, rt.alloc(), row);
    }
}
