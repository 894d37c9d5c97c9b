ghost use Rattle.sums_and_lists.specs.Sums.{where_true};
ghost use Rattle.raster_model.specs.Flows.{seam_count};
ghost use Rattle.raster_model.specs.Scene.{raster_of};
ghost use Rattle.certificates.specs.Growth.{AreWithinWeights, HasGrown};
ghost use Rattle.std.specs.Prelude.{◌≡◌, ℕ, ◌+◌, ◌<◌, ◌≤◌, ◌^◌, ◌==◌, length, unsigned_abs};

use crate::numbers::are_zeros;
use crate::seam_edges::{is_seam_edge, next_start, seams_from};
use crate::tile_ends::TileEnds;
use raster_model::{Edge, Heights, MAX_CYCLE_COST, MAX_DEPARTURE, Mask, Scene, departure, weight};

/// The seam edges of a scene under a mask, with a flow for each in edge order. If all flows are 0, they fit any weight
/// and add up to 0 at each region, so no edge is looked at.
#[derive(Clone, Copy)]
pub(crate) struct SeamFlows<'a> {
    pub(crate) scene: &'a Scene,
    pub(crate) ends: &'a TileEnds,
    pub(crate) mask: &'a Mask,
    pub(crate) flows: &'a [i64],
    pub(crate) ghost same_size: { (mask.now.width ≡ scene.now.phase.width) × (mask.now.height ≡ scene.now.phase.height) },
    pub(crate) ghost same_side: { ends.now.side ≡ scene.now.tiling.side },
    pub(crate) ghost count: { length flows.now ≡ seam_count (raster_of scene.now) },
}

impl SeamFlows<'_> {
    ghost use Rattle.certificates.specs.EdgeOrder.{HoldsAtAll, IsFirstBreak};
    ghost use Rattle.certificates.specs.EdgeWords.{HoldsFrom, HoldsIfPart, IsBreak, IsFirstBreakFrom};
    ghost use Rattle.certificates.specs.FlowWords.{
      AreExcesses,
      FitFrom,
      FlowFitsAt,
      FlowsFit,
      HasLabels,
      IsSeamOf,
      IsSmallAt,
      KnowsSeams,
      PlacedAt,
      StartsAt,
      flow_or_none,
      moved_from,
      moved_on,
      bound_of,
      part_on,
      parts_from,
    };
    ghost use Rattle.raster_model.specs.Masks.{open_at};
    ghost use Rattle.raster_model.specs.Raster.{masked_weight, over as over_weight};
    ghost use Rattle.raster_model.specs.Sums.{down_edge, is_edge};
    ghost use Rattle.std.specs.Prelude.{
      ℕ,
      ◌+◌,
      ◌*◌,
      ◌<◌,
      ◌≤◌,
      ◌^◌,
      IfNone,
      IfSome,
      IsTrue,
      MatchBool,
      false,
      pos,
      unsigned_abs,
    };

    /// The place of a pixel's down edge among the seam edges. `place` is how many come before its right edge.
    fn down_place(&self, x: u32, y: u32, place: usize) -> usize
        requires start { StartsAt self.now x y place }
        ensures { PlacedAt self.now (down_edge x y) result }
    {
        place + usize::from(is_seam_edge(self.scene, self.ends, Edge { x, y, down: false }))
    }

    /// The flow of an edge that starts at a pixel, or 0 if it is not a seam edge. `place` is its place among the seam
    /// edges.
    fn flow(&self, edge: Edge, place: usize) -> i64
        requires placed { PlacedAt self.now edge place }
        ensures { result ≡ flow_or_none self.now edge }
    {
        if is_seam_edge(self.scene, self.ends, edge) {
            self.flows[place]
        } else {
            0
        }
    }

    /// Whether an edge that starts at a pixel is a seam edge whose flow is greater than the steepness times its
    /// weight.
    fn is_heavy(&self, edge: Edge, place: usize) -> bool
        requires placed { PlacedAt self.now edge place }
        ensures cases { MatchBool result (IsBreak (IsSeamOf self.now) (FlowFitsAt self.now) edge) (HoldsIfPart (IsSeamOf self.now) (FlowFitsAt self.now) edge) }
        ensures small { result ≡ false → HoldsIfPart (IsSeamOf self.now) (IsSmallAt self.now) edge }
    {
        is_seam_edge(self.scene, self.ends, edge)
            && self.flow(edge, place).unsigned_abs()
                > u64::from(self.scene.terms.limit(weight(self.scene, self.mask, edge)))
    }

    /// The first edge that starts at a pixel and is a seam edge whose flow is greater than the steepness times its
    /// weight.
    fn first_heavy_from(&self, x: u32, y: u32, place: usize) -> Option<Edge>
        requires start { StartsAt self.now x y place }
        ensures found { IfSome result (IsFirstBreakFrom (IsSeamOf self.now) (FlowFitsAt self.now) x y) }
        ensures none { IfNone result (FitFrom self.now x y) }
    {
        let right = Edge { x, y, down: false };
        let down = Edge { x, y, down: true };
        if self.is_heavy(right, place) {
            Some(right)
        } else if self.is_heavy(down, self.down_place(x, y, place)) {
            Some(down)
        } else {
            None
        }
    }

    /// The first seam edge whose flow is greater than the steepness times its
    /// weight.
    pub(crate) fn first_heavy(&self) -> Option<Edge>
        ensures found { IfSome result (IsFirstBreak (IsSeamOf self.now) (FlowFitsAt self.now)) }
        ensures none { IfNone result (FlowsFit self.now) }
    {
        if are_zeros(self.flows) {
            return None;
        }
        let mut place = 0;
        for y in 0..self.scene.phase.height {
            let mut x = next_start(self.scene, self.ends, 0, y);
            while x < self.scene.phase.width {
                if let Some(edge) = self.first_heavy_from(x, y, place) {
                    return Some(edge);
                }
                place += seams_from(self.scene, self.ends, x, y);
                x = next_start(self.scene, self.ends, x + 1, y);
            }
        }
        None
    }

    /// Moves the flow of an edge from the sum of the region where the edge starts to the sum of the region where it
    /// ends.
    fn move_flow(&self, labels: &[u32], edge: Edge, place: usize, sums: &mut [i64])
        requires placed { PlacedAt self.now edge place }
        requires fit { FlowsFit self.now }
        requires labels { HasLabels self.now labels.now (length sums.old) }
        requires small { AreWithinWeights (2 ^ 30) sums.old }
        ensures grown { HasGrown sums.old sums.new (λ v. moved_on self.now labels.now v edge) }
        ensures within { (n : ℕ) → AreWithinWeights n sums.old → AreWithinWeights (n + 2) sums.new }
    {
        let flow = self.flow(edge, place);
        if flow != 0 {
            let width = self.scene.phase.width as usize;
            let end = labels[edge.end_y() as usize * width + edge.end_x() as usize];
            let start = labels[edge.y as usize * width + edge.x as usize];
            add_to(sums, end as usize, flow);
            add_to(sums, start as usize, -flow);
        }
    }

    /// Moves the flows of the edges that start at a pixel.
    fn move_flows_from(&self, labels: &[u32], x: u32, y: u32, place: usize, sums: &mut [i64])
        requires start { StartsAt self.now x y place }
        requires fit { FlowsFit self.now }
        requires labels { HasLabels self.now labels.now (length sums.old) }
        requires small { AreWithinWeights (2 ^ 29) sums.old }
        ensures grown { HasGrown sums.old sums.new (λ v. moved_from self.now labels.now v x y) }
        ensures within { (n : ℕ) → AreWithinWeights n sums.old → AreWithinWeights (n + 4) sums.new }
    {
        self.move_flow(labels, Edge { x, y, down: false }, place, sums);
        let next = self.down_place(x, y, place);
        self.move_flow(labels, Edge { x, y, down: true }, next, sums);
    }

    /// For each region, the sum of the flows that end in it minus those that start in it. The flows fit, so
    /// no sum leaves 64 bits.
    pub(crate) fn add_up(&self, labels: &[u32], sums: &mut [i64])
        requires fit { FlowsFit self.now }
        requires labels { HasLabels self.now labels.now (length sums.old) }
        ensures { AreExcesses self.now labels.now sums.new }
    {
        sums.fill(0);
        if are_zeros(self.flows) {
            return;
        }
        let mut place = 0;
        for y in 0..self.scene.phase.height {
            let mut x = next_start(self.scene, self.ends, 0, y);
            while x < self.scene.phase.width {
                self.move_flows_from(labels, x, y, place, sums);
                place += seams_from(self.scene, self.ends, x, y);
                x = next_start(self.scene, self.ends, x + 1, y);
            }
        }
    }

    /// By how much a flow other than 0 is above the weight of its edge. At the steepness 1 it is not above.
    fn over(&self, edge: Edge, flow: i64) -> u64
        requires is_edge { IsTrue (is_edge self.now.scene.now.phase.width self.now.scene.now.phase.height edge) }
        requires fit { unsigned_abs flow ≤ self.now.scene.now.terms.steep * masked_weight (raster_of self.now.scene.now) (open_at self.now.mask.now) edge }
        ensures value { result ≡ over_weight (masked_weight (raster_of self.now.scene.now) (open_at self.now.mask.now) edge) flow }
        ensures small { result ≤ MAX_CYCLE_COST }
    {
        if self.scene.terms.steep == 1 {
            return 0;
        }
        flow.unsigned_abs()
            .saturating_sub(u64::from(weight(self.scene, self.mask, edge)))
    }

    /// What an edge adds to the bound: its flow times the departure of a surface there, minus that by which the flow is
    /// above the weight, or 0 if it is not a seam edge. If an end is masked, the weight is 0, and so is the flow.
    fn part<H: Heights>(&self, heights: &H, edge: Edge, place: usize) -> i128
        requires placed { PlacedAt self.now edge place }
        requires fit { FlowsFit self.now }
        requires known { KnowsSeams self.now (H.knows heights.now) }
        ensures value { result ≡ part_on self.now (H.cycles_at heights.now) edge }
        ensures small { unsigned_abs result ≤ MAX_CYCLE_COST * (MAX_DEPARTURE + 1) }
    {
        let flow = self.flow(edge, place);
        if flow == 0 {
            return 0;
        }
        let product = i128::from(flow) * i128::from(departure(self.scene, heights, edge));
        product - i128::from(self.over(edge, flow))
    }

    /// What the edges that start at a pixel add to the bound.
    fn parts_from<H: Heights>(&self, heights: &H, x: u32, y: u32, place: usize) -> i128
        requires start { StartsAt self.now x y place }
        requires fit { FlowsFit self.now }
        requires known { KnowsSeams self.now (H.knows heights.now) }
        ensures value { result ≡ parts_from self.now (H.cycles_at heights.now) x y }
        ensures small { unsigned_abs result ≤ 2 * MAX_CYCLE_COST * (MAX_DEPARTURE + 1) }
    {
        let next = self.down_place(x, y, place);
        self.part(heights, Edge { x, y, down: false }, place)
            + self.part(heights, Edge { x, y, down: true }, next)
    }

    /// The sum of flow times departure over the seam edges with open ends, minus that by which flows are above the
    /// weights.
    pub(crate) fn bound<H: Heights>(&self, heights: &H) -> i128
        requires fit { FlowsFit self.now }
        requires known { KnowsSeams self.now (H.knows heights.now) }
        ensures { result ≡ bound_of self.now (H.cycles_at heights.now) }
    {
        if are_zeros(self.flows) {
            return 0;
        }
        let mut bound: i128 = 0;
        let mut place = 0;
        for y in 0..self.scene.phase.height {
            let mut x = next_start(self.scene, self.ends, 0, y);
            while x < self.scene.phase.width {
                bound += self.parts_from(heights, x, y, place);
                place += seams_from(self.scene, self.ends, x, y);
                x = next_start(self.scene, self.ends, x + 1, y);
            }
        }
        bound
    }
}

/// Adds an amount to the number at a place.
fn add_to(numbers: &mut [i64], place: usize, amount: i64)
    requires place { place < length numbers.old }
    requires small { AreWithinWeights (2 ^ 31) numbers.old }
    requires amount { unsigned_abs amount ≤ MAX_CYCLE_COST }
    ensures grown { HasGrown numbers.old numbers.new (λ v. where_true (place == v) amount) }
    ensures within { (n : ℕ) → AreWithinWeights n numbers.old → AreWithinWeights (n + 1) numbers.new }
{
    numbers[place] += amount;
}
