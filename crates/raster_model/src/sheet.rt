ghost use Rattle.raster_model.specs.Weights.{AreRuleWeights};
ghost use Rattle.std.specs.Prelude.{◌≡◌};

use crate::edge::Edge;
use crate::heights::Heights;
use crate::limits::MAX_DEPARTURE;
use crate::mask::Mask;
use crate::phase::{turns_ramp, wrapped_ramp};
use crate::plane::Plane;
use crate::terms::Terms;
use crate::weights::{EdgeWeights, RuleKind};

/// What is unwrapped, without any tiles: as it is borrowed from a scene or of a raster that has no tiles. All of it has one
/// size.
#[derive(Clone, Copy)]
pub struct Sheet<'a> {
    /// The wrapped phase, in units of 1/65536 cycle.
    pub phase: &'a Plane,
    /// The weights of the pixels.
    pub weights: &'a Plane,
    /// How the pixels' weights give those of the edges.
    pub rule: RuleKind,
    /// The weights of the edges by that rule.
    pub edges: &'a EdgeWeights,
    /// The ramp that is expected of the phase, and the steepness of costs.
    pub terms: Terms,
    pub ghost cycle: { phase.now.maxval ≡ 65535 },
    pub ghost same_width: { weights.now.width ≡ phase.now.width },
    pub ghost same_height: { weights.now.height ≡ phase.now.height },
    pub ghost weighed: { AreRuleWeights rule weights.now edges.now },
}

impl Sheet<'_> {
    ghost use Rattle.raster_model.specs.Masks.{open_at};
    ghost use Rattle.raster_model.specs.Raster.{departure as departure_of, gradient as gradient_of, lifted, masked_weight, residue as residue_of, turns_of};
    ghost use Rattle.raster_model.specs.Seams.{IsFirstOpen, IsOpenPixel};
    ghost use Rattle.raster_model.specs.Sheets.{sheet_raster};
    ghost use Rattle.raster_model.specs.Sums.{at_edge_end, at_edge_start, is_edge};
    ghost use Rattle.raster_model.specs.Terms.{slope_of};
    ghost use Rattle.raster_model.specs.Weights.{edge_weight};
    ghost use Rattle.std.specs.Prelude.{◌+◌, ◌<◌, ◌≤◌, ◌^◌, ◌+ℤ◌, ◌-ℤ◌, ◌≤ℤ◌, pos, ℕ, IfNone, IfSome, IsTrue, unsigned_abs};

    /// The weight of an edge under a mask: 0 if an end is masked.
    pub fn weight(&self, mask: &Mask, edge: Edge) -> u16
        requires same_size { (mask.now.width ≡ self.now.phase.now.width) × (mask.now.height ≡ self.now.phase.now.height) }
        requires is_edge { IsTrue (is_edge self.now.phase.now.width self.now.phase.now.height edge) }
        ensures { result ≡ masked_weight (sheet_raster self.now) (open_at mask.now) edge }
    {
        if mask.is_open(edge.x, edge.y) && mask.is_open(edge.end_x(), edge.end_y()) {
            self.stored_weight(edge)
        } else {
            0
        }
    }

    /// The weight of an edge before any mask.
    pub fn stored_weight(&self, edge: Edge) -> u16
        requires { IsTrue (is_edge self.now.phase.now.width self.now.phase.now.height edge) }
        ensures { result ≡ edge_weight self.now.rule self.now.weights.now edge }
    {
        let width = self.phase.width as usize;
        let (x, y) = (edge.x as usize, edge.y as usize);
        if edge.down {
            self.edges.down[y * width + x]
        } else {
            self.edges.right[y * (width - 1) + x]
        }
    }

    /// The whole cycles that the wrapped difference of an edge, around its slope, leaves out of the difference of the
    /// phases at its ends: -1, 0 or 1.
    pub fn turns(&self, edge: Edge) -> i32
        requires { IsTrue (is_edge self.now.phase.now.width self.now.phase.now.height edge) }
        ensures value { result ≡ turns_of (sheet_raster self.now) edge }
        ensures small { unsigned_abs result ≤ 1 }
    {
        let from = self.phase.sample(edge.x, edge.y);
        let to = self.phase.sample(edge.end_x(), edge.end_y());
        turns_ramp(from, to, self.terms.slope(edge.down))
    }

    /// The wrapped difference of an edge around its slope, from its first pixel to the other.
    pub fn gradient(&self, edge: Edge) -> i32
        requires { IsTrue (is_edge self.now.phase.now.width self.now.phase.now.height edge) }
        ensures value { result ≡ gradient_of (sheet_raster self.now) edge }
        ensures low { (slope_of self.now.terms edge.down -ℤ pos 32768) ≤ℤ result }
        ensures high { result ≤ℤ (slope_of self.now.terms edge.down +ℤ pos 32767) }
    {
        let from = self.phase.sample(edge.x, edge.y);
        let to = self.phase.sample(edge.end_x(), edge.end_y());
        wrapped_ramp(from, to, self.terms.slope(edge.down))
    }

    /// The residue of the cell with the upper left corner (`x`, `y`), in cycles: -1, 0 or 1. It is the sum of the wrapped
    /// differences along the cell's top and right sides, minus those along its bottom and left sides.
    /// (Goldstein, Zebker and Werner 1988.)
    pub fn residue(&self, x: u32, y: u32) -> i32
        requires across { x + 1 < self.now.phase.now.width }
        requires along { y + 1 < self.now.phase.now.height }
        ensures value { result ≡ residue_of (sheet_raster self.now) x y }
        ensures small { unsigned_abs result ≤ 1 }
    {
        let top = self.gradient(Edge { x, y, down: false });
        let right = self.gradient(Edge {
            x: x + 1,
            y,
            down: true,
        });
        let bottom = self.gradient(Edge {
            x,
            y: y + 1,
            down: false,
        });
        let left = self.gradient(Edge { x, y, down: true });
        (top + right - bottom - left) / 65536
    }

    /// The whole cycles by which a surface departs from the wrapped difference of an edge, whose ends are open.
    /// (Chen and Zebker 2002.)
    pub fn departure<H: Heights>(&self, heights: &H, edge: Edge) -> i64
        requires is_edge { IsTrue (is_edge self.now.phase.now.width self.now.phase.now.height edge) }
        requires start { IsTrue (at_edge_start (H.knows heights.now) edge) }
        requires end { IsTrue (at_edge_end (H.knows heights.now) edge) }
        ensures value { result ≡ departure_of (sheet_raster self.now) (lifted (sheet_raster self.now) (H.cycles_at heights.now)) edge }
        ensures small { unsigned_abs result ≤ MAX_DEPARTURE }
    {
        let to = heights.cycles(edge.end_x(), edge.end_y());
        let from = heights.cycles(edge.x, edge.y);
        to - from + i64::from(self.turns(edge))
    }

    /// The first open pixel in row order.
    pub fn first_open(&self, mask: &Mask) -> Option<(u32, u32)>
        requires same_size { (mask.now.width ≡ self.now.phase.now.width) × (mask.now.height ≡ self.now.phase.now.height) }
        ensures found { IfSome result (λ pixel. IsFirstOpen (sheet_raster self.now) (open_at mask.now) pixel.0 pixel.1) }
        ensures none { IfNone result ((x y : ℕ) → IsOpenPixel (sheet_raster self.now) (open_at mask.now) x y → ⊥) }
    {
        for y in 0..self.phase.height {
            for x in 0..self.phase.width {
                if mask.is_open(x, y) {
                    return Some((x, y));
                }
            }
        }
        None
    }
}
