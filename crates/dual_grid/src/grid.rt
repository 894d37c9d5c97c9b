ghost use Rattle.dual_grid.specs.Layout.{AreWithinCapacity, AreWithinReach, FitGrid, flat_state_by, shape_by, state_by};
ghost use Rattle.flow_network.specs.Lists.{HasRoom};
ghost use Rattle.flow_network.specs.Nets.{HasReducedCosts, IsNetwork, HasNoExcess, total_excess};
ghost use Rattle.raster_model.specs.Limits.{IsSteepness};
ghost use Rattle.raster_model.specs.Tiles.{IsRasterWindow};

use crate::answering::faces;
use crate::arcs::{flow_after, leads_forth, place_below, residual_at, size_of_cost, twin_place};
use crate::checking::is_tight;
use crate::edge_numbers::{edge_below, first_at, other_at, right_count};
use crate::listing::{down_weights, right_weights};
use crate::reaching::{are_low, greatest, move_flows, sums_within, turned};
use crate::sides::outside;
use crate::supplies::supplies;
use flow_network::{FlowNet, POTENTIAL_BOUND, add_each, carry};
use raster_model::{Scene, Sheet, Window};
use std::alloc::{AllocError, Global};
use wrapped_gradient::{Corrections, Gradients};

/// The network of a window. Conforms to `FlowNet`.
///
/// Nodes are the window's cells in row order, and one more for the outside. Across each edge of the window
/// an arc leads each way, and costs the edge's weight under the mask. If the steepness is above 1, one unit may flow along
/// it, and all others along a steep arc, which costs the steepness times that. What flows from the first side of an edge to the
/// other is the edge's correction, and the potential of the outside minus that of a cell is the cell's face.
/// (Costantini 1998.) A window one pixel wide or high has no cell: each arc leads from the outside to the outside.
///
/// Arcs are numbers, from which edge and direction follow. At a weight above 0 nothing flows both ways, and along a steep
/// arc only if the other is full, because of their reduced costs. At the weight 0 there is one arc and its twin. So one
/// signed flow for each edge gives all residual capacities.
#[derive(Drop)]
pub struct DualGrid {
    pub(crate) window: Window,
    /// The steepness: how many times as much as the first unit across an edge each further one costs.
    steep: u32,
    /// For each edge, the right edges first, its weight under the mask.
    weights: Vec<i32>,
    /// For each edge, in the same order, what flows from its first side to the other.
    flows: Vec<i32>,
    /// For each node, what it has to send; below 0, what it lacks.
    excesses: Vec<i64>,
    /// For each node, its potential.
    potentials: Vec<i64>,
    ghost limited: { IsRasterWindow window },
    ghost steepness: { IsSteepness steep },
    ghost fit: { FitGrid window weights.items flows.items excesses.items potentials.items },
    ghost within: { AreWithinCapacity window steep weights.items flows.items },
    ghost is_network: { IsNetwork (shape_by window steep weights.items) },
    ghost room: { HasRoom (shape_by window steep weights.items) (flat_state_by window steep weights.items flows.items excesses.items) },
    ghost reach: { AreWithinReach potentials.items },
    ghost has_reduced_costs: { HasReducedCosts (shape_by window steep weights.items) (state_by window steep weights.items flows.items excesses.items potentials.items) },
}

impl FlowNet for DualGrid {
    ghost use Rattle.dual_grid.specs.Views.{HaveOneOrigin, follows_of_one_origin, grid_shape, grid_state, stays_of_one_origin};

    ghost shape = { λ x. grid_shape x };

    ghost state = { λ x. grid_state x };

    ghost same_origin = { λ x y. HaveOneOrigin x y };

    ghost is_network = { λ x. x.is_network };

    ghost has_reduced_costs = { λ x. x.has_reduced_costs };

    ghost origin_stays = { λ x. stays_of_one_origin x };

    ghost origin_follows = { λ x y z h k. follows_of_one_origin x y z h k };

    fn nodes(&self) -> u32 {
        outside(self.window) + 1
    }

    fn first_out(&self, node: u32) -> Option<u32> {
        self.out_below(node, self.flows.len() as u32 * 8)
    }

    fn next_out(&self, arc: u32) -> Option<u32> {
        self.out_below(self.tail(arc), arc)
    }

    fn tail(&self, arc: u32) -> u32 {
        let edge = arc / 8;
        if leads_forth(arc % 8) {
            first_at(self.window, edge)
        } else {
            other_at(self.window, edge)
        }
    }

    fn head(&self, arc: u32) -> u32 {
        let edge = arc / 8;
        if leads_forth(arc % 8) {
            other_at(self.window, edge)
        } else {
            first_at(self.window, edge)
        }
    }

    fn twin(&self, arc: u32) -> u32 {
        arc / 8 * 8 + twin_place(self.steep, self.weight(arc / 8), arc % 8)
    }

    fn cost(&self, arc: u32) -> i64 {
        let size = size_of_cost(self.steep, self.weight(arc / 8), arc % 8) as i64;
        if arc % 8 % 2 == 0 { size } else { -size }
    }

    fn residual(&self, arc: u32) -> u64 {
        let edge = arc / 8;
        residual_at(
            self.capacity(),
            self.steep,
            self.weight(edge),
            self.flows[edge as usize],
            arc % 8,
        )
    }

    fn excess(&self, node: u32) -> i64 {
        self.excesses[node as usize]
    }

    fn potential(&self, node: u32) -> i64 {
        self.potentials[node as usize]
    }

    fn push(&mut self, arc: u32, amount: u64) {
        let head = self.head(arc) as usize;
        let tail = self.tail(arc) as usize;
        let edge = arc as usize / 8;
        let flow = self.flows[edge];
        self.flows[edge] = flow_after(flow, arc % 8, amount);
        carry(&mut self.excesses, tail, head, amount);
    }

    fn raise(&mut self, amounts: &[i64]) {
        self.lift(amounts);
    }
}

impl DualGrid {
    ghost use Rattle.dual_grid.specs.Answers.{AreCertifiedOver, IsNearStart, StaysNearStart};
    ghost use Rattle.dual_grid.specs.Building.{AreTurnedFaces, IsHeldAt, IsHeldBy, IsOutAcross};
    ghost use Rattle.dual_grid.specs.Layout.{AreLow, number_or_zero, weight_in};
    ghost use Rattle.dual_grid.specs.Nodes.{edge_of, edges_of, first_side, other_side};
    ghost use Rattle.flow_network.specs.Nets.{IsArc, IsNextBelow};
    ghost use Rattle.dual_grid.specs.Grids.{HasSmallCosts, IsConnected, arc_capacity};
    ghost use Rattle.dual_grid.specs.Reaching.{FlowsMayGoOn, MayGoOn};
    ghost use Rattle.dual_grid.specs.Starts.{IsAtStart, TellsMask};
    ghost use Rattle.dual_grid.specs.Views.{HaveOneOrigin, IsGridOf, grid_shape, grid_start, grid_state};
    ghost use Rattle.flow_network.specs.Moves.{IsRaised, MayRaise};
    ghost use Rattle.raster_model.specs.Raster.{Raster, residue};
    ghost use Rattle.raster_model.specs.Scene.{raster_of};
    ghost use Rattle.raster_model.specs.Sheets.{sheet_raster};
    ghost use Rattle.raster_model.specs.Sums.{Field};
    ghost use Rattle.raster_model.specs.Tiles.{tiles_of, window_of, width_of, height_of};
    ghost use Rattle.raster_model.specs.declared.tiling.Window.{Window as WindowOf};
    ghost use Rattle.std.specs.Prelude.{◌≡◌, ◌*◌, ◌^◌, ◌<◌, ◌≤◌, ◌+ℤ◌, ◌-ℤ◌, ◌<ℤ◌, ◌++◌, ℕ, Bool, IfNone, IfOk, IfSome, IsTrue, List, get_or, length, pos, unsigned_abs};
    ghost use Rattle.wrapped_gradient.specs.Gradients.{AreGradientsOf};

    /// The grid of a tile: that over its window. It fails only for lack of memory.
    pub fn of(
        alloc: Global,
        scene: &Scene,
        gradients: &Gradients,
        tile: u32,
        unmasked: &[bool],
    ) -> Result<DualGrid, AllocError>
        requires tile { tile < tiles_of scene.now.tiling }
        requires gradients { AreGradientsOf (raster_of scene.now) gradients.now }
        requires window { gradients.now.window ≡ window_of scene.now.tiling tile }
        requires count { length unmasked.now ≡ width_of gradients.now.window * height_of gradients.now.window }
        ensures grid { IfOk result (λ grid. IsGridOf (raster_of scene.now) (window_of scene.now.tiling tile) unmasked.now grid) }
        ensures start { IfOk result (λ grid. IsAtStart (grid_start grid) (residue (raster_of scene.now)) (window_of scene.now.tiling tile) (grid_shape grid) (grid_state grid)) }
        ensures small { IfOk result (λ grid. HasSmallCosts (grid_shape grid)) }
        ensures few { IfOk result (λ grid. total_excess (grid_shape grid) (grid_state grid) <ℤ pos (grid_shape grid).nodes) }
        ensures joined { IfOk result (λ grid. IsConnected (grid_start grid) (grid_shape grid)) }
    {
        DualGrid::over(alloc, &scene.sheet(), gradients, unmasked)
    }

    /// The grid over a window of a sheet, which is that of the gradients. `unmasked` tells the mask: for each pixel of the
    /// window, in row order, whether it is open. Nothing has flowed yet, and each cell has its residue as excess. Fewer
    /// units are to flow than there are nodes. It fails only for lack of memory.
    pub fn over(
        alloc: Global,
        sheet: &Sheet,
        gradients: &Gradients,
        unmasked: &[bool],
    ) -> Result<DualGrid, AllocError>
        requires gradients { AreGradientsOf (sheet_raster sheet.now) gradients.now }
        requires count { length unmasked.now ≡ width_of gradients.now.window * height_of gradients.now.window }
        ensures grid { IfOk result (λ grid. IsGridOf (sheet_raster sheet.now) gradients.now.window unmasked.now grid) }
        ensures start { IfOk result (λ grid. IsAtStart (grid_start grid) (residue (sheet_raster sheet.now)) gradients.now.window (grid_shape grid) (grid_state grid)) }
        ensures small { IfOk result (λ grid. HasSmallCosts (grid_shape grid)) }
        ensures few { IfOk result (λ grid. total_excess (grid_shape grid) (grid_state grid) <ℤ pos (grid_shape grid).nodes) }
        ensures joined { IfOk result (λ grid. IsConnected (grid_start grid) (grid_shape grid)) }
    {
        let window = gradients.window();
        let mut weights = right_weights(alloc, sheet, window, unmasked)?;
        let mut down = down_weights(alloc, sheet, window, unmasked)?;
        weights.append(&mut down)?;
        let flows = vec![in alloc; 0; weights.len()]?;
        let excesses = supplies(alloc, gradients)?;
        let potentials = vec![in alloc; 0; excesses.len()]?;
        Ok(DualGrid {
            window,
            steep: sheet.terms.steep,
            weights,
            flows,
            excesses,
            potentials,
        })
    }

    /// The grid over a window of a sheet, as `over` makes it, after the corrections have flowed across the edges, where the
    /// nodes have minus the faces as potentials. `None` tells that corrections and faces do not have the window's shape,
    /// that an arc with capacity left would have a reduced cost below 0 (Ahuja, Magnanti and Orlin 1993, section 9.3), or that
    /// a face, or what has flowed and is to flow, is too great. In all other cases there is a grid. It fails only for lack
    /// of memory.
    pub fn reached(
        alloc: Global,
        sheet: &Sheet,
        gradients: &Gradients,
        unmasked: &[bool],
        corrections: Corrections,
        faces: &[i64],
    ) -> Result<Option<DualGrid>, AllocError>
        requires gradients { AreGradientsOf (sheet_raster sheet.now) gradients.now }
        requires count { length unmasked.now ≡ width_of gradients.now.window * height_of gradients.now.window }
        ensures grid { IfOk result (λ made. IfSome made (λ grid. IsGridOf (sheet_raster sheet.now) gradients.now.window unmasked.now grid)) }
        ensures small { IfOk result (λ made. IfSome made (λ grid. HasSmallCosts (grid_shape grid))) }
        ensures near { IfOk result (λ made. IfSome made (λ grid. StaysNearStart (grid_start grid) (grid_shape grid) (grid_state grid))) }
        ensures joined { IfOk result (λ made. IfSome made (λ grid. IsConnected (grid_start grid) (grid_shape grid))) }
        ensures low { IfOk result (λ made. IfSome made (λ grid. AreLow grid.potentials.items)) }
        ensures flows { IfOk result (λ made. IfSome made (λ grid. grid.flows.items ≡ corrections.right.items ++ corrections.down.items)) }
        ensures heights { IfOk result (λ made. IfSome made (λ grid. AreTurnedFaces faces.now grid.potentials.items)) }
        ensures may { IfOk result (λ made. IfSome made (λ grid. MayGoOn (sheet_raster sheet.now) gradients.now.window unmasked.now corrections faces.now)) }
        ensures none { IfOk result (λ made. IfNone made (MayGoOn (sheet_raster sheet.now) gradients.now.window unmasked.now corrections faces.now → ⊥)) }
    {
        let start = DualGrid::over(alloc, sheet, gradients, unmasked)?;
        if faces.len() + 1 != start.potentials.len() || !are_low(faces) {
            return Ok(None);
        }
        let potentials = turned(alloc, faces)?;
        let Corrections { right, mut down } = corrections;
        if right.len() != right_count(start.window) as usize {
            return Ok(None);
        }
        let mut flows = right;
        flows.append(&mut down)?;
        Ok(start.after(flows, potentials))
    }

    /// This grid, in which nothing has flowed, after these flows and with these potentials, if they go together. `None`
    /// tells that they do not.
    fn after(self, flows: Vec<i32>, potentials: Vec<i64>) -> Option<DualGrid>
        requires fresh { (a : ℕ) → IsArc (grid_shape self) a → (grid_state self).residual a ≡ grid_start self a }
        requires few { total_excess (grid_shape self) (grid_state self) <ℤ pos (grid_shape self).nodes }
        requires nodes { length potentials.items ≡ (grid_shape self).nodes }
        requires low { AreLow potentials.items }
        ensures origin { IfSome result (λ grid. HaveOneOrigin self grid) }
        ensures near { IfSome result (λ grid. StaysNearStart (grid_start self) (grid_shape self) (grid_state grid)) }
        ensures low { IfSome result (λ grid. AreLow grid.potentials.items) }
        ensures flows { IfSome result (λ grid. grid.flows.items ≡ flows.items) }
        ensures heights { IfSome result (λ grid. grid.potentials.items ≡ potentials.items) }
        ensures together { IfSome result (λ grid. FlowsMayGoOn self.window self.steep (weight_in self.weights.items) (number_or_zero self.excesses.items) flows.items (number_or_zero potentials.items)) }
        ensures none { IfNone result (FlowsMayGoOn self.window self.steep (weight_in self.weights.items) (number_or_zero self.excesses.items) flows.items (number_or_zero potentials.items) → ⊥) }
    {
        let most = greatest(&flows);
        let cells = outside(self.window);
        if flows.len() != self.flows.len() || most > cells || !self.is_held(&flows, &potentials) {
            return None;
        }
        let mut excesses = self.excesses;
        move_flows(self.window, &flows, &mut excesses);
        if !sums_within(&excesses, cells - most) {
            return None;
        }
        Some(DualGrid {
            window: self.window,
            steep: self.steep,
            weights: self.weights,
            flows,
            excesses,
            potentials,
        })
    }

    /// Whether no arc with capacity left has a reduced cost below 0, where these flow across the edges and the nodes have
    /// these potentials.
    fn is_held(&self, flows: &[i32], potentials: &[i64]) -> bool
        requires edges { length flows.now ≡ edges_of self.now.window }
        requires nodes { length potentials.now ≡ (grid_shape self.now).nodes }
        requires low { AreLow potentials.now }
        ensures held { IsTrue result → (n : ℕ) → n < edges_of self.now.window → IsHeldAt self.now.window self.now.steep (weight_in self.now.weights.items) (number_or_zero flows.now) (number_or_zero potentials.now) n }
        ensures told { ((n : ℕ) → n < edges_of self.now.window → IsHeldAt self.now.window self.now.steep (weight_in self.now.weights.items) (number_or_zero flows.now) (number_or_zero potentials.now) n) → IsTrue result }
    {
        for edge in 0..flows.len() {
            if !self.is_held_at(edge as u32, flows[edge], potentials) {
                return false;
            }
        }
        true
    }

    /// Whether no arc with capacity left across an edge has a reduced cost below 0.
    fn is_held_at(&self, edge: u32, flow: i32, potentials: &[i64]) -> bool
        requires edge { edge < edges_of self.now.window }
        requires nodes { length potentials.now ≡ (grid_shape self.now).nodes }
        requires low { AreLow potentials.now }
        ensures held { IsTrue result → IsHeldBy self.now.steep (weight_in self.now.weights.items edge) (number_or_zero potentials.now (other_side self.now.window (edge_of self.now.window edge)) -ℤ number_or_zero potentials.now (first_side self.now.window (edge_of self.now.window edge))) flow }
        ensures told { IsHeldBy self.now.steep (weight_in self.now.weights.items edge) (number_or_zero potentials.now (other_side self.now.window (edge_of self.now.window edge)) -ℤ number_or_zero potentials.now (first_side self.now.window (edge_of self.now.window edge))) flow → IsTrue result }
    {
        let first = potentials[first_at(self.window, edge) as usize];
        let other = potentials[other_at(self.window, edge) as usize];
        is_tight(self.steep, self.weight(edge), other - first, flow)
    }

    /// The corrections of the window's edges, in whole cycles, and the faces of its cells in row order, which certify
    /// them. The grid has no excess left. Each residual capacity differs from that at the start by less than there are
    /// nodes, so each arc from side to side keeps capacity. The answer is one for each tile that has exactly the window's
    /// pixels, whatever the other tiles are. It fails only for lack of memory.
    pub fn answer(self, alloc: Global) -> Result<(Corrections, Vec<i64>), AllocError>
        requires balanced { HasNoExcess (grid_shape self) (grid_state self) }
        requires near { IsNearStart (grid_start self) (grid_shape self) (grid_state self) }
        ensures { IfOk result (λ made. (r : Raster) (v : WindowOf) (unmasked : List Bool) (mask : Field Bool) → IsGridOf r v unmasked self → TellsMask v unmasked mask → AreCertifiedOver r mask v made.0 made.1.items) }
    {
        let faces = faces(alloc, &self.potentials, outside(self.window))?;
        let mut right = self.flows;
        let down = right.split_off(right_count(self.window) as usize)?;
        Ok((Corrections { right, down }, faces))
    }

    /// The potentials of the nodes. It fails only for lack of memory.
    pub fn potentials(&self) -> Result<Vec<i64>, AllocError>
        ensures { IfOk result (λ list. list.items ≡ self.now.potentials.items) }
    {
        self.potentials.clone()
    }

    /// Adds to the potential of each node its amount, as `raise` does, below `POTENTIAL_BOUND` on either side of 0.
    pub fn lift(&mut self, amounts: &[i64])
        requires count { length amounts.now ≡ (grid_shape self.old).nodes }
        requires kept { MayRaise (grid_shape self.old) (grid_state self.old) amounts.now }
        requires within { (u : ℕ) → u < (grid_shape self.old).nodes → unsigned_abs ((grid_state self.old).potential u +ℤ get_or amounts.now u (pos 0)) < POTENTIAL_BOUND }
        ensures shape { grid_shape self.new ≡ grid_shape self.old }
        ensures raised { IsRaised (grid_shape self.old) amounts.now (grid_state self.old) (grid_state self.new) }
        ensures origin { HaveOneOrigin self.old self.new }
    {
        add_each(&mut self.potentials, amounts);
    }

    /// What an arc can carry that has no other beside it, or that is steep: as much as there are nodes, which is more than
    /// all of them have to send.
    fn capacity(&self) -> u32
        ensures { result ≡ arc_capacity self.now.window }
    {
        self.excesses.len() as u32
    }

    /// The weight of the edge with a number. No weight is below 0.
    fn weight(&self, edge: u32) -> u32
        requires { edge < edges_of self.now.window }
        ensures { result ≡ weight_in self.now.weights.items edge }
    {
        self.weights[edge as usize].unsigned_abs()
    }

    /// The greatest arc that starts at a node, among those across an edge in places below `high`.
    fn out_across(&self, edge: u32, node: u32, high: u32) -> Option<u32>
        requires edge { edge < edges_of self.now.window }
        requires high { high ≤ 8 }
        ensures { IsOutAcross (grid_shape self.now) node edge high result }
    {
        let at_first = first_at(self.window, edge) == node;
        let at_other = other_at(self.window, edge) == node;
        match place_below(self.steep, self.weight(edge), at_first, at_other, high) {
            Some(place) => Some(edge * 8 + place),
            None => None,
        }
    }

    /// The greatest arc that starts at a node, among those across the edges with numbers below `edge`.
    fn out_before(&self, edge: u32, node: u32) -> Option<u32>
        requires node { node < (grid_shape self.now).nodes }
        requires edge { edge ≤ edges_of self.now.window }
        ensures { IsNextBelow (grid_shape self.now) node (edge * 8) result }
    {
        match edge_below(self.window, node, edge) {
            Some(before) => self.out_across(before, node, 8),
            None => None,
        }
    }

    /// The greatest arc that starts at a node, among those below `high`.
    fn out_below(&self, node: u32, high: u32) -> Option<u32>
        requires node { node < (grid_shape self.now).nodes }
        requires high { high ≤ (grid_shape self.now).arcs }
        ensures { IsNextBelow (grid_shape self.now) node high result }
    {
        let edge = high / 8;
        if high % 8 == 0 {
            return self.out_before(edge, node);
        }
        let here = self.out_across(edge, node, high % 8);
        if here.is_some() {
            here
        } else {
            self.out_before(edge, node)
        }
    }
}
