ghost use Rattle.dual_grid.specs.Building.{AreTurnedFaces, leaves, positive_sum};
ghost use Rattle.dual_grid.specs.Grids.{amount_of};
ghost use Rattle.dual_grid.specs.Layout.{AreLow, number_or_zero};
ghost use Rattle.dual_grid.specs.Nodes.{cells_of, edges_of};
ghost use Rattle.dual_grid.specs.Problems.{AreSmallNumbers};
ghost use Rattle.raster_model.specs.Tiles.{IsRasterWindow};
ghost use Rattle.std.specs.Int.{w64};
ghost use Rattle.std.specs.Prelude.{◌≡◌, ◌==◌, ◌+◌, ◌<◌, ◌≤◌, ◌+ℤ◌, ◌-ℤ◌, ◌≤ℤ◌, ℕ, FitsSigned, IfOk, IsTrue, get_or, length, pos, unsigned_abs};
ghost use Rattle.sums_and_lists.specs.Sums.{sum_below, where_true};

use crate::edge_numbers::{first_at, other_at};
use crate::limits::{MAX_MOVED_EXCESS, MAX_REACHED_POTENTIAL};
use raster_model::{MAX_NETWORK_NODES, Window};
use std::alloc::{AllocError, Global};

/// Whether no face is too far from 0.
pub(crate) fn are_low(faces: &[i64]) -> bool
    ensures low { IsTrue result → AreLow faces.now }
    ensures told { AreLow faces.now → IsTrue result }
{
    for face in faces {
        if face.unsigned_abs() > MAX_REACHED_POTENTIAL {
            return false;
        }
    }
    true
}

/// The potentials of the nodes where the cells have these faces: minus each face, and 0 for the outside.
pub(crate) fn turned(alloc: Global, faces: &[i64]) -> Result<Vec<i64>, AllocError>
    requires low { AreLow faces.now }
    requires few { length faces.now ≤ MAX_NETWORK_NODES }
    ensures { IfOk result (λ potentials. AreTurnedFaces faces.now potentials.items) }
{
    let mut potentials = Vec::with_capacity(alloc, faces.len() + 1)?;
    for face in faces {
        potentials.push(-*face)?;
    }
    potentials.push(0)?;
    Ok(potentials)
}

/// The greatest flow on either side of 0, or 0 if there is none.
pub(crate) fn greatest(flows: &[i32]) -> u32
    ensures small { AreSmallNumbers result flows.now }
    ensures least { (bound : ℕ) → AreSmallNumbers bound flows.now → result ≤ bound }
{
    let mut most = 0;
    for flow in flows {
        most = most.max(flow.unsigned_abs());
    }
    most
}

/// Adds to one number.
fn add_at(values: &mut Vec<i64>, at: usize, by: i64)
    requires at { at < length values.old.items }
    requires fits { FitsSigned w64 (get_or values.old.items at (pos 0) +ℤ by) }
    ensures length { length values.new.items ≡ length values.old.items }
    ensures added { (u : ℕ) → get_or values.new.items u (pos 0) ≡ get_or values.old.items u (pos 0) +ℤ where_true (u == at) by }
{
    values[at] += by;
}

/// Moves flows across all edges of a window: what flows across an edge leaves the node on its first side, and comes to
/// that on the other.
pub(crate) fn move_flows(window: Window, flows: &[i32], excesses: &mut Vec<i64>)
    requires limited { IsRasterWindow window }
    requires edges { length flows.now ≡ edges_of window }
    requires nodes { length excesses.old.items ≡ cells_of window + 1 }
    requires flows { AreSmallNumbers MAX_NETWORK_NODES flows.now }
    requires small { (u : ℕ) → unsigned_abs (number_or_zero excesses.old.items u) ≤ MAX_NETWORK_NODES }
    ensures length { length excesses.new.items ≡ cells_of window + 1 }
    ensures moved { (u : ℕ) → number_or_zero excesses.new.items u ≡ number_or_zero excesses.old.items u -ℤ sum_below (edges_of window) (leaves window (number_or_zero flows.now) u) }
    ensures small { (u : ℕ) → unsigned_abs (number_or_zero excesses.new.items u) ≤ MAX_MOVED_EXCESS }
{
    for edge in 0..flows.len() {
        let flow = i64::from(flows[edge]);
        add_at(excesses, first_at(window, edge as u32) as usize, -flow);
        add_at(excesses, other_at(window, edge as u32) as usize, flow);
    }
}

/// The number, or 0 if it is below 0.
fn amount(number: i64) -> u64
    ensures { result ≡ amount_of number }
{
    number.max(0) as u64
}

/// Whether the positive numbers sum to no more than a limit.
pub(crate) fn sums_within(excesses: &[i64], limit: u32) -> bool
    ensures within { IsTrue result → positive_sum excesses.now (length excesses.now) ≤ℤ pos limit }
    ensures told { positive_sum excesses.now (length excesses.now) ≤ℤ pos limit → IsTrue result }
{
    let mut left = u64::from(limit);
    for excess in excesses {
        let part = amount(*excess);
        if part > left {
            return false;
        }
        left -= part;
    }
    true
}
