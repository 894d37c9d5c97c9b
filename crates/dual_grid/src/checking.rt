ghost use Rattle.dual_grid.specs.Building.{IsHeldBy};
ghost use Rattle.dual_grid.specs.Problems.{AreSmallNumbers, HaveShape, IsCancelled, IsTight, IsTightAt, face_of, problem_residue};
ghost use Rattle.raster_model.specs.Sums.{down_edge, right_edge};
ghost use Rattle.std.specs.Prelude.{◌≡◌, ◌*◌, ◌*ℤ◌, ◌<◌, ◌≤◌, ◌<ℤ◌, ◌≤ℤ◌, ℕ, IsTrue, pos, slice_index_or, unsigned_abs};
ghost use Rattle.wrapped_gradient.specs.Corrections.{correction_at};
ghost use Rattle.wrapped_gradient.specs.Windows.{IsCellOf, IsEdgeOf, edge_value};

use crate::limits::{MAX_HELD_CORRECTION, MAX_HELD_RESIDUE};
use crate::problem::Problem;
use crate::sides::sides;
use raster_model::{Edge, Window};
use wrapped_gradient::Corrections;

/// Whether there is a correction for each edge of the window and a face for each cell.
pub(crate) fn has_shape(problem: &Problem, corrections: &Corrections, faces: &[i64]) -> bool
    ensures { IsTrue result → HaveShape problem.now corrections.now faces.now }
{
    let window = problem.window;
    let across = (window.x1 - window.x0) as usize;
    let along = (window.y1 - window.y0) as usize;
    corrections.right.len() == across * (along + 1)
        && corrections.down.len() == (across + 1) * along
        && faces.len() == across * along
}

/// Whether no correction is above `most` on either side of 0.
pub(crate) fn are_small(corrections: &[i32], most: u32) -> bool
    ensures { IsTrue result → AreSmallNumbers most corrections.now }
{
    for correction in corrections {
        if correction.unsigned_abs() > most {
            return false;
        }
    }
    true
}

/// The number that two lists have for an edge: one is of right edges, the other of down edges.
fn number(window: Window, right: &[i32], down: &[i32], edge: Edge) -> i32
    requires { IsEdgeOf window edge }
    ensures { result ≡ edge_value window right.now down.now edge }
{
    let across = (window.x1 - window.x0) as usize;
    let (column, row) = ((edge.x - window.x0) as usize, (edge.y - window.y0) as usize);
    if edge.down {
        down.get(row * (across + 1) + column).copied().unwrap_or(0)
    } else {
        right.get(row * across + column).copied().unwrap_or(0)
    }
}

/// The correction of an edge.
fn correction(window: Window, corrections: &Corrections, x: u32, y: u32, down: bool) -> i64
    requires { IsEdgeOf window (record { x = x; y = y; down = down }) }
    ensures value { result ≡ correction_at window corrections.now (record { x = x; y = y; down = down }) }
    ensures small { unsigned_abs result ≤ MAX_HELD_CORRECTION }
{
    let edge = Edge { x, y, down };
    i64::from(number(window, &corrections.right, &corrections.down, edge))
}

/// The residue at a place of the list.
fn residue_of(residues: &[i8], place: usize) -> i8
    ensures { result ≡ slice_index_or residues.now place (pos 0) }
{
    residues.get(place).copied().unwrap_or(0)
}

/// The residue of a cell.
fn residue(problem: &Problem, x: u32, y: u32) -> i64
    requires { IsCellOf problem.now.window x y }
    ensures value { result ≡ problem_residue problem.now x y }
    ensures small { unsigned_abs result ≤ MAX_HELD_RESIDUE }
{
    let window = problem.window;
    let (column, row) = ((x - window.x0) as usize, (y - window.y0) as usize);
    let place = row * (window.x1 - window.x0) as usize + column;
    i64::from(residue_of(&problem.residues, place))
}

/// Whether the corrections around a cell cancel its residue.
fn is_cancelled(problem: &Problem, corrections: &Corrections, x: u32, y: u32) -> bool
    requires { IsCellOf problem.now.window x y }
    ensures { IsTrue result → IsCancelled problem.now corrections.now x y }
{
    let window = problem.window;
    let top = correction(window, corrections, x, y, false);
    let right = correction(window, corrections, x + 1, y, true);
    let bottom = correction(window, corrections, x, y + 1, false);
    let left = correction(window, corrections, x, y, true);
    let around = top + right - bottom - left;
    around == -residue(problem, x, y)
}

/// Whether the corrections cancel the residue of each cell of row `y`.
fn row_cancelled(problem: &Problem, corrections: &Corrections, y: u32) -> bool
    requires { (problem.now.window.y0 ≤ y) × (y < problem.now.window.y1) }
    ensures { IsTrue result → (x : ℕ) → problem.now.window.x0 ≤ x → x < problem.now.window.x1 → IsCancelled problem.now corrections.now x y }
{
    for x in problem.window.x0..problem.window.x1 {
        if !is_cancelled(problem, corrections, x, y) {
            return false;
        }
    }
    true
}

/// Whether the corrections cancel the residue of each cell.
pub(crate) fn all_cancelled(problem: &Problem, corrections: &Corrections) -> bool
    ensures { IsTrue result → (x y : ℕ) → IsCellOf problem.now.window x y → IsCancelled problem.now corrections.now x y }
{
    for y in problem.window.y0..problem.window.y1 {
        if !row_cancelled(problem, corrections, y) {
            return false;
        }
    }
    true
}

/// The face of a node, which is 0 for the outside.
fn face(faces: &[i64], node: u32) -> i64
    ensures { result ≡ face_of faces.now node }
{
    faces.get(node as usize).copied().unwrap_or(0)
}

/// Whether a difference of faces goes with a correction: it is within the weight if nothing is corrected, at least the
/// weight in the direction of a correction by one cycle, and the steepness times the weight, which it never is above, if
/// there are more.
pub(crate) fn is_tight(steep: u32, weight: u32, difference: i64, correction: i32) -> bool
    ensures tight { IsTrue result → IsTight steep weight difference correction }
    ensures held { 1 ≤ steep → IsTrue result → IsHeldBy steep weight difference correction }
    ensures told { IsHeldBy steep weight difference correction → IsTrue result }
{
    let size = difference.unsigned_abs();
    let weight = u64::from(weight);
    let most = u64::from(steep) * weight;
    if size > most {
        return false;
    }
    if correction == 0 {
        return size <= weight;
    }
    if size < weight || !goes_along(difference, correction) {
        return false;
    }
    correction.unsigned_abs() == 1 || size == most
}

/// Whether a difference has the direction of a correction, or none.
fn goes_along(difference: i64, correction: i32) -> bool
    ensures product { IsTrue result → correction *ℤ difference ≡ pos (unsigned_abs correction * unsigned_abs difference) }
    ensures forth { IsTrue result → pos 0 <ℤ correction → pos 0 ≤ℤ difference }
    ensures back { IsTrue result → correction ≤ℤ pos 0 → difference ≤ℤ pos 0 }
    ensures told { (pos 0 <ℤ correction → pos 0 ≤ℤ difference) → (correction ≤ℤ pos 0 → difference ≤ℤ pos 0) → IsTrue result }
{
    if correction > 0 {
        difference >= 0
    } else {
        difference <= 0
    }
}

/// Whether the faces on the two sides of an edge differ so, by the edge's weight and correction.
fn is_tight_at(problem: &Problem, corrections: &Corrections, faces: &[i64], edge: Edge) -> bool
    requires { IsEdgeOf problem.now.window edge }
    ensures { IsTrue result → IsTightAt problem.now corrections.now faces.now edge }
{
    let window = problem.window;
    let (first, other) = sides(window, edge);
    let Some(difference) = face(faces, first).checked_sub(face(faces, other)) else {
        return false;
    };
    let weight = number(window, &problem.right, &problem.down, edge);
    let correction = number(window, &corrections.right, &corrections.down, edge);
    is_tight(problem.steep, weight.unsigned_abs(), difference, correction)
}

/// Whether the faces differ so across each right edge of row `y`.
fn right_row_tight(problem: &Problem, corrections: &Corrections, faces: &[i64], y: u32) -> bool
    requires { (problem.now.window.y0 ≤ y) × (y ≤ problem.now.window.y1) }
    ensures { IsTrue result → (x : ℕ) → IsEdgeOf problem.now.window (right_edge x y) → IsTightAt problem.now corrections.now faces.now (right_edge x y) }
{
    for x in problem.window.x0..problem.window.x1 {
        if !is_tight_at(problem, corrections, faces, Edge { x, y, down: false }) {
            return false;
        }
    }
    true
}

/// Whether the faces differ so across each down edge of row `y`.
fn down_row_tight(problem: &Problem, corrections: &Corrections, faces: &[i64], y: u32) -> bool
    requires { (problem.now.window.y0 ≤ y) × (y < problem.now.window.y1) }
    ensures { IsTrue result → (x : ℕ) → IsEdgeOf problem.now.window (down_edge x y) → IsTightAt problem.now corrections.now faces.now (down_edge x y) }
{
    for x in problem.window.x0..problem.window.x1 + 1 {
        if !is_tight_at(problem, corrections, faces, Edge { x, y, down: true }) {
            return false;
        }
    }
    true
}

/// Whether the faces differ so across each right edge.
pub(crate) fn right_edges_tight(problem: &Problem, corrections: &Corrections, faces: &[i64]) -> bool
    ensures { IsTrue result → (x y : ℕ) → IsEdgeOf problem.now.window (right_edge x y) → IsTightAt problem.now corrections.now faces.now (right_edge x y) }
{
    for y in problem.window.y0..problem.window.y1 + 1 {
        if !right_row_tight(problem, corrections, faces, y) {
            return false;
        }
    }
    true
}

/// Whether the faces differ so across each down edge.
pub(crate) fn down_edges_tight(problem: &Problem, corrections: &Corrections, faces: &[i64]) -> bool
    ensures { IsTrue result → (x y : ℕ) → IsEdgeOf problem.now.window (down_edge x y) → IsTightAt problem.now corrections.now faces.now (down_edge x y) }
{
    for y in problem.window.y0..problem.window.y1 {
        if !down_row_tight(problem, corrections, faces, y) {
            return false;
        }
    }
    true
}
