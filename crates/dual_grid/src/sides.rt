ghost use Rattle.dual_grid.specs.Nodes.{cells_of, first_side, node_above as above_of, node_at, node_left as left_of, other_side};
ghost use Rattle.raster_model.specs.Tiles.{IsRasterWindow};
ghost use Rattle.std.specs.Prelude.{◌≡◌, ◌≤◌};
ghost use Rattle.wrapped_gradient.specs.Windows.{IsEdgeOf};

use raster_model::{Edge, Window};

/// The node of all that is outside of the window. The nodes of the cells have the numbers below it.
pub(crate) fn outside(window: Window) -> u32
    requires { IsRasterWindow window }
    ensures { result ≡ cells_of window }
{
    (window.y1 - window.y0) * (window.x1 - window.x0)
}

/// The node of the cell with the upper left corner (`x`, `y`), or the outside if there is no such cell.
fn node(window: Window, x: u32, y: u32) -> u32
    requires small { IsRasterWindow window }
    requires from { (window.x0 ≤ x) × (window.y0 ≤ y) }
    ensures { result ≡ node_at window x y }
{
    if x < window.x1 && y < window.y1 {
        (y - window.y0) * (window.x1 - window.x0) + (x - window.x0)
    } else {
        outside(window)
    }
}

/// The node above (`x`, `y`).
fn node_above(window: Window, x: u32, y: u32) -> u32
    requires small { IsRasterWindow window }
    requires from { (window.x0 ≤ x) × (window.y0 ≤ y) }
    ensures { result ≡ above_of window x y }
{
    if window.y0 < y {
        node(window, x, y - 1)
    } else {
        outside(window)
    }
}

/// The node to the left of (`x`, `y`).
fn node_left(window: Window, x: u32, y: u32) -> u32
    requires small { IsRasterWindow window }
    requires from { (window.x0 ≤ x) × (window.y0 ≤ y) }
    ensures { result ≡ left_of window x y }
{
    if window.x0 < x {
        node(window, x - 1, y)
    } else {
        outside(window)
    }
}

/// The nodes on the two sides of an edge: above a right edge and below it, or right of a down edge and left.
pub(crate) fn sides(window: Window, edge: Edge) -> (u32, u32)
    requires small { IsRasterWindow window }
    requires edge { IsEdgeOf window edge }
    ensures first { result.0 ≡ first_side window edge }
    ensures other { result.1 ≡ other_side window edge }
{
    let here = node(window, edge.x, edge.y);
    if edge.down {
        (here, node_left(window, edge.x, edge.y))
    } else {
        (node_above(window, edge.x, edge.y), here)
    }
}
