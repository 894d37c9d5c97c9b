ghost use Rattle.dual_grid.specs.Building.{IsEdgeBelow, LiesAt, LiesAtNone};
ghost use Rattle.dual_grid.specs.Nodes.{cells_of, edge_of, edges_of, first_side, other_side, rights_of};
ghost use Rattle.raster_model.specs.Tiles.{IsRasterWindow};
ghost use Rattle.std.specs.Prelude.{◌≡◌, ◌+◌, ◌<◌, ◌≤◌};

use crate::sides::outside;
use raster_model::Window;

/// How many right edges a window has. The numbers of down edges begin with this number.
pub(crate) fn right_count(window: Window) -> u32
    requires { IsRasterWindow window }
    ensures { result ≡ rights_of window }
{
    (window.x1 - window.x0) * (window.y1 - window.y0 + 1)
}

/// The node on the first side of the edge with a number.
pub(crate) fn first_at(window: Window, edge: u32) -> u32
    requires small { IsRasterWindow window }
    requires edge { edge < edges_of window }
    ensures { result ≡ first_side window (edge_of window edge) }
{
    let across = window.x1 - window.x0;
    let rights = right_count(window);
    if edge < across && edge < rights {
        outside(window)
    } else if edge < rights {
        edge - across
    } else {
        down_first(window, edge - rights)
    }
}

/// The node on the first side of a down edge. `place` is the edge's place among the down edges.
fn down_first(window: Window, place: u32) -> u32
    requires small { IsRasterWindow window }
    requires place { rights_of window + place < edges_of window }
    ensures { result ≡ first_side window (edge_of window (rights_of window + place)) }
{
    let across = window.x1 - window.x0;
    if place % (across + 1) < across {
        place - place / (across + 1)
    } else {
        outside(window)
    }
}

/// The node on the other side of the edge with a number.
pub(crate) fn other_at(window: Window, edge: u32) -> u32
    requires small { IsRasterWindow window }
    requires edge { edge < edges_of window }
    ensures { result ≡ other_side window (edge_of window edge) }
{
    let outside = outside(window);
    let rights = right_count(window);
    if edge < outside {
        edge
    } else if edge < rights {
        outside
    } else {
        down_other(window, edge - rights)
    }
}

/// The node on the other side of a down edge. `place` is the edge's place among the down edges.
fn down_other(window: Window, place: u32) -> u32
    requires small { IsRasterWindow window }
    requires place { rights_of window + place < edges_of window }
    ensures { result ≡ other_side window (edge_of window (rights_of window + place)) }
{
    let across = window.x1 - window.x0;
    if 0 < place % (across + 1) {
        place - place / (across + 1) - 1
    } else {
        outside(window)
    }
}

/// The greatest number below `high` of an edge of a cell: the edge on its right, on its left, below it or above it.
fn cell_edge_below(window: Window, cell: u32, high: u32) -> Option<u32>
    requires small { IsRasterWindow window }
    requires cell { cell < cells_of window }
    requires high { high ≤ edges_of window }
    ensures { IsEdgeBelow window cell high result }
{
    let across = window.x1 - window.x0;
    let left = right_count(window) + (cell + cell / across);
    if left + 1 < high {
        Some(left + 1)
    } else if left < high {
        Some(left)
    } else if cell + across < high {
        Some(cell + across)
    } else if cell < high {
        Some(cell)
    } else {
        None
    }
}

/// The greatest place up to `place`, among the down edges, of a down edge on the border of a window.
fn down_border(window: Window, place: u32) -> u32
    requires small { IsRasterWindow window }
    requires place { rights_of window + place < edges_of window }
    ensures place { result ≤ place }
    ensures border { LiesAt window (cells_of window) (rights_of window + result) }
    ensures none { LiesAtNone window (cells_of window) (rights_of window + result + 1) (rights_of window + place + 1) }
{
    let across = window.x1 - window.x0;
    let column = place % (across + 1);
    if column < across {
        place - column
    } else {
        place
    }
}

/// The greatest number below `high` of an edge on the border of a window. These are the edges of the outside.
fn border_below(window: Window, high: u32) -> Option<u32>
    requires small { IsRasterWindow window }
    requires high { high ≤ edges_of window }
    ensures { IsEdgeBelow window (cells_of window) high result }
{
    let across = window.x1 - window.x0;
    let rights = right_count(window);
    if rights < high {
        Some(rights + down_border(window, high - rights - 1))
    } else if outside(window) < high {
        Some(high - 1)
    } else if across < high {
        Some(across - 1)
    } else if 0 < high {
        Some(high - 1)
    } else {
        None
    }
}

/// The greatest number below `high` of an edge with a node on one of its sides.
pub(crate) fn edge_below(window: Window, node: u32, high: u32) -> Option<u32>
    requires small { IsRasterWindow window }
    requires node { node ≤ cells_of window }
    requires high { high ≤ edges_of window }
    ensures { IsEdgeBelow window node high result }
{
    if node < outside(window) {
        cell_edge_below(window, node, high)
    } else {
        border_below(window, high)
    }
}
