ghost use Rattle.raster_model.specs.Heights.{KnowsEnds};
ghost use Rattle.raster_model.specs.Limits.{max_side};
ghost use Rattle.raster_model.specs.Masks.{open_at};
ghost use Rattle.raster_model.specs.Raster.{
  departure as departure_of,
  edge_cost as edge_cost_of,
  has_open_ends,
  lifted,
  steps as steps_of_departure,
};
ghost use Rattle.raster_model.specs.Sheets.{sheet_raster};
ghost use Rattle.raster_model.specs.Sums.{at_edge_end, at_edge_start, is_edge};
ghost use Rattle.raster_model.specs.Weights.{edge_weight};
ghost use Rattle.std.specs.Prelude.{◌≡◌, ◌+◌, ◌*◌, ◌≤◌, ◌^◌, IsTrue, pos};

use raster_model::{Edge, Heights, MAX_CYCLE_COST, MAX_DEPARTURE, Mask, Sheet};

/// What an edge adds to a cost: its weight times the steps of its departure, or 0 if an end is masked. At the steepness 1
/// the steps are the absolute departure in whole cycles. If `unmasked` is true, both ends are known to be open.
/// (Costantini 1998.)
pub fn edge_cost<H: Heights>(
    sheet: &Sheet,
    mask: &Mask,
    heights: &H,
    edge: Edge,
    unmasked: bool,
) -> u128
    requires same_size { (mask.now.width ≡ sheet.now.phase.now.width) × (mask.now.height ≡ sheet.now.phase.now.height) }
    requires is_edge { IsTrue (is_edge sheet.now.phase.now.width sheet.now.phase.now.height edge) }
    requires unmasked { IsTrue unmasked → IsTrue (has_open_ends (open_at mask.now) edge) }
    requires known { KnowsEnds (open_at mask.now) (H.knows heights.now) edge }
    ensures value { pos result ≡ edge_cost_of (sheet_raster sheet.now) (open_at mask.now) (lifted (sheet_raster sheet.now) (H.cycles_at heights.now)) edge }
    ensures small { result ≤ MAX_CYCLE_COST * MAX_DEPARTURE }
{
    if are_ends_open(mask, edge, unmasked) {
        open_cost(sheet, heights, edge)
    } else {
        0
    }
}

/// Whether both ends of an edge are open. If `unmasked` is true, they are known to be.
fn are_ends_open(mask: &Mask, edge: Edge, unmasked: bool) -> bool
    requires sides { (mask.now.width ≤ max_side) × (mask.now.height ≤ max_side) }
    requires is_edge { IsTrue (is_edge mask.now.width mask.now.height edge) }
    requires unmasked { IsTrue unmasked → IsTrue (has_open_ends (open_at mask.now) edge) }
    ensures { result ≡ has_open_ends (open_at mask.now) edge }
{
    unmasked || mask.is_open(edge.x, edge.y) && mask.is_open(edge.end_x(), edge.end_y())
}

/// The weight of an edge with open ends times the steps of its departure. Most surfaces depart at few edges, and no weight
/// is looked up at the others.
fn open_cost<H: Heights>(sheet: &Sheet, heights: &H, edge: Edge) -> u128
    requires is_edge { IsTrue (is_edge sheet.now.phase.now.width sheet.now.phase.now.height edge) }
    requires start { IsTrue (at_edge_start (H.knows heights.now) edge) }
    requires end { IsTrue (at_edge_end (H.knows heights.now) edge) }
    ensures value { result ≡ edge_weight sheet.now.rule sheet.now.weights.now edge * steps_of_departure sheet.now.terms.steep (departure_of (sheet_raster sheet.now) (lifted (sheet_raster sheet.now) (H.cycles_at heights.now)) edge) }
    ensures small { result ≤ MAX_CYCLE_COST * MAX_DEPARTURE }
{
    let departure = sheet.departure(heights, edge);
    if departure == 0 {
        return 0;
    }
    u128::from(sheet.stored_weight(edge)) * u128::from(sheet.terms.steps(departure))
}
