ghost use Rattle.dual_grid.specs.Building.{IsMadeFor};
ghost use Rattle.dual_grid.specs.Starts.{open_in_window};
ghost use Rattle.raster_model.specs.Raster.{masked_weight};
ghost use Rattle.raster_model.specs.Sheets.{sheet_raster};
ghost use Rattle.std.specs.Prelude.{◌≡◌};
ghost use Rattle.wrapped_gradient.specs.Windows.{IsEdgeOf};

use raster_model::{Edge, Sheet, Window};

/// The weight of an edge of the window under the mask, which is 0 if an end is masked. `unmasked` says of each pixel of
/// the window, in row order, whether it is open.
pub(crate) fn weight(sheet: &Sheet, window: Window, unmasked: &[bool], edge: Edge) -> u16
    requires made { IsMadeFor (sheet_raster sheet.now) window unmasked.now }
    requires edge { IsEdgeOf window edge }
    ensures { result ≡ masked_weight (sheet_raster sheet.now) (open_in_window window unmasked.now) edge }
{
    let open_start = unmasked[window.place(edge.x, edge.y)];
    let open_end = unmasked[window.place(edge.end_x(), edge.end_y())];
    if open_start && open_end {
        sheet.stored_weight(edge)
    } else {
        0
    }
}
