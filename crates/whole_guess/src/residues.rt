use raster_model::{Sheet, Terms, wrapped_ramp};

/// Whether a cell of a sheet has a residue.
pub(crate) fn has_residue(sheet: &Sheet) -> bool {
    let width = sheet.phase.width.max(1) as usize;
    let rows = sheet.phase.samples.chunks(width);
    let below = sheet.phase.samples.chunks(width).skip(1);
    for (upper, lower) in rows.zip(below) {
        if row_has_residue(upper, lower, sheet.terms) {
            return true;
        }
    }
    false
}

/// Whether a cell between two rows of phases has one. The loop does not stop at the first, so that several can be judged at
/// once.
fn row_has_residue(upper: &[u16], lower: &[u16], terms: Terms) -> bool {
    let (across, along) = (terms.slope(false), terms.slope(true));
    let mut found = false;
    let left = upper.iter().zip(lower);
    let right = upper.iter().zip(lower).skip(1);
    for ((a, b), (c, d)) in left.zip(right) {
        let round = wrapped_ramp(*a, *c, across)
            .wrapping_add(wrapped_ramp(*c, *d, along))
            .wrapping_sub(wrapped_ramp(*b, *d, across))
            .wrapping_sub(wrapped_ramp(*a, *b, along));
        found |= round != 0;
    }
    found
}
