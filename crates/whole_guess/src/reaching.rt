use cell_forest::Record;
use std::alloc::{AllocError, Global};

/// Flows and faces that fit each other, which leave some cells with something to send. All lists are in row order.
#[derive(Drop)]
pub struct Reached {
    /// What flows across each right edge, from the cell above to the cell below, in cycles: one less in a row than the raster has
    /// pixels there.
    pub right: Vec<i32>,
    /// What flows across each down edge, from the cell on the right to the cell on the left, in cycles: in one row less than the
    /// raster has.
    pub down: Vec<i32>,
    /// The faces of the cells: minus their potentials.
    pub faces: Vec<i64>,
}

impl Reached {
    /// What the cells hold, in rows of `width`.
    pub(crate) fn of<C: Record>(
        alloc: Global,
        cells: &[C],
        width: u32,
    ) -> Result<Reached, AllocError> {
        let width = width as usize;
        Ok(Reached {
            right: right_flows(alloc, cells, width)?,
            down: down_flows(alloc, cells, width)?,
            faces: faces(alloc, cells, width)?,
        })
    }
}

/// What flows across the right edges.
fn right_flows<C: Record>(
    alloc: Global,
    cells: &[C],
    width: usize,
) -> Result<Vec<i32>, AllocError> {
    let mut list = Vec::new(alloc);
    for row in cells.chunks(width.max(1)) {
        for cell in row.iter().skip(1) {
            list.push(cell.flow(1))?;
        }
    }
    Ok(list)
}

/// What flows across the down edges.
fn down_flows<C: Record>(alloc: Global, cells: &[C], width: usize) -> Result<Vec<i32>, AllocError> {
    let mut list = Vec::new(alloc);
    for cell in cells.iter().skip(width) {
        list.push(cell.flow(0).wrapping_neg())?;
    }
    Ok(list)
}

/// The faces of the cells.
fn faces<C: Record>(alloc: Global, cells: &[C], width: usize) -> Result<Vec<i64>, AllocError> {
    let mut list = Vec::new(alloc);
    for row in cells.chunks(width.max(1)).skip(1) {
        for cell in row.iter().skip(1) {
            list.push(i64::from(cell.height()).wrapping_neg())?;
        }
    }
    Ok(list)
}
