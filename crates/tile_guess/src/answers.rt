use crate::loading::Tile;
use std::alloc::{AllocError, Global};

impl Tile {
    /// The corrections of the right edges: what flows from the cell above to the cell below.
    pub(crate) fn right_corrections(&self, alloc: Global) -> Result<Vec<i32>, AllocError> {
        let mut list = Vec::with_capacity(alloc, self.across as usize * (self.along as usize + 1))?;
        for row in self.cells.chunks(self.stride.max(1) as usize) {
            for cell in row.iter().skip(1) {
                let [_, down] = cell.flows;
                list.push(i32::from(down))?;
            }
        }
        Ok(list)
    }

    /// The corrections of the down edges: what flows from the cell on the right to the cell on the left.
    pub(crate) fn down_corrections(&self, alloc: Global) -> Result<Vec<i32>, AllocError> {
        let mut list = Vec::with_capacity(alloc, (self.across as usize + 1) * self.along as usize)?;
        for cell in self.cells.iter().skip(self.stride as usize) {
            let [right, _] = cell.flows;
            list.push(i32::from(right).wrapping_neg())?;
        }
        Ok(list)
    }

    /// The faces of the cells: minus their potentials.
    pub(crate) fn faces(&self, alloc: Global) -> Result<Vec<i64>, AllocError> {
        let mut list = Vec::with_capacity(alloc, self.across as usize * self.along as usize)?;
        for row in self.cells.chunks(self.stride.max(1) as usize).skip(1) {
            for cell in row.iter().skip(1) {
                list.push(i64::from(cell.height.wrapping_neg()))?;
            }
        }
        Ok(list)
    }
}
