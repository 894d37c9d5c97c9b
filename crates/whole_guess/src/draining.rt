use crate::guess::Task;
use crate::waters::{LAKE, SEA, Waters};
use cell_forest::{
    DOWN, FREE, Forest, LEFT, OUTSIDE, RIGHT, ROOT, Record, Stop, UP, cell_at, crossing_of, push,
};
use std::alloc::{AllocError, Global};

/// The lakes and the sea, while what they have to send flows through them. If a number does not fit, each call can be done again
/// with wider cells, and goes on where it stood.
#[derive(Drop)]
pub(crate) struct Drainage {
    forest: Forest,
    /// How many cells a row has.
    width: u32,
    /// Cells through which it flows, each after the one to which it flows.
    members: Vec<u32>,
    /// No cell before this place waits for its lake to be filled.
    next: u32,
}

impl Drainage {
    /// The drainage of as many cells, with nothing flowing yet.
    pub(crate) fn of(alloc: Global, task: &Task<'_>, count: usize) -> Result<Drainage, AllocError> {
        let sheet = task.sheet;
        let width = sheet.phase.width;
        let greatest = u32::from(sheet.weights.maxval);
        let mut forest = Forest::new(alloc, sheet.terms.steep, greatest, count, task.patience)?;
        forest.set_stride(width);
        Ok(Drainage {
            forest,
            width,
            members: Vec::new(alloc),
            next: 0,
        })
    }

    /// Balances the lakes, where all other cells but those of the sea are balanced. What a lake has to send is gathered in one of
    /// its cells, at no cost, and then balanced over the whole.
    pub(crate) fn balance_lakes<C: Record>(
        &mut self,
        waters: &Waters,
        cells: &mut [C],
    ) -> Result<(), Stop> {
        self.pour_all(cells, FREE)?;
        for y in self.next / self.width.max(1)..waters.height {
            if waters.may_have_lake(y) {
                self.fill_row(cells, y)?;
            }
        }
        self.next = u32::MAX;
        self.forest.balance(cells)
    }

    /// Takes the lakes of a row of cells from the outside.
    fn fill_row<C: Record>(&mut self, cells: &mut [C], y: u32) -> Result<(), Stop> {
        let first = y.wrapping_mul(self.width);
        for x in 0..self.width {
            let place = first.wrapping_add(x);
            if cell_at(cells, place).step() == LAKE {
                self.fill_lake(cells, place)?;
            }
        }
        Ok(())
    }

    /// Takes the lake of a cell from the outside, gathers in the cell what the lake has to send, and lists it.
    fn fill_lake<C: Record>(&mut self, cells: &mut [C], root: u32) -> Result<(), Stop> {
        self.next = root;
        self.list_root(root)?;
        if let Some(cell) = cells.get_mut(root as usize) {
            cell.set_step(ROOT);
        }
        self.follow_waters(cells, LAKE)?;
        self.pour_all(cells, FREE)
    }

    /// Lists a cell that is to be balanced, and as the only one through which flow passes.
    fn list_root(&mut self, root: u32) -> Result<(), AllocError> {
        self.forest.listed.push(root)?;
        self.members.clear();
        self.members.push(root)?;
        Ok(())
    }

    /// Lets what has reached the sea flow on to the border, at no cost.
    pub(crate) fn drain_sea<C: Record>(
        &mut self,
        waters: &Waters,
        cells: &mut [C],
    ) -> Result<(), Stop> {
        if self.next == 0 {
            self.next = u32::MAX;
            self.find_mouths(cells, waters.height)?;
            self.follow_waters(cells, SEA)?;
        }
        self.pour_all(cells, OUTSIDE)
    }

    /// Lists the cells of the sea at the border from which flow goes outside.
    fn find_mouths<C: Record>(&mut self, cells: &mut [C], height: u32) -> Result<(), AllocError> {
        let last = height.wrapping_sub(1).wrapping_mul(self.width);
        for x in 1..self.width {
            self.open_mouth(cells, self.width.wrapping_add(x), UP)?;
            self.open_mouth(cells, last.wrapping_add(x), DOWN)?;
        }
        for y in 1..height {
            let first = y.wrapping_mul(self.width);
            self.open_mouth(cells, first.wrapping_add(1), LEFT)?;
            self.open_mouth(cells, first.wrapping_add(self.width).wrapping_sub(1), RIGHT)?;
        }
        Ok(())
    }

    /// Lists a cell, if it belongs to the sea and flow goes outside from it in a direction at no cost.
    fn open_mouth<C: Record>(
        &mut self,
        cells: &mut [C],
        place: u32,
        direction: u8,
    ) -> Result<(), AllocError> {
        let outside = *cell_at(cells, self.forest.head(place, direction));
        let Some(cell) = cells.get_mut(place as usize) else {
            return Ok(());
        };
        if cell.step() == SEA && crossing_of::<C, 1>(cell, &outside, direction).weight == 0 {
            cell.set_step(direction);
            self.members.push(place)?;
        }
        Ok(())
    }

    /// Lists all cells of a kind from which flow comes to the listed ones at no cost, each after the one to which it flows.
    fn follow_waters<C: Record>(&mut self, cells: &mut [C], kind: u8) -> Result<(), AllocError> {
        for index in 0..cells.len() {
            let Some(place) = self.members.get(index).copied() else {
                break;
            };
            self.follow_water(cells, place, RIGHT, kind)?;
            self.follow_water(cells, place, LEFT, kind)?;
            self.follow_water(cells, place, DOWN, kind)?;
            self.follow_water(cells, place, UP, kind)?;
        }
        Ok(())
    }

    /// Lists the cell to which an arc leads, if it is of a kind and flow comes from it at no cost.
    fn follow_water<C: Record>(
        &mut self,
        cells: &mut [C],
        place: u32,
        direction: u8,
        kind: u8,
    ) -> Result<(), AllocError> {
        let tail = *cell_at(cells, place);
        let next = self.forest.head(place, direction);
        let Some(head) = cells.get_mut(next as usize) else {
            return Ok(());
        };
        if head.step() == kind && crossing_of::<C, 1>(&tail, head, direction).weight == 0 {
            head.set_step(direction ^ 1);
            self.members.push(next)?;
        }
        Ok(())
    }

    /// Lets what the listed cells have to send flow on by their steps, from the last on. Then each step is `after`.
    fn pour_all<C: Record>(&mut self, cells: &mut [C], after: u8) -> Result<(), Stop> {
        for _ in 0..cells.len() {
            let Some(place) = self.members.last().copied() else {
                return Ok(());
            };
            self.pour(cells, place, after)?;
            self.members.pop();
        }
        Ok(())
    }

    /// Lets what a cell has to send flow on by its step, unless it is a root.
    fn pour<C: Record>(&self, cells: &mut [C], place: u32, after: u8) -> Result<(), Stop> {
        let cell = cell_at(cells, place);
        let step = cell.step();
        let amount = cell.excess().wrapping_add(self.forest.gain(cells, place));
        let (kept, sent) = if step == ROOT {
            (amount, 0)
        } else {
            (0, amount)
        };
        let next = self.forest.head(place, step);
        if kept.unsigned_abs() > C::MOST.unsigned_abs()
            || !push::<C, 1>(cells, place, next, step, sent)
        {
            return Err(Stop::Unfit);
        }
        if let Some(cell) = cells.get_mut(place as usize) {
            cell.set_step(after);
            cell.set_excess(kept);
        }
        Ok(())
    }
}
