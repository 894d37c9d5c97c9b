use crate::cell::{FREE, LEFT, OUTSIDE, UP};
use crate::forest::Forest;
use crate::record::{Record, cell_at};
use crate::stop::Stop;
use std::alloc::AllocError;
use std::mem;

/// The side of the squares from whose cells trees grow at one time. The fastest memories hold about what such trees reach.
const SQUARE: u32 = 128;

impl Forest {
    /// Solves the block of the columns from `start` to before `end` of a list of rows, in which blocks of the side `solved`
    /// are solved: its other cells but those of the first row and the first column are taken from the outside, and balanced.
    pub fn solve_block<C: Record>(
        &mut self,
        cells: &mut [C],
        start: u32,
        end: u32,
        solved: u32,
    ) -> Result<(), Stop> {
        self.listed.clear();
        let rows = cells.len() / self.stride.max(1) as usize;
        let mut first = self.stride;
        for row in 1..rows {
            let step = if row % solved.max(1) as usize == 0 {
                1
            } else {
                solved.max(1)
            };
            self.open_row(cells, first, (start, end), step)?;
            first = first.wrapping_add(self.stride);
        }
        let across = end.wrapping_sub(start).div_ceil(SQUARE);
        let along = u32::try_from(rows).unwrap_or(1).div_ceil(SQUARE);
        if across <= 1 && along <= 1 {
            return self.balance(cells);
        }
        mem::swap(&mut self.listed, &mut self.opened);
        self.balance_squares(cells, start, across, along)
    }

    /// Balances the cells that were opened, square by square. The first square begins at the column `start`.
    fn balance_squares<C: Record>(
        &mut self,
        cells: &mut [C],
        start: u32,
        across: u32,
        along: u32,
    ) -> Result<(), Stop> {
        for number in 0..across.wrapping_mul(along) {
            self.list_square(number, start, across)?;
            self.balance(cells)?;
        }
        Ok(())
    }

    /// Lists the cells of a square that were opened. A row has `across` squares.
    fn list_square(&mut self, number: u32, start: u32, across: u32) -> Result<(), AllocError> {
        let stride = self.stride.max(1);
        self.listed.clear();
        for index in 0..self.opened.len() {
            let place = self.opened.get(index).copied().unwrap_or(0);
            let column = (place % stride).wrapping_sub(start) / SQUARE;
            let row = place / stride / SQUARE;
            if row.wrapping_mul(across).wrapping_add(column) == number {
                self.listed.push(place)?;
            }
        }
        Ok(())
    }

    /// Takes every `step`th cell of a row of a block from the outside. `first` is the place of the row's first cell.
    fn open_row<C: Record>(
        &mut self,
        cells: &mut [C],
        first: u32,
        (start, end): (u32, u32),
        step: u32,
    ) -> Result<(), Stop> {
        for column in (start.wrapping_add(step)..end).step_by(step.max(1) as usize) {
            self.open_cell(cells, first.wrapping_add(column))?;
        }
        Ok(())
    }

    /// Takes a cell from the outside, if it is not opened yet, and lists it if it has something to send or to be sent.
    fn open_cell<C: Record>(&mut self, cells: &mut [C], place: u32) -> Result<(), Stop> {
        let gained = self.gain(cells, place);
        let Some(cell) = cells.get_mut(place as usize) else {
            return Ok(());
        };
        if cell.step() == OUTSIDE {
            let excess = cell.excess().wrapping_add(gained);
            if excess.unsigned_abs() > C::MOST.unsigned_abs() {
                return Err(Stop::Unfit);
            }
            cell.set_step(FREE);
            cell.set_excess(excess);
        }
        if cell.step() == FREE && cell.excess() != 0 {
            self.list_opened(place)?;
        }
        Ok(())
    }

    /// Lists a cell.
    fn list_opened(&mut self, place: u32) -> Result<(), AllocError> {
        self.listed.push(place)?;
        Ok(())
    }

    /// What flows into a cell, less what flows out of it.
    #[inline(always)]
    pub fn gain<C: Record>(&self, cells: &[C], place: u32) -> i32 {
        let from_left = cell_at(cells, self.head(place, LEFT)).flow(0);
        let from_above = cell_at(cells, self.head(place, UP)).flow(1);
        let cell = cell_at(cells, place);
        from_left
            .wrapping_sub(cell.flow(0))
            .wrapping_add(from_above)
            .wrapping_sub(cell.flow(1))
    }
}
