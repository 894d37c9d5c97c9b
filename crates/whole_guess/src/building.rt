use crate::guess::Task;
use cell_forest::{FREE, OUTSIDE, Record};
use raster_model::{Mask, Sheet, Terms, wrapped_ramp};
use std::alloc::{AllocError, Global};
use std::mem;

/// A pixel of a sheet under a mask.
#[derive(Clone, Copy)]
struct Pixel {
    phase: u16,
    /// The wrapped difference from the pixel on the left.
    rise: i32,
    /// All ones if it is open, and otherwise 0.
    opened: u16,
    /// What is held in place of a step by the cells around it.
    step: u8,
}

/// A masked pixel, in place of one that is not there.
const NOWHERE: Pixel = Pixel {
    phase: 0,
    rise: 0,
    opened: 0,
    step: FREE,
};

/// The pixels at the right corners of a cell, and the wrapped difference from the upper one to the lower one. At its left
/// corners they are those of the cell on its left.
#[derive(Clone, Copy)]
struct Side {
    upper: Pixel,
    lower: Pixel,
    rise: i32,
    /// What cells hold in place of a step, by these pixels.
    step: u8,
}

/// A block, and two rows of pixels with which it is made.
#[derive(Drop)]
pub(crate) struct Block<C: Record> {
    pub(crate) cells: Vec<C>,
    above: Vec<Pixel>,
    here: Vec<Pixel>,
}

impl<C: Record> Block<C> {
    /// A block without cells.
    pub(crate) fn new(alloc: Global) -> Block<C> {
        Block {
            cells: Vec::new(alloc),
            above: Vec::new(alloc),
            here: Vec::new(alloc),
        }
    }

    /// Makes the block from the pixel (`x`, `y`) on, with nothing solved, and lists its cells with something to send or to
    /// be sent. The cell at a pixel is the one whose lower right corner the pixel is, so in the first row and in the first
    /// column of the raster there are places that are no cells. The first row and the first column of the block are outside.
    pub(crate) fn build(
        &mut self,
        task: &Task<'_>,
        (x, y): (u32, u32),
        (across, along): (u32, u32),
        listed: &mut Vec<u32>,
    ) -> Result<(), AllocError> {
        self.cells.clear();
        listed.clear();
        let before = y.wrapping_sub(1);
        load(task, (x, before), across, &mut self.above)?;
        for row in 0..along {
            let y = y.wrapping_add(row);
            load(task, (x, y), across, &mut self.here)?;
            self.build_row(task.sheet, (x, y), row == 0)?;
            if row > 0 {
                self.list_row(row.wrapping_mul(across), across, listed)?;
            }
            mem::swap(&mut self.above, &mut self.here);
        }
        Ok(())
    }

    /// Adds the cells of a row, from the pixel (`x`, `y`) on. All of them are outside, or the first.
    fn build_row(
        &mut self,
        sheet: &Sheet,
        (x, y): (u32, u32),
        outside: bool,
    ) -> Result<(), AllocError> {
        let width = sheet.phase.width;
        let from_above = row(&sheet.edges.down, y.wrapping_sub(1), width);
        let from_left = row(&sheet.edges.right, y, width.wrapping_sub(1));
        let first = self.cells.len();
        let mut place = x;
        let mut left = self.side(0, sheet.terms);
        for column in 1..self.here.len() {
            let right = self.side(column, sheet.terms);
            let weights = [
                number_at(from_above, place),
                number_at(from_left, place.wrapping_sub(1)),
            ];
            self.cells.push(cell_of(left, right, weights))?;
            left = right;
            place = place.wrapping_add(1);
        }
        if outside {
            self.close_from(first, y == 0);
        }
        if let Some(cell) = self.cells.get_mut(first) {
            close(cell, x == 0 || y == 0);
        }
        Ok(())
    }

    /// Makes the cells from a place on a part of the outside. `beyond` tells that they are no cells of the raster.
    fn close_from(&mut self, first: usize, beyond: bool) {
        for cell in self.cells.iter_mut().skip(first) {
            close(cell, beyond);
        }
    }

    /// The pixels in a column of the two rows.
    #[inline(always)]
    fn side(&self, column: usize, terms: Terms) -> Side {
        let upper = self.above.get(column).copied().unwrap_or(NOWHERE);
        let lower = self.here.get(column).copied().unwrap_or(NOWHERE);
        Side {
            upper,
            lower,
            step: upper.step.max(lower.step),
            rise: wrapped_ramp(upper.phase, lower.phase, terms.slope(true)),
        }
    }

    /// Lists the cells of a row with something to send or to be sent. `first` is the place of its first cell.
    fn list_row(&self, first: u32, across: u32, listed: &mut Vec<u32>) -> Result<(), AllocError> {
        for column in 0..across {
            let place = first.wrapping_add(column);
            if let Some(cell) = self.cells.get(place as usize) {
                if cell.excess() != 0 && cell.step() == FREE {
                    listed.push(place)?;
                }
            }
        }
        Ok(())
    }
}

/// Loads a row of pixels: the one on the left of the pixel (`x`, `y`), and as many as `across` tells from that on.
fn load(
    task: &Task<'_>,
    (x, y): (u32, u32),
    across: u32,
    pixels: &mut Vec<Pixel>,
) -> Result<(), AllocError> {
    let first = x.wrapping_sub(1);
    pixels.clear();
    if are_open(task.mask, y, first, first.wrapping_add(across)) {
        load_open(task.sheet, (first, y), across, pixels)
    } else {
        load_each(task, (first, y), across, pixels)
    }
}

/// Whether the pixels of row `y` from `first` to `last` are all open.
fn are_open(mask: &Mask, y: u32, first: u32, last: u32) -> bool {
    first <= last && last < mask.width() && y < mask.height() && mask.is_open_span(y, first, last)
}

/// Loads the pixels of a row from (`x`, `y`) on, up to `across` behind it, all of which are open.
fn load_open(
    sheet: &Sheet,
    (x, y): (u32, u32),
    across: u32,
    pixels: &mut Vec<Pixel>,
) -> Result<(), AllocError> {
    let phases = row(&sheet.phase.samples, y, sheet.phase.width);
    let first = x as usize;
    let slope = sheet.terms.slope(false);
    let mut left: u16 = 0;
    for phase in phases
        .get(first..first + across as usize + 1)
        .unwrap_or(&[])
    {
        pixels.push(Pixel {
            phase: *phase,
            rise: wrapped_ramp(left, *phase, slope),
            opened: u16::MAX,
            step: FREE,
        })?;
        left = *phase;
    }
    Ok(())
}

/// Loads the pixels of a row from (`x`, `y`) on, up to `across` behind it, one by one.
fn load_each(
    task: &Task<'_>,
    (x, y): (u32, u32),
    across: u32,
    pixels: &mut Vec<Pixel>,
) -> Result<(), AllocError> {
    let (sheet, mask) = (task.sheet, task.mask);
    let phases = row(&sheet.phase.samples, y, sheet.phase.width);
    let slope = sheet.terms.slope(false);
    let mut x = x;
    let mut left: u16 = 0;
    for _ in 0..across.wrapping_add(1) {
        let phase = number_at(phases, x);
        pixels.push(Pixel {
            phase,
            rise: wrapped_ramp(left, phase, slope),
            opened: if x < mask.width() && y < mask.height() && mask.is_open(x, y) {
                u16::MAX
            } else {
                0
            },
            step: task.waters.step(x, y),
        })?;
        left = phase;
        x = x.wrapping_add(1);
    }
    Ok(())
}

/// A row of a list in row order, or nothing if the list is too short.
fn row(list: &[u16], y: u32, width: u32) -> &[u16] {
    let first = y.wrapping_mul(width) as usize;
    list.get(first..first + width as usize).unwrap_or(&[])
}

/// A number of a list, or 0 if there is none.
#[inline(always)]
fn number_at(list: &[u16], place: u32) -> u16 {
    list.get(place as usize).copied().unwrap_or(0)
}

/// Makes a cell a part of the outside. `beyond` tells that it is no cell of the raster; otherwise the sea and lakes are still
/// told apart.
fn close<C: Record>(cell: &mut C, beyond: bool) {
    if beyond {
        cell.set_excess(0);
    }
    if beyond || cell.step() == FREE {
        cell.set_step(OUTSIDE);
    }
}

/// The cell between two sides. `weights` are those of the edges at its lower right corner, from above and from the left,
/// before the mask.
#[inline(always)]
fn cell_of<C: Record>(left: Side, right: Side, weights: [u16; 2]) -> C {
    let [right_weight, down_weight] = weights;
    let (upper, lower) = (right.upper, right.lower);
    let round = upper
        .rise
        .wrapping_add(right.rise)
        .wrapping_sub(lower.rise)
        .wrapping_sub(left.rise);
    C::of(
        [
            right_weight & upper.opened & lower.opened,
            down_weight & left.lower.opened & lower.opened,
        ],
        i16::try_from(round / 65536).unwrap_or(0),
        left.step.max(right.step),
    )
}
