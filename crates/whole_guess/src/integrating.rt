use cell_forest::{Cell, Record, SmallCell, cell_at};
use raster_model::{Mask, Sheet, turns_ramp};
use std::alloc::{AllocError, Global};
use std::thread;
use std::thread::Threads;

/// How many rows a part of a list has.
const ROWS: usize = 64;

/// A part of a list in row order.
#[derive(Drop)]
struct Part<'a, N> {
    numbers: &'a mut [N],
    /// Its first row.
    row: u32,
}

/// What tells a face.
pub(crate) trait Height: Sync {
    /// The face: minus the potential.
    fn face(&self) -> i64;
}

impl Height for i16 {
    #[inline(always)]
    fn face(&self) -> i64 {
        i64::from(*self).wrapping_neg()
    }
}

impl Height for Cell {
    #[inline(always)]
    fn face(&self) -> i64 {
        i64::from(self.height).wrapping_neg()
    }
}

/// The whole cycles above the phase at the pixels, in row order. They are 0 at the first open pixel.
pub(crate) fn cycles<R: Threads + Sync, C: Record>(
    rt: &R,
    alloc: Global,
    sheet: &Sheet,
    mask: &Mask,
    cells: &[C],
    workers: u32,
) -> Result<Vec<i64>, AllocError> {
    let mut list = vec![in alloc; 0; sheet.phase.samples.len()]?;
    let firsts = first_column(alloc, sheet, mask, cells)?;
    let mut parts = cut(alloc, &mut list, sheet.phase.width)?;
    thread::for_each_mut(
        rt,
        &mut parts,
        workers.max(1) as usize,
        &|_, part: &mut Part<'_, i64>| {
            part.set_cycles(sheet, cells, &firsts);
        },
    );
    drop(parts);
    Ok(list)
}

/// The potentials of small cells, in row order.
pub(crate) fn heights<R: Threads + Sync>(
    rt: &R,
    alloc: Global,
    sheet: &Sheet,
    cells: &[SmallCell],
    workers: u32,
) -> Result<Vec<i16>, AllocError> {
    let mut list = vec![in alloc; 0; cells.len()]?;
    let width = sheet.phase.width;
    let mut parts = cut(alloc, &mut list, width)?;
    thread::for_each_mut(
        rt,
        &mut parts,
        workers.max(1) as usize,
        &|_, part: &mut Part<'_, i16>| {
            part.set_heights(width, cells);
        },
    );
    drop(parts);
    Ok(list)
}

/// The faces of the cells, in row order.
pub(crate) fn faces<R: Threads + Sync, H: Height>(
    rt: &R,
    alloc: Global,
    sheet: &Sheet,
    heights: &[H],
    workers: u32,
) -> Result<Vec<i64>, AllocError> {
    let across = sheet.phase.width.saturating_sub(1);
    let along = sheet.phase.height.saturating_sub(1);
    let mut list = vec![in alloc; 0; across as usize * along as usize]?;
    let mut parts = cut(alloc, &mut list, across)?;
    thread::for_each_mut(
        rt,
        &mut parts,
        workers.max(1) as usize,
        &|_, part: &mut Part<'_, i64>| {
            part.set_faces(across, heights);
        },
    );
    drop(parts);
    Ok(list)
}

/// Cuts a list of rows into parts.
fn cut<'a, N>(
    alloc: Global,
    list: &'a mut [N],
    width: u32,
) -> Result<Vec<Part<'a, N>>, AllocError> {
    let mut parts = Vec::new(alloc);
    let mut row: u32 = 0;
    for numbers in list.chunks_mut((width as usize * ROWS).max(1)) {
        parts.push(Part { numbers, row })?;
        row = row.wrapping_add(ROWS as u32);
    }
    Ok(parts)
}

impl Part<'_, i64> {
    /// Sets the cycles, by those of the first pixel of each row.
    fn set_cycles<C: Record>(&mut self, sheet: &Sheet, cells: &[C], firsts: &[i64]) {
        let mut y = self.row;
        for row in self.numbers.chunks_mut(sheet.phase.width as usize) {
            let first = firsts.get(y as usize).copied().unwrap_or(0);
            set_row(sheet, cells, y, first, row);
            y = y.wrapping_add(1);
        }
    }

    /// Sets the faces, of which a row has `across`.
    fn set_faces<H: Height>(&mut self, across: u32, heights: &[H]) {
        let mut y = self.row;
        let width = across.wrapping_add(1);
        for row in self.numbers.chunks_mut(across.max(1) as usize) {
            y = y.wrapping_add(1);
            let first = y.wrapping_mul(width).wrapping_add(1) as usize;
            set_faces(row, heights.get(first..first + row.len()).unwrap_or(&[]));
        }
    }
}

impl Part<'_, i16> {
    /// Sets the potentials, of which a row has `width`.
    fn set_heights(&mut self, width: u32, cells: &[SmallCell]) {
        let first = self.row.wrapping_mul(width) as usize;
        for (height, cell) in self
            .numbers
            .iter_mut()
            .zip(cells.get(first..).unwrap_or(&[]))
        {
            *height = cell.height;
        }
    }
}

/// Sets the cycles at the pixels of a row of which the first has `first`.
fn set_row<C: Record>(sheet: &Sheet, cells: &[C], y: u32, first: i64, row: &mut [i64]) {
    let mut cycles = first;
    let mut x: u32 = 0;
    for number in row {
        if x > 0 {
            cycles = cycles.wrapping_add(rise_right(sheet, cells, x, y));
        }
        *number = cycles;
        x = x.wrapping_add(1);
    }
}

/// Sets the faces of the cells of a row.
fn set_faces<H: Height>(row: &mut [i64], heights: &[H]) {
    for (face, height) in row.iter_mut().zip(heights) {
        *face = height.face();
    }
}

/// The cycles at the first pixel of each row.
fn first_column<C: Record>(
    alloc: Global,
    sheet: &Sheet,
    mask: &Mask,
    cells: &[C],
) -> Result<Vec<i64>, AllocError> {
    let mut list = Vec::new(alloc);
    let mut first = start(sheet, mask, cells);
    for y in 0..sheet.phase.height {
        first = first.wrapping_add(rise_down(sheet, cells, y));
        list.push(first)?;
    }
    Ok(list)
}

/// The cycles at the first pixel by which those at the first open pixel are 0, or 0 if no pixel is open.
fn start<C: Record>(sheet: &Sheet, mask: &Mask, cells: &[C]) -> i64 {
    if mask.width() != sheet.phase.width || mask.height() != sheet.phase.height {
        return 0;
    }
    let Some((x, y)) = sheet.first_open(mask) else {
        return 0;
    };
    let mut cycles: i64 = 0;
    for row in 1..y.wrapping_add(1) {
        cycles = cycles.wrapping_sub(rise_down(sheet, cells, row));
    }
    for column in 1..x.wrapping_add(1) {
        cycles = cycles.wrapping_sub(rise_right(sheet, cells, column, y));
    }
    cycles
}

/// By how many cycles the first pixel of a row is above that of the row before.
fn rise_down<C: Record>(sheet: &Sheet, cells: &[C], y: u32) -> i64 {
    if y == 0 {
        return 0;
    }
    let place = y.wrapping_mul(sheet.phase.width);
    let above = place.wrapping_sub(sheet.phase.width);
    let turns = turns_ramp(
        phase_at(sheet, above),
        phase_at(sheet, place),
        sheet.terms.slope(true),
    );
    let right = cell_at(cells, place).flow(0);
    i64::from(right)
        .wrapping_add(i64::from(turns))
        .wrapping_neg()
}

/// By how many cycles a pixel is above the one on its left.
#[inline(always)]
fn rise_right<C: Record>(sheet: &Sheet, cells: &[C], x: u32, y: u32) -> i64 {
    let place = y.wrapping_mul(sheet.phase.width).wrapping_add(x);
    let turns = turns_ramp(
        phase_at(sheet, place.wrapping_sub(1)),
        phase_at(sheet, place),
        sheet.terms.slope(false),
    );
    let down = cell_at(cells, place).flow(1);
    i64::from(down).wrapping_sub(i64::from(turns))
}

#[inline(always)]
fn phase_at(sheet: &Sheet, place: u32) -> u16 {
    sheet
        .phase
        .samples
        .get(place as usize)
        .copied()
        .unwrap_or(0)
}
