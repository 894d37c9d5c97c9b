use crate::grid::Grid;
use cell_forest::{BEYOND, Cell};
use std::alloc::{AllocError, Global};

/// The cells of a grid and the edges between them, in rows of `stride`. The first row and the first column are outside, and
/// so is what lies beyond the list. At first all cells are outside.
#[derive(Drop)]
pub(crate) struct Tile {
    pub(crate) across: u32,
    pub(crate) along: u32,
    /// How many cells a row has: one more than the grid.
    pub(crate) stride: u32,
    pub(crate) cells: Vec<Cell>,
}

impl Tile {
    /// A grid with no flow and potentials of 0.
    pub(crate) fn of(alloc: Global, grid: Grid<'_>) -> Result<Tile, AllocError> {
        let across = grid.across.min(4096);
        let along = grid.along.min(4096);
        let stride = across + 1;
        let count = stride.wrapping_mul(along + 1);
        let mut cells = vec![in alloc; BEYOND; count as usize]?;
        let mut y: u32 = 0;
        for row in cells.chunks_mut(stride as usize) {
            load_row(row, grid, y);
            y = y.wrapping_add(1);
        }
        Ok(Tile {
            across,
            along,
            stride,
            cells,
        })
    }
}

/// Sets the weights of the edges and what is to be sent in a row of cells, the first of which is outside. All of the row `y` 0
/// are outside.
fn load_row(row: &mut [Cell], grid: Grid<'_>, y: u32) {
    let across = grid.across;
    load_right(row, part(grid.right, y, across));
    if y == 0 {
        return;
    }
    let before = y.wrapping_sub(1);
    load_residues(row, part(grid.residues, before, across));
    load_down(row, part(grid.down, before, across.wrapping_add(1)));
}

/// A row of a list in row order, or nothing if the list is too short.
fn part<T>(list: &[T], y: u32, width: u32) -> &[T] {
    let first = y.wrapping_mul(width) as usize;
    list.get(first..first + width as usize).unwrap_or(&[])
}

/// Sets the weights of the edges below the cells of a row but the first.
fn load_right(row: &mut [Cell], weights: &[i32]) {
    for (cell, weight) in row.iter_mut().skip(1).zip(weights) {
        let [right, _] = cell.weights;
        cell.weights = [right, narrow(*weight)];
    }
}

/// Sets the weights of the edges on the right of the cells of a row.
fn load_down(row: &mut [Cell], weights: &[i32]) {
    for (cell, weight) in row.iter_mut().zip(weights) {
        let [_, down] = cell.weights;
        cell.weights = [narrow(*weight), down];
    }
}

/// A weight in 16 bits, or the greatest of these if it has more.
#[inline(always)]
fn narrow(weight: i32) -> u16 {
    u16::try_from(weight).unwrap_or(u16::MAX)
}

/// Sets what the cells of a row but the first have to send.
fn load_residues(row: &mut [Cell], residues: &[i8]) {
    for (cell, residue) in row.iter_mut().skip(1).zip(residues) {
        cell.excess = i16::from(*residue);
    }
}
