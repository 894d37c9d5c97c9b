use crate::loading::Tile;
use std::alloc::{AllocError, Global};

/// The cells of a tile and the edges between them. A right edge lies between the cell above it and the cell below, and
/// a down edge between the cell right of it and the cell left. Beyond the border lies the outside.
#[derive(Clone, Copy)]
pub struct Grid<'a> {
    /// How many cells a row has, and how many rows there are. The product is below 2^28.
    pub across: u32,
    pub along: u32,
    /// The weights of the right edges in row order, `across` in each of `along + 1` rows.
    pub right: &'a [i32],
    /// The weights of the down edges in row order, `across + 1` in each of `along` rows.
    pub down: &'a [i32],
    /// The residues of the cells in row order, in cycles.
    pub residues: &'a [i8],
    /// The steepness, from 1 to 16: how many times as much as the first cycle across an edge each further one costs.
    pub steep: u32,
}

/// Corrections of the edges, in whole cycles, and faces of the cells, in the order of the grid's lists.
#[derive(Drop)]
pub struct Guess {
    pub right: Vec<i32>,
    pub down: Vec<i32>,
    pub faces: Vec<i64>,
}

/// Guesses corrections that cancel the residues at the least cost, and the faces that certify them. Nothing is promised
/// of them. If the grid's lists have their lengths, its weights lie from 0 to 65,535 and its residues from -1 to 1, they are right
/// in every test, and take a few steps for each cell. It never takes more than 4,096 steps for each place of the outside
/// before a row or above and each cell. It fails only for lack of memory.
///
/// The flow leaves cells of positive residue and ends at those of negative residue or outside. Trees grow from all
/// cells that hold flow, at one common time, along arcs as their reduced costs fall to 0. When a tree meets a cell that
/// lacks flow, flow takes its branch. (Ahuja, Magnanti and Orlin 1993, section 9.8, in the form of Hopcroft and Karp's
/// forests.)
pub fn guess_flow(alloc: Global, grid: Grid<'_>) -> Result<Guess, AllocError> {
    let mut tile = Tile::of(alloc, grid)?;
    tile.solve(alloc, grid)?;
    Ok(Guess {
        right: tile.right_corrections(alloc)?,
        down: tile.down_corrections(alloc)?,
        faces: tile.faces(alloc)?,
    })
}
