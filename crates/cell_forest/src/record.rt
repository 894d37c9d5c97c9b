use crate::cell::ROOT;

/// What trees need of a cell and of the edges between it and the cell on the right, and between it and the cell below, which have
/// the places 0 and 1. A number that does not fit is not set.
pub trait Record: Copy + Send + Sync + 'static {
    /// No potential may pass this or its negative, in a tree nor out of one.
    const HIGHEST: i32;

    /// Nothing that flows across an edge, and nothing that a cell has to send, may pass this or its negative.
    const MOST: i32;

    /// A cell of the outside with nothing set.
    fn beyond() -> &'static Self;

    /// A cell without flow, with the potential 0.
    fn of(weights: [u16; 2], excess: i16, step: u8) -> Self;

    /// The potential. In a tree the time is added to it.
    fn height(&self) -> i32;

    /// Sets the potential.
    fn set_height(&mut self, height: i32);

    /// The weight of an edge.
    fn weight(&self, place: usize) -> i32;

    /// What flows across an edge, to the right or down.
    fn flow(&self, place: usize) -> i32;

    /// Sets what flows across an edge.
    fn set_flow(&mut self, place: usize, flow: i32);

    /// What the cell has to send.
    fn excess(&self) -> i32;

    /// Sets what the cell has to send.
    fn set_excess(&mut self, excess: i32);

    /// The direction to the cell from which it joined its tree.
    fn step(&self) -> u8;

    /// Sets the direction to the cell from which it joined its tree.
    fn set_step(&mut self, step: u8);
}

/// The cell at a place, or one of the outside if there is none.
#[inline(always)]
pub fn cell_at<C: Record>(cells: &[C], place: u32) -> &C {
    cells.get(place as usize).unwrap_or(C::beyond())
}

/// Whether a cell is in a tree.
#[inline(always)]
pub(crate) fn is_in_tree<C: Record>(cell: &C) -> bool {
    cell.step() <= ROOT
}

/// What a cell has to send, times `SIGN`.
#[inline(always)]
pub(crate) fn supply_of<C: Record, const SIGN: i32>(cell: &C) -> i32 {
    cell.excess().wrapping_mul(SIGN)
}
