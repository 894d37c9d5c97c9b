/// The part of row `y` that lies in one tile: its columns from `first` to `last`, both included.
#[derive(Clone, Copy)]
pub struct Piece {
    pub y: u32,
    pub first: u32,
    pub last: u32,
    /// Whether the row is the first of its tile.
    pub top: bool,
}
