/// Whole cycles asked of each edge of a window in addition to its wrapped difference, in row order of first pixels.
/// (Costantini 1998.)
#[derive(Drop)]
pub struct Corrections {
    /// Of the right edges: one less in a row than the window has pixels there.
    pub right: Vec<i32>,
    /// Of the down edges: in one row less than the window has.
    pub down: Vec<i32>,
}
