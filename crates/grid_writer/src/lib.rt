//! Surfaces as Esri ASCII rasters, in one spelling: written, read again, and laid over a scene.
#![tactic(auto)]

mod fault;
mod grid;
pub mod laws;
mod many;
mod read;
mod row_lines;
mod rows;
mod shown;
mod value_lines;
mod values;

pub use crate::fault::GridsFault;
pub use crate::grid::{
    add_grid, add_grid_side_by_side, add_header, add_values, write_grid, write_grid_side_by_side,
    write_values,
};
pub use crate::many::read_grids;
pub use crate::read::{read_grid, read_sized_grid, read_sized_values};
pub use crate::rows::Rows;
pub use crate::shown::ShownValues;
pub use crate::values::{Grid, NO_DATA};
pub use text_lines::LineFault as GridFault;
