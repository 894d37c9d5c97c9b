//! Worked rows of the crates that read and write texts, and of those that commands stand on: displacements along the line of
//! sight, loops of grids, screened masks, test sessions, and the least surface of the whole raster with its text and verdicts.
#![tactic(auto)]

#[cfg(test)]
mod board_rows;
#[cfg(test)]
mod loop_rows;
#[cfg(test)]
mod network_rows;
#[cfg(test)]
mod outcomes;
#[cfg(test)]
mod page_rows;
#[cfg(test)]
mod patch_rows;
#[cfg(test)]
mod plane_rows;
#[cfg(test)]
mod port_rows;
#[cfg(test)]
mod reached_rows;
#[cfg(test)]
mod reading_rows;
#[cfg(test)]
mod screen_rows;
#[cfg(test)]
mod session_rows;
#[cfg(test)]
mod sight_rows;
#[cfg(test)]
mod text_rows;
#[cfg(test)]
mod trial_rows;
#[cfg(test)]
mod whole_rows;
