//! Worked rows of rasters, masks, certificates and surfaces, and what the solvers answer on rasters whose least costs, offsets
//! and flows are known from outside.
#![tactic(auto)]

#[cfg(test)]
mod balance;
#[cfg(test)]
mod certificate_rows;
#[cfg(test)]
mod gradient_rows;
#[cfg(test)]
mod guess_rows;
#[cfg(test)]
mod mask_rows;
#[cfg(test)]
mod offset_rows;
#[cfg(test)]
mod outcomes;
#[cfg(test)]
mod raster_rows;
#[cfg(test)]
mod reading;
#[cfg(test)]
mod region_rows;
#[cfg(test)]
mod seam_rows;
#[cfg(test)]
mod snapshot_rows;
#[cfg(test)]
mod square_rows;
#[cfg(test)]
mod steep_rows;
#[cfg(test)]
mod tile_rows;
#[cfg(test)]
mod weight_rows;
#[cfg(test)]
mod whole_rows;
