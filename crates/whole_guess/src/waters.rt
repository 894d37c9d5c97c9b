use crate::runs::Runs;
use cell_forest::{FREE, OUTSIDE};
use raster_model::Mask;
use std::alloc::{AllocError, Global};

/// In place of a direction: the cell belongs to the sea, and is a part of the outside for good.
pub(crate) const SEA: u8 = OUTSIDE + 1;

/// In place of a direction: the cell belongs to a lake, and is a part of the outside until the whole is one block.
pub(crate) const LAKE: u8 = OUTSIDE + 2;

/// How many pixels a lake has at least.
const LEAST: u32 = 256;

/// The sea and the lakes of a mask: masked pixels that are joined to the border of the raster, and those that are many and are not.
/// They are joined side by side or corner to corner. No edge at one of them costs anything, so what flows to a cell around them
/// flows on at no cost to each other cell around those that are joined to it.
#[derive(Drop)]
pub(crate) struct Waters {
    width: u32,
    pub(crate) height: u32,
    /// For each pixel in row order what the cells around it hold in place of a step, or an empty list if none is masked.
    steps: Vec<u8>,
    /// For each row whether a lake has a pixel in it.
    lake_rows: Vec<bool>,
    pub(crate) has_sea: bool,
    pub(crate) has_lakes: bool,
}

impl Waters {
    /// The sea and the lakes of a mask.
    pub(crate) fn of(alloc: Global, mask: &Mask) -> Result<Waters, AllocError> {
        let (width, height) = (mask.width(), mask.height());
        let mut waters = Waters {
            width,
            height,
            steps: Vec::new(alloc),
            lake_rows: vec![in alloc; false; height as usize]?,
            has_sea: false,
            has_lakes: false,
        };
        let mut runs = Runs::of(alloc, mask)?;
        if runs.count() > 0 {
            waters.steps = vec![in alloc; FREE; width as usize * height as usize]?;
            waters.note(&mut runs);
        }
        Ok(waters)
    }

    /// What the cells around a pixel hold in place of a step, by that pixel alone. What is beyond the raster is land.
    #[inline(always)]
    pub(crate) fn step(&self, x: u32, y: u32) -> u8 {
        let place = y.wrapping_mul(self.width).wrapping_add(x);
        self.steps.get(place as usize).copied().unwrap_or(FREE)
    }

    /// Whether a row of cells may have one of a lake.
    pub(crate) fn may_have_lake(&self, y: u32) -> bool {
        self.has_lake(y) || self.has_lake(y.wrapping_sub(1))
    }

    /// Whether a lake has a pixel in a row.
    fn has_lake(&self, y: u32) -> bool {
        self.lake_rows.get(y as usize).copied().unwrap_or(false)
    }

    /// Notes what the pixels of all runs are.
    fn note(&mut self, runs: &mut Runs) {
        for number in 0..runs.count() {
            let (size, at_border) = runs.joined(number);
            if at_border {
                self.has_sea = true;
                set_span(&mut self.steps, runs.span(number), SEA);
            } else if size >= LEAST {
                self.has_lakes = true;
                set_span(&mut self.steps, runs.span(number), LAKE);
                self.note_lake_row(runs.span(number));
            }
        }
    }

    /// Notes that a lake has pixels from a place on.
    fn note_lake_row(&mut self, (start, _): (u32, u32)) {
        let y = start / self.width.max(1);
        if let Some(row) = self.lake_rows.get_mut(y as usize) {
            *row = true;
        }
    }
}

/// Sets what is held for the pixels from a place to before another.
fn set_span(steps: &mut [u8], (start, end): (u32, u32), step: u8) {
    if let Some(part) = steps.get_mut(start as usize..end as usize) {
        part.fill(step);
    }
}
