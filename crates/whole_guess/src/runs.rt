use raster_model::Mask;
use std::alloc::{AllocError, Global};

/// How many pixels are tested at once.
const SPAN: u32 = 64;

/// Masked pixels of a row side by side, from a place to before another.
#[derive(Clone, Copy)]
struct Run {
    start: u32,
    end: u32,
    /// The number of a run to which it is joined, or its own.
    parent: u32,
    /// How many pixels are joined to it, and whether one is at the border of the raster, if it is its own parent.
    size: u32,
    at_border: bool,
}

/// No pixel.
const NOTHING: Run = Run {
    start: 0,
    end: 0,
    parent: 0,
    size: 0,
    at_border: false,
};

/// The masked pixels of a raster in runs, in row order, joined side by side or corner to corner. (Hoshen and Kopelman 1976, by runs.)
#[derive(Drop)]
pub(crate) struct Runs {
    width: u32,
    height: u32,
    runs: Vec<Run>,
}

impl Runs {
    /// The runs of a mask.
    pub(crate) fn of(alloc: Global, mask: &Mask) -> Result<Runs, AllocError> {
        let mut runs = Runs {
            width: mask.width(),
            height: mask.height(),
            runs: Vec::new(alloc),
        };
        let mut above: u32 = 0;
        for y in 0..mask.height() {
            let here = runs.count();
            if !mask.is_open_span(y, 0, mask.width() - 1) {
                runs.add_row(mask, y)?;
            }
            runs.join_rows(above, here);
            above = here;
        }
        Ok(runs)
    }

    /// How many runs there are.
    pub(crate) fn count(&self) -> u32 {
        u32::try_from(self.runs.len()).unwrap_or(u32::MAX)
    }

    /// The places of the pixels of a run: the first, and the one behind the last.
    pub(crate) fn span(&self, number: u32) -> (u32, u32) {
        let run = self.run(number);
        (run.start, run.end)
    }

    /// How many pixels are joined to a run, and whether one of them is at the border of the raster.
    pub(crate) fn joined(&mut self, number: u32) -> (u32, bool) {
        let root = self.root(number);
        let run = self.run(root);
        (run.size, run.at_border)
    }

    /// A run.
    #[inline(always)]
    fn run(&self, number: u32) -> Run {
        self.runs.get(number as usize).copied().unwrap_or(NOTHING)
    }

    /// Adds the runs of a row.
    fn add_row(&mut self, mask: &Mask, y: u32) -> Result<(), AllocError> {
        for x in (0..mask.width()).step_by(SPAN as usize) {
            let end = x.wrapping_add(SPAN).min(mask.width());
            if x < end && y < mask.height() && !mask.is_open_span(y, x, end - 1) {
                self.add_span(mask, y, (x, end))?;
            }
        }
        Ok(())
    }

    /// Adds the masked pixels of a row from a column to before another.
    fn add_span(
        &mut self,
        mask: &Mask,
        y: u32,
        (first, end): (u32, u32),
    ) -> Result<(), AllocError> {
        for x in first..end {
            if x < mask.width() && y < mask.height() && !mask.is_open(x, y) {
                self.add_pixel(x, y)?;
            }
        }
        Ok(())
    }

    /// Adds a pixel to the last run, if it comes after it in its row, or as a new one.
    #[inline(always)]
    fn add_pixel(&mut self, x: u32, y: u32) -> Result<(), AllocError> {
        let place = y.wrapping_mul(self.width).wrapping_add(x);
        let at_border = self.is_border(x, y);
        if let Some(run) = self.runs.last_mut() {
            if run.end == place && x > 0 {
                run.end = place.wrapping_add(1);
                run.size = run.size.wrapping_add(1);
                run.at_border |= at_border;
                return Ok(());
            }
        }
        let number = self.count();
        self.runs.push(Run {
            start: place,
            end: place.wrapping_add(1),
            parent: number,
            size: 1,
            at_border,
        })?;
        Ok(())
    }

    /// Whether a pixel is at the border of the raster.
    #[inline(always)]
    fn is_border(&self, x: u32, y: u32) -> bool {
        x == 0 || y == 0 || x.wrapping_add(1) == self.width || y.wrapping_add(1) == self.height
    }

    /// Joins the runs of the last row, which begin with the number `here`, to those of the row above, from `above` on.
    fn join_rows(&mut self, above: u32, here: u32) {
        let mut next = above;
        for number in here..self.count() {
            next = self.join_run(number, next, here);
        }
    }

    /// Joins a run to those above it, from the number `next` to before `end`. The result is the first that may be above the run
    /// behind it.
    fn join_run(&mut self, number: u32, next: u32, end: u32) -> u32 {
        let here = self.run(number);
        for other in next..end {
            let above = self.run(other);
            let start = above.start.wrapping_add(self.width);
            let end = above.end.wrapping_add(self.width);
            if start > here.end {
                return other;
            }
            if end >= here.start {
                self.unite(other, number);
            }
            if end > here.end {
                return other;
            }
        }
        end
    }

    /// Joins two runs and those that are joined to them.
    fn unite(&mut self, one: u32, other: u32) {
        let (one, other) = (self.root(one), self.root(other));
        if one == other {
            return;
        }
        let (first, second) = (one.min(other), one.max(other));
        let joined = self.run(second);
        if let Some(run) = self.runs.get_mut(second as usize) {
            run.parent = first;
        }
        if let Some(run) = self.runs.get_mut(first as usize) {
            run.size = run.size.wrapping_add(joined.size);
            run.at_border |= joined.at_border;
        }
    }

    /// The run that stands for all that are joined to one. What is passed on the way is joined to it more directly.
    fn root(&mut self, number: u32) -> u32 {
        let mut number = number;
        for _ in 0..self.runs.len() {
            let parent = self.run(number).parent;
            if parent == number {
                break;
            }
            let above = self.run(parent).parent;
            if let Some(run) = self.runs.get_mut(number as usize) {
                run.parent = above;
            }
            number = above;
        }
        number
    }
}
