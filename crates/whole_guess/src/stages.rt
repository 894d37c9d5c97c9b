use crate::draining::Drainage;
use crate::guess::Task;
use crate::levels::{GROWTH, SMALLEST, solve_small, solve_wide};
use crate::reaching::Reached;
use cell_forest::{BEYOND, Cell, MOST_SMALL_WEIGHT, OUTSIDE, Record, SmallCell, Stop};
use std::alloc::{AllocError, Global};
use std::thread::Threads;

/// The cells of a raster: in 8 bytes each as long as their numbers fit, and otherwise in 16.
#[derive(Drop)]
pub(crate) enum Cells {
    Small(Vec<SmallCell>),
    Wide(Vec<Cell>),
}

impl Cells {
    /// No cells.
    pub(crate) fn none(alloc: Global) -> Cells {
        Cells::Small(Vec::new(alloc))
    }

    /// The cells of a sheet, all of which are outside. They are small if the weights are.
    pub(crate) fn outside(alloc: Global, task: &Task<'_>) -> Result<Cells, AllocError> {
        let count = task.sheet.phase.samples.len();
        if task.sheet.weights.maxval <= MOST_SMALL_WEIGHT {
            let beyond = SmallCell::of([0; 2], 0, OUTSIDE);
            Ok(Cells::Small(vec![in alloc; beyond; count]?))
        } else {
            Ok(Cells::Wide(vec![in alloc; BEYOND; count]?))
        }
    }

    /// Solves all blocks, level by level, until one block is the whole, then the lakes, and lets the sea flow off.
    pub(crate) fn solve<R: Threads + Sync>(
        &mut self,
        rt: &R,
        alloc: Global,
        task: &Task<'_>,
        workers: u32,
    ) -> Result<(), Stop> {
        let phase = &task.sheet.phase;
        let mut side = SMALLEST;
        for _ in 0..16 {
            self.solve_level(rt, alloc, task, side, workers)?;
            if side >= phase.width && side >= phase.height {
                break;
            }
            side = side.wrapping_mul(GROWTH);
        }
        self.balance_lakes(alloc, task)
    }

    /// Solves the blocks of a side, where those of the level before are solved.
    fn solve_level<R: Threads + Sync>(
        &mut self,
        rt: &R,
        alloc: Global,
        task: &Task<'_>,
        side: u32,
        workers: u32,
    ) -> Result<(), Stop> {
        let outcome = self.try_level(rt, alloc, task, side, workers);
        if self.are_widened(alloc, outcome)? {
            return self.try_level(rt, alloc, task, side, workers);
        }
        outcome
    }

    /// Solves the blocks of a side that are not solved yet.
    fn try_level<R: Threads + Sync>(
        &mut self,
        rt: &R,
        alloc: Global,
        task: &Task<'_>,
        side: u32,
        workers: u32,
    ) -> Result<(), Stop> {
        match self {
            Cells::Small(cells) => solve_small(rt, alloc, task, cells, side, workers),
            Cells::Wide(cells) => solve_wide(rt, alloc, task, cells, side, workers),
        }
    }

    /// Balances the lakes, where all other cells are balanced.
    fn balance_lakes(&mut self, alloc: Global, task: &Task<'_>) -> Result<(), Stop> {
        if !task.waters.has_lakes {
            return Ok(());
        }
        let mut drainage = Drainage::of(alloc, task, self.count())?;
        let outcome = self.try_lakes(task, &mut drainage);
        if self.are_widened(alloc, outcome)? {
            return self.try_lakes(task, &mut drainage);
        }
        outcome
    }

    /// Balances the lakes that are not balanced yet.
    fn try_lakes(&mut self, task: &Task<'_>, drainage: &mut Drainage) -> Result<(), Stop> {
        match self {
            Cells::Small(cells) => drainage.balance_lakes(task.waters, cells),
            Cells::Wide(cells) => drainage.balance_lakes(task.waters, cells),
        }
    }

    /// Lets what has reached the sea flow on to the border, at no cost.
    pub(crate) fn drain_sea(&mut self, alloc: Global, task: &Task<'_>) -> Result<(), Stop> {
        if !task.waters.has_sea {
            return Ok(());
        }
        let mut drainage = Drainage::of(alloc, task, self.count())?;
        let outcome = self.try_sea(task, &mut drainage);
        if self.are_widened(alloc, outcome)? {
            return self.try_sea(task, &mut drainage);
        }
        outcome
    }

    /// Lets what has reached the sea and did not flow on yet do so.
    fn try_sea(&mut self, task: &Task<'_>, drainage: &mut Drainage) -> Result<(), Stop> {
        match self {
            Cells::Small(cells) => drainage.drain_sea(task.waters, cells),
            Cells::Wide(cells) => drainage.drain_sea(task.waters, cells),
        }
    }

    /// How many cells there are.
    fn count(&self) -> usize {
        match self {
            Cells::Small(cells) => cells.len(),
            Cells::Wide(cells) => cells.len(),
        }
    }

    /// Goes over to wide cells, if a number did not fit small ones. The result is whether it does.
    fn are_widened(
        &mut self,
        alloc: Global,
        outcome: Result<(), Stop>,
    ) -> Result<bool, AllocError> {
        if let (Err(Stop::Unfit), Cells::Small(cells)) = (outcome, &*self) {
            *self = Cells::Wide(widened(alloc, cells)?);
            return Ok(true);
        }
        Ok(false)
    }

    /// What the cells hold, in rows of `width`.
    pub(crate) fn reached(&self, alloc: Global, width: u32) -> Result<Reached, AllocError> {
        match self {
            Cells::Small(cells) => Reached::of(alloc, cells, width),
            Cells::Wide(cells) => Reached::of(alloc, cells, width),
        }
    }
}

/// The same cells in 16 bytes each.
fn widened(alloc: Global, cells: &[SmallCell]) -> Result<Vec<Cell>, AllocError> {
    let mut list = vec![in alloc; BEYOND; cells.len()]?;
    for (wide, cell) in list.iter_mut().zip(cells) {
        *wide = cell.widen();
    }
    Ok(list)
}
