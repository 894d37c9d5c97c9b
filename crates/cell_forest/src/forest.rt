use crate::cell::{DOWN, FREE, LEFT, RIGHT, UP};
use crate::crossing::crossing_of;
use crate::queue::Queue;
use crate::record::{Record, cell_at, is_in_tree};
use crate::searching::{Goal, NOWHERE};
use crate::stop::Stop;
use std::alloc::{AllocError, Global};

/// How many steps are taken for each cell, by which no forest that was measured gave up.
pub const PATIENCE: u64 = 4096;

/// How trees grow in a list of cells: rows of `stride` cells, of which the first row and the first cell of each row are
/// outside, as is what lies beyond the list.
#[derive(Drop)]
pub struct Forest {
    /// How many cells a row has.
    pub(crate) stride: u32,
    /// For each direction, how far a cell's number is from that of the cell to which its arc leads.
    offsets: [u32; 4],
    /// How many times as much as the first unit across an edge each further one costs.
    pub(crate) steep: i32,
    /// The arcs that may join cells to trees.
    pub(crate) queue: Queue,
    /// Cells of a tree that is taken apart, or grows alone.
    pub(crate) members: Vec<u32>,
    /// How many cells the tree that grows alone has.
    pub(crate) grown: usize,
    /// Where the tree that grows alone ends.
    pub(crate) goal: Goal,
    /// The cells with something to send or to be sent, which `balance` serves.
    pub listed: Vec<u32>,
    /// The cells of a block that `solve_block` has opened, and which have something to send or to be sent.
    pub(crate) opened: Vec<u32>,
    /// The least that a cell has held in a tree in place of its potential, times the sign, since all trees were taken apart,
    /// or 0 if that was more.
    pub(crate) lowest: i32,
    /// How many steps may be taken yet: arcs that are followed, and cells that join a tree which grows alone.
    pub(crate) steps: u64,
}

impl Forest {
    /// A forest with no tree. The first unit across an edge costs its weight, which is at most `greatest`, and each further
    /// one `steep` times that, which is from 1 to 16. In all it takes at most `patience` steps for each of `count` cells. It
    /// fails only for lack of memory.
    pub fn new(
        alloc: Global,
        steep: u32,
        greatest: u32,
        count: usize,
        patience: u64,
    ) -> Result<Forest, AllocError> {
        Ok(Forest {
            stride: 1,
            offsets: [0; 4],
            steep: steep.cast_signed(),
            queue: Queue::new(alloc, steep.wrapping_mul(greatest).wrapping_mul(2))?,
            members: Vec::new(alloc),
            grown: 0,
            goal: NOWHERE,
            listed: Vec::new(alloc),
            opened: Vec::new(alloc),
            lowest: 0,
            steps: (count as u64).wrapping_mul(patience),
        })
    }

    /// Sets how many cells a row has.
    pub fn set_stride(&mut self, stride: u32) {
        self.stride = stride;
        self.offsets = [1, u32::MAX, stride, stride.wrapping_neg()];
    }

    /// The cell to which an arc leads.
    #[inline(always)]
    pub fn head(&self, tail: u32, direction: u8) -> u32 {
        tail.wrapping_add(self.offsets.get(direction as usize).copied().unwrap_or(0))
    }

    /// The time at which an arc joins its head to its tail's tree. Potentials and flows are taken times `SIGN`.
    #[inline(always)]
    pub(crate) fn due<C: Record, const SIGN: i32>(&self, tail: &C, head: &C, direction: u8) -> i32 {
        let fall = tail.height().wrapping_sub(head.height()).wrapping_mul(SIGN);
        crossing_of::<C, SIGN>(tail, head, direction)
            .cost(self.steep)
            .wrapping_add(fall)
    }

    /// Joins a cell to a tree by the step to its parent, and queues the arcs out of it.
    #[inline(always)]
    pub(crate) fn attach<C: Record, const SIGN: i32>(
        &mut self,
        cells: &mut [C],
        place: u32,
        step: u8,
        time: i32,
    ) -> Result<(), Stop> {
        let Some(joined) = self.join::<C, SIGN>(cells, place, step, time)? else {
            return Ok(());
        };
        self.queue.make_room()?;
        self.offer::<C, SIGN>(cells, &joined, place, RIGHT);
        self.offer::<C, SIGN>(cells, &joined, place, LEFT);
        self.offer::<C, SIGN>(cells, &joined, place, DOWN);
        self.offer::<C, SIGN>(cells, &joined, place, UP);
        Ok(())
    }

    /// Joins a cell to a tree by the step to its parent. The result is what it holds then, if there is one.
    #[inline(always)]
    pub(crate) fn join<C: Record, const SIGN: i32>(
        &mut self,
        cells: &mut [C],
        place: u32,
        step: u8,
        time: i32,
    ) -> Result<Option<C>, Stop> {
        let Some(cell) = cells.get_mut(place as usize) else {
            return Ok(None);
        };
        let height = cell.height().wrapping_add(time.wrapping_mul(SIGN));
        let held = height.wrapping_mul(SIGN);
        let lowest = self.lowest.min(held);
        if held > C::HIGHEST || time.wrapping_sub(lowest) > C::HIGHEST {
            return Err(Stop::Unfit);
        }
        self.lowest = lowest;
        cell.set_height(height);
        cell.set_step(step);
        Ok(Some(*cell))
    }

    /// The last time at which the potentials of all cells in trees fit.
    #[inline(always)]
    pub(crate) fn last_time<C: Record>(&self) -> i32 {
        self.lowest.wrapping_add(C::HIGHEST)
    }

    /// Drops all events, where no cell is in a tree. The present time is 0 again.
    pub(crate) fn begin(&mut self) {
        self.queue.clear();
        self.lowest = 0;
    }

    /// Queues an arc out of a tree, unless its head is in a tree.
    #[inline(always)]
    pub(crate) fn offer<C: Record, const SIGN: i32>(
        &mut self,
        cells: &[C],
        tail: &C,
        place: u32,
        direction: u8,
    ) {
        let head = cell_at(cells, self.head(place, direction));
        if !is_in_tree(head) {
            let time = self.due::<C, SIGN>(tail, head, direction);
            self.queue.put(time, arc_of(place, direction));
        }
    }

    /// Takes a cell and all that hangs below it out of its tree, and queues the arcs from trees into what left.
    pub(crate) fn dissolve<C: Record, const SIGN: i32>(
        &mut self,
        cells: &mut [C],
        top: u32,
        time: i32,
    ) -> Result<(), AllocError> {
        self.make_room(0)?;
        self.list(0, top);
        let mut count: usize = 1;
        for index in 0..cells.len() {
            if index >= count {
                break;
            }
            self.make_room(count)?;
            let place = self.members.get(index).copied().unwrap_or(0);
            count = self.leave::<C, SIGN>(cells, place, time, count);
        }
        for index in 0..count {
            let place = self.members.get(index).copied().unwrap_or(0);
            self.invite::<C, SIGN>(cells, place)?;
        }
        Ok(())
    }

    /// Takes all cells out of their trees, at the present time, or before if potentials would not fit.
    pub(crate) fn fold<C: Record, const SIGN: i32>(&self, cells: &mut [C]) {
        let time = self.queue.present().min(self.last_time::<C>());
        for cell in cells {
            if is_in_tree(cell) {
                set_free::<C, SIGN>(cell, time);
            }
        }
    }

    /// Makes the list of members long enough for four more than `count`.
    #[inline(always)]
    pub(crate) fn make_room(&mut self, count: usize) -> Result<(), AllocError> {
        if self.members.len() < count.wrapping_add(4) {
            self.members.extend_from_slice(&[0; 64])?;
        }
        Ok(())
    }

    /// Writes a member at a place of the list.
    #[inline(always)]
    pub(crate) fn list(&mut self, index: usize, place: u32) {
        if let Some(member) = self.members.get_mut(index) {
            *member = place;
        }
    }

    /// Takes a cell out of its tree, and lists those that hang on it behind the `count` members. The result is how many members
    /// there are then.
    #[inline(always)]
    fn leave<C: Record, const SIGN: i32>(
        &mut self,
        cells: &mut [C],
        place: u32,
        time: i32,
        count: usize,
    ) -> usize {
        if let Some(cell) = cells.get_mut(place as usize) {
            set_free::<C, SIGN>(cell, time);
        }
        let count = self.list_child(cells, place, RIGHT, count);
        let count = self.list_child(cells, place, LEFT, count);
        let count = self.list_child(cells, place, DOWN, count);
        self.list_child(cells, place, UP, count)
    }

    /// Lists the cell to which an arc leads, if it hangs on the arc's tail. It is written in any case, and counted if so, since that
    /// cannot be predicted.
    #[inline(always)]
    fn list_child<C: Record>(
        &mut self,
        cells: &[C],
        place: u32,
        direction: u8,
        count: usize,
    ) -> usize {
        let child = self.head(place, direction);
        self.list(count, child);
        let hangs = cell_at(cells, child).step() == direction ^ 1;
        count.wrapping_add(usize::from(hangs))
    }

    /// Queues the arcs from trees into a cell that is in none.
    pub(crate) fn invite<C: Record, const SIGN: i32>(
        &mut self,
        cells: &[C],
        place: u32,
    ) -> Result<(), AllocError> {
        let head = *cell_at(cells, place);
        self.queue.make_room()?;
        self.accept::<C, SIGN>(cells, &head, place, RIGHT);
        self.accept::<C, SIGN>(cells, &head, place, LEFT);
        self.accept::<C, SIGN>(cells, &head, place, DOWN);
        self.accept::<C, SIGN>(cells, &head, place, UP);
        Ok(())
    }

    /// Queues the reverse of an arc out of a cell that is in no tree, if it leads out of one.
    #[inline(always)]
    fn accept<C: Record, const SIGN: i32>(
        &mut self,
        cells: &[C],
        head: &C,
        place: u32,
        direction: u8,
    ) {
        let from = self.head(place, direction);
        let tail = cell_at(cells, from);
        if is_in_tree(tail) {
            let time = self.due::<C, SIGN>(tail, head, direction ^ 1);
            self.queue.put(time, arc_of(from, direction ^ 1));
        }
    }
}

/// Takes a cell out of its tree at a time.
#[inline(always)]
pub(crate) fn set_free<C: Record, const SIGN: i32>(cell: &mut C, time: i32) {
    cell.set_height(cell.height().wrapping_sub(time.wrapping_mul(SIGN)));
    cell.set_step(FREE);
}

/// The number of an arc.
#[inline(always)]
pub(crate) fn arc_of(tail: u32, direction: u8) -> u32 {
    tail.wrapping_mul(4).wrapping_add(u32::from(direction))
}
