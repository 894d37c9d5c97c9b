use crate::cell::{FREE, ROOT};
use crate::crossing::{crossing_of, push};
use crate::forest::Forest;
use crate::queue::Event;
use crate::record::{Record, cell_at, is_in_tree, supply_of};
use crate::stop::Stop;

/// A way that flow takes: from a root along its tree to `tail`, and then along an arc.
#[derive(Clone, Copy)]
pub(crate) struct Way {
    pub(crate) tail: u32,
    pub(crate) head: u32,
    pub(crate) direction: u8,
}

impl Forest {
    /// Balances the listed cells: first what is to be sent, then what is lacking. It gives up if a number does not fit or
    /// the steps run out; then the flows and the potentials still fit each other, and no cell is in a tree.
    pub fn balance<C: Record>(&mut self, cells: &mut [C]) -> Result<(), Stop> {
        self.grow_or_fold::<C, 1>(cells)?;
        self.grow_or_fold::<C, -1>(cells)
    }

    /// Grows trees, and takes them apart if that is given up.
    fn grow_or_fold<C: Record, const SIGN: i32>(&mut self, cells: &mut [C]) -> Result<(), Stop> {
        let outcome = self.send_all::<C, SIGN>(cells);
        if let Err(Stop::GivenUp | Stop::Unfit) = outcome {
            self.fold::<C, SIGN>(cells);
        }
        outcome
    }

    /// Sends what the listed cells have to send, times `SIGN`, to those that lack it and outside: first by trees that grow one
    /// after another, and what these leave by trees that grow at one time.
    fn send_all<C: Record, const SIGN: i32>(&mut self, cells: &mut [C]) -> Result<(), Stop> {
        self.search_all::<C, SIGN>(cells)?;
        self.grow::<C, SIGN>(cells)
    }

    /// Grows trees from all listed cells with something to send, times `SIGN`, until none has.
    fn grow<C: Record, const SIGN: i32>(&mut self, cells: &mut [C]) -> Result<(), Stop> {
        self.begin();
        let mut left = self.plant::<C, SIGN>(cells)?;
        for taken in 0..self.steps {
            if left == 0 {
                self.steps = self.steps.wrapping_sub(taken);
                return Ok(());
            }
            let Some(event) = self.queue.take() else {
                return Err(Stop::GivenUp);
            };
            if self.follow::<C, SIGN>(cells, event)? {
                left = left.wrapping_sub(1);
            }
        }
        Err(Stop::GivenUp)
    }

    /// Makes each listed cell with something to send a tree of its own. The result is how many there are.
    fn plant<C: Record, const SIGN: i32>(&mut self, cells: &mut [C]) -> Result<u32, Stop> {
        let mut planted: u32 = 0;
        for index in 0..self.listed.len() {
            let place = self.listed.get(index).copied().unwrap_or(0);
            let cell = cell_at(cells, place);
            if cell.step() == FREE && supply_of::<C, SIGN>(cell) > 0 {
                planted = planted.wrapping_add(1);
                self.attach::<C, SIGN>(cells, place, ROOT, 0)?;
            }
        }
        Ok(planted)
    }

    /// Follows an arc whose time has come, unless it leads from no tree, into a tree, or at another time. The result is
    /// whether a root has nothing left to send.
    #[inline(always)]
    fn follow<C: Record, const SIGN: i32>(
        &mut self,
        cells: &mut [C],
        event: Event,
    ) -> Result<bool, Stop> {
        let place = event.arc / 4;
        let direction = (event.arc % 4) as u8;
        let next = self.head(place, direction);
        let head = cell_at(cells, next);
        let tail = cell_at(cells, place);
        // One branch for all three, since none can be predicted.
        let late = self.due::<C, SIGN>(tail, head, direction) ^ event.time;
        let astray = u32::from(is_in_tree(head)) | u32::from(!is_in_tree(tail));
        if late.cast_unsigned() | astray != 0 {
            return Ok(false);
        }
        if head.step() == FREE && supply_of::<C, SIGN>(head) >= 0 {
            self.attach::<C, SIGN>(cells, next, direction ^ 1, event.time)?;
            return Ok(false);
        }
        let way = Way {
            tail: place,
            head: next,
            direction,
        };
        self.send::<C, SIGN>(cells, way, event.time)
    }

    /// Sends as much as can be sent along a way. The result is whether its root has nothing left to send.
    fn send<C: Record, const SIGN: i32>(
        &mut self,
        cells: &mut [C],
        way: Way,
        time: i32,
    ) -> Result<bool, Stop> {
        if time > self.last_time::<C>() {
            return Err(Stop::Unfit);
        }
        let (root, most) = self.carry::<C, SIGN>(cells, way);
        if most <= 0 {
            return Err(Stop::Unfit);
        }
        if cell_at(cells, root).excess() == 0 {
            self.dissolve::<C, SIGN>(cells, root, time)?;
            return Ok(true);
        }
        if let Some(top) = self.filled::<C, SIGN>(cells, way.tail) {
            self.dissolve::<C, SIGN>(cells, top, time)?;
        }
        let tail = *cell_at(cells, way.tail);
        if is_in_tree(&tail) {
            self.queue.make_room()?;
            self.offer::<C, SIGN>(cells, &tail, way.tail, way.direction);
        }
        Ok(false)
    }

    /// Sends as much as can be sent along a way. The result is its root, and how much was sent.
    pub(crate) fn carry<C: Record, const SIGN: i32>(
        &self,
        cells: &mut [C],
        way: Way,
    ) -> (u32, i32) {
        let (root, most) = self.measure::<C, SIGN>(cells, way);
        let amount = most.wrapping_mul(SIGN);
        self.push_along::<C, SIGN>(cells, way, most);
        if let Some(cell) = cells.get_mut(way.head as usize) {
            if cell.step() == FREE {
                cell.set_excess(cell.excess().wrapping_add(amount));
            }
        }
        if let Some(cell) = cells.get_mut(root as usize) {
            cell.set_excess(cell.excess().wrapping_sub(amount));
        }
        (root, most)
    }

    /// The root of a way, and how much can be sent along it.
    fn measure<C: Record, const SIGN: i32>(&self, cells: &[C], way: Way) -> (u32, i32) {
        let head = cell_at(cells, way.head);
        let mut tail = cell_at(cells, way.tail);
        let mut most = if head.step() == FREE {
            supply_of::<C, SIGN>(head).wrapping_neg()
        } else {
            i32::MAX
        };
        most = most.min(self.room::<C, SIGN>(tail, head, way.direction));
        let mut place = way.tail;
        for _ in 0..cells.len() {
            if tail.step() >= ROOT {
                break;
            }
            let parent = self.head(place, tail.step());
            let above = cell_at(cells, parent);
            most = most.min(self.room::<C, SIGN>(above, tail, tail.step() ^ 1));
            place = parent;
            tail = above;
        }
        (place, most.min(supply_of::<C, SIGN>(tail)))
    }

    /// How much can be sent along an arc at the cost of the first unit.
    fn room<C: Record, const SIGN: i32>(&self, tail: &C, head: &C, direction: u8) -> i32 {
        crossing_of::<C, SIGN>(tail, head, direction).room(self.steep, C::MOST)
    }

    /// Adds to what flows along each arc of a way.
    fn push_along<C: Record, const SIGN: i32>(&self, cells: &mut [C], way: Way, amount: i32) {
        push::<C, SIGN>(cells, way.tail, way.head, way.direction, amount);
        let mut place = way.tail;
        for _ in 0..cells.len() {
            let step = cell_at(cells, place).step();
            if step >= ROOT {
                break;
            }
            let parent = self.head(place, step);
            push::<C, SIGN>(cells, parent, place, step ^ 1, amount);
            place = parent;
        }
    }

    /// The cell below the arc nearest to the root, on the branch that ends with `place`, along which no more can be sent.
    fn filled<C: Record, const SIGN: i32>(&self, cells: &[C], place: u32) -> Option<u32> {
        let mut found = None;
        let mut place = place;
        let mut cell = cell_at(cells, place);
        for _ in 0..cells.len() {
            if cell.step() >= ROOT {
                break;
            }
            let parent = self.head(place, cell.step());
            let above = cell_at(cells, parent);
            if self.due::<C, SIGN>(above, cell, cell.step() ^ 1) != 0 {
                found = Some(place);
            }
            place = parent;
            cell = above;
        }
        found
    }
}
