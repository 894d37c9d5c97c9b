use crate::cell::{DOWN, FREE, LEFT, RIGHT, ROOT, UP};
use crate::forest::{Forest, arc_of, set_free};
use crate::growing::Way;
use crate::queue::Event;
use crate::record::{Record, cell_at, is_in_tree, supply_of};
use crate::stop::Stop;

/// How many arcs a search follows at most.
const REACH: u64 = 4096;

/// Where a search ends: the first time at which an arc leads to a cell that lacks flow or outside, and that arc.
#[derive(Clone, Copy)]
pub(crate) struct Goal {
    time: i32,
    arc: u32,
}

/// No goal is found yet.
pub(crate) const NOWHERE: Goal = Goal {
    time: i32::MAX,
    arc: 0,
};

impl Forest {
    /// Sends what the listed cells have to send, times `SIGN`, where a short search from each alone finds whither. A tree that
    /// grows alone needs no event at or after the time of its goal, and as a whole it is taken apart at that time.
    pub(crate) fn search_all<C: Record, const SIGN: i32>(
        &mut self,
        cells: &mut [C],
    ) -> Result<(), Stop> {
        for index in 0..self.listed.len() {
            let place = self.listed.get(index).copied().unwrap_or(0);
            self.serve::<C, SIGN>(cells, place)?;
        }
        Ok(())
    }

    /// Searches from a cell until it has nothing to send, times `SIGN`, or nothing is found.
    fn serve<C: Record, const SIGN: i32>(
        &mut self,
        cells: &mut [C],
        place: u32,
    ) -> Result<(), Stop> {
        for _ in 0..u16::MAX {
            let cell = cell_at(cells, place);
            if cell.step() != FREE || supply_of::<C, SIGN>(cell) <= 0 {
                return Ok(());
            }
            if !self.search::<C, SIGN>(cells, place)? {
                return Ok(());
            }
        }
        Ok(())
    }

    /// Grows a tree from a cell, sends what can be sent to its goal, and takes it apart. The result is whether something was
    /// sent.
    fn search<C: Record, const SIGN: i32>(
        &mut self,
        cells: &mut [C],
        root: u32,
    ) -> Result<bool, Stop> {
        self.begin();
        self.grown = 0;
        self.goal = NOWHERE;
        self.enter::<C, SIGN>(cells, root, ROOT, 0)?;
        let found = self.spread::<C, SIGN>(cells)?;
        self.steps = self.steps.saturating_sub(self.grown as u64);
        if !found {
            let time = self.queue.present().min(self.last_time::<C>());
            self.leave_all::<C, SIGN>(cells, time);
            return Ok(false);
        }
        if self.goal.time > self.last_time::<C>() {
            return Err(Stop::Unfit);
        }
        let direction = (self.goal.arc % 4) as u8;
        let tail = self.goal.arc / 4;
        let way = Way {
            tail,
            head: self.head(tail, direction),
            direction,
        };
        let (_, most) = self.carry::<C, SIGN>(cells, way);
        self.leave_all::<C, SIGN>(cells, self.goal.time);
        Ok(most > 0)
    }

    /// Lets the tree grow until the time of its goal. The result is whether it has come there.
    fn spread<C: Record, const SIGN: i32>(&mut self, cells: &mut [C]) -> Result<bool, Stop> {
        let most = self.steps.min(REACH);
        for taken in 0..most {
            let Some(event) = self.next_before_goal() else {
                self.steps = self.steps.wrapping_sub(taken);
                return Ok(self.goal.time != i32::MAX);
            };
            let next = self.head(event.arc / 4, (event.arc % 4) as u8);
            if !is_in_tree(cell_at(cells, next)) {
                self.enter::<C, SIGN>(cells, next, (event.arc % 4) as u8 ^ 1, event.time)?;
            }
        }
        self.steps = self.steps.wrapping_sub(most);
        Ok(false)
    }

    /// The first event, if it is before the time of the goal.
    #[inline(always)]
    fn next_before_goal(&mut self) -> Option<Event> {
        let event = self.queue.take()?;
        if event.time < self.goal.time {
            Some(event)
        } else {
            None
        }
    }

    /// Joins a cell to the tree by the step to its parent, and looks along the arcs out of it.
    #[inline(always)]
    fn enter<C: Record, const SIGN: i32>(
        &mut self,
        cells: &mut [C],
        place: u32,
        step: u8,
        time: i32,
    ) -> Result<(), Stop> {
        self.make_room(self.grown)?;
        self.queue.make_room()?;
        self.list(self.grown, place);
        self.grown = self.grown.wrapping_add(1);
        let Some(joined) = self.join::<C, SIGN>(cells, place, step, time)? else {
            return Ok(());
        };
        self.look::<C, SIGN, RIGHT>(cells, &joined, place);
        self.look::<C, SIGN, LEFT>(cells, &joined, place);
        self.look::<C, SIGN, DOWN>(cells, &joined, place);
        self.look::<C, SIGN, UP>(cells, &joined, place);
        Ok(())
    }

    /// Makes the arc in a direction out of the tree the goal, if flow can end at its head, or queues it, unless it comes no sooner than the goal.
    #[inline(always)]
    fn look<C: Record, const SIGN: i32, const DIRECTION: u8>(
        &mut self,
        cells: &[C],
        tail: &C,
        place: u32,
    ) {
        let head = cell_at(cells, self.head(place, DIRECTION));
        if is_in_tree(head) {
            return;
        }
        let time = self.due::<C, SIGN>(tail, head, DIRECTION);
        if time >= self.goal.time {
            return;
        }
        let arc = arc_of(place, DIRECTION);
        if head.step() == FREE && supply_of::<C, SIGN>(head) >= 0 {
            self.queue.put(time, arc);
        } else {
            self.goal = Goal { time, arc };
        }
    }

    /// Takes the tree apart at a time.
    fn leave_all<C: Record, const SIGN: i32>(&self, cells: &mut [C], time: i32) {
        for place in self.members.get(0..self.grown).unwrap_or(&[]) {
            if let Some(cell) = cells.get_mut(*place as usize) {
                set_free::<C, SIGN>(cell, time);
            }
        }
    }
}
