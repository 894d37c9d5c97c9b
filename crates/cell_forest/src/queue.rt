use std::alloc::{AllocError, Global};

/// How many slots there are for the times of the present block, one for each. A block has this many times.
const NEAR: u32 = 1024;

/// No event.
const NONE: u32 = u32::MAX;

/// An arc, and the time at which it may join its head to a tree: four times the place of its tail, and its direction.
#[derive(Clone, Copy)]
pub(crate) struct Event {
    pub(crate) time: i32,
    pub(crate) arc: u32,
    /// The place of the next event in its slot, or of the next that is free.
    next: u32,
}

/// An event that says nothing.
const BLANK: Event = Event {
    time: 0,
    arc: 0,
    next: NONE,
};

/// Events by time. (Dial, Communications of the ACM 12(11), 1969; the far slots are those of a radix heap: Ahuja, Mehlhorn,
/// Orlin and Tarjan 1990.)
#[derive(Drop)]
pub(crate) struct Queue {
    /// The events of all slots. Those of a slot name each other, the last one first.
    events: Vec<Event>,
    /// The place of an event that was taken, which names the next such.
    free: u32,
    /// The first place that no event has had since the queue was cleared.
    unused: u32,
    /// The place of the last event of each near slot, then of each far slot, if the slot is marked.
    slots: Vec<u32>,
    /// A binary digit for each slot: 1 if it has an event.
    marks: Vec<u64>,
    /// How many slots there are for later blocks, which is a power of 2.
    far: u32,
    /// The slot of the present time, and the first time of its block.
    slot: u32,
    start: i32,
}

impl Queue {
    /// A queue with no event. No time will lie further ahead than `reach`.
    pub(crate) fn new(alloc: Global, reach: u32) -> Result<Queue, AllocError> {
        let far = far_slots(reach);
        let slots = NEAR.wrapping_add(far) as usize;
        Ok(Queue {
            events: Vec::new(alloc),
            free: NONE,
            unused: 0,
            slots: vec![in alloc; NONE; slots]?,
            marks: vec![in alloc; 0; slots / 64]?,
            far,
            slot: 0,
            start: 0,
        })
    }

    /// Drops all events. The present time is 0 again.
    pub(crate) fn clear(&mut self) {
        self.marks.fill(0);
        self.free = NONE;
        self.unused = 0;
        self.slot = 0;
        self.start = 0;
    }

    /// The present time.
    #[inline(always)]
    pub(crate) fn present(&self) -> i32 {
        self.start.wrapping_add(self.slot.cast_signed())
    }

    /// Makes room for four more events.
    #[inline(always)]
    pub(crate) fn make_room(&mut self) -> Result<(), AllocError> {
        if self.events.len() < (self.unused as usize).wrapping_add(4) {
            self.events.extend_from_slice(&[BLANK; 64])?;
        }
        Ok(())
    }

    /// Puts an event at a time that is not past, where there is room.
    #[inline(always)]
    pub(crate) fn put(&mut self, time: i32, arc: u32) {
        let place = self.free_place();
        if let Some(event) = self.events.get_mut(place as usize) {
            event.time = time;
            event.arc = arc;
        }
        self.link(time, place);
    }

    /// A place for one more event.
    #[inline(always)]
    fn free_place(&mut self) -> u32 {
        let place = self.free;
        if let Some(event) = self.events.get(place as usize) {
            self.free = event.next;
            return place;
        }
        let place = self.unused;
        self.unused = place.wrapping_add(1);
        place
    }

    /// Takes the first event. Among those of one time it is the last that was put.
    #[inline(always)]
    pub(crate) fn take(&mut self) -> Option<Event> {
        self.slot = match self.marked(self.slot, NEAR) {
            Some(found) => found,
            None => self.open_block()?,
        };
        let place = self.slots.get_mut(self.slot as usize)?;
        let held = self.events.get_mut(*place as usize)?;
        let event = *held;
        held.next = self.free;
        self.free = *place;
        *place = event.next;
        if event.next == NONE {
            self.unmark(self.slot);
        }
        Some(event)
    }

    /// Puts the event at a place of the list in the slot of its time.
    #[inline(always)]
    fn link(&mut self, time: i32, place: u32) {
        let ahead = time.wrapping_sub(self.start).cast_unsigned();
        let number = if ahead < NEAR {
            ahead
        } else {
            self.far_slot(time)
        };
        let Some(slot) = self.slots.get_mut(number as usize) else {
            return;
        };
        let Some(marks) = self.marks.get_mut(number as usize / 64) else {
            return;
        };
        let mark = 1u64.wrapping_shl(number);
        let next = if *marks & mark == 0 { NONE } else { *slot };
        *marks |= mark;
        *slot = place;
        if let Some(event) = self.events.get_mut(place as usize) {
            event.next = next;
        }
    }

    /// Marks that a slot has no event.
    #[inline(always)]
    fn unmark(&mut self, number: u32) {
        if let Some(marks) = self.marks.get_mut(number as usize / 64) {
            *marks &= !1u64.wrapping_shl(number);
        }
    }

    /// The slot of a later block.
    fn far_slot(&self, time: i32) -> u32 {
        NEAR.wrapping_add(time.cast_unsigned() / NEAR & self.far.wrapping_sub(1))
    }

    /// The first slot with a mark, from `from` on and before `end`, which is a multiple of 64.
    #[inline(always)]
    fn marked(&self, from: u32, end: u32) -> Option<u32> {
        let mut kept = u64::MAX.wrapping_shl(from);
        for word in from / 64..end / 64 {
            let bits = self.marks.get(word as usize).copied().unwrap_or(0) & kept;
            if bits != 0 {
                return Some(word.wrapping_mul(64).wrapping_add(bits.trailing_zeros()));
            }
            kept = u64::MAX;
        }
        None
    }

    /// Goes on to the next block with an event, and puts its events in the slots of their times. The result is the first of
    /// these, if there is one.
    fn open_block(&mut self) -> Option<u32> {
        let here = self.far_slot(self.start);
        let end = NEAR.wrapping_add(self.far);
        let found = match self.marked(here, end) {
            Some(found) => found,
            None => self.marked(NEAR, end)?,
        };
        let blocks = found.wrapping_sub(here) & self.far.wrapping_sub(1);
        self.start = self
            .start
            .wrapping_add(blocks.wrapping_mul(NEAR).cast_signed());
        self.unmark(found);
        let mut place = self.slots.get(found as usize).copied().unwrap_or(NONE);
        for _ in 0..self.events.len() {
            let Some(event) = self.events.get(place as usize).copied() else {
                break;
            };
            self.link(event.time, place);
            place = event.next;
        }
        self.marked(0, NEAR)
    }
}

/// How many slots there are for later blocks, so that those up to `reach` ahead have one each.
fn far_slots(reach: u32) -> u32 {
    let blocks = reach / NEAR + 2;
    if blocks <= 64 {
        64
    } else if blocks <= 256 {
        256
    } else {
        4096
    }
}
