use seam_walk::{NONE, number};
use std::alloc::{AllocError, Global};

/// How many binary digits of a time choose a slot of a row, and how many slots a row has.
const DIGITS: u32 = 10;

const ROW: u32 = 1024;

/// How many rows of slots there are, and how many slots in all.
const ROWS: u32 = 5;

const SLOTS: u32 = 5120;

/// A joint that waits, the places of its neighbours in the list where it waits, and until when it does. A slot is an entry of its
/// own list, which is a ring.
#[derive(Clone, Copy)]
struct Wait {
    next: u32,
    before: u32,
    joint: u32,
    due: u64,
}

const NO_WAIT: Wait = Wait {
    next: NONE,
    before: NONE,
    joint: NONE,
    due: 0,
};

/// The joints that wait, by time; among those of one time the first that was added comes first. A row has a slot for each
/// value of ten digits of a time, the first row for the lowest. A joint waits in the row of the highest digits in which its time
/// differs from the present. (Ahuja, Mehlhorn, Orlin and Tarjan, Journal of the ACM 37(2), 1990.)
#[derive(Drop)]
pub(crate) struct Waiting {
    /// The slots, then the entries of joints, of which few wait at once.
    waits: Vec<Wait>,
    /// The place of each joint's entry, or `NONE`.
    places: Vec<u32>,
    /// The first of the entries that no joint has, each of which names the next, or `NONE`.
    spare: u32,
    /// A binary digit for each slot: 0 only if the slot is empty.
    marks: [u64; 80],
    /// The present time.
    time: u64,
}

impl Waiting {
    /// A list of no joints.
    pub(crate) fn new(alloc: Global) -> Result<Waiting, AllocError> {
        let mut waits = vec![in alloc; NO_WAIT; SLOTS as usize]?;
        for slot in 0..SLOTS {
            if let Some(wait) = waits.get_mut(slot as usize) {
                wait.next = slot;
                wait.before = slot;
            }
        }
        Ok(Waiting {
            waits,
            places: Vec::new(alloc),
            spare: NONE,
            marks: [0; 80],
            time: 0,
        })
    }

    /// Lets so many joints wait, none of which does yet.
    pub(crate) fn let_wait(&mut self, alloc: Global, joints: u32) -> Result<(), AllocError> {
        self.places = vec![in alloc; NONE; joints as usize]?;
        Ok(())
    }

    /// The last 32 binary digits of the present time.
    #[inline(always)]
    pub(crate) fn time(&self) -> i32 {
        let low = self.time % (1u64 << 32);
        u32::try_from(low).unwrap_or(0).cast_signed()
    }

    #[inline(always)]
    fn wait(&self, place: u32) -> Wait {
        self.waits.get(place as usize).copied().unwrap_or(NO_WAIT)
    }

    /// Lets a joint that does not wait do so, for a time that is not past and less than 2^32 ahead, of which the last 32
    /// binary digits are given.
    #[inline(always)]
    pub(crate) fn add(&mut self, joint: u32, due: i32) -> Result<(), AllocError> {
        let ahead = due.wrapping_sub(self.time()).cast_unsigned();
        let wait = Wait {
            joint,
            due: self.time.wrapping_add(u64::from(ahead)),
            ..NO_WAIT
        };
        let mut place = self.spare;
        if let Some(spare) = self.waits.get_mut(place as usize) {
            self.spare = spare.next;
            *spare = wait;
        } else {
            place = number(self.waits.len());
            self.waits.push(wait)?;
        }
        if let Some(held) = self.places.get_mut(joint as usize) {
            *held = place;
        }
        self.tie(place);
        Ok(())
    }

    /// Puts an entry at the end of the list of its time.
    #[inline(always)]
    fn tie(&mut self, place: u32) {
        let slot = self.slot(self.wait(place).due);
        if let Some(word) = self.marks.get_mut(slot as usize / 64) {
            *word |= 1u64.wrapping_shl(slot);
        }
        let mut last = NONE;
        if let Some(wait) = self.waits.get_mut(slot as usize) {
            last = wait.before;
            wait.before = place;
        }
        if let Some(wait) = self.waits.get_mut(last as usize) {
            wait.next = place;
        }
        if let Some(wait) = self.waits.get_mut(place as usize) {
            wait.next = slot;
            wait.before = last;
        }
    }

    /// Takes an entry out of its list.
    #[inline(always)]
    fn untie(&mut self, place: u32) {
        let Wait { next, before, .. } = self.wait(place);
        if let Some(wait) = self.waits.get_mut(before as usize) {
            wait.next = next;
        }
        if let Some(wait) = self.waits.get_mut(next as usize) {
            wait.before = before;
        }
    }

    /// The slot of a time.
    #[inline(always)]
    fn slot(&self, time: u64) -> u32 {
        let differs = time ^ self.time;
        let mut row: u32 = 0;
        for higher in 1..ROWS {
            if differs.wrapping_shr(higher.wrapping_mul(DIGITS)) == 0 {
                break;
            }
            row = higher;
        }
        row.wrapping_mul(ROW).wrapping_add(digits(time, row))
    }

    /// Lets a joint wait no longer, if it does.
    #[inline(always)]
    pub(crate) fn remove(&mut self, joint: u32) {
        let Some(held) = self.places.get_mut(joint as usize) else {
            return;
        };
        let place = *held;
        if place == NONE {
            return;
        }
        *held = NONE;
        self.untie(place);
        if let Some(wait) = self.waits.get_mut(place as usize) {
            wait.next = self.spare;
            self.spare = place;
        }
    }

    /// Takes the first joint that waits, and makes its time the present time.
    pub(crate) fn take(&mut self) -> Option<u32> {
        for _ in 0..SLOTS * 2 {
            let slot = self.first_marked()?;
            let first = self.wait(slot).next;
            if first == slot {
                self.unmark(slot);
            } else if slot < ROW {
                let Wait { joint, due, .. } = self.wait(first);
                self.time = due;
                self.remove(joint);
                return Some(joint);
            } else {
                self.open(slot);
            }
        }
        None
    }

    /// The first slot with a mark, those of the present time's digits first.
    fn first_marked(&self) -> Option<u32> {
        for row in 0..ROWS {
            let start = row.wrapping_mul(ROW);
            let from = start.wrapping_add(digits(self.time, row));
            if let Some(found) = self.marked(from, start.wrapping_add(ROW)) {
                return Some(found);
            }
        }
        None
    }

    /// The first slot with a mark, from `from` on and before `end`, which is a multiple of 64.
    fn marked(&self, from: u32, end: u32) -> Option<u32> {
        let mut kept = u64::MAX.wrapping_shl(from);
        for word in from / 64..end / 64 {
            let bits = self.marks.get(word as usize).copied().unwrap_or(0) & kept;
            if bits != 0 {
                return Some(word.wrapping_mul(64).wrapping_add(bits.trailing_zeros()));
            }
            kept = u64::MAX;
        }
        None
    }

    fn unmark(&mut self, slot: u32) {
        if let Some(word) = self.marks.get_mut(slot as usize / 64) {
            *word &= !1u64.wrapping_shl(slot);
        }
    }

    /// Goes on to the first time of a slot, and puts the joints that wait there in those of lower rows.
    fn open(&mut self, slot: u32) {
        self.unmark(slot);
        let due = self.wait(self.wait(slot).next).due;
        let lower = (slot / ROW).wrapping_mul(DIGITS);
        self.time = due.wrapping_shr(lower).wrapping_shl(lower);
        for _ in 0..self.waits.len() {
            let first = self.wait(slot).next;
            if first == slot {
                return;
            }
            self.untie(first);
            self.tie(first);
        }
    }

    /// Goes back to the time 0. No joint waits.
    pub(crate) fn restart(&mut self) {
        self.time = 0;
    }
}

/// The digits of a time that choose a slot of a row.
#[inline(always)]
fn digits(time: u64, row: u32) -> u32 {
    let low = time.wrapping_shr(row.wrapping_mul(DIGITS)) % u64::from(ROW);
    u32::try_from(low).unwrap_or(0)
}
