use crate::places::{NONE, OUTSIDE, number};
use std::alloc::{AllocError, Global};

/// The first and the last column and row of tiles in which the cells of a node lie.
#[derive(Clone, Copy)]
pub(crate) struct Reach {
    pub(crate) left: u16,
    pub(crate) right: u16,
    pub(crate) top: u16,
    pub(crate) bottom: u16,
}

impl Reach {
    /// Whether all lies in one tile.
    pub(crate) fn is_one_tile(self) -> bool {
        self.left == self.right && self.top == self.bottom
    }

    /// All tiles of either.
    fn with(self, other: Reach) -> Reach {
        Reach {
            left: self.left.min(other.left),
            right: self.right.max(other.right),
            top: self.top.min(other.top),
            bottom: self.bottom.max(other.bottom),
        }
    }
}

/// In place of the number of a node that is marked and has none yet.
const MARKED: u32 = NONE;

const EVERYWHERE: Reach = Reach {
    left: 0,
    right: u16::MAX,
    top: 0,
    bottom: u16::MAX,
};

/// What is known of a number that was given to a node while nodes are found.
#[derive(Clone, Copy)]
struct Spot {
    /// A number of the same node that is not higher, and its own for the node's number.
    same: u32,
    /// The number by which the node is known in the end, 0 for the outside, and before that `MARKED` if it is marked.
    number: u32,
    reach: Reach,
}

/// What is known of the nodes while they are found. Masked pixels join cells; so two numbers may turn out to be one node,
/// which then has the lower one.
#[derive(Drop)]
pub(crate) struct Spots {
    spots: Vec<Spot>,
}

impl Spots {
    /// The outside alone, which is the node 0.
    pub(crate) fn new(alloc: Global) -> Result<Spots, AllocError> {
        let mut spots = Spots {
            spots: Vec::new(alloc),
        };
        spots.add(EVERYWHERE)?;
        Ok(spots)
    }

    /// How many numbers are given.
    pub(crate) fn count(&self) -> u32 {
        number(self.spots.len())
    }

    /// A new node, which has the next number.
    pub(crate) fn add(&mut self, reach: Reach) -> Result<u32, AllocError> {
        let spot = self.count();
        self.spots.push(Spot {
            same: spot,
            number: 0,
            reach,
        })?;
        Ok(spot)
    }

    /// The tiles in which a node's cells lie.
    pub(crate) fn reach(&self, spot: u32) -> Reach {
        match self.spots.get(spot as usize) {
            Some(held) => held.reach,
            None => EVERYWHERE,
        }
    }

    #[inline(always)]
    fn same(&self, spot: u32) -> u32 {
        match self.spots.get(spot as usize) {
            Some(held) => held.same,
            None => spot,
        }
    }

    /// The number of the node of which this is a number.
    pub(crate) fn find(&mut self, spot: u32) -> u32 {
        let mut found = spot;
        for _ in 0..self.spots.len() {
            let next = self.same(found);
            if next == found {
                break;
            }
            let after = self.same(next);
            if let Some(held) = self.spots.get_mut(found as usize) {
                held.same = after;
            }
            found = after;
        }
        found
    }

    /// Marks the node of which this is a number, unless it is the outside, and answers its lowest number.
    pub(crate) fn mark(&mut self, spot: u32) -> u32 {
        let spot = self.find(spot);
        if spot != OUTSIDE {
            self.set_number(spot, MARKED);
        }
        spot
    }

    /// Whether this is the lowest number of a node that is marked and has not got its number in the end.
    pub(crate) fn is_marked(&self, spot: u32) -> bool {
        self.number(spot) == MARKED
    }

    /// Gives a node the number by which it is known in the end.
    pub(crate) fn set_number(&mut self, spot: u32, number: u32) {
        if let Some(held) = self.spots.get_mut(spot as usize) {
            held.number = number;
        }
    }

    /// The number by which a node is known in the end, by its lowest number.
    pub(crate) fn number(&self, spot: u32) -> u32 {
        match self.spots.get(spot as usize) {
            Some(held) => held.number,
            None => 0,
        }
    }

    /// Makes two nodes one, and answers its number. `NONE` is no node.
    pub(crate) fn unite(&mut self, one: u32, other: u32) -> u32 {
        if one == NONE {
            return other;
        }
        if other == NONE || one == other {
            return one;
        }
        let (one, other) = (self.find(one), self.find(other));
        let (kept, lost) = (one.min(other), one.max(other));
        if kept != lost {
            let reach = self.reach(lost);
            self.widen(kept, reach);
            if let Some(held) = self.spots.get_mut(lost as usize) {
                held.same = kept;
            }
        }
        kept
    }

    /// Notes that a node's cells lie in these tiles too.
    pub(crate) fn widen(&mut self, spot: u32, reach: Reach) {
        let spot = self.find(spot);
        if let Some(held) = self.spots.get_mut(spot as usize) {
            held.reach = held.reach.with(reach);
        }
    }
}
