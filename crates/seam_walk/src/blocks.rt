use crate::places::FIRST_INSIDE;
use crate::spots::{Reach, Spots};
use std::alloc::{AllocError, Global};

/// The side of the least blocks, in tiles, as a power of 2.
const LEAST: u32 = 5;

/// The nodes at which joints begin or end, in the order in which they are balanced, and so numbered anew: the outside is 0, and
/// the others follow by blocks of tiles, the least blocks first, and the one that holds all last. A node lies in the least block
/// that holds all tiles in which its cells lie.
#[derive(Drop)]
pub struct Order {
    /// The last column and row of tiles.
    across: u32,
    along: u32,
    /// The number after those of each block.
    pub ends: Vec<u32>,
    /// How many nodes there are.
    pub nodes: u32,
}

impl Order {
    /// The order of the marked nodes of a raster whose last column and row of tiles are given. Their spots get their new numbers.
    pub(crate) fn of(
        alloc: Global,
        spots: &mut Spots,
        across: u32,
        along: u32,
    ) -> Result<Order, AllocError> {
        let mut order = Order {
            across,
            along,
            ends: Vec::new(alloc),
            nodes: FIRST_INSIDE,
        };
        let blocks = order.first_of(u32::BITS) as usize;
        order.ends = vec![in alloc; 0; blocks]?;
        order.count(spots);
        order.place_all();
        order.number(spots);
        Ok(order)
    }

    /// How many blocks there are before those of a side, which is a power of 2.
    fn first_of(&self, side: u32) -> u32 {
        let mut first: u32 = 0;
        for lower in LEAST..side {
            let (wide, high) = (
                self.across.wrapping_shr(lower),
                self.along.wrapping_shr(lower),
            );
            first = first.wrapping_add(wide.wrapping_add(1).wrapping_mul(high.wrapping_add(1)));
            if wide == 0 && high == 0 {
                break;
            }
        }
        first
    }

    /// The block of a node.
    fn block(&self, reach: Reach) -> u32 {
        let mut first: u32 = 0;
        for side in LEAST..u32::BITS {
            let (wide, high) = (
                self.across.wrapping_shr(side),
                self.along.wrapping_shr(side),
            );
            let (left, right) = (u32::from(reach.left), u32::from(reach.right));
            let (top, bottom) = (u32::from(reach.top), u32::from(reach.bottom));
            let (left, top) = (left.wrapping_shr(side), top.wrapping_shr(side));
            if left == right.wrapping_shr(side) && top == bottom.wrapping_shr(side) {
                let row = top.wrapping_mul(wide.wrapping_add(1));
                return first.wrapping_add(row).wrapping_add(left);
            }
            first = first.wrapping_add(wide.wrapping_add(1).wrapping_mul(high.wrapping_add(1)));
        }
        first
    }

    /// Counts the nodes of each block.
    fn count(&mut self, spots: &Spots) {
        for node in FIRST_INSIDE..spots.count() {
            if spots.is_marked(node) {
                let block = self.block(spots.reach(node));
                if let Some(count) = self.ends.get_mut(block as usize) {
                    *count = count.wrapping_add(1);
                }
            }
        }
    }

    /// Turns counts to the numbers with which blocks begin.
    fn place_all(&mut self) {
        let mut sum = FIRST_INSIDE;
        for end in &mut self.ends {
            let count = *end;
            *end = sum;
            sum = sum.wrapping_add(count);
        }
        self.nodes = sum;
    }

    /// Numbers the nodes, which moves the number of each block to its end.
    fn number(&mut self, spots: &mut Spots) {
        for node in FIRST_INSIDE..spots.count() {
            if spots.is_marked(node) {
                let block = self.block(spots.reach(node));
                if let Some(end) = self.ends.get_mut(block as usize) {
                    spots.set_number(node, *end);
                    *end = end.wrapping_add(1);
                }
            }
        }
    }
}
