use seam_walk::number;
use std::alloc::{AllocError, Global};

/// How much higher regions are than others to which they are tied.
#[derive(Drop)]
pub(crate) struct Heights {
    /// For each region one of a lower number to which it is tied, or its own number.
    to: Vec<u32>,
    /// How much higher its offset is than that region's.
    above: Vec<i64>,
}

impl Heights {
    /// So many regions, none of which is tied to another.
    pub(crate) fn new(alloc: Global, regions: u32) -> Result<Heights, AllocError> {
        let above = vec![in alloc; 0; regions as usize]?;
        let mut to = Vec::with_capacity(alloc, regions as usize)?;
        for region in 0..regions {
            to.push(region)?;
        }
        Ok(Heights { to, above })
    }

    #[inline(always)]
    fn to(&self, region: u32) -> u32 {
        self.to.get(region as usize).copied().unwrap_or(region)
    }

    #[inline(always)]
    fn above(&self, region: u32) -> i64 {
        self.above.get(region as usize).copied().unwrap_or(0)
    }

    fn set(&mut self, region: u32, to: u32, above: i64) {
        if let Some(held) = self.to.get_mut(region as usize) {
            *held = to;
        }
        self.raise(region, above);
    }

    fn raise(&mut self, region: u32, above: i64) {
        if let Some(held) = self.above.get_mut(region as usize) {
            *held = above;
        }
    }

    /// The lowest region that a region is tied to, and how much higher it is than that.
    fn find(&mut self, region: u32) -> (u32, i64) {
        let mut found = region;
        let mut height: i64 = 0;
        for _ in 0..self.to.len() {
            let next = self.to(found);
            if next == found {
                break;
            }
            let after = self.to(next);
            let above = self.above(found).wrapping_add(self.above(next));
            self.set(found, after, above);
            height = height.wrapping_add(above);
            found = after;
        }
        (found, height)
    }

    /// Ties two regions, if they are not: the second is so much higher.
    pub(crate) fn tie(&mut self, first: u32, second: u32, rise: i64) {
        let (one, height) = self.find(first);
        let (other, other_height) = self.find(second);
        let above = rise.wrapping_add(height).wrapping_sub(other_height);
        if one < other {
            self.set(other, one, above);
        } else if other < one {
            self.set(one, other, above.wrapping_neg());
        }
    }

    /// The offsets of all regions: the first of those that are tied together has 0. A region is tied to one before it, whose
    /// offset is known when its own is found.
    pub(crate) fn offsets(mut self) -> Vec<i64> {
        for region in 0..number(self.to.len()) {
            let to = self.to(region);
            if to != region {
                let offset = self.above(region).wrapping_add(self.above(to));
                self.raise(region, offset);
            }
        }
        self.above
    }
}
