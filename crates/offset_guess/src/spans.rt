use std::alloc::{AllocError, Global};
use std::ops::Range;

/// How many joints are counted together.
const GROUP: usize = 64;

/// Where the steps of each joint lie in their list, joint after joint.
#[derive(Drop)]
pub(crate) struct Spans {
    /// Where the steps of each group of joints begin.
    firsts: Vec<u32>,
    /// For each joint how many steps its group has up to its last. A joint has three for each pixel of a tile's side at most,
    /// of which there are 128, so a group has less than 2^16.
    ends: Vec<u16>,
    /// How many steps there are.
    pub(crate) count: u32,
}

impl Spans {
    /// Of no joints.
    pub(crate) fn new(alloc: Global) -> Spans {
        Spans {
            firsts: Vec::new(alloc),
            ends: Vec::new(alloc),
            count: 0,
        }
    }

    /// Of joints that have so many steps each.
    pub(crate) fn of(alloc: Global, counts: &[u16]) -> Result<Spans, AllocError> {
        let mut spans = Spans {
            firsts: Vec::with_capacity(alloc, counts.len() / GROUP + 1)?,
            ends: Vec::with_capacity(alloc, counts.len())?,
            count: 0,
        };
        let mut end: u16 = 0;
        for count in counts {
            if spans.ends.len() % GROUP == 0 {
                spans.firsts.push(spans.count)?;
                end = 0;
            }
            end = end.wrapping_add(*count);
            spans.ends.push(end)?;
            spans.count = spans.count.wrapping_add(u32::from(*count));
        }
        Ok(spans)
    }

    /// The places of a joint's steps.
    #[inline(always)]
    pub(crate) fn places(&self, joint: u32) -> Range<u32> {
        let joint = joint as usize;
        let first = self.firsts.get(joint / GROUP).copied().unwrap_or(0);
        let start = if joint % GROUP == 0 {
            0
        } else {
            self.end(joint.wrapping_sub(1))
        };
        first.wrapping_add(start)..first.wrapping_add(self.end(joint))
    }

    #[inline(always)]
    fn end(&self, joint: usize) -> u32 {
        match self.ends.get(joint) {
            Some(end) => u32::from(*end),
            None => 0,
        }
    }
}
