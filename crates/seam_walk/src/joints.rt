use crate::places::NONE;
use crate::spots::Spots;

/// A stretch of a seam from one node to another, between the same two regions. A unit that flows along it from `tail` to
/// `head` raises the second region of its links over the first by a cycle.
#[derive(Clone, Copy)]
pub struct Joint {
    pub tail: u32,
    pub head: u32,
    /// The next arc out of each.
    pub after_tail: u32,
    pub after_head: u32,
    /// The offset of the second region less that of the first.
    pub rise: i32,
}

pub const NO_JOINT: Joint = Joint {
    tail: NONE,
    head: NONE,
    after_tail: NONE,
    after_head: NONE,
    rise: 0,
};

/// A joint that begins at a node.
pub(crate) fn joint_from(node: u32) -> Joint {
    Joint {
        tail: node,
        head: node,
        ..NO_JOINT
    }
}

impl Joint {
    /// Ends a joint at a node, to which it leads downwards or, if it is level, to the right. Along a level joint what flows to the
    /// right lowers the second region, so it runs to the left.
    pub(crate) fn end_at(&mut self, node: u32, is_level: bool) {
        if is_level {
            self.tail = node;
        } else {
            self.head = node;
        }
    }

    /// Marks the nodes at its ends, and names each by the lowest of its numbers.
    pub(crate) fn mark_ends(&mut self, spots: &mut Spots) {
        self.tail = spots.mark(self.tail);
        self.head = spots.mark(self.head);
    }

    /// Names the nodes at its ends by the numbers that they have in the end.
    pub(crate) fn settle_ends(&mut self, spots: &Spots) {
        self.tail = spots.number(self.tail);
        self.head = spots.number(self.head);
    }
}
