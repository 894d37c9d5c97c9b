use crate::network::{FREE, Network, ROOT};
use std::alloc::AllocError;
use std::ops::Range;

impl Network {
    /// Grows trees from all of these nodes that have excess, or from those with deficits if signs are turned, until none is left.
    /// Tells whether it came to that.
    pub(crate) fn grow(&mut self, nodes: Range<u32>, turn: u32) -> Result<bool, AllocError> {
        self.turn = turn;
        self.waiting.restart();
        let mut left = self.plant(nodes)?;
        for _ in 0..self.looks {
            if left == 0 {
                return Ok(true);
            }
            if self.looks == 0 {
                return Ok(false);
            }
            let Some(joint) = self.waiting.take() else {
                return Ok(false);
            };
            if self.meet(joint)? {
                left = left.wrapping_sub(1);
            }
        }
        Ok(false)
    }

    /// Makes each node with excess a tree of its own, and tells how many there are.
    fn plant(&mut self, nodes: Range<u32>) -> Result<u32, AllocError> {
        let mut roots: u32 = 0;
        for node in nodes.start..nodes.end {
            let held = self.node(node);
            if self.turned(held.excess) > 0 && held.by == FREE {
                self.attach(node, ROOT)?;
                roots = roots.wrapping_add(1);
            }
        }
        Ok(roots)
    }

    /// Puts a node in a tree, by a joint, and lets the joints that lead on from it wait.
    pub(crate) fn attach(&mut self, node: u32, by: u32) -> Result<(), AllocError> {
        let time = self.turned(self.waiting.time());
        let Some(held) = self.nodes.get_mut(node as usize) else {
            return Ok(());
        };
        let height = held.height.wrapping_add(time);
        held.height = height;
        held.by = by;
        let mut arc = held.first;
        for _ in 0..self.arcs() {
            if arc >= self.arcs() {
                break;
            }
            self.waiting.remove(arc / 2);
            self.wait(arc, height)?;
            arc = self.next_out(arc);
        }
        Ok(())
    }

    /// Lets the joint of an arc out of a tree wait, if the arc leads to a node in none. The height is that of its tail.
    #[inline(always)]
    pub(crate) fn wait(&mut self, arc: u32, height: i32) -> Result<(), AllocError> {
        self.looks = self.looks.saturating_sub(1);
        let head = self.node(self.head(arc));
        if head.is_in_tree() {
            return Ok(());
        }
        let fall = self.turned(height.wrapping_sub(head.height));
        let due = self.cost(arc ^ self.turn).wrapping_add(fall);
        self.waiting.add(arc / 2, due)
    }
}
