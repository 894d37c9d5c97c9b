use crate::network::{FREE, Network};
use seam_walk::{FIRST_INSIDE, Order};
use std::alloc::AllocError;
use std::ops::Range;

impl Network {
    /// Balances all nodes, block by block, as far as the looks allow. Those of later blocks are held back, and take what flows to
    /// them.
    pub(crate) fn balance(&mut self, order: &Order) -> Result<(), AllocError> {
        let mut first = FIRST_INSIDE;
        for end in &order.ends {
            self.free(first..*end);
            if !self.grow(first..*end, 0)? || !self.grow(first..*end, 1)? {
                break;
            }
            first = *end;
        }
        Ok(())
    }

    /// Holds nodes back no longer.
    fn free(&mut self, nodes: Range<u32>) {
        for node in nodes.start..nodes.end {
            if let Some(node) = self.nodes.get_mut(node as usize) {
                node.by = FREE;
            }
        }
    }
}
