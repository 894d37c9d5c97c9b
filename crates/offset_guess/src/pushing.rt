use crate::network::{HELD, Network};
use seam_walk::NONE;
use std::alloc::AllocError;

impl Network {
    /// What happens when a joint's time has come: the node beyond it joins the tree or, if it lacks flow or is held back, flow goes
    /// there. Tells whether a root has nothing left.
    pub(crate) fn meet(&mut self, joint: u32) -> Result<bool, AllocError> {
        let arc = self.outward(joint);
        let (tail, head) = (self.head(arc ^ 1), self.head(arc));
        let met = self.node(head);
        if met.by != HELD && self.turned(met.excess) >= 0 {
            self.attach(head, joint)?;
            return Ok(false);
        }
        let mut amount = self.room(arc ^ self.turn);
        if met.by != HELD {
            amount = amount.min(self.turned(met.excess).wrapping_neg());
        }
        let (root, amount) = self.narrowest(tail, amount);
        self.push(arc ^ self.turn, amount);
        self.add_excess(head, self.turned(amount));
        self.add_excess(root, self.turned(amount).wrapping_neg());
        let cut = self.send(tail, amount);
        if self.turned(self.node(root).excess) <= 0 {
            self.release(root)?;
            return Ok(true);
        }
        if cut != NONE {
            self.release(cut)?;
        }
        let kept = self.node(tail);
        if kept.is_in_tree() {
            self.wait(arc, kept.height)?;
        }
        Ok(false)
    }

    /// The arc of a joint that leads out of a tree.
    fn outward(&self, joint: u32) -> u32 {
        let arc = joint.wrapping_mul(2);
        if self.node(self.head(arc ^ 1)).is_in_tree() {
            arc
        } else {
            arc ^ 1
        }
    }

    /// The arc by which a node joined its tree. It leads to the node.
    fn arc_to(&self, node: u32) -> u32 {
        let arc = self.node(node).by.wrapping_mul(2);
        if self.head(arc) == node { arc } else { arc ^ 1 }
    }

    /// Whether a branch goes on from a node towards the root.
    fn has_more(&self, node: u32) -> bool {
        self.node(node).by < self.arcs() / 2
    }

    /// The root of the branch that ends at a node, and how much of an amount the branch and the root let flow.
    fn narrowest(&self, end: u32, amount: i32) -> (u32, i32) {
        let mut node = end;
        let mut least = amount;
        for _ in 0..self.nodes.len() {
            if !self.has_more(node) {
                break;
            }
            let arc = self.arc_to(node);
            least = least.min(self.room(arc ^ self.turn));
            node = self.head(arc ^ 1);
        }
        (node, least.min(self.turned(self.node(node).excess)))
    }

    /// Lets an amount flow along the branch that ends at a node. The result is the node nearest to the root to which the next
    /// unit costs something else, or `NONE`.
    fn send(&mut self, end: u32, amount: i32) -> u32 {
        let mut node = end;
        let mut cut = NONE;
        for _ in 0..self.nodes.len() {
            if !self.has_more(node) {
                break;
            }
            let arc = self.arc_to(node);
            let before = self.cost(arc ^ self.turn);
            self.push(arc ^ self.turn, amount);
            if self.cost(arc ^ self.turn) != before {
                cut = node;
            }
            node = self.head(arc ^ 1);
        }
        cut
    }
}
