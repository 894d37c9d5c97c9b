use crate::network::{FREE, Network};
use seam_walk::NONE;
use std::alloc::AllocError;

impl Network {
    /// Takes a node of a tree, and all that joined after it, out of the tree, and lets the joints that lead there from other trees
    /// wait.
    pub(crate) fn release(&mut self, node: u32) -> Result<(), AllocError> {
        self.loose.clear();
        self.loose.push(node)?;
        for place in 0..self.nodes.len() {
            let Some(node) = self.loose.get(place).copied() else {
                break;
            };
            self.let_go(node)?;
        }
        for place in 0..self.loose.len() {
            let node = self.loose.get(place).copied().unwrap_or(NONE);
            self.invite(node)?;
        }
        Ok(())
    }

    /// Takes a node out of its tree, and lists the nodes that joined by it.
    fn let_go(&mut self, node: u32) -> Result<(), AllocError> {
        let time = self.turned(self.waiting.time());
        let Some(held) = self.nodes.get_mut(node as usize) else {
            return Ok(());
        };
        held.height = held.height.wrapping_sub(time);
        held.by = FREE;
        let mut arc = held.first;
        for _ in 0..self.arcs() {
            if arc >= self.arcs() {
                break;
            }
            let head = self.head(arc);
            if self.node(head).by == arc / 2 {
                self.loose.push(head)?;
            }
            arc = self.next_out(arc);
        }
        Ok(())
    }

    /// Lets the joints from trees to a free node wait, and no others of it.
    fn invite(&mut self, node: u32) -> Result<(), AllocError> {
        let mut arc = self.node(node).first;
        for _ in 0..self.arcs() {
            if arc >= self.arcs() {
                break;
            }
            self.waiting.remove(arc / 2);
            let head = self.node(self.head(arc));
            if head.is_in_tree() {
                self.wait(arc ^ 1, head.height)?;
            }
            arc = self.next_out(arc);
        }
        Ok(())
    }
}
