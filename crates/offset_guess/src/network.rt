use crate::link::Link;
use crate::spans::Spans;
use crate::steps::{NO_STEP, Step};
use crate::waiting::Waiting;
use seam_walk::{Joint, NO_JOINT, NONE, number};
use std::alloc::{AllocError, Global};

/// In place of the joint by which a node joined its tree: the node is held back, in no tree, or a root.
pub(crate) const HELD: u32 = u32::MAX;

pub(crate) const FREE: u32 = u32::MAX - 1;

pub(crate) const ROOT: u32 = u32::MAX - 2;

/// How many arcs are looked at for each joint at most.
const LOOKS: u64 = 8192;

/// A cell where seams meet or end, cells that masked pixels join, or the outside.
#[derive(Clone, Copy)]
pub(crate) struct Node {
    /// The last 32 binary digits of the potential. In a tree the time is added to it. The potentials of two nodes with a joint
    /// differ by what a cycle costs there at most, so the last digits tell by how much.
    pub(crate) height: i32,
    /// What flows to it, less what flows from it.
    pub(crate) excess: i32,
    /// The first of the arcs out of it.
    pub(crate) first: u32,
    /// The joint by which it joined its tree, or what it is instead.
    pub(crate) by: u32,
}

impl Node {
    #[inline(always)]
    pub(crate) fn is_in_tree(&self) -> bool {
        self.by <= ROOT
    }
}

pub(crate) const NO_NODE: Node = Node {
    height: 0,
    excess: 0,
    first: NONE,
    by: HELD,
};

/// Nodes, the joints between them, and the trees that grow there. Arcs 2k and 2k + 1 are those of joint k: from its tail to
/// its head, and back.
#[derive(Drop)]
pub(crate) struct Network {
    pub(crate) nodes: Vec<Node>,
    pub(crate) joints: Vec<Joint>,
    pub(crate) steps: Vec<Step>,
    /// Where the steps of each joint lie.
    pub(crate) spans: Spans,
    /// The joints that lead out of trees, by the time when they will let another node join.
    pub(crate) waiting: Waiting,
    /// The nodes of the tree that is dissolved.
    pub(crate) loose: Vec<u32>,
    /// 0 if trees grow from excess along arcs, 1 if they grow from deficits against them.
    pub(crate) turn: u32,
    /// How many more arcs may be looked at.
    pub(crate) looks: u64,
}

impl Network {
    /// The network of these joints with the steps that their links make, still without nodes. `joint_of` names the joint of
    /// each link.
    pub(crate) fn of_joints(
        alloc: Global,
        joints: Vec<Joint>,
        joint_of: &[u32],
        links: &[Option<Link>],
        steep: u32,
    ) -> Result<Network, AllocError> {
        let count = number(joints.len());
        let mut network = Network {
            nodes: Vec::new(alloc),
            joints,
            steps: Vec::new(alloc),
            spans: Spans::new(alloc),
            waiting: Waiting::new(alloc)?,
            loose: Vec::new(alloc),
            turn: 0,
            looks: (u64::from(count) + 1) * LOOKS,
        };
        network.make_steps(alloc, joint_of, links, steep)?;
        Ok(network)
    }

    /// Gives it so many nodes, and puts each joint at the rise at which its links cost least.
    pub(crate) fn add_nodes(&mut self, alloc: Global, nodes: u32) -> Result<(), AllocError> {
        let count = number(self.joints.len());
        self.nodes = vec![in alloc; NO_NODE; nodes as usize]?;
        self.waiting.let_wait(alloc, count)?;
        for joint in 0..count {
            self.hang(joint);
            self.start(joint);
        }
        Ok(())
    }

    /// The nodes and joints, without what only their balance needed.
    pub(crate) fn parts(self) -> (Vec<Node>, Vec<Joint>) {
        (self.nodes, self.joints)
    }

    /// Puts the arcs of a joint among those out of its nodes.
    fn hang(&mut self, joint: u32) {
        let Some(held) = self.joints.get_mut(joint as usize) else {
            return;
        };
        let arc = joint.wrapping_mul(2);
        if let Some(tail) = self.nodes.get_mut(held.tail as usize) {
            held.after_tail = tail.first;
            tail.first = arc;
        }
        if let Some(head) = self.nodes.get_mut(held.head as usize) {
            held.after_head = head.first;
            head.first = arc.wrapping_add(1);
        }
    }

    #[inline(always)]
    pub(crate) fn node(&self, node: u32) -> Node {
        self.nodes.get(node as usize).copied().unwrap_or(NO_NODE)
    }

    #[inline(always)]
    pub(crate) fn joint(&self, joint: u32) -> Joint {
        self.joints.get(joint as usize).copied().unwrap_or(NO_JOINT)
    }

    #[inline(always)]
    pub(crate) fn step(&self, step: u32) -> Step {
        self.steps.get(step as usize).copied().unwrap_or(NO_STEP)
    }

    /// The next arc out of the node that an arc leads out of.
    #[inline(always)]
    pub(crate) fn next_out(&self, arc: u32) -> u32 {
        let joint = self.joint(arc / 2);
        if arc % 2 == 0 {
            joint.after_tail
        } else {
            joint.after_head
        }
    }

    /// The node that an arc leads to.
    #[inline(always)]
    pub(crate) fn head(&self, arc: u32) -> u32 {
        let joint = self.joint(arc / 2);
        if arc % 2 == 0 { joint.head } else { joint.tail }
    }

    /// How many arcs there are.
    pub(crate) fn arcs(&self) -> u32 {
        number(self.joints.len()).wrapping_mul(2)
    }

    /// Adds to what a node has above what it needs.
    pub(crate) fn add_excess(&mut self, node: u32, amount: i32) {
        if let Some(node) = self.nodes.get_mut(node as usize) {
            node.excess = node.excess.wrapping_add(amount);
        }
    }

    /// A number, with its sign turned if trees grow from deficits.
    #[inline(always)]
    pub(crate) fn turned(&self, number: i32) -> i32 {
        if self.turn == 0 {
            number
        } else {
            number.wrapping_neg()
        }
    }
}
