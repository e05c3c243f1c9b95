// Access and search: walks from the root down.
ghost use Rattle.std.specs.Prelude.{◌≡◌, ◌<◌};
ghost use Rattle.tree.specs.Times.{outcome, times_in};
ghost use Rattle.tree.specs.Walks.{access_answer, search_answer};

use super::nodes::{Node, Refusal};
use super::shape::{height, missing_at, node_of};
use super::tree::Tree;

// What a walk gives: the time at a position, or the position of a target, with the nodes opened.
#[derive(Clone, Copy, Debug, PartialEq, Eq)]
pub struct Found {
    pub value: usize,
    pub nodes: usize,
}

impl Tree<'_> {
    // The time at position i: from the root down to the node of rank i. The nodes above a node have its first binary digits as their numbers.
    pub fn access(&self, i: usize) -> Result<Found, Refusal>
        requires { i < self.now.levels.pins }
        ensures { outcome result ≡ access_answer self.now.levels.pins (times_in self.now.levels self.now.bytes.now) i }
    {
        let goal = node_of(self.levels.pins, i);
        let levels = height(goal);
        let mut above: u32 = 0;
        let mut opened: usize = 0;
        for depth in 0..levels {
            let v = goal >> (levels - 1 - depth);
            opened += 1;
            above = self.open_node(&mut [], Node { v, depth, above })?;
        }
        Ok(Found {
            value: above as usize,
            nodes: opened,
        })
    }

    // The rank of the last node left by its left side, or n: left where a node's time is at or above the target, else right. The stretch under
    // the walk ends there, and at the end of the walk, where it has no pins, also starts there. Either side is as likely, so none is a branch.
    pub fn search(&self, target: u32) -> Result<Found, Refusal>
        ensures { outcome result ≡ search_answer self.now.levels.pins (times_in self.now.levels self.now.bytes.now) target }
    {
        let n = self.levels.pins;
        let mut node = Node::ROOT;
        let mut nodes: usize = 0;
        while node.v <= n {
            nodes += 1;
            let time = self.open_node(&mut [], node)?;
            node = node.child(time < target, time);
        }
        Ok(Found {
            value: missing_at(n, node.v),
            nodes,
        })
    }
}
