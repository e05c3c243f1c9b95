// One node: what it stores on its level, and its time.
ghost use Rattle.std.specs.Prelude.{◌≡◌, ◌+◌, ◌^◌, ◌<◌, ◌≤◌};
ghost use Rattle.codes.specs.Fetch.{value};
ghost use Rattle.tree.specs.Shape.{height, child_of};
ghost use Rattle.tree.specs.Levels.{part_of};
ghost use Rattle.tree.specs.Outcomes.{gives};
ghost use Rattle.tree.specs.Times.{outcome, under};
ghost use Rattle.tree.specs.Standing.{Openable, Opens};

use super::shape::{child_of, count_of, power_of_two};
use super::tree::Tree;
use codes::{Mark, Part, fetch, fetch_short};

// The pin count, each level's code byte and each level's end. Entry 0 of the ends is where the first level starts; so the part
// of the level below d others is the strip's bytes from entry d up to entry d + 1. There is one end more than codes, and the definitions on
// levels read them so; hence two arrays.
#[derive(Clone, Copy, Debug, PartialEq, Eq)]
pub struct Levels {
    pub pins: usize,
    pub codes: [u8; 16],
    pub ends: [usize; 17],
}

// Why a walk stops at a node, with the node.
#[derive(Clone, Copy, Debug, PartialEq, Eq)]
pub enum Refusal {
    // Its fetch, from a chunked level, passes its part, or the value is 2^32 or more.
    Fetch(usize),
    // Its time would be below 0 or above 4,294,967,295.
    Time(usize),
}

// The greatest time.
pub const GREATEST: u32 = 4294967295;

// A node to open: its number, how many levels are above it, and its parent's time.
#[derive(Clone, Copy)]
pub(crate) struct Node {
    pub(crate) v: usize,
    pub(crate) depth: usize,
    pub(crate) above: u32,
}

impl Node {
    pub(crate) const ROOT: Node = Node {
        v: 1,
        depth: 0,
        above: 0,
    };

    // The child on a side, under the node's time.
    pub(crate) fn child(self, right: bool, time: u32) -> Node
        requires { (self.v < 2 ^ 63) × (self.depth < 64) }
        ensures { result ≡ record { v = child_of right self.v; depth = self.depth + 1; above = time } }
    {
        Node {
            v: child_of(self.v, right),
            depth: self.depth + 1,
            above: time,
        }
    }
}

// The time of node v, which stores `d`, by its parent's: a left child is `d` before it, a right child `d` after it. Both sides have one
// sum, since a branch on a node's side would be wrong half of the time. It wraps where a time would be below 0, to a number far above the greatest.
fn time_under(v: usize, above: u32, d: u32) -> Result<u32, Refusal>
    ensures { outcome result ≡ under v (gives above) (value d) }
{
    let change = if v % 2 == 0 {
        u64::from(d).wrapping_neg()
    } else {
        u64::from(d)
    };
    u32::try_from(u64::from(above).wrapping_add(change)).map_err(|_| Refusal::Time(v))
}

impl Tree<'_> {
    // The part of the level below `depth` others.
    pub(crate) fn part(&self, depth: usize) -> Part<'_>
        requires { depth < height self.now.levels.pins }
        ensures { result.bytes.now ≡ part_of self.now.levels.ends self.now.bytes.now depth }
    {
        Part {
            bytes: &self.bytes[self.levels.ends[depth]..self.levels.ends[depth + 1]],
        }
    }

    // Opens a node by a fetch from its level's part alone. Each of 16 levels has a sixteenth of the marks. It takes a node's numbers one by one:
    // a walk would store a `Node` at each step, in case it has to be lent.
    pub(crate) fn open_full(
        &self,
        marks: &mut [Mark],
        v: usize,
        depth: usize,
        above: u32,
    ) -> Result<u32, Refusal>
        requires { Openable self.now.levels self.now.bytes.now marks.old depth v }
        ensures { Opens self.now.levels self.now.bytes.now marks.new above v result }
    {
        let code = self.levels.codes[depth];
        let count = count_of(self.levels.pins, depth);
        let index = v - power_of_two(depth);
        let room = marks.len() / 16;
        let from = depth * room;
        let lent = &mut marks[from..from + room];
        match fetch(lent, self.part(depth), code, count, index) {
            Some(d) => time_under(v, above, d),
            None => Err(Refusal::Fetch(v)),
        }
    }

    // As `open_full`, for the loops of the walks: `fetch_short` has most values of fixed codes. Where it says nothing it has read nothing of
    // the part, so a node's value is read by one fetch.
    #[inline(always)]
    pub(crate) fn open_node(&self, marks: &mut [Mark], node: Node) -> Result<u32, Refusal>
        requires { Openable self.now.levels self.now.bytes.now marks.old node.depth node.v }
        ensures { Opens self.now.levels self.now.bytes.now marks.new node.above node.v result }
    {
        let Node { v, depth, above } = node;
        match fetch_short(
            self.part(depth),
            self.levels.codes[depth],
            v - power_of_two(depth),
        ) {
            Some(d) => time_under(v, above, d),
            None => self.open_full(marks, v, depth, above),
        }
    }
}
