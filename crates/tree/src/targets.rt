// One target of a sweep: which remembered nodes it drops, and its way down.
ghost use Rattle.std.specs.Prelude.{◌≡◌};
ghost use Rattle.tree.specs.LevelMarks.{LevelMarks};
ghost use Rattle.tree.specs.Remembering.{Remembers, GoesOn, Resumes, Leaves};

use super::nodes::{Node, Refusal};
use super::shape::{child_of, height};
use super::tree::Tree;
use codes::Mark;

// A node left by its left side, with its time.
#[derive(Clone, Copy)]
pub(crate) struct Remembered {
    pub(crate) v: usize,
    pub(crate) time: u32,
}

// How far a sweep has come: the first `count` nodes are remembered, the deepest last; the number that it goes on from with the time above it;
// and the nodes opened in all. At most one node on each level is remembered, so 16 are enough, and there is no heap. Between two targets that
// number is the missing child that the last one came to, which tells its position.
#[derive(Clone, Copy)]
pub(crate) struct Progress {
    pub(crate) kept: [Remembered; 16],
    pub(crate) count: usize,
    pub(crate) v: usize,
    pub(crate) above: u32,
    pub(crate) opened: usize,
}

impl Progress {
    // At the root, with nothing remembered.
    pub(crate) const START: Progress = Progress {
        kept: [Remembered { v: 0, time: 0 }; 16],
        count: 0,
        v: 1,
        above: 0,
        opened: 0,
    };

    // Drops remembered nodes, from the deepest up, while their time is below the target, and goes on from the right child of the last of them.
    // Where none is dropped it goes on from where it is.
    pub(crate) fn resume(&mut self, target: u32)
        requires { Remembers self.old }
        ensures { Resumes target self.old self.new }
    {
        let mut count = self.count;
        while count > 0 && self.kept[count - 1].time < target {
            count -= 1;
        }
        if count < self.count {
            let last = self.kept[count];
            self.count = count;
            self.v = child_of(last.v, true);
            self.above = last.time;
        }
    }
}

impl Tree<'_> {
    // Opens nodes: to the left child where a node's time is at or above the target, else to the right one, until no child. A later target goes
    // mostly to the left, so a branch on the side is mostly predicted. A later target that drops none is at a missing child, and opens none.
    pub(crate) fn go_down(
        &self,
        marks: &mut [Mark],
        progress: &mut Progress,
        target: u32,
    ) -> Result<(), Refusal>
        requires goes { GoesOn self.now.levels self.now.bytes.now progress.old }
        requires level_marks { LevelMarks self.now.levels.ends self.now.bytes.now marks.old }
        ensures leaves { Leaves self.now.levels self.now.bytes.now target progress.old progress.new result }
        ensures level_marks_2 { LevelMarks self.now.levels.ends self.now.bytes.now marks.new }
    {
        let n = self.levels.pins;
        if progress.v > n {
            return Ok(());
        }
        let mut count = progress.count;
        let mut opened = progress.opened;
        let mut node = Node {
            v: progress.v,
            depth: height(progress.v) - 1,
            above: progress.above,
        };
        while node.v <= n {
            opened += 1;
            let time = self.open_node(marks, node)?;
            if time < target {
                node = node.child(true, time);
            } else {
                progress.kept[count] = Remembered { v: node.v, time };
                count += 1;
                node = node.child(false, time);
            }
        }
        progress.count = count;
        progress.v = node.v;
        progress.above = node.above;
        progress.opened = opened;
        Ok(())
    }
}
