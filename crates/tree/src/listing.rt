// Listing: the times at all positions, in order.
ghost use Rattle.std.specs.Prelude.{◌≡◌, ◌≤◌, length};
ghost use Rattle.codes.specs.Lists.{replaced, filled_to};
ghost use Rattle.tree.specs.Listing.{accesses, times_from, times_all, Lists};
ghost use Rattle.tree.specs.Standing.{Stands, Reaches};
ghost use Rattle.tree.specs.DecodedLevels.{Decodes};

use super::merging::merge_levels;
use super::nodes::{Node, Refusal};
use super::shape::{Stretch, root_place};
use super::tree::Tree;

// The first position at which access is refused, and why.
#[derive(Clone, Copy, Debug, PartialEq, Eq)]
pub struct Stop {
    pub position: usize,
    pub refusal: Refusal,
}

// A listing: whether every position has a time, and whether all levels were decoded for it. Neither says the other: a level that is not decoded,
// for chunks of zeros on top, may still give every node a time.
#[derive(Clone, Copy, Debug, PartialEq, Eq)]
pub struct Listing {
    pub listed: Result<(), Stop>,
    pub decoded: bool,
}

impl Tree<'_> {
    // Lists the stretch under a node. The node is opened, its left side listed, its time written, its right side listed; so nodes are opened in
    // the order in which accesses to one position after the other first come to them.
    fn list_under(&self, times: &mut [u32], here: Stretch, node: Node) -> Result<(), Stop>
        requires long { self.now.levels.pins ≤ length times.old }
        requires stands { Stands self.now.levels self.now.bytes.now node.v node.depth here node.above }
        requires reaches { Reaches self.now.levels self.now.bytes.now node.v node.depth here }
        ensures lists { Lists (accesses self.now.levels self.now.bytes.now) here.pins here.start result }
        ensures times_after { times.new ≡ replaced times.old here.start (times_from (accesses self.now.levels self.now.bytes.now) here.pins here.start) }
    {
        if here.pins == 0 {
            return Ok(());
        }
        // A match, not `map_err`: in a recursion nothing is known of what a closure answers.
        let time = match self.open_full(&mut [], node.v, node.depth, node.above) {
            Ok(time) => time,
            Err(refusal) => return Err(Stop {
                position: here.start,
                refusal,
            }),
        };
        let place = root_place(here.pins);
        self.list_under(times, here.side(place, false), node.child(false, time))?;
        times[here.start + place - 1] = time;
        self.list_under(times, here.side(place, true), node.child(true, time))
    }

    // Writes the times at the positions from 0 on, up to the first at which access is refused, and 0 from there on. What the nodes store
    // is decoded into `values`. Where all levels are decoded and no time is below 0 or above the greatest, they are merged; else the nodes
    // are opened one by one.
    pub fn list(&self, times: &mut [u32], values: &mut [u32]) -> Listing
        requires { (self.now.levels.pins ≡ length times.old) × (self.now.levels.pins ≡ length values.old) }
        ensures lists { Lists (accesses self.now.levels self.now.bytes.now) self.now.levels.pins 0 result.listed }
        ensures times_after { times.new ≡ filled_to self.now.levels.pins (times_all self.now.levels self.now.bytes.now) }
        ensures decodes { Decodes self.now.levels self.now.bytes.now result.decoded values.new }
    {
        let pins = self.levels.pins;
        let decoded = self.decode_levels(values).is_some();
        if decoded && merge_levels(times, values).is_some() {
            return Listing {
                listed: Ok(()),
                decoded,
            };
        }
        times.fill(0);
        Listing {
            listed: self.list_under(times, Stretch { start: 0, pins }, Node::ROOT),
            decoded,
        }
    }
}
