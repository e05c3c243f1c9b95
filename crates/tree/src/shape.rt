// The shape of the tree of n pins.
ghost use Rattle.std.specs.Prelude.{◌≡◌, ℕ, ◌+◌, ◌/◌, ◌^◌, ◌≤◌, ◌<◌};
ghost use Rattle.tree.specs.Shape.{height, root_place, side_of, child_of, stretch, rank, ranked};
ghost use Rattle.tree.specs.Levels.{count_of};

// The stretch of the list under a node: where it starts and how many pins it has.
#[derive(Clone, Copy, Debug, PartialEq, Eq)]
pub(crate) struct Stretch {
    pub(crate) start: usize,
    pub(crate) pins: usize,
}

impl Stretch {
    // The stretch under a child of its root, which has this place in it: what follows or what precedes the root.
    pub(crate) fn side(self, place: usize, right: bool) -> Stretch
        requires { (1 ≤ self.pins) × (place ≡ root_place self.pins) × (self.start + self.pins < 2 ^ 64) }
        ensures { result ≡ side_of right self }
    {
        if right {
            Stretch {
                start: self.start + place,
                pins: self.pins - place,
            }
        } else {
            Stretch {
                start: self.start,
                pins: place - 1,
            }
        }
    }
}

// The least h with 2^h - 1 at least n: the bits of n up to its highest one bit.
pub fn height(n: usize) -> usize
    ensures { result ≡ height n }
{
    (usize::BITS - n.leading_zeros()) as usize
}

pub(crate) fn power_of_two(k: usize) -> usize
    requires { k < 64 }
    ensures { result ≡ 2 ^ k }
{
    1usize << k
}

// How many of n nodes the level below d others has.
pub fn count_of(n: usize, d: usize) -> usize
    requires { d < height n }
    ensures { (result ≤ n) × (result ≡ count_of n d) }
{
    let first = power_of_two(d);
    (n - (first - 1)).min(first)
}

// The root's place in a list of n, counted from 1. An empty list has no root, which 0 says.
pub fn root_place(n: usize) -> usize
    ensures { result ≡ root_place n }
{
    if n < 2 {
        return n;
    }
    let half = power_of_two(height(n) - 2);
    if n < 3 * half { n - half + 1 } else { 2 * half }
}

// The number of a node's child.
#[tactic(auto, unfolding(crate::specs::Shape::child_of))]
pub(crate) fn child_of(v: usize, right: bool) -> usize
    requires { v < 2 ^ 63 }
    ensures { result ≡ child_of right v }
{
    if right { 2 * v + 1 } else { 2 * v }
}

// The node of rank i. In the full tree of the same height a node with k levels below it has the place (2m + 1) 2^k, counted from 1, where
// m nodes are before it on its level; every other place is a leaf's. Of the last level's leaves the first ones are here, so places after
// those have no leaves between them here.
pub(crate) fn node_of(n: usize, i: usize) -> usize
    requires { (i < n) × (n < 2 ^ 62) }
    ensures { (1 ≤ result) × (result ≤ n) × (rank n result ≡ i) }
{
    let first = power_of_two(height(n) - 1);
    let leaves = 2 * (n + 1 - first);
    let place = i + 1 + (i + 1).saturating_sub(leaves);
    (2 * first + place) >> (place.trailing_zeros() + 1)
}

// Where the stretch of a missing child v starts, which has no pins. From left to right the missing children are the places before, between
// and after the times: first those below the last level, then those on it.
pub(crate) fn missing_at(n: usize, v: usize) -> usize
    requires { (n < v) × (v / 2 ≤ n) × (n < 2 ^ 62) }
    ensures { result ≡ (stretch n v).start }
{
    let below = power_of_two(height(n));
    if v < below {
        v + n + 1 - below
    } else {
        v - below
    }
}

// The rank of node v, where the node `depth` levels above it has this stretch. The nodes above v are its number shifted, and one bit tells
// on which side it stands below each.
fn rank_under(here: Stretch, v: usize, depth: usize) -> usize
    requires depth_bound { (depth < 64) × (here.start + here.pins < 2 ^ 64) × (1 ≤ v / 2 ^ depth) }
    requires among { (n : ℕ) × (v ≤ n) × (stretch n (v / 2 ^ depth) ≡ here) }
    ensures { (n : ℕ) → stretch n (v / 2 ^ depth) ≡ here → result ≡ rank n v }
{
    let place = root_place(here.pins);
    if depth == 0 {
        return here.start + place - 1;
    }
    let side = here.side(place, (v >> (depth - 1)) % 2 == 1);
    rank_under(side, v, depth - 1)
}

// The rank of node v in a list of n. Any other number has none.
pub fn rank(n: usize, v: usize) -> Option<usize>
    ensures { result ≡ ranked n v }
{
    if v == 0 || n < v {
        return None;
    }
    let all = Stretch { start: 0, pins: n };
    Some(rank_under(all, v, height(v) - 1))
}
