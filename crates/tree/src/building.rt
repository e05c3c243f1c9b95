// The values that the nodes of a list's tree store, in node order.
ghost use Rattle.std.specs.Prelude.{◌≡◌, ◌++◌, ◌+◌, ◌-◌, ◌%◌, ◌≤◌, ◌<◌, T, length, drop, get_or, set};
ghost use Rattle.tree.specs.Shape.{height, stretch};
ghost use Rattle.tree.specs.Lists.{ordered};
ghost use Rattle.tree.specs.Stored.{difference, time_of, time_above, stored, stored_values};
ghost use Rattle.tree.specs.Levels.{level_values};
ghost use Rattle.tree.specs.Filled.{Filled};

use super::shape::{Stretch, count_of, power_of_two, root_place};

// What node v stores: its time's difference from its parent's, which is the greater one for a left child. Above the root the
// time is 0, so that the root stores its time. The side tells which is greater, and not a comparison as in `abs_diff`: where v is 2u or 2u + 1
// the compiler knows it.
fn stored_value(v: usize, above: u32, time: u32) -> u32
    requires { (v % 2 ≡ 0 → time ≤ above) × (v % 2 ≡ 1 → above ≤ time) }
    ensures { result ≡ difference v above time }
{
    if v % 2 == 0 {
        above - time
    } else {
        time - above
    }
}

// The times of a list, none lower than the one before.
#[derive(Clone, Copy)]
struct Ordered<'a> {
    times: &'a [u32],
    ghost in_order: { T (ordered times.now) },
}

// The node, its stretch and the time above it change from call to call, and `values` is borrowed; so these are told each time.
impl Ordered<'_> {
    // Fills the entry of node v, whose time stands at position `at`, and gives that time. The time of its parent is `above`.
    fn fill_node(self, values: &mut [u32], at: usize, v: usize, above: u32) -> u32
        requires in_bounds { (length self.times.now ≤ length values.old) × (1 ≤ v) × (v ≤ length self.times.now) × (at < length self.times.now) }
        requires at_value { (get_or self.times.now at 0 ≡ time_of self.times.now v) × (time_above self.times.now v ≡ above) }
        ensures among { v ≤ length self.entry.times.now }
        ensures value { result ≡ time_of self.entry.times.now v }
        ensures values_after { values.new ≡ set values.old (v - 1) (stored self.entry.times.now v) }
    {
        let time = self.times[at];
        values[v - 1] = stored_value(v, above, time);
        time
    }

    // As `fill`, for a stretch of no more than three pins. With two or more of them the node has a left child, with three a right one, and
    // these have no children.
    fn fill_few(self, values: &mut [u32], here: Stretch, v: usize, above: u32)
        requires in_bounds { (length self.times.now ≤ length values.old) × (1 ≤ v) × (here.pins ≤ 3) }
        requires stretch_is { (stretch (length self.times.now) v ≡ here) × (here.start + here.pins ≤ length self.times.now)
            × (time_above self.times.now v ≡ above) }
        ensures { Filled self.entry.times.now v values.old values.new }
    {
        let Stretch { start, pins } = here;
        if pins == 0 {
            return;
        }
        if pins == 1 {
            self.fill_node(values, start, v, above);
            return;
        }
        let time = self.fill_node(values, start + 1, v, above);
        self.fill_node(values, start, 2 * v, time);
        if pins == 3 {
            self.fill_node(values, start + 2, 2 * v + 1, time);
        }
    }

    // Fills the entries of node v, which has this stretch under it, and of the nodes below it. The time of its parent is `above`. The sides
    // of seven pins have no more than three each, which saves most calls.
    fn fill(self, values: &mut [u32], here: Stretch, v: usize, above: u32)
        requires in_bounds { (length self.times.now ≤ length values.old) × (1 ≤ v) }
        requires stretch_is { (stretch (length self.times.now) v ≡ here) × (here.start + here.pins ≤ length self.times.now)
            × (time_above self.times.now v ≡ above) }
        ensures { Filled self.entry.times.now v values.old values.new }
    {
        if here.pins <= 3 {
            self.fill_few(values, here, v, above);
            return;
        }
        let place = root_place(here.pins);
        let time = self.fill_node(values, here.start + place - 1, v, above);
        let left = here.side(place, false);
        let right = here.side(place, true);
        if here.pins <= 7 {
            self.fill_few(values, left, 2 * v, time);
            self.fill_few(values, right, 2 * v + 1, time);
            return;
        }
        self.fill(values, left, 2 * v, time);
        self.fill(values, right, 2 * v + 1, time);
    }
}

// Writes the stored values of an ordered list to the front of `values`, in node order.
pub fn construct(values: &mut [u32], times: &[u32])
    requires t { T (ordered times.now) }
    requires times_in_bounds { length times.now ≤ length values.old }
    ensures { values.new ≡ stored_values times.now ++ drop (length times.now) values.old }
{
    let all = Stretch {
        start: 0,
        pins: times.len(),
    };
    Ordered { times }.fill(values, all, 1, 0);
}

// Of a tree's values in node order, those of the level below `depth` others.
pub fn level_values(values: &[u32], depth: usize) -> &[u32]
    requires { depth < height (length values.now) }
    ensures { result.now ≡ level_values values.now depth }
{
    let first = power_of_two(depth) - 1;
    &values[first..first + count_of(values.len(), depth)]
}
