// Levels merged into one list of times: what lies above a level is a list itself, and each of the level's nodes stands between two
// neighbours of it. A level is merged from its last node to its first, so that no entry is lost before it is used.
// The times and the level are borrowed: a struct that held them would have to promise at each step that they are still the same.
ghost use Rattle.std.specs.Prelude.{◌≡◌, IsSome, List, ℕ, suc, ◌+◌, ◌*◌, ◌/◌, ◌%◌, ◌^◌, ◌≤◌, ◌<◌, length};
ghost use Rattle.tree.specs.Merged.{MergedFrom, Merges, AllMerged};

use super::building::level_values;
use super::shape::{height, power_of_two};

// Moves the entries that no node of the level stands behind, from `count` - 1 on, behind all `count` nodes. They are moved one by one,
// the last first: `copy_within` would ask `memmove` of the C library.
fn move_up(times: &mut [u32], above: usize, count: usize)
    requires { (1 ≤ count) × (count ≤ suc above) × (above + count ≤ length times.old) }
    ensures { (stored : List ℕ) → length stored ≡ count → MergedFrom times.old stored above count times.new }
{
    for i in (count - 1..above).rev() {
        times[i + count] = times[i];
    }
}

// Merges node j, a left child, of a level: it is `stored` before its parent, entry j.
fn merge_left(times: &mut [u32], stored: &[u32], j: usize) -> Option<()>
    requires { (j % 2 ≡ 0) × (j < length stored.now) × (2 * j < length times.old) }
    ensures { IsSome result → Merges stored.now (suc j) j times.old times.new }
{
    let time = times[j].checked_sub(stored[j])?;
    times[2 * j] = time;
    if j > 0 {
        times[2 * j - 1] = times[j - 1];
    }
    Some(())
}

// Merges the children 2q and 2q + 1 of entry 2q.
fn merge_pair(times: &mut [u32], stored: &[u32], q: usize) -> Option<()>
    requires { (2 * q + 1 < length stored.now) × (4 * q + 2 < length times.old) }
    ensures { IsSome result → Merges stored.now (2 * q + 2) (2 * q) times.old times.new }
{
    let parent = times[2 * q];
    let time = parent.checked_add(stored[2 * q + 1])?;
    times[4 * q + 2] = time;
    times[4 * q + 1] = parent;
    merge_left(times, stored, 2 * q)
}

// Merges the first `pairs` pairs of children.
fn merge_pairs(times: &mut [u32], stored: &[u32], pairs: usize) -> Option<()>
    requires { (2 * pairs ≤ length stored.now) × (4 * pairs ≤ length times.old + 1) }
    ensures { IsSome result → Merges stored.now (2 * pairs) 0 times.old times.new }
{
    for q in (0..pairs).rev() {
        merge_pair(times, stored, q)?;
    }
    Some(())
}

// Merges a level with the list of the `above` nodes above it. It fails where a time is below 0 or above 4,294,967,295.
fn merge_level(times: &mut [u32], stored: &[u32], above: usize) -> Option<()>
    requires { (1 ≤ length stored.now) × (length stored.now ≤ suc above) × (above + length stored.now ≤ length times.old) × (above / 2 * 2 + 1 ≡ above) }
    ensures { IsSome result → MergedFrom times.old stored.now above 0 times.new }
{
    let count = stored.len();
    move_up(times, above, count);
    if count % 2 == 1 {
        // The last left child has no sibling.
        merge_left(times, stored, count - 1)?;
    }
    merge_pairs(times, stored, count / 2)
}

// Makes the list of all times of what the nodes store, in node order. It fails where a time is below 0 or above 4,294,967,295.
pub(crate) fn merge_levels(times: &mut [u32], values: &[u32]) -> Option<()>
    requires { (length values.now < 2 ^ 16) × (length values.now ≤ length times.old) }
    ensures { IsSome result → AllMerged values.now times.new }
{
    let n = values.len();
    if n == 0 {
        return Some(());
    }
    times[0] = values[0];
    for depth in 1..height(n) {
        let above = power_of_two(depth) - 1;
        merge_level(times, level_values(values, depth), above)?;
    }
    Some(())
}
