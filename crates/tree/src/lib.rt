// The difference tree: the shape of the heap, its construction, and the walks over its levels.

#![tactic(auto)]

mod building; // the stored values of a list, in node order
mod decoding; // what all nodes store, in node order
mod listing; // the times at all positions
mod merging; // levels merged into the list of all times
mod nodes; // where the levels stand in a strip; one node's stored value and time
mod shape; // height, root place, stretches and ranks
mod sweeping; // sweep
mod targets; // one target of a sweep
mod tree; // a strip's bytes with its levels
mod walking; // access and search

pub use building::{construct, level_values};
pub use listing::{Listing, Stop};
pub use nodes::{GREATEST, Levels, Refusal};
pub use shape::{count_of, height, rank, root_place};
pub use tree::Tree;
pub use walking::Found;
