// Pin strips: their bytes, and the calls on them.

#![tactic(auto)]

mod layout; // where levels lie
mod lists; // lists of times
mod numbers; // numbers of several bytes
mod open; // a strip that is open
mod opening; // the tests that every reading call makes first
mod packing; // the plan of an image, and whether there is room for it
mod reading; // check, unpack and repeat of an open strip
mod refusals; // why a call is refused
mod strip; // the strip type, with the calls
mod sweeping; // sweep of an open strip
mod walker; // the pin walker
mod writing; // the image's bytes

pub use refusals::Refusal;
pub use strip::Strip;
pub use tree::Found;
pub use walker::{Moved, Walker};
