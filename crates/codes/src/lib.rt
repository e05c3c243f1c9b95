// Level codes: the values of one level and the bytes of its part. A part that is read has fewer than 2^32 bytes by its type. Values are lent as
// plain slices, to some functions to read and to others to write, which would be two types; so each function that counts them asks that they
// are fewer than 2^32.

#![tactic(auto)]

mod choosing; // the code with fewest bits
mod comparing; // whether a part is what pack writes
mod counting; // bits of a part that are 1, by words
mod decoding; // all values of a level at once
mod encoding; // a level's part, written
mod fetching; // one value, from the part alone
mod kinds; // what a code byte says
mod layering; // the layers of a chunked code, written
mod marking; // bits that were counted, for the next count
mod measuring; // how many values have how many bits
mod part; // a level's part, to read
mod reading; // bits of a part, by bytes
mod writing; // bits into a buffer, one after the other

pub use choosing::{Choice, choose};
pub use comparing::is_chosen;
pub use decoding::decode;
pub use encoding::encode;
pub use fetching::{fetch, fetch_short};
pub use kinds::Kind;
pub use marking::Mark;
pub use part::Part;
