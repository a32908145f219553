//! Reading the description of a machine and of its move from JSON.
//!
//! `read_desc` answers what the definition `description_of` (`specs/Described.antt`) says of the bytes: a valid
//! description, or the first fault in the order of the tests, with its member. The definition goes over the value that
//! `serde_json` reads, one member after the other, by the table of ranges of `vfm_types`.
#![tactic(auto)]

mod described;
mod members;
mod parts;
mod reading;
mod sizes;

pub use described::{MOST_BYTES, read_desc};
pub use members::member_name;
