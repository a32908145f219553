//! The records that carry a machine's state in the payloads of packets: how each is encoded, which bytes are refused and
//! at which place, and the digest by which both ends of a move find out whether they have the same machine.
//!
//! The format stands in `specs/`: `Record` has the records, their encoding and which of them a stream can have, `Tests`
//! the tests of some bytes in their order and what bytes say that pass them, `Writing` which records can be written, `Shape` the text that the digest is of, and
//! `Packing` the packet of a record. The laws that join them are the functions of `laws.rt`. Only writing takes
//! memory.
#![tactic(auto)]

mod laws;
mod packing;
mod reader;
mod record;
mod shape;
mod tag;
mod writer;

pub use laws::{
    one_encoding, read_is_written, size_of_a_record, what_can_be_written, written_is_read,
};
pub use packing::{put_end, put_record, records_are_payloads};
pub use reader::{pending_at, read};
pub use record::{Rec, RecordFault};
pub use shape::shape_digest;
pub use writer::{encoded_len, write, write_pending};

#[cfg(test)]
mod tests;
