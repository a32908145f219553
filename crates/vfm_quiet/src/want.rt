//! What the coordinator of a move wants.

use vfm_types::Entry;

/// What is to be done next.
#[derive(Clone, Copy, Debug, PartialEq, Eq)]
pub enum Want {
    /// This entry is to be made.
    Do(Entry),
    /// Nothing can be done before a device has gone on.
    Wait,
    /// Nothing is left to be done.
    Done,
}
