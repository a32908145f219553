//! Where a move stands on its way.

use vfm_dest::Staged;
use vfm_status::Status;

/// Where a move stands once its links have carried what they can.
#[derive(Drop)]
pub enum Step {
    /// The status is known, and the source is to go on. The loaded machine is there where it differs from the source's.
    Decided {
        status: Status,
        loaded: Option<Staged>,
    },
    /// The destination staged the source's own machine: Go may be said.
    Confirmed(Staged),
}
