//! What the coordinator of a move sees of one device.

use crate::{MigState, Rule};

/// What can be seen of one device.
#[derive(Clone, Copy, Debug, PartialEq, Eq)]
pub struct DevLook {
    pub state: MigState,
    /// The state that the device is held for.
    pub held: Option<MigState>,
    /// Pending requests that aren't outstanding.
    pub unissued: u32,
    /// Outstanding requests before their delivery.
    pub undelivered: u32,
    /// Outstanding requests after their delivery.
    pub delivered: u32,
    /// Issues so far.
    pub issued: u32,
    /// Completions so far.
    pub completes: u32,
    /// Arcs so far, failed ones included.
    pub arcs: u32,
    /// The first rule that bars the next issue, or `None` where it is allowed.
    pub blocked: Option<Rule>,
}
