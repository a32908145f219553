//! Why a machine wasn't offered whole.

use vfm_types::{DeviceId, MigState};

/// Why not everything was sent, or not as the source was asked to.
#[derive(Clone, Copy, Debug, PartialEq, Eq)]
pub enum OfferFault {
    /// The link of this channel failed, and of none below it.
    Link { channel: u32 },
    /// This pass has ended, after which the source was to give up.
    Aborted { pass: u32 },
    /// Device `d` failed the arc to this state.
    ArcFailed { d: DeviceId, to: MigState },
    /// Memory ran out.
    NoMemory,
}
