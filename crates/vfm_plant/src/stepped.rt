//! What a seat wishes for, and what comes of it.

use vfm_quiet::MoveLook;
use vfm_types::{DevLook, DeviceId, Entry};

/// Who is to make a step.
#[derive(Clone, Copy, Debug, PartialEq, Eq)]
pub enum Wish {
    /// Device `d`, the step that `pick` names: of those that it may make, in the order completions, deliveries (both in the
    /// order of issue), issue, the one with number `pick mod count`.
    Device { d: DeviceId, pick: u32 },
    /// The coordinator, what its order wants next, but never Abort. Pass `abort_after` (from 1) is the one after which the
    /// source is to give up; 0 for none.
    Coordinator { abort_after: u32 },
}

/// What an actor sees.
#[derive(Debug, Drop)]
pub enum Look {
    Device(DevLook),
    Coordinator(MoveLook),
}

/// What came of a wish.
#[derive(Debug, Drop)]
pub enum Stepped {
    /// The entry was made, and stands at this place, counted from 0, in the journal that `close` gives.
    Did { place: u64, entry: Entry },
    /// There was nothing to be made after the first `at` entries of that journal, where the actor saw this.
    Nothing { at: u64, look: Look },
    /// Another seat was in a cell that the wish touches.
    Busy { cell: u32, holder: u32 },
}
