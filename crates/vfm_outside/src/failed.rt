//! The errors of the outside.

ghost use Rattle.std.specs.Prelude.{◌≡◌};
ghost use Rattle.vfm_outside.specs.declared.failed.ReadFault.TheVariants.{Failed as read_failed, NoMemory as read_no_memory};

use std::alloc::{AllocError, AllocFailed};

/// A source, sink or link failed, and has counted it.
#[derive(Clone, Copy, Debug, PartialEq, Eq)]
pub struct Failed;

/// Why bytes couldn't be read into memory.
#[derive(Clone, Copy, Debug, PartialEq, Eq)]
pub enum ReadFault {
    /// The source failed, and has counted it.
    Failed,
    /// Memory ran out.
    NoMemory,
}

impl From<Failed> for ReadFault {
    ghost from_gives = { λ _ e. e ≡ read_failed };

    fn from(_fault: Failed) -> ReadFault {
        ReadFault::Failed
    }
}

impl From<AllocError> for ReadFault {
    ghost from_gives = { λ _ e. e ≡ read_no_memory };

    fn from(_fault: AllocError) -> ReadFault {
        ReadFault::NoMemory
    }
}
