//! Why a line of the table gives no answer.

use hex::FromHexError;
use std::alloc::{AllocError, AllocFailed};
use vfm_types::NoMemory;

/// Why there is no answer.
#[derive(Clone, Copy)]
pub enum Trouble {
    /// The line isn't one of a table.
    Form,
    /// Memory ran out.
    NoMemory,
}

impl Trouble {
    /// A few words on it.
    pub fn text(self) -> &'static str {
        match self {
            Trouble::Form => "no case",
            Trouble::NoMemory => "no memory",
        }
    }
}

impl From<AllocError> for Trouble {
    fn from(_: AllocError) -> Trouble {
        Trouble::NoMemory
    }
}

impl From<NoMemory> for Trouble {
    fn from(_: NoMemory) -> Trouble {
        Trouble::NoMemory
    }
}

impl<T: Drop> From<AllocFailed<T>> for Trouble {
    fn from(_: AllocFailed<T>) -> Trouble {
        Trouble::NoMemory
    }
}

impl From<FromHexError> for Trouble {
    fn from(error: FromHexError) -> Trouble {
        match error {
            FromHexError::OutOfMemory => Trouble::NoMemory,
            _ => Trouble::Form,
        }
    }
}
