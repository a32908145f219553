//! What is wrong with a line of the table, or with the machine that tries it.

use hex::FromHexError;
use std::alloc::{AllocError, AllocFailed};
use vfm_types::NoMemory;

/// Why a line has no answer.
#[derive(Clone, Copy, Debug, PartialEq, Eq)]
pub enum Trouble {
    /// It has another form than the table's lines.
    Form,
    /// It describes no valid machine.
    Machine,
    /// Memory ran out.
    NoMemory,
}

impl Trouble {
    /// In words.
    pub fn text(&self) -> &'static str {
        match self {
            Trouble::Form => "no line of the table",
            Trouble::Machine => "no valid machine",
            Trouble::NoMemory => "no memory",
        }
    }
}

impl From<NoMemory> for Trouble {
    fn from(_error: NoMemory) -> Self {
        Trouble::NoMemory
    }
}

impl From<AllocError> for Trouble {
    fn from(_error: AllocError) -> Self {
        Trouble::NoMemory
    }
}

impl<T: Drop> From<AllocFailed<T>> for Trouble {
    fn from(_error: AllocFailed<T>) -> Self {
        Trouble::NoMemory
    }
}

impl From<FromHexError> for Trouble {
    fn from(_error: FromHexError) -> Self {
        Trouble::Form
    }
}
