//! A reader's answer as the words of a status line.

use std::alloc::{AllocError, Global};
use vfm_desc::{member_name, read_desc};
use vfm_types::{DescFault, Field};

// the member after the objects that it stands in
fn member(alloc: Global, what: &str, field: Field) -> Result<String, AllocError> {
    let name = member_name(field.name);
    let device = field.device;
    let job = field.job;
    if device == u32::MAX {
        format!(in alloc; "{what} {name}")
    } else if job == u32::MAX {
        format!(in alloc; "{what} devices.{device}.{name}")
    } else {
        format!(in alloc; "{what} devices.{device}.jobs.{job}.{name}")
    }
}

// the words that report a fault
fn fault_line(alloc: Global, fault: DescFault) -> Result<String, AllocError> {
    match fault {
        DescFault::NotJson => format!(in alloc; "not-json"),
        DescFault::TooLong => format!(in alloc; "too-long"),
        DescFault::NoMemory => format!(in alloc; "no-memory"),
        DescFault::Missing(field) => member(alloc, "missing", field),
        DescFault::Kind(field) => member(alloc, "kind", field),
        DescFault::Range(field) => member(alloc, "range", field),
        DescFault::NotYet(field) => member(alloc, "not-yet", field),
        DescFault::NameTwice { device } => format!(in alloc; "name-twice devices.{device}"),
        DescFault::NeedsP2p { device } => format!(in alloc; "needs-p2p devices.{device}"),
        DescFault::Crosses { device, job } => {
            format!(in alloc; "crosses devices.{device}.jobs.{job}")
        }
        DescFault::OwnBar { device, job } => {
            format!(in alloc; "own-bar devices.{device}.jobs.{job}")
        }
        DescFault::BellKind { device, job } => {
            format!(in alloc; "bell-kind devices.{device}.jobs.{job}")
        }
    }
}

/// What the reader answers: `valid`, or the words that report the fault.
pub(crate) fn answer(alloc: Global, bytes: &[u8]) -> Result<String, AllocError> {
    match read_desc(alloc, bytes) {
        Ok(_) => format!(in alloc; "valid"),
        Err(fault) => fault_line(alloc, fault),
    }
}
