//! Why journals or a report don't pass an audit.

use thiserror::Error;
use vfm_types::Rule;

/// Why journals aren't one legal run.
#[derive(Debug, Drop, Error)]
pub enum AuditFault {
    /// The entry at this place, counted from 0 over both journals, is the first that breaks a rule, and this is the first
    /// rule that it breaks.
    #[error("an entry breaks a rule")]
    Broken { place: u64, rule: Rule },
    /// Memory ran out.
    #[error("out of memory")]
    NoMemory,
}

/// A printed state that isn't the audited one.
#[derive(Clone, Copy, Debug, PartialEq, Eq)]
pub enum Section {
    /// The state at the joint stop.
    Joint,
    /// The final state.
    Last,
}

/// Why a report isn't that of a legal run.
#[derive(Debug, Drop, Error)]
pub enum ReportFault {
    /// The entry at this place, counted from 0 over both journals, is the first that breaks a rule, and this is the first
    /// rule that it breaks.
    #[error("an entry breaks a rule")]
    Broken { place: u64, rule: Rule },
    /// No entry breaks a rule, and this is the first printed state that isn't the audited one.
    #[error("a printed state isn't the audited one")]
    StateDiffers(Section),
    /// Memory ran out.
    #[error("out of memory")]
    NoMemory,
}
