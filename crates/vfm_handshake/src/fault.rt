//! What the two ends may hear in place of what they wait for.

use vfm_types::{Heard44, Refusal};

/// Why a source doesn't hear that its own state was staged.
#[derive(Debug, Drop)]
pub enum SettleFault {
    /// The control link failed.
    Link,
    /// The destination refused.
    Refused(Refusal),
    /// The destination staged another state than ours: the SHA-256 of both.
    Unconfirmed { ours: [u8; 32], theirs: [u8; 32] },
    /// These bytes came, and they are no answer: fewer than 44 before the link ended, no frame of the session, or a Go.
    NoControl(Heard44),
}

/// Why a destination doesn't hear Go for the state that it staged.
#[derive(Debug, Drop)]
pub enum GoFault {
    /// The control link failed.
    Link,
    /// These bytes came, and they are no Go: fewer than 44 before the link ended, no frame of the session, or an answer.
    NoGo(Heard44),
    /// Go was said for another state than ours: the SHA-256 of both.
    Other { ours: [u8; 32], theirs: [u8; 32] },
}
