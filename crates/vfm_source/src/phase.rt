//! How far a source has come.

/// How far a source has come with its move.
#[derive(Clone, Copy, Debug, PartialEq, Eq)]
pub enum Phase {
    /// Nothing was offered yet.
    Fresh,
    /// The whole machine was sent.
    Offered,
    /// The destination staged the same machine: Go may be said.
    Settled,
    /// The machine wasn't sent whole, or the destination didn't confirm it: the source is to give up.
    Failed,
    /// Go was said, or tried.
    Gone,
    /// The source gave up.
    GivenUp,
}
