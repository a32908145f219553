//! The states of both ends of a handshake, what moves them, and what a destination answers.

use vfm_types::Refusal;

/// Where the source stands. The 32 bytes are always its own digest, that of the state it stopped with.
#[derive(Clone, Copy, Debug, PartialEq, Eq)]
pub enum SourceEnd {
    /// It has sent its whole state and heard no confirmation.
    Offered([u8; 32]),
    /// The destination has confirmed this very digest. It may send Go.
    Heard([u8; 32]),
    /// It has sent Go. From here on the machine may be the destination's.
    GoSent([u8; 32]),
    /// It has given up the move, and runs again.
    Resumed,
    /// It is gone.
    Stopped,
}

/// Where the destination stands.
#[derive(Clone, Copy, Debug, PartialEq, Eq)]
pub enum DestEnd {
    /// It takes the state in.
    Staging,
    /// It has staged a whole state with this digest and said so. It waits for Go.
    Staged([u8; 32]),
    /// It won't take the machine over, and has said why.
    Refused(Refusal),
    /// It runs the machine that it staged, which has this digest.
    Running([u8; 32]),
    /// It is gone.
    Stopped,
}

/// What a destination answers, once.
#[derive(Clone, Copy, Debug, PartialEq, Eq)]
pub enum Answer {
    /// It has staged a whole state with this digest.
    Staged([u8; 32]),
    /// It won't take the machine over.
    Refused(Refusal),
}

/// Something that happens to a pair.
#[derive(Clone, Copy, Debug, PartialEq, Eq)]
pub enum PairEvent {
    /// The destination has staged a whole state with this digest, and sends the answer Staged.
    Stage([u8; 32]),
    /// The destination refuses, and sends the answer Refused.
    Refuse(Refusal),
    /// The destination's answer reaches the source. It may do so any number of times, and late.
    DeliverAnswer,
    /// Go reaches the destination. It may do so any number of times, and late.
    DeliverGo,
    /// The source sends Go with its own digest.
    SendGo,
    /// The source gives up the move and runs again.
    GiveUp,
    /// The source ends, wherever it stands.
    StopSource,
    /// The destination ends, wherever it stands.
    StopDest,
}

/// The event can't happen where the pair stands.
#[derive(Clone, Copy, Debug, PartialEq, Eq)]
pub struct NotNow;
