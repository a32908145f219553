//! What a reader hands to a loader.

use crate::Payload;
use vfm_packet::Header;

/// A packet of a stream, or the mark that the reader of a channel is done.
#[derive(Debug, Drop)]
pub enum Parcel {
    /// A data or config packet: its header, and its payload.
    Packet { head: Header, payload: Payload },
    /// Nothing more comes from this channel.
    Close,
}
