//! The packet that ends a channel, in memory of its own.

ghost use Rattle.std.specs.Prelude.{◌≤◌};

use vfm_packet::{HEAD_LEN, Header, Kind, SEAL_LEN, encode_head, packet_size, seal};

/// How many bytes the packet has at most.
const MARK_LIMIT: usize = HEAD_LEN + SEAL_LEN;

/// An end or an abort packet: 40 bytes, and its seal in version 2.
#[derive(Drop)]
pub struct Mark {
    bytes: [u8; MARK_LIMIT],
    size: usize,
    ghost fits: { size ≤ 72 },
}

impl Mark {
    ghost use Rattle.std.specs.Prelude.{◌≡◌, take};
    ghost use Rattle.vfm_packet.specs.Packet.{packet_bytes};
    ghost use Rattle.vfm_send.specs.Sends.{mark_of};
    ghost use Rattle.vfm_send.specs.Marks.{mark_bytes};

    // The header of the packet.
    fn head_of(abort: bool, session: u64, version: u16) -> Header
        ensures { result ≡ (mark_of abort session version).head }
    {
        let kind = if abort { Kind::Abort } else { Kind::End };
        Header {
            version,
            kind,
            session,
            stream: 0,
            index: 0,
            length: 0,
        }
    }

    /// The packet that ends a channel, or says that the sender gave up. The seal is made in each version, and counts in
    /// version 2 alone.
    pub fn of(abort: bool, session: u64, version: u16) -> Mark
        ensures { mark_bytes result ≡ packet_bytes (mark_of abort session version) }
    {
        let head = Mark::head_of(abort, session, version);
        let encoded = encode_head(&head);
        let mut bytes = [0; MARK_LIMIT];
        bytes[..HEAD_LEN].copy_from_slice(&encoded);
        bytes[HEAD_LEN..].copy_from_slice(&seal(&encoded, &[]));
        Mark {
            bytes,
            size: packet_size(&head),
        }
    }

    /// Its bytes.
    pub fn bytes(&self) -> &[u8]
        ensures { result.now ≡ mark_bytes self.now }
    {
        &self.bytes[..self.size]
    }
}
