//! The header of a packet and its kind.

ghost use Rattle.std.specs.Prelude.{◌≡◌, ◌≤◌, ◌<◌, ◌↔◌, IsSome, IfSome};
ghost use Rattle.vfm_packet.specs.Header.{kind_number, kind_of_number};
ghost use Rattle.vfm_packet.specs.Packet.{packet_size, seal_len};

/// How many bytes a header has.
pub const HEAD_LEN: usize = 40;

/// How many bytes a seal has.
pub const SEAL_LEN: usize = 32;

/// The version of the format whose packets are sealed.
const SEALED_VERSION: u16 = 2;

/// The most bytes that one payload may have.
pub const PAYLOAD_LIMIT: u32 = 65_536;

/// The most bytes that a channel may have.
pub const CHANNEL_LIMIT: u64 = 67_108_864;

/// What a packet is for.
#[derive(Clone, Copy, Debug, PartialEq, Eq)]
pub enum Kind {
    /// A record of a stream.
    Data,
    /// The last record of a stream.
    Config,
    /// The channel is whole, and nothing follows.
    End,
    /// The sender gave up, and nothing follows.
    Abort,
}

impl Kind {
    /// The number of the kind in a header, 1 to 4.
    pub fn number(self) -> u16
        ensures { result ≡ kind_number self }
    {
        match self {
            Kind::Data => 1,
            Kind::Config => 2,
            Kind::End => 3,
            Kind::Abort => 4,
        }
    }

    /// The kind with this number, or `None` exactly where the number isn't 1 to 4.
    pub fn of_number(n: u16) -> Option<Kind>
        ensures value { result ≡ kind_of_number n }
        ensures known { IsSome result ↔ ((1 ≤ n) × (n ≤ 4)) }
        ensures inverse { IfSome result (λ kind. kind_number kind ≡ n) }
    {
        match n {
            1 => Some(Kind::Data),
            2 => Some(Kind::Config),
            3 => Some(Kind::End),
            4 => Some(Kind::Abort),
            _ => None,
        }
    }
}

/// The header of a packet, 40 bytes on the wire, each number big-endian.
#[derive(Clone, Copy, Debug, PartialEq, Eq)]
pub struct Header {
    /// The version of the format, 1 or 2.
    pub version: u16,
    /// What the packet is for.
    pub kind: Kind,
    /// The session that the packet belongs to.
    pub session: u64,
    /// The stream: 0 is memory, `d + 1` is device `d`. An end or abort packet has 0.
    pub stream: u32,
    /// The place of the packet in its stream, from 0. An end or abort packet has 0.
    pub index: u32,
    /// How many bytes of payload follow: 1 to 65,536, and 0 in an end or abort packet.
    pub length: u32,
}

/// How many bytes follow the payload in this version of the format: the 32 bytes of a seal in version 2, else none.
pub fn seal_len(version: u16) -> usize
    ensures { result ≡ seal_len version }
{
    if version == SEALED_VERSION {
        SEAL_LEN
    } else {
        0
    }
}

/// How many bytes a packet with this header has in all.
pub fn packet_size(head: &Header) -> usize
    ensures { result ≡ packet_size head.now }
{
    HEAD_LEN + head.length as usize + seal_len(head.version)
}
