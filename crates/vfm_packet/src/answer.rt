//! What a reader of packets expects and what it answers.

ghost use Rattle.vfm_packet.specs.Header.{IsVersion};

use crate::header::Header;

/// What the headers of a channel have to say.
#[derive(Clone, Copy, Debug, PartialEq, Eq)]
pub struct Expect {
    /// The version of the format, 1 or 2.
    pub version: u16,
    /// The session.
    pub session: u64,
    /// How many streams there are: a stream's number is below this.
    pub streams: u32,
    pub ghost known: { IsVersion version },
}

/// Why the bytes at a place are no packet. Where several causes apply, the first of this order is the answer.
#[derive(Clone, Copy, Debug, PartialEq, Eq)]
pub enum Cause {
    /// The first four bytes aren't `VFMD`.
    Magic,
    /// The version isn't the expected one.
    Version,
    /// The number of the kind isn't 1 to 4.
    Kind,
    /// The session isn't the expected one, or there is no stream of that number.
    Foreign,
    /// The payload of a data or config packet is empty or longer than 65,536 bytes.
    Length,
    /// Bytes that have to be zero aren't: the last twelve, and the stream, index and length of an end or abort packet.
    Spare,
    /// The packet is whole, and its seal isn't the SHA-256 of its header and payload.
    Corrupt,
}

impl Cause {
    ghost use Rattle.std.specs.Prelude.{◌≡◌};
    ghost use Rattle.vfm_packet.specs.Answer.{cause_number};

    /// The number of the cause: 1 to 6 for those of a header, in their order, and 13 for `Corrupt`.
    pub fn number(self) -> u32
        ensures { result ≡ cause_number self }
    {
        match self {
            Cause::Magic => 1,
            Cause::Version => 2,
            Cause::Kind => 3,
            Cause::Foreign => 4,
            Cause::Length => 5,
            Cause::Spare => 6,
            Cause::Corrupt => 13,
        }
    }
}

/// What stands at the start of some bytes.
#[derive(Clone, Copy, Debug, PartialEq, Eq)]
pub enum Decoded {
    /// A whole packet of `used` bytes: the 40 bytes of its header, its payload, and in version 2 its seal of 32 bytes.
    Packet { head: Header, used: usize },
    /// Less than a whole packet, as far as can be seen.
    More,
    /// 40 bytes that are no sound header, or a whole packet with another seal.
    Bad { cause: Cause },
}
