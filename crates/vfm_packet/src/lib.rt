//! The packets that carry a migration over a channel: how a header is encoded and read, what seals a packet, and what a
//! whole channel says.
//!
//! The format stands in `specs/`: `Header` has the kinds, the encoding of a header and which headers there are, `Sound`
//! the tests of forty bytes in their order, `Packet` a header with its payload and its seal (and the one place where the
//! two versions of the format differ), `Answer` what may stand at the start of some bytes, `Channel` the sound channels,
//! `Refusal` why and where another is refused, and `Reading` the same computed packet after packet. The laws that join
//! them are the functions of `laws.rt`. Nothing here takes memory.
#![tactic(auto)]

mod answer;
mod header;
mod laws;
mod reader;
mod writer;

pub use answer::{Cause, Decoded, Expect};
pub use header::{
    CHANNEL_LIMIT, HEAD_LEN, Header, Kind, PAYLOAD_LIMIT, SEAL_LEN, packet_size, seal_len,
};
pub use laws::{
    answer_stays, decoded_packet_is_encoded, encoded_packet_is_decoded, judged_to_the_limit,
    limit_of_a_channel, no_refusal_where_sound, one_encoding_of_a_header, one_encoding_of_a_packet,
    one_reading, reading_by_answer, reading_goes_on, what_follows_a_payload,
};
pub use reader::decode;
pub use writer::{encode_head, seal};

#[cfg(test)]
mod tests;
#[cfg(test)]
mod worked;
