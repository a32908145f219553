//! The encoding of a header, and the seal that follows a payload.

ghost use Rattle.std.specs.Prelude.{◌≡◌, ◌++◌};
ghost use Rattle.sha2.specs.Sha256.{sha256};
ghost use Rattle.vfm_packet.specs.Header.{head_bytes};

use crate::header::Header;
use sha2::{Digest, Sha256};

/// The 40 bytes of a header. A header of the grammar has this one encoding, and no other header of it has the same.
/// The payload has to follow, and in version 2 the seal.
#[tactic(auto, unfolding(crate::specs::Header::head_bytes))]
pub fn encode_head(h: &Header) -> [u8; 40]
    ensures { result ≡ head_bytes h.now }
{
    let version = h.version.to_be_bytes();
    let kind = h.kind.number().to_be_bytes();
    let session = h.session.to_be_bytes();
    let stream = h.stream.to_be_bytes();
    let index = h.index.to_be_bytes();
    let length = h.length.to_be_bytes();
    [
        b'V', b'F', b'M', b'D', version[0], version[1], kind[0], kind[1], session[0], session[1],
        session[2], session[3], session[4], session[5], session[6], session[7], stream[0],
        stream[1], stream[2], stream[3], index[0], index[1], index[2], index[3], length[0],
        length[1], length[2], length[3], 0, 0, 0, 0, 0, 0, 0, 0, 0, 0, 0, 0,
    ]
}

/// The seal of a packet of version 2: the SHA-256 (FIPS 180-4) of its header and payload, each read where it lies.
/// An end or abort packet has an empty payload.
pub fn seal(head: &[u8; 40], payload: &[u8]) -> [u8; 32]
    ensures { result ≡ sha256 (head.now ++ payload.now) }
{
    let mut hasher = Sha256::new();
    hasher.update(head.as_slice());
    hasher.update(payload);
    hasher.finalize()
}
