//! Laws of packets and channels, each a function that does nothing: its clause holds of every value.
//!
//! What a channel is, and what is wrong with one that isn't sound, stands in the definitions of `specs/`. A reader that
//! takes one packet after another off the start of what has come is right by the laws of this file.

ghost use Rattle.std.specs.Prelude.{◌≡◌, ℕ, ◌+◌, ◌≤◌, ◌++◌, List, Bool, Option, Some, None, length, drop, IsTrue};
ghost use Rattle.std.specs.List.{AllByRecursion};
ghost use Rattle.sha2.specs.Sha256.{sha256};
ghost use Rattle.vfm_packet.specs.declared.header.Header.{Header};
ghost use Rattle.vfm_packet.specs.declared.header.Kind.TheVariants.{End, Abort};
ghost use Rattle.vfm_packet.specs.declared.answer.Expect.{Expect};
ghost use Rattle.vfm_packet.specs.declared.answer.Cause.{Cause};
ghost use Rattle.vfm_packet.specs.declared.answer.Decoded.TheVariants as answers;
ghost use Rattle.vfm_base.specs.Words.{IsBytes};
ghost use Rattle.vfm_packet.specs.Header.{IsHeader, carries, head_bytes};
ghost use Rattle.vfm_packet.specs.Packet.{Packet, packet_at, packet_bytes, packet_size, IsSoundPacket};
ghost use Rattle.vfm_packet.specs.Answer.{decoded};
ghost use Rattle.vfm_packet.specs.Channel.{channel_limit, IsCarried, all_bytes, IsSoundChannel};
ghost use Rattle.vfm_packet.specs.ChannelRefusal.{ChannelRefusal, Bad, Aborted, judged, IsReading, is_over};
ghost use Rattle.vfm_packet.specs.Reading.{Reading, ends, brings, brings_all, unfinished, after_end, reading_at, reading_within, reading};

use crate::header::CHANNEL_LIMIT;

/// What follows the payload of a packet: nothing in version 1, and in version 2 the SHA-256 of header and payload.
pub fn what_follows_a_payload()
    ensures plain { (p : Packet) → p.head.version ≡ 1 → packet_bytes p ≡ head_bytes p.head ++ p.payload }
    ensures sealed { (p : Packet) → p.head.version ≡ 2
        → packet_bytes p ≡ head_bytes p.head ++ p.payload ++ sha256 (head_bytes p.head ++ p.payload) }
    ensures size { (p : Packet) → length p.payload ≡ p.head.length → length (packet_bytes p) ≡ packet_size p.head }
    ensures plain_size { (h : Header) → h.version ≡ 1 → packet_size h ≡ 40 + h.length }
    ensures sealed_size { (h : Header) → h.version ≡ 2 → packet_size h ≡ 72 + h.length }
{}

/// No two headers of the grammar have one encoding, whatever follows.
pub fn one_encoding_of_a_header()
    ensures { (g h : Header) (x y : List ℕ) → IsHeader g → IsHeader h
        → head_bytes g ++ x ≡ head_bytes h ++ y → (g ≡ h) × (x ≡ y) }
{}

/// No two sound packets have one encoding, and none begins another.
pub fn one_encoding_of_a_packet()
    ensures { (e : Expect) (p q : Packet) (x y : List ℕ) → IsSoundPacket e p → IsSoundPacket e q
        → packet_bytes p ++ x ≡ packet_bytes q ++ y → (p ≡ q) × (x ≡ y) }
{}

/// A sound packet that is encoded is the packet that is decoded, whatever follows it.
pub fn encoded_packet_is_decoded()
    ensures answer { (e : Expect) (p : Packet) (more : List ℕ) → IsSoundPacket e p
        → decoded e (packet_bytes p ++ more) ≡ answers.Packet p.head (packet_size p.head) }
    ensures packet { (e : Expect) (p : Packet) (more : List ℕ) → IsSoundPacket e p
        → packet_at p.head (packet_bytes p ++ more) ≡ p }
    ensures after { (e : Expect) (p : Packet) (more : List ℕ) → IsSoundPacket e p
        → drop (packet_size p.head) (packet_bytes p ++ more) ≡ more }
{}

/// A packet that is decoded is sound, and the bytes are its encoding and what follows.
pub fn decoded_packet_is_encoded()
    ensures { (e : Expect) (bytes : List ℕ) (head : Header) (used : ℕ) → IsBytes bytes
        → decoded e bytes ≡ answers.Packet head used
        → IsSoundPacket e (packet_at head bytes)
        × (bytes ≡ packet_bytes (packet_at head bytes) ++ drop used bytes) }
{}

/// An answer other than `More` stays, whatever follows the bytes.
pub fn answer_stays()
    ensures { (e : Expect) (bytes more : List ℕ) → (decoded e bytes ≡ answers.More → ⊥)
        → decoded e (bytes ++ more) ≡ decoded e bytes }
{}

/// A channel has exactly one reading: the one that the function `reading_within` gives.
pub fn one_reading()
    ensures some { (limit : ℕ) (e : Expect) (bytes : List ℕ) → IsBytes bytes
        → IsReading limit e bytes (reading_within limit e bytes).packets (reading_within limit e bytes).refusal }
    ensures only { (limit : ℕ) (e : Expect) (bytes : List ℕ) (packets : List Packet) (refusal : Option ChannelRefusal)
        → IsReading limit e bytes packets refusal
        → reading_within limit e bytes ≡ record { packets = packets; refusal = refusal } }
{}

/// A sound channel that isn't longer than the limit brings its packets and isn't refused, and a channel that isn't
/// refused is sound.
pub fn no_refusal_where_sound()
    ensures sound { (limit : ℕ) (e : Expect) (bytes : List ℕ) (packets : List Packet) → IsSoundChannel e bytes packets
        → length bytes ≤ limit
        → reading_within limit e bytes ≡ record { packets = packets; refusal = None } }
    ensures only { (limit : ℕ) (e : Expect) (bytes : List ℕ) → IsBytes bytes → (reading_within limit e bytes).refusal ≡ None
        → IsSoundChannel e bytes (reading_within limit e bytes).packets × (length bytes ≤ limit) }
{}

/// Nothing after the first byte past the limit is looked at, and all of a channel is judged that isn't longer.
pub fn judged_to_the_limit()
    ensures prefix { (limit : ℕ) (e : Expect) (bytes : List ℕ) → reading_within limit e (judged limit bytes) ≡ reading_within limit e bytes }
    ensures all { (limit : ℕ) (bytes : List ℕ) → length bytes ≤ limit + 1 → judged limit bytes ≡ bytes }
{}

/// Packets that stand one after the other are brought, and the reading goes on after them.
pub fn reading_goes_on()
    ensures after { (packets : List Packet) (limit : ℕ) (e : Expect) (over : Bool) (place : ℕ) (rest : List ℕ)
        → AllByRecursion (IsCarried e) packets
        → reading_at limit e over place (all_bytes packets ++ rest)
        ≡ brings_all packets (reading_at limit e over (place + length (all_bytes packets)) rest) }
    // so of all that came of a channel, of which a reader takes no more than a byte past the limit
    ensures received { (packets : List Packet) (limit : ℕ) (e : Expect) (rest : List ℕ)
        → AllByRecursion (IsCarried e) packets → length (all_bytes packets ++ rest) ≤ limit + 1
        → reading_within limit e (all_bytes packets ++ rest)
        ≡ brings_all packets (reading_at limit e (is_over limit (all_bytes packets ++ rest)) (length (all_bytes packets)) rest) }
{}

/// What a reading comes to at a place, by what stands there.
pub fn reading_by_answer()
    // a data or config packet is brought, and the reading goes on after it
    ensures carried { (limit : ℕ) (e : Expect) (over : Bool) (place : ℕ) (rest : List ℕ) (head : Header) (used : ℕ)
        → decoded e rest ≡ answers.Packet head used → IsTrue (carries head.kind)
        → reading_at limit e over place rest
        ≡ brings (packet_at head rest) (reading_at limit e over (place + used) (drop used rest)) }
    // an end packet ends it, well where nothing follows
    ensures ended { (limit : ℕ) (e : Expect) (over : Bool) (place : ℕ) (rest : List ℕ) (head : Header) (used : ℕ)
        → decoded e rest ≡ answers.Packet head used → head.kind ≡ End
        → reading_at limit e over place rest ≡ ends (after_end limit over (place + used) (drop used rest)) }
    ensures aborted { (limit : ℕ) (e : Expect) (over : Bool) (place : ℕ) (rest : List ℕ) (head : Header) (used : ℕ)
        → decoded e rest ≡ answers.Packet head used → head.kind ≡ Abort
        → reading_at limit e over place rest ≡ ends (Some (Aborted place)) }
    // no whole packet: the channel's end, or the limit, comes first
    ensures unfinished { (limit : ℕ) (e : Expect) (over : Bool) (place : ℕ) (rest : List ℕ) → decoded e rest ≡ answers.More
        → reading_at limit e over place rest ≡ ends (unfinished over place rest) }
    ensures bad { (limit : ℕ) (e : Expect) (over : Bool) (place : ℕ) (rest : List ℕ) (cause : Cause)
        → decoded e rest ≡ answers.Bad cause
        → reading_at limit e over place rest ≡ ends (Some (Bad place cause)) }
{}

/// The reading of a channel is its reading within the limit of a channel, which is `CHANNEL_LIMIT`.
pub fn limit_of_a_channel()
    ensures limit { channel_limit ≡ CHANNEL_LIMIT }
    ensures reading { (e : Expect) (bytes : List ℕ) → reading e bytes ≡ reading_within channel_limit e bytes }
{}
