//! The first packets of a stream in the order of their indexes, as they are given one by one while others come.

ghost use Rattle.std.specs.Prelude.{◌≡◌, ℕ, ◌+◌, ◌<◌, List, [], ◌∷◌, ◌++◌, Some};
ghost use Rattle.vfm_packet.specs.Packet.{Packet};
ghost use Rattle.vfm_streams.specs.Whole.{times, top, packet_with, in_order};
ghost use Rattle.vfm_intake_laws.specs.Prefixes.{first_in_order};

/// What comes later changes nothing of the first packets, once they came.
pub fn first_packets_stay()
    ensures { (n : ℕ) (packets : List Packet) (p : Packet) → ((i : ℕ) → i < n → 0 < times i packets)
        → first_in_order n (packets ++ p ∷ []) ≡ first_in_order n packets }
{}

/// The packet with the next index goes behind the first ones.
pub fn first_packets_go_on()
    ensures { (n : ℕ) (packets : List Packet) (p : Packet) → packet_with n packets ≡ Some p
        → first_in_order (n + 1) packets ≡ first_in_order n packets ++ p ∷ [] }
{}

/// All of them are the stream in order.
pub fn whole_stream_is_its_first_packets()
    ensures { (packets : List Packet) → in_order packets ≡ first_in_order (top packets) packets }
{}
