//! Indexes that came more than once, told as they come.

ghost use Rattle.std.specs.Prelude.{◌≡◌, ℕ, ◌<◌, List, [], ◌∷◌, ◌++◌, Option, Some};
ghost use Rattle.vfm_packet.specs.Packet.{Packet};
ghost use Rattle.vfm_streams.specs.Whole.{Doubled, times, gap_of};
ghost use Rattle.vfm_intake_laws.specs.Doubles.{IsLeastDoubled, least_told};

/// The least doubled index is the first gap of a stream, whatever else is wrong with it.
pub fn doubled_index_is_the_gap()
    ensures { (i : ℕ) (packets : List Packet) → IsLeastDoubled (Some i) packets → gap_of packets ≡ Some (Doubled i) }
{}

/// A packet that comes with a new index changes nothing of the least doubled index; one that comes with an index that came
/// before makes it the lesser of the two.
pub fn told_index_stays_the_least()
    ensures new_index { (told : Option ℕ) (packets : List Packet) (p : Packet) → times p.head.index packets ≡ 0
        → IsLeastDoubled told packets → IsLeastDoubled told (packets ++ p ∷ []) }
    ensures again { (told : Option ℕ) (packets : List Packet) (p : Packet) → 0 < times p.head.index packets
        → IsLeastDoubled told packets → IsLeastDoubled (Some (least_told told p.head.index)) (packets ++ p ∷ []) }
{}
