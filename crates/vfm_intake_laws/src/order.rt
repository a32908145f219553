//! The order in which packets come over several channels changes nothing.

ghost use Rattle.std.specs.Prelude.{◌≡◌, ℕ, ◌+◌, ◌<◌, ◌≤◌, List, None};
ghost use Rattle.vfm_types.specs.declared.desc.Desc.{Desc};
ghost use Rattle.vfm_packet.specs.Packet.{Packet};
ghost use Rattle.vfm_packet.specs.Reading.{Reading};
ghost use Rattle.vfm_streams.specs.Whole.{stream_packets, gap_of, in_order};
ghost use Rattle.vfm_streams.specs.Judged.{said, stream_fault};
ghost use Rattle.vfm_streams.specs.Verdict.{brought, refused_stream};
ghost use Rattle.vfm_intake_laws.specs.Arrivals.{CameFrom, IsSameStream};
ghost use Rattle.vfm_intake_laws.specs.Refused.{refused_of};

/// Packets of a stream that came over all channels are the same as those that the channels brought, one after the other.
pub fn same_packets_come_in_any_order()
    ensures { (s : ℕ) (readings : List Reading) (came : List Packet) → CameFrom s readings came
        → IsSameStream came (stream_packets s (brought readings)) }
{}

/// The same packets in another order have the same first fault, be it a gap or a record.
pub fn order_of_arrival_changes_no_fault()
    ensures gap { (first second : List Packet) → IsSameStream first second → gap_of first ≡ gap_of second }
    ensures fault { (D : Desc) (s : ℕ) (first second : List Packet) → IsSameStream first second
        → stream_fault D s first ≡ stream_fault D s second }
{}

/// Where no gap is among them, they say the same in order.
pub fn whole_stream_is_one_in_any_order()
    ensures packets { (first second : List Packet) → IsSameStream first second → gap_of second ≡ None
        → in_order first ≡ in_order second }
    ensures said { (s : ℕ) (first second : List Packet) → IsSameStream first second → gap_of second ≡ None
        → said s first ≡ said s second }
{}

/// The first refused stream is that of what the channels brought, whatever the order in which each stream came.
pub fn order_of_arrival_changes_no_refusal()
    ensures { (D : Desc) (came : ℕ → List Packet) (packets : List Packet) (from more : ℕ)
        → ((s : ℕ) → from ≤ s → s < from + more → IsSameStream (came s) (stream_packets s packets))
        → refused_of D came from more ≡ refused_stream D packets from more }
{}
