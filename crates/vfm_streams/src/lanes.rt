//! Laws of what is sent, for every list of entries.

ghost use Rattle.std.specs.Prelude.{◌≡◌, ℕ, ◌<◌, ◌≤◌, List, None};
ghost use Rattle.std.specs.List.{AllByRecursion};
ghost use Rattle.vfm_types.specs.declared.desc.Desc.{Desc};
ghost use Rattle.vfm_types.specs.declared.entry.Entry.{Entry};
ghost use Rattle.vfm_streams.specs.Sent.{Sent, IsNumbered, sent};
ghost use Rattle.vfm_streams.specs.Brought.{IsOfSent, BringsSent, lane_readings};
ghost use Rattle.vfm_packet.specs.Packet.{Packet};
ghost use Rattle.vfm_streams.specs.Whole.{stream_packets, times};
ghost use Rattle.vfm_streams.specs.Verdict.{brought, refused_channel};

/// The records of each stream have the indexes from 0 on, in the order in which they are sent.
pub fn what_is_sent_is_numbered()
    ensures { (D : Desc) (past : List Entry) → IsNumbered (sent D past) }
{}

/// The channels together bring all that is sent, each packet once, and none of them is refused.
pub fn channels_bring_all_that_is_sent()
    ensures brings { (D : Desc) (all : List Sent) → 0 < D.channels
        → BringsSent D all (brought (lane_readings D all)) }
    ensures unrefused { (D : Desc) (all : List Sent) (limit : ℕ)
        → refused_channel limit 0 (lane_readings D all) ≡ None }
{}

/// Packets that are among those sent, none twice and none missing, bring what was sent, in whatever order
/// they came and on whichever channels.
pub fn packets_once_each_bring_all_that_is_sent()
    ensures { (D : Desc) (all : List Sent) (packets : List Packet) → IsNumbered all
        → AllByRecursion (IsOfSent D all) packets
        → ((s i : ℕ) → times i (stream_packets s packets) ≤ 1)
        → AllByRecursion (λ x. 0 < times x.index (stream_packets x.stream packets)) all
        → BringsSent D all packets }
{}
