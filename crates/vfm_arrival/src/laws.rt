//! What is read of what arrived, and what it loads. Each law is a function without a body whose contract states it.

ghost use Rattle.std.specs.Prelude.{◌≡◌, ℕ, ◌+◌, ◌<◌, ◌≤◌, List, ◌++◌, None, IsTrue, drop, length, map};
ghost use Rattle.std.specs.List.Sorted.{IsPermutation};
ghost use Rattle.vfm_types.specs.declared.desc.Desc.{Desc};
ghost use Rattle.vfm_types.specs.declared.entry.Entry.{Entry};
ghost use Rattle.vfm_types.specs.Deliveries.{joint_machine};
ghost use Rattle.vfm_types.specs.Phases.{is_last_begun};
ghost use Rattle.vfm_types.specs.Blocks.{is_no_pass_open};
ghost use Rattle.vfm_types.specs.Valid.{IsValid};
ghost use Rattle.vfm_plain.specs.Legal.{IsLegal};
ghost use Rattle.vfm_packet.specs.declared.answer.Expect.{Expect};
ghost use Rattle.vfm_packet.specs.declared.header.Kind.TheVariants.{End};
ghost use Rattle.vfm_packet.specs.Packet.{IsSoundPacket, Packet, packet_bytes};
ghost use Rattle.vfm_packet.specs.Channel.{IsSoundChannel, all_bytes, channel_limit};
ghost use Rattle.vfm_packet.specs.Reading.{reading, reading_within};
ghost use Rattle.vfm_streams.specs.Sent.{sent};
ghost use Rattle.vfm_streams.specs.Brought.{lane_readings};
ghost use Rattle.vfm_streams.specs.Verdict.{Loads, brought, refused_channel, verdict};
ghost use Rattle.vfm_arrival.specs.Fronts.{BeginsWith, packet_limit};

/// A front of a sound channel is read as the packets that are whole in it; behind them stands less than a packet, or
/// the one that ends the channel.
pub fn front_of_a_channel_is_read()
    ensures { (limit : ℕ) (e : Expect) (bytes rest : List ℕ) (packets : List Packet)
        → IsSoundChannel e (bytes ++ rest) packets
        → BeginsWith limit e bytes (reading_within limit e bytes).packets }
{}

/// A front that stays below the limit by a packet or more is a whole channel, where a sound packet that ends one stands
/// behind its packets.
pub fn front_with_its_end_is_whole()
    ensures within { (limit : ℕ) (e : Expect) (bytes : List ℕ) (packets : List Packet)
        → BeginsWith limit e bytes packets → length (all_bytes packets) + packet_limit ≤ limit
        → length bytes ≤ limit }
    ensures whole { (limit : ℕ) (e : Expect) (bytes : List ℕ) (packets : List Packet) (q : Packet)
        → BeginsWith limit e bytes packets → length (all_bytes packets) + packet_limit ≤ limit
        → IsSoundPacket e q → q.head.kind ≡ End
        → drop (length (all_bytes packets)) bytes ≡ packet_bytes q → IsSoundChannel e bytes packets }
{}

/// All that a source sends for a legal list is below 53,000,000 bytes, on all its channels together.
pub fn all_channels_stay_below_limit()
    ensures { (D : Desc) (past : List Entry) → IsValid D → IsLegal D past
        → length (all_bytes (brought (lane_readings D (sent D past)))) < 53000000 }
{}

/// Channels none of which is refused, and which bring in any order the packets that all channels of the source sent,
/// give the machine at the joint stop.
pub fn packets_in_any_order_give_joint_machine()
    ensures { (D : Desc) (past : List Entry) (e : Expect) (channels : List (List ℕ)) → IsValid D → IsLegal D past
        → IsTrue (is_last_begun past) → IsTrue (is_no_pass_open D past)
        → refused_channel channel_limit 0 (map (reading e) channels) ≡ None
        → IsPermutation (brought (map (reading e) channels)) (brought (lane_readings D (sent D past)))
        → verdict D e channels ≡ Loads (joint_machine D past) }
{}
