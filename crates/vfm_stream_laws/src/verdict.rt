//! The verdict on what is sent for a legal list.

ghost use Rattle.std.specs.Prelude.{◌≡◌, ℕ, List, None, IsTrue, map};
ghost use Rattle.std.specs.List.{range_with_len};
ghost use Rattle.vfm_types.specs.declared.desc.Desc.{Desc};
ghost use Rattle.vfm_types.specs.declared.entry.Entry.{Entry};
ghost use Rattle.vfm_types.specs.Deliveries.{joint_machine};
ghost use Rattle.vfm_types.specs.Phases.{is_last_begun};
ghost use Rattle.vfm_types.specs.Blocks.{is_no_pass_open};
ghost use Rattle.vfm_types.specs.Valid.{IsValid};
ghost use Rattle.vfm_plain.specs.Legal.{IsLegal};
ghost use Rattle.vfm_packet.specs.declared.answer.Expect.{Expect};
ghost use Rattle.vfm_packet.specs.Channel.{channel_limit, IsSoundChannel};
ghost use Rattle.vfm_packet.specs.Reading.{Reading, reading};
ghost use Rattle.vfm_streams.specs.Sent.{sent};
ghost use Rattle.vfm_streams.specs.Packets.{lane_packets, ended_share};
ghost use Rattle.vfm_streams.specs.Brought.{BringsSent, lane_reading, lane_readings};
ghost use Rattle.vfm_streams.specs.Verdict.{Loads, Expects, refused_channel, brought, verdict_on, verdict};

/// Channels none of which is refused, and which bring what was sent, each packet once, in any order and on
/// whichever channel, give the machine at the joint stop.
pub fn brought_packets_give_joint_machine()
    ensures packets { (D : Desc) (past : List Entry) (limit : ℕ) (readings : List Reading) → IsValid D
        → IsLegal D past
        → IsTrue (is_last_begun past) → IsTrue (is_no_pass_open D past)
        → refused_channel limit 0 readings ≡ None → BringsSent D (sent D past) (brought readings)
        → verdict_on D limit readings ≡ Loads (joint_machine D past) }
    ensures bytes { (D : Desc) (past : List Entry) (e : Expect) (channels : List (List ℕ)) → IsValid D
        → IsLegal D past
        → IsTrue (is_last_begun past) → IsTrue (is_no_pass_open D past)
        → refused_channel channel_limit 0 (map (reading e) channels) ≡ None
        → BringsSent D (sent D past) (brought (map (reading e) channels))
        → verdict D e channels ≡ Loads (joint_machine D past) }
{}

/// What a channel carries at any time, with an end behind it, is a sound channel, and is read as the packets that
/// were sent on it.
pub fn ended_share_is_sound_channel()
    ensures sound { (D : Desc) (past : List Entry) (e : Expect) (k : ℕ) → IsValid D → IsLegal D past → Expects D e
        → IsSoundChannel e (ended_share D past k) (lane_packets D k (sent D past)) }
    ensures read { (D : Desc) (past : List Entry) (e : Expect) (k : ℕ) → IsValid D → IsLegal D past → Expects D e
        → reading e (ended_share D past k) ≡ lane_reading D (sent D past) k }
{}

/// The channels as they are sent give the machine at the joint stop: as packets, and as bytes.
pub fn ended_shares_give_joint_machine()
    ensures packets { (D : Desc) (past : List Entry) (limit : ℕ) → IsValid D → IsLegal D past
        → IsTrue (is_last_begun past) → IsTrue (is_no_pass_open D past)
        → verdict_on D limit (lane_readings D (sent D past)) ≡ Loads (joint_machine D past) }
    ensures bytes { (D : Desc) (past : List Entry) (e : Expect) → IsValid D → IsLegal D past
        → IsTrue (is_last_begun past) → IsTrue (is_no_pass_open D past) → Expects D e
        → verdict D e (map (ended_share D past) (range_with_len 0 D.channels))
        ≡ Loads (joint_machine D past) }
{}
