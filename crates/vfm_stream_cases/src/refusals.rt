//! The verdict on the channel of a worked move, and on changed copies of it.

ghost use Rattle.std.specs.Prelude.{◌≡◌, [], ◌∷◌, ◌++◌, replicate, take, drop, slice_set, reverse};
ghost use Rattle.vfm_types.specs.Deliveries.{joint_machine};
ghost use Rattle.vfm_packet.specs.Worked.{abort_packet};
ghost use Rattle.vfm_record.specs.Record.{Page, Block, Engine, Pending, Config};
ghost use Rattle.vfm_record.specs.Shape.{shape_digest};
ghost use Rattle.vfm_cases.specs.One.{one};
ghost use Rattle.vfm_streams.specs.Verdict.{Refuses, Loads, verdict_on};
ghost use Rattle.vfm_stream_cases.specs.Channels.{one_past, one_packets, one_channel, packet_at, without_packet, with_packet, nth, channel_of, judged_packets, judged_bytes, sealed_channel, judged_sealed};

/// The channel of the worked move loads the machine at the joint stop.
pub fn whole_channel_loads()
    ensures packets { judged_packets one_packets ≡ Loads (joint_machine one one_past) }
    ensures bytes { judged_bytes one_channel ≡ Loads (joint_machine one one_past) }
{}

/// So do its packets in any order and on any channel: here the last first, all on the third of three.
pub fn other_order_loads()
    ensures { verdict_on one 67108864 (channel_of [] ∷ channel_of [] ∷ channel_of (reverse one_packets) ∷ [])
        ≡ Loads (joint_machine one one_past) }
{}

/// In the second version of the packets a changed byte of a payload or of a seal is found in its channel.
pub fn sealed_channels_are_refused()
    ensures whole { judged_sealed sealed_channel ≡ Loads (joint_machine one one_past) }
    ensures payload { judged_sealed (slice_set sealed_channel 60 1)
        ≡ Refuses (record { code = 13; a = 0; b = 0 }) }
    ensures seal { judged_sealed (slice_set sealed_channel 761 0)
        ≡ Refuses (record { code = 13; a = 0; b = 690 }) }
    ensures cut { judged_sealed (take 71 sealed_channel) ≡ Refuses (record { code = 7; a = 0; b = 0 }) }
    ensures version { judged_sealed (slice_set sealed_channel 5 1)
        ≡ Refuses (record { code = 2; a = 0; b = 0 }) }
{}

/// A channel that is cut, spoilt or longer is refused at the place of its first unsound packet.
pub fn changed_channels_are_refused()
    ensures no_header { judged_bytes (take 39 one_channel) ≡ Refuses (record { code = 7; a = 0; b = 0 }) }
    ensures cut { judged_bytes (take 100 one_channel) ≡ Refuses (record { code = 7; a = 0; b = 61 }) }
    ensures no_end { judged_bytes (take 498 one_channel) ≡ Refuses (record { code = 8; a = 0; b = 498 }) }
    ensures longer { judged_bytes (one_channel ++ 0 ∷ []) ≡ Refuses (record { code = 9; a = 0; b = 538 }) }
    ensures empty { judged_bytes [] ≡ Refuses (record { code = 8; a = 0; b = 0 }) }
    ensures magic { judged_bytes (slice_set one_channel 0 0x57)
        ≡ Refuses (record { code = 1; a = 0; b = 0 }) }
    ensures version { judged_bytes (slice_set one_channel 5 2) ≡ Refuses (record { code = 2; a = 0; b = 0 }) }
    ensures kind { judged_bytes (slice_set one_channel 311 9)
        ≡ Refuses (record { code = 3; a = 0; b = 304 }) }
    ensures session { judged_bytes (slice_set one_channel 76 8)
        ≡ Refuses (record { code = 4; a = 0; b = 61 }) }
    ensures stream { judged_bytes (slice_set one_channel 80 2)
        ≡ Refuses (record { code = 4; a = 0; b = 61 }) }
    ensures length { judged_bytes (slice_set one_channel 149 0)
        ≡ Refuses (record { code = 5; a = 0; b = 122 }) }
    ensures spare { judged_bytes (slice_set one_channel 537 1)
        ≡ Refuses (record { code = 6; a = 0; b = 498 }) }
    ensures aborted { judged_bytes (take 498 one_channel ++ abort_packet)
        ≡ Refuses (record { code = 11; a = 0; b = 498 }) }
{}

/// Packets that are doubled, missing, too many or not what can stand there are refused by their stream and
/// index.
pub fn changed_streams_are_refused()
    ensures doubled { judged_packets (one_packets ++ nth 4 ∷ [])
        ≡ Refuses (record { code = 21; a = 1; b = 1 }) }
    ensures missing { judged_packets (without_packet 0) ≡ Refuses (record { code = 24; a = 0; b = 0 }) }
    ensures no_config { judged_packets (without_packet 3) ≡ Refuses (record { code = 23; a = 0; b = 0 }) }
    ensures past { judged_packets (packet_at 0 3 (Page 0 (replicate 16 0)) ∷ one_packets)
        ≡ Refuses (record { code = 22; a = 0; b = 3 }) }
    ensures above { judged_packets (with_packet 1 (packet_at 0 5 (Page 1 (replicate 16 0))))
        ≡ Refuses (record { code = 22; a = 0; b = 5 }) }
    ensures not_whole { judged_packets (with_packet 1 (packet_at 0 1 (Page 0 (replicate 16 0))))
        ≡ Refuses (record { code = 27; a = 0; b = 1 }) }
    ensures no_engine { judged_packets (with_packet 4 (packet_at 1 1 (Block 0 (replicate 64 0))))
        ≡ Refuses (record { code = 27; a = 1; b = 4294967295 }) }
    ensures no_page { judged_packets (with_packet 1 (packet_at 0 1 (Page 2 (replicate 16 0))))
        ≡ Refuses (record { code = 25; a = 0; b = 65537 }) }
    ensures second_engine { judged_packets (with_packet 2 (packet_at 1 0 (Engine 1 1 0 0 (replicate 64 0))))
        ≡ Refuses (record { code = 25; a = 1; b = 65536 }) }
    ensures early_pending { judged_packets (with_packet 2 (packet_at 1 0 (Pending ((0, 0) ∷ []))))
        ≡ Refuses (record { code = 25; a = 1; b = 0 }) }
    ensures other_shape { judged_packets (with_packet 3 (packet_at 0 2 (Config (shape_digest one 1))))
        ≡ Refuses (record { code = 26; a = 0; b = 0 }) }
{}
