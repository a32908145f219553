//! What is sent for the worked moves.

ghost use Rattle.std.specs.Prelude.{◌≡◌, ◌∷◌, [], reverse, replicate, length, map, take, unwrap_or};
ghost use Rattle.vfm_cases.specs.One.{one, one_early, one_marked};
ghost use Rattle.vfm_cases.specs.Lone.{lone, lone_source};
ghost use Rattle.vfm_cases.specs.Pair.{pair, pair_source};
ghost use Rattle.vfm_record.specs.Record.{Page, Block, Engine, Config};
ghost use Rattle.vfm_record.specs.Shape.{shape_digest};
ghost use Rattle.vfm_streams.specs.Sent.{sent, records_of};
ghost use Rattle.vfm_streams.specs.Packets.{lane_packets, ended_share};
ghost use Rattle.vfm_streams.specs.Loaded.{last_page, last_block, loaded};
ghost use Rattle.vfm_stream_cases.specs.Channels.{one_past, one_channel, place_of_packet, place_of_sent};

/// One device with one write, moved without a pass before it stops: six packets and the one that ends the
/// channel.
pub fn one_device_sends_six_records()
    ensures records { reverse (sent one one_past)
        ≡ record { stream = 0; index = 0; says = Page 0 (replicate 16 0) }
        ∷ record { stream = 0; index = 1; says = Page 1 (0 ∷ 0 ∷ 1 ∷ 2 ∷ 3 ∷ 4 ∷ replicate 10 0) }
        ∷ record { stream = 1; index = 0; says = Block 0 (replicate 64 0) }
        ∷ record { stream = 0; index = 2; says = Config (shape_digest one 0) }
        ∷ record { stream = 1; index = 1; says = Engine 1 1 0 0 (replicate 64 0) }
        ∷ record { stream = 1; index = 2; says = Config (shape_digest one 1) } ∷ [] }
    ensures sizes { map (λ p. p.head.length) (lane_packets one 0 (sent one one_past))
        ≡ 21 ∷ 21 ∷ 69 ∷ 33 ∷ 81 ∷ 33 ∷ [] }
    ensures bytes { length one_channel ≡ 538 }
    ensures first { take 61 one_channel
        ≡ 0x56 ∷ 0x46 ∷ 0x4d ∷ 0x44 ∷ 0 ∷ 1 ∷ 0 ∷ 1 ∷ 0 ∷ 0 ∷ 0 ∷ 0 ∷ 0 ∷ 0 ∷ 0 ∷ 7 ∷ 0 ∷ 0 ∷ 0 ∷ 0
        ∷ 0 ∷ 0 ∷ 0 ∷ 0 ∷ 0 ∷ 0 ∷ 0 ∷ 0x15 ∷ 0 ∷ 0 ∷ 0 ∷ 0 ∷ 0 ∷ 0 ∷ 0 ∷ 0 ∷ 0 ∷ 0 ∷ 0 ∷ 0 ∷ 1
        ∷ replicate 20 0 }
{}

/// The same over two channels: page 0, memory's digest and the counts on the first; page 1, the block and
/// the device's digest on the second. And in the second version of the packets, in which each has a seal.
pub fn shares_of_two_channels()
    ensures first { map place_of_packet (lane_packets (record one { channels = 2 }) 0 (sent one one_past))
        ≡ (0, 0) ∷ (0, 2) ∷ (1, 1) ∷ [] }
    ensures second { map place_of_packet (lane_packets (record one { channels = 2 }) 1 (sent one one_past))
        ≡ (0, 1) ∷ (1, 0) ∷ (1, 2) ∷ [] }
    ensures first_size { length (ended_share (record one { channels = 2 }) one_past 0) ≡ 295 }
    ensures second_size { length (ended_share (record one { channels = 2 }) one_past 1) ≡ 283 }
    ensures sealed_size { length (ended_share (record one { version = 2 }) one_past 0) ≡ 762 }
{}

/// A page that was written after its first copy is sent again in the last pass: it is the third record of
/// its stream.
pub fn copied_page_is_sent_again()
    ensures places { map place_of_sent (reverse (sent (one_early 1) (reverse one_marked)))
        ≡ (0, 0) ∷ (0, 1) ∷ (0, 2) ∷ (1, 0) ∷ (0, 3) ∷ (1, 1) ∷ (1, 2) ∷ [] }
    ensures last { last_page 1 (records_of 0 (sent (one_early 1) (reverse one_marked)))
        ≡ last_page 1 (records_of 0 (sent one one_past)) }
{}

/// One device by way of PRE_COPY: its block is sent while it runs, and not again.
pub fn pre_copied_device_sends_five_records()
    ensures { reverse (sent lone (reverse lone_source))
        ≡ record { stream = 0; index = 0; says = Page 0 (replicate 16 0) }
        ∷ record { stream = 1; index = 0; says = Block 0 (replicate 64 0) }
        ∷ record { stream = 0; index = 1; says = Config (shape_digest lone 0) }
        ∷ record { stream = 1; index = 1; says = Engine 0 0 0 0 (replicate 64 0) }
        ∷ record { stream = 1; index = 2; says = Config (shape_digest lone 1) } ∷ [] }
{}

/// Two devices of 64 blocks each, and 64 pages of which one is sent twice: with its new bytes, as is the
/// block that the first device wrote.
pub fn pair_sends_last_bytes()
    ensures memory { length (records_of 0 (sent pair (reverse pair_source))) ≡ 66 }
    ensures first { length (records_of 1 (sent pair (reverse pair_source))) ≡ 66 }
    ensures second { length (records_of 2 (sent pair (reverse pair_source))) ≡ 66 }
    ensures page { take 8 (unwrap_or (last_page 2 (records_of 0 (sent pair (reverse pair_source)))) [])
        ≡ 5 ∷ replicate 7 0 }
    ensures block { take 4 (unwrap_or (last_block 1 (records_of 2 (sent pair (reverse pair_source)))) [])
        ≡ 161 ∷ 162 ∷ 163 ∷ 164 ∷ [] }
{}
