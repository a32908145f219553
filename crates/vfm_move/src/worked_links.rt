//! Worked channels, each checked by computation: what is whole in what came, and links that carry all that is sent or
//! don't.

ghost use Rattle.std.specs.Prelude.{◌≡◌, ◌++◌, ◌∷◌, [], length, map, take};
ghost use Rattle.vfm_packet.specs.Worked.{config_packet, data_packet, end_packet};
ghost use Rattle.vfm_move.specs.Carried.{ended_due};
ghost use Rattle.vfm_move.specs.Complete.{CarryAll, HasEnd, packets_in, packets_received, packets_sent, piece_in};
ghost use Rattle.vfm_move.specs.Worked.{one, one_moved};
ghost use Rattle.vfm_move.specs.WorkedLinks.{config_of, crossed, data_of, links, receives, sends, whole_bytes};

/// Both packets and the one that ends the channel.
pub fn whole_channel()
    ensures packets { map (λ p. p.payload) (packets_in one whole_bytes) ≡ (5 ∷ 6 ∷ []) ∷ (9 ∷ []) ∷ [] }
    ensures piece { piece_in one whole_bytes ≡ end_packet }
    ensures end { HasEnd one (receives whole_bytes) }
{}

/// The second packet lacks its last byte: it is the piece behind the first.
pub fn packet_cut()
    ensures packets { map (λ p. p.payload) (packets_in one (take 82 whole_bytes)) ≡ (5 ∷ 6 ∷ []) ∷ [] }
    ensures piece { piece_in one (take 82 whole_bytes) ≡ take 40 config_packet }
    ensures no_end { HasEnd one (receives (take 82 whole_bytes)) → ⊥ }
{}

/// The packet that ends the channel lacks its last byte, or hasn't come.
pub fn end_cut()
    ensures packets { map (λ p. p.payload) (packets_in one (take 122 whole_bytes)) ≡ (5 ∷ 6 ∷ []) ∷ (9 ∷ []) ∷ [] }
    ensures piece { piece_in one (take 122 whole_bytes) ≡ take 39 end_packet }
    ensures no_end { HasEnd one (receives (take 122 whole_bytes)) → ⊥ }
    ensures not_come { HasEnd one (receives (take 83 whole_bytes)) → ⊥ }
{}

/// Nothing came.
pub fn nothing_came()
    ensures packets { packets_in one [] ≡ [] }
    ensures piece { piece_in one [] ≡ [] }
    ensures no_end { HasEnd one (receives []) → ⊥ }
{}

/// Two packets that were sent on a channel each, and came on the second channel, in the other order: that is all of
/// them.
pub fn packets_in_another_order()
    ensures received { packets_received one crossed ≡ config_of ∷ data_of ∷ [] }
    ensures sent { packets_sent one crossed ≡ data_of ∷ config_of ∷ [] }
    ensures carries { CarryAll one crossed }
{}

/// The channel of the worked move is six packets and the one that ends it; of its first 100 bytes the first 61 are a
/// packet, and the others a piece of the second.
pub fn worked_channel()
    ensures packets { map (λ p. p.head.length) (packets_in one (ended_due one_moved 0))
        ≡ 21 ∷ 21 ∷ 69 ∷ 33 ∷ 81 ∷ 33 ∷ [] }
    ensures end { HasEnd one (receives (ended_due one_moved 0)) }
    ensures cut { map (λ p. p.head.length) (packets_in one (take 100 (ended_due one_moved 0))) ≡ 21 ∷ [] }
    ensures piece { length (piece_in one (take 100 (ended_due one_moved 0))) ≡ 39 }
{}

/// Links that don't carry all: a packet came twice; one was lost; another one came; a channel ended without the packet
/// that ends it, or in a packet.
pub fn disturbed_links()
    ensures doubled { CarryAll one (links (sends (data_packet ++ end_packet) ∷ [])
        (receives (data_packet ++ data_packet ++ end_packet) ∷ [])) → ⊥ }
    ensures lost { CarryAll one (links (sends whole_bytes ∷ []) (receives (data_packet ++ end_packet) ∷ [])) → ⊥ }
    ensures other { CarryAll one (links (sends (data_packet ++ end_packet) ∷ [])
        (receives (config_packet ++ end_packet) ∷ [])) → ⊥ }
    ensures no_end { CarryAll one (links (sends whole_bytes ∷ []) (receives (take 83 whole_bytes) ∷ [])) → ⊥ }
    ensures cut { CarryAll one (links (sends whole_bytes ∷ []) (receives (take 82 whole_bytes) ∷ [])) → ⊥ }
{}
