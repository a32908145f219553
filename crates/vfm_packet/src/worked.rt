//! Worked channels: what each brings and why it is refused, written from the format by hand.
//!
//! The limit is a small number here, so that what reaches it and what passes it can be written out.

ghost use Rattle.std.specs.Prelude.{◌≡◌, ◌++◌, Some, None, [], ◌∷◌, map, take};
ghost use Rattle.vfm_packet.specs.declared.answer.Cause.TheVariants as causes;
ghost use Rattle.vfm_packet.specs.ChannelRefusal.{Bad, Aborted, Truncated, NoEnd, AfterEnd, TooLong};
ghost use Rattle.vfm_packet.specs.Reading.{reading_within};
ghost use Rattle.vfm_packet.specs.Worked.{expected, head_of, data_packet, config_packet, end_packet, abort_packet, no_packet};
ghost use Rattle.vfm_packet.specs.Worked.{expected_sealed, sealed_data, sealed_end, sealed_abort, changed_data, changed_end, changed_abort};

fn packets_of_worked_channels()
    ensures sound { map (λ p. p.payload) (reading_within 1000 expected (data_packet ++ config_packet ++ end_packet)).packets
        ≡ (5 ∷ 6 ∷ []) ∷ (9 ∷ []) ∷ [] }
    ensures numbers { map (λ p. p.head.length) (reading_within 1000 expected (data_packet ++ config_packet ++ end_packet)).packets
        ≡ 2 ∷ 1 ∷ [] }
    // those before the first place that isn't sound
    ensures refused { map (λ p. p.payload) (reading_within 1000 expected (data_packet ++ config_packet ++ no_packet)).packets
        ≡ (5 ∷ 6 ∷ []) ∷ (9 ∷ []) ∷ [] }
{}

fn refusals_of_worked_channels()
    // two packets and an end packet
    ensures sound { (reading_within 1000 expected (data_packet ++ config_packet ++ end_packet)).refusal ≡ None }
    // a channel that is as long as it may be
    ensures sound_at_limit { (reading_within 82 expected (data_packet ++ end_packet)).refusal ≡ None }
    // forty bytes after a packet that don't begin as a packet does
    ensures bad_magic { (reading_within 1000 expected (data_packet ++ no_packet)).refusal ≡ Some (Bad 42 causes.Magic) }
    // an end packet with a length
    ensures bad_spare { (reading_within 1000 expected (head_of 3 1 ++ end_packet)).refusal ≡ Some (Bad 0 causes.Spare) }
    // an abort packet, whatever follows
    ensures aborted { (reading_within 1000 expected (data_packet ++ abort_packet ++ data_packet)).refusal ≡ Some (Aborted 42) }
    // thirty-nine bytes of a header
    ensures truncated_header { (reading_within 1000 expected (data_packet ++ take 39 end_packet)).refusal ≡ Some (Truncated 42) }
    // a packet without its last byte
    ensures truncated_payload { (reading_within 1000 expected (take 41 data_packet)).refusal ≡ Some (Truncated 0) }
    // a channel that ends after a whole packet
    ensures no_end { (reading_within 1000 expected (data_packet ++ config_packet)).refusal ≡ Some (NoEnd 83) }
    // an empty channel
    ensures nothing { (reading_within 1000 expected ([])).refusal ≡ Some (NoEnd 0) }
    // a byte after the end packet
    ensures after_end { (reading_within 1000 expected (data_packet ++ end_packet ++ (0 ∷ []))).refusal ≡ Some (AfterEnd 82) }
    // a byte after an end packet that ends one byte below the limit of a channel that is too long
    ensures after_end_below_limit { (reading_within 41 expected (end_packet ++ (0 ∷ 0 ∷ []))).refusal ≡ Some (AfterEnd 40) }
    // the same where the end packet ends at the limit
    ensures too_long_at_end { (reading_within 40 expected (end_packet ++ (0 ∷ []))).refusal ≡ Some TooLong }
    // an end packet that passes the limit by a byte
    ensures too_long_after_limit { (reading_within 81 expected (data_packet ++ end_packet)).refusal ≡ Some TooLong }
    // a header that isn't whole in what is judged
    ensures too_long_header { (reading_within 50 expected (data_packet ++ no_packet)).refusal ≡ Some TooLong }
    // a payload that isn't whole in what is judged
    ensures too_long_payload { (reading_within 40 expected (data_packet ++ end_packet)).refusal ≡ Some TooLong }
    // forty bytes that are no header, in a channel that is too long
    ensures bad_before_limit { (reading_within 81 expected (data_packet ++ no_packet)).refusal ≡ Some (Bad 42 causes.Magic) }
{}

fn refusals_of_sealed_channels()
    // a packet and an end packet, each with its seal
    ensures sound { (reading_within 1000 expected_sealed (sealed_data ++ sealed_end)).refusal ≡ None }
    // a packet with another payload than the one that is sealed
    ensures changed_payload { (reading_within 1000 expected_sealed (changed_data ++ sealed_end)).refusal ≡ Some (Bad 0 causes.Corrupt) }
    // an end packet with the seal of another packet
    ensures changed_seal { (reading_within 1000 expected_sealed (sealed_data ++ changed_end)).refusal ≡ Some (Bad 74 causes.Corrupt) }
    // an end packet without its seal
    ensures end_without_seal { (reading_within 1000 expected_sealed (sealed_data ++ take 40 sealed_end)).refusal ≡ Some (Truncated 74) }
    // an abort packet with its seal, whatever follows
    ensures aborted { (reading_within 1000 expected_sealed (sealed_data ++ sealed_abort ++ sealed_data)).refusal ≡ Some (Aborted 74) }
    // an abort packet counts only whole
    ensures abort_without_seal { (reading_within 1000 expected_sealed (sealed_data ++ take 71 sealed_abort)).refusal ≡ Some (Truncated 74) }
    // an abort packet counts only with its right seal
    ensures changed_abort { (reading_within 1000 expected_sealed (sealed_data ++ changed_abort)).refusal ≡ Some (Bad 74 causes.Corrupt) }
    // a packet without the last byte of its seal
    ensures truncated_seal { (reading_within 1000 expected_sealed (take 73 sealed_data)).refusal ≡ Some (Truncated 0) }
    // a channel that ends after a whole packet
    ensures no_end { (reading_within 1000 expected_sealed (sealed_data)).refusal ≡ Some (NoEnd 74) }
    // a byte after the end packet
    ensures after_end { (reading_within 1000 expected_sealed (sealed_end ++ (0 ∷ []))).refusal ≡ Some (AfterEnd 72) }
    // a packet of the other version
    ensures other_version { (reading_within 1000 expected_sealed (data_packet ++ sealed_end)).refusal ≡ Some (Bad 0 causes.Version) }
    // a seal that isn't whole in what is judged, of a channel that is too long
    ensures too_long_seal { (reading_within 72 expected_sealed (changed_data ++ sealed_end)).refusal ≡ Some TooLong }
    // a wrong seal that is whole in what is judged, of a channel that is too long
    ensures corrupt_before_limit { (reading_within 73 expected_sealed (changed_data ++ sealed_end)).refusal ≡ Some (Bad 0 causes.Corrupt) }
    // an end packet that ends at the limit, and a byte more
    ensures too_long_at_end { (reading_within 72 expected_sealed (sealed_end ++ (0 ∷ []))).refusal ≡ Some TooLong }
{}

#[test]
fn worked_channels() {
    packets_of_worked_channels();
    refusals_of_worked_channels();
    refusals_of_sealed_channels();
}
