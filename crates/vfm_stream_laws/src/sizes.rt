//! How much is sent for a legal list of a valid description, in both versions of the packets.

ghost use Rattle.std.specs.Prelude.{ℕ, ◌<◌, ◌≤◌, ◌^◌, List, length};
ghost use Rattle.std.specs.List.{AllByRecursion};
ghost use Rattle.vfm_types.specs.declared.desc.Desc.{Desc};
ghost use Rattle.vfm_types.specs.declared.entry.Entry.{Entry};
ghost use Rattle.vfm_types.specs.Desc.{device_count};
ghost use Rattle.vfm_types.specs.Valid.{IsValid};
ghost use Rattle.vfm_plain.specs.Legal.{IsLegal};
ghost use Rattle.vfm_packet.specs.Channel.{channel_limit};
ghost use Rattle.vfm_streams.specs.Sent.{sent};
ghost use Rattle.vfm_streams.specs.Packets.{ended_share};

/// Each record that is sent is of a stream that there is, and its index fits its field with room to spare.
pub fn indexes_fit_their_field()
    ensures stream { (D : Desc) (past : List Entry) → IsLegal D past
        → AllByRecursion (λ x. x.stream ≤ device_count D) (sent D past) }
    ensures index { (D : Desc) (past : List Entry) → IsValid D → IsLegal D past
        → AllByRecursion (λ x. x.index < 2 ^ 32) (sent D past) }
    ensures few { (D : Desc) (past : List Entry) → IsValid D → IsLegal D past
        → AllByRecursion (λ x. x.index < 83065) (sent D past) }
{}

/// What a channel carries, with its end, is below 53,000,000 bytes, and so within the limit of a channel.
pub fn channels_stay_below_limit()
    ensures below { (D : Desc) (past : List Entry) (k : ℕ) → IsValid D → IsLegal D past
        → length (ended_share D past k) < 53000000 }
    ensures within { (D : Desc) (past : List Entry) (k : ℕ) → IsValid D → IsLegal D past
        → length (ended_share D past k) ≤ channel_limit }
{}
