//! What the packets of a stream are to its loader: a law, as a function that does nothing.

ghost use Rattle.std.specs.Prelude.{◌≡◌, ℕ, List};
ghost use Rattle.vfm_types.specs.declared.desc.Desc.{Desc};
ghost use Rattle.vfm_packet.specs.Packet.{Packet};
ghost use Rattle.vfm_streams.specs.Whole.{in_order};
ghost use Rattle.vfm_streams.specs.Judged.{said, load_fault};
ghost use Rattle.vfm_load.specs.Loads.{records_of, fault_in_order};

/// Where the packets that are applied are those of a stream in the order of their indexes, their first fault is the
/// stream's, and what they say is what the stream says.
pub fn packets_in_order_are_the_stream()
    ensures fault { (D : Desc) (s : ℕ) (packets : List Packet) → fault_in_order D s (in_order packets) ≡ load_fault D s packets }
    ensures says { (s : ℕ) (packets : List Packet) → records_of s (in_order packets) ≡ said s packets }
{}
