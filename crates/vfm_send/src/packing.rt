//! Packets one after the other in a vector.

ghost use Rattle.std.specs.Prelude.{◌≡◌, ◌+◌, ◌<◌, ◌≤◌, ◌++◌, length, vec_len, vec_capacity, OnOk, OnErr};
ghost use Rattle.vfm_packet.specs.Packet.{packet_bytes, packet_size, seal, seal_len};

use vfm_packet::{Header, encode_head, packet_size, seal, seal_len};
use vfm_types::NoMemory;

// Appends bytes for which there is room.
fn fill(out: &mut Vec<u8>, bytes: &[u8])
    requires { vec_len out.old + length bytes.now ≤ vec_capacity out.old }
    ensures items { out.new.items ≡ out.old.items ++ bytes.now }
    ensures len { vec_len out.new ≡ vec_len out.old + length bytes.now }
    ensures capacity { vec_capacity out.old ≤ vec_capacity out.new }
{
    out.extend_from_slice(bytes).unwrap();
}

// Appends what follows the payload, for which there is room.
fn fill_seal(out: &mut Vec<u8>, head: &Header, payload: &[u8])
    requires { vec_len out.old + seal_len head.now.version ≤ vec_capacity out.old }
    ensures { out.new.items ≡ out.old.items ++ seal (record { head = head.now; payload = payload.now }) }
{
    if seal_len(head.version) > 0 {
        fill(out, &seal(&encode_head(head), payload));
    }
}

/// Appends a packet: its header, its payload, which is copied once, and in version 2 its seal, which is made of the payload
/// where it lies.
pub fn append_packet(out: &mut Vec<u8>, head: &Header, payload: &[u8]) -> Result<(), NoMemory>
    requires { head.now.length ≡ length payload.now }
    ensures ok { OnOk result (out.new.items ≡ out.old.items ++ packet_bytes (record { head = head.now; payload = payload.now })) }
    ensures err { OnErr result (out.new.items ≡ out.old.items) }
    ensures full { OnErr result (vec_capacity out.old < vec_len out.old + packet_size head.now) }
{
    out.reserve(packet_size(head))?;
    fill(out, &encode_head(head));
    fill(out, payload);
    fill_seal(out, head, payload);
    Ok(())
}
