//! A record in its packet.

ghost use Rattle.std.specs.Prelude.{◌≡◌, ℕ, ◌<◌, ◌≤◌, ◌⊎◌, ◌^◌, ◌+◌, ◌++◌, length, drop, vec_len, vec_capacity, OnOk, OnErr, IsTrue};
ghost use Rattle.vfm_types.specs.declared.desc.Desc.{Desc};
ghost use Rattle.vfm_types.specs.Valid.{IsValid};
ghost use Rattle.vfm_packet.specs.declared.header.Header.{Header};
ghost use Rattle.vfm_packet.specs.declared.answer.Expect.{Expect};
ghost use Rattle.vfm_packet.specs.Header.{carries, head_bytes};
ghost use Rattle.vfm_packet.specs.Packet.{packet_bytes, packet_size, seal, seal_len, IsSoundPacket};
ghost use Rattle.vfm_record.specs.Record.{Record, record_of, IsRecordOf};
ghost use Rattle.vfm_record.specs.Writing.{IsWritable};
ghost use Rattle.vfm_record.specs.Packing.{record_packet, end_of};

use crate::laws::size_of_a_record;
use crate::{Rec, encoded_len, write};
use vfm_packet::{Header, Kind, SEAL_LEN, encode_head, seal, seal_len};
use vfm_types::NoMemory;

// Appends what follows the payload, which lies in `out` from `at` on.
fn put_seal(head: &Header, at: usize, out: &mut Vec<u8>) -> Result<(), NoMemory>
    requires { at ≤ vec_len out.old }
    ensures ok { OnOk result (out.new.items ≡ out.old.items ++ seal (record { head = head.now; payload = drop at out.old.items })) }
    ensures full { OnErr result (vec_capacity out.new < vec_len out.old + seal_len head.now.version) }
    ensures never_shrinks { vec_capacity out.old ≤ vec_capacity out.new }
{
    if seal_len(head.version) == 0 {
        return Ok(());
    }
    out.reserve(SEAL_LEN)?;
    let digest = seal(&encode_head(head), &out[at..]);
    out.extend_from_slice(&digest).unwrap();
    Ok(())
}

/// Appends the packet of a record: this header with the record's length, the record, and in version 2 the seal. When
/// memory ran out, a part of it may be appended.
pub fn put_record(head: &Header, r: &Rec, out: &mut Vec<u8>) -> Result<(), NoMemory>
    requires { IsWritable r.now }
    ensures ok { OnOk result (out.new.items ≡ out.old.items ++ packet_bytes (record_packet head.now (record_of r.now))) }
    // memory ran out only where the vector had no room for the packet; in version 2 also where it has none for the seal
    ensures full { seal_len head.now.version ≡ 0 →
        OnErr result (vec_capacity out.old < vec_len out.old + packet_size (record_packet head.now (record_of r.now)).head) }
    ensures sealed_full { let need = vec_len out.old + packet_size (record_packet head.now (record_of r.now)).head in
        OnErr result ((vec_capacity out.old < need) ⊎ (vec_capacity out.new < need)) }
{
    let head = Header {
        length: encoded_len(r),
        ..*head
    };
    out.extend_from_slice(&encode_head(&head))?;
    let at = out.len();
    write(r, out)?;
    put_seal(&head, at, out)
}

/// Appends the packet that ends a channel. When memory ran out, a part of it may be appended.
pub fn put_end(version: u16, session: u64, out: &mut Vec<u8>) -> Result<(), NoMemory>
    ensures ok { OnOk result (out.new.items ≡ out.old.items ++ packet_bytes (end_of version session)) }
    ensures full { OnErr result (vec_capacity out.old < vec_len out.old + packet_size (end_of version session).head) }
{
    let head = Header {
        version,
        kind: Kind::End,
        session,
        stream: 0,
        index: 0,
        length: 0,
    };
    out.extend_from_slice(&encode_head(&head))?;
    let at = out.len();
    put_seal(&head, at, out)
}

/// A record of a stream is the payload of a sound packet of that stream, in both versions of the format.
pub fn records_are_payloads()
    ensures { (D : Desc) (e : Expect) (h : Header) (r : Record) → IsValid D → IsRecordOf D h.stream r → IsTrue (carries h.kind)
        → h.version ≡ e.version → h.session ≡ e.session → h.stream < e.streams
        → h.session < 2 ^ 64 → h.stream < 2 ^ 32 → h.index < 2 ^ 32
        → IsSoundPacket e (record_packet h r) }
{
    size_of_a_record();
}
