//! Writing a record.

ghost use Rattle.std.specs.Prelude.{◌≡◌, ◌+◌, ◌*◌, ◌<◌, ◌≤◌, ◌^◌, ◌∷◌, ◌++◌, length, vec_len, vec_capacity, OnOk, OnErr};
ghost use Rattle.std.specs.List.{flat_map};
ghost use Rattle.std.specs.Int.{w16, w32, to_be_bytes};
ghost use Rattle.vfm_base.specs.Words.{IsBytes};
ghost use Rattle.vfm_record.specs.Record.{Pending, record_bytes, pair_bytes, record_of};
ghost use Rattle.vfm_record.specs.Writing.{IsWritable};

use crate::record::Rec;
use vfm_types::NoMemory;

// Appends both, or nothing.
fn put(out: &mut Vec<u8>, head: &[u8], body: &[u8]) -> Result<(), NoMemory>
    requires { length head.now ≤ 32 }
    ensures ok { OnOk result (out.new.items ≡ out.old.items ++ (head.now ++ body.now)) }
    ensures err { OnErr result (out.new.items ≡ out.old.items) }
    ensures full { OnErr result (vec_capacity out.old < vec_len out.old + (length head.now + length body.now)) }
    ensures bytes { IsBytes body.now }
{
    out.reserve(head.len() + body.len())?;
    out.extend_from_slice(head)?;
    out.extend_from_slice(body)?;
    Ok(())
}

// A tag and a number.
fn numbered_head(tag: u8, n: u32) -> [u8; 5]
    ensures { result ≡ tag ∷ to_be_bytes w32 n }
{
    let n = n.to_be_bytes();
    [tag, n[0], n[1], n[2], n[3]]
}

// The tag of pending requests and how many they are.
fn pending_head(count: u16) -> [u8; 3]
    ensures { result ≡ 4 ∷ to_be_bytes w16 count }
{
    let count = count.to_be_bytes();
    [4, count[0], count[1]]
}

// The tag of an engine and its counts.
fn engine_head(accepted: u32, done: u32, lost: u32, pend: u32) -> [u8; 17]
    ensures { result ≡ 3 ∷ (to_be_bytes w32 accepted ++ to_be_bytes w32 done ++ to_be_bytes w32 lost ++ to_be_bytes w32 pend) }
{
    let a = accepted.to_be_bytes();
    let d = done.to_be_bytes();
    let l = lost.to_be_bytes();
    let p = pend.to_be_bytes();
    [
        3, a[0], a[1], a[2], a[3], d[0], d[1], d[2], d[3], l[0], l[1], l[2], l[3], p[0], p[1],
        p[2], p[3],
    ]
}

/// Appends the one encoding of a record. Where memory runs out nothing is appended; it does not where the room of `out`
/// is enough for the encoding.
pub fn write(r: &Rec, out: &mut Vec<u8>) -> Result<(), NoMemory>
    requires { IsWritable r.now }
    ensures ok { OnOk result (out.new.items ≡ out.old.items ++ record_bytes (record_of r.now)) }
    ensures err { OnErr result (out.new.items ≡ out.old.items) }
    ensures full { OnErr result (vec_capacity out.old < vec_len out.old + length (record_bytes (record_of r.now))) }
{
    match *r {
        Rec::Page { p, bytes } => put(out, &numbered_head(1, p), bytes),
        Rec::Block { b, bytes } => put(out, &numbered_head(2, b), bytes),
        Rec::Engine {
            accepted,
            done,
            lost,
            pend,
            buf,
        } => put(out, &engine_head(accepted, done, lost, pend), buf),
        Rec::Pending { count, bytes } => put(out, &pending_head(count as u16), bytes),
        Rec::Config { digest } => put(out, &[5], digest),
    }
}

/// How many bytes the encoding of a record has: what `write` appends.
pub fn encoded_len(r: &Rec) -> u32
    requires { IsWritable r.now }
    ensures value { result ≡ length (record_bytes (record_of r.now)) }
    ensures payload { result ≤ 65536 }
{
    match *r {
        Rec::Page { bytes, .. } => 5 + bytes.len() as u32,
        Rec::Block { bytes, .. } => 5 + bytes.len() as u32,
        Rec::Engine { buf, .. } => 17 + buf.len() as u32,
        Rec::Pending { bytes, .. } => 3 + bytes.len() as u32,
        Rec::Config { digest } => 1 + digest.len() as u32,
    }
}

// Appends bytes for which there is room.
fn fill(out: &mut Vec<u8>, bytes: &[u8])
    requires { vec_len out.old + length bytes.now ≤ vec_capacity out.old }
    ensures items { out.new.items ≡ out.old.items ++ bytes.now }
    ensures len { vec_len out.new ≡ vec_len out.old + length bytes.now }
    ensures capacity { vec_capacity out.old ≤ vec_capacity out.new }
{
    if out.extend_from_slice(bytes).is_err() {
        unreachable!();
    }
}

// The eight bytes of a pair.
fn pair_bytes(number: u32, job: u32) -> [u8; 8]
    ensures { result ≡ pair_bytes (number, job) }
{
    let n = number.to_be_bytes();
    let j = job.to_be_bytes();
    [n[0], n[1], n[2], n[3], j[0], j[1], j[2], j[3]]
}

// Appends the pairs, for which there is room.
fn fill_pairs(out: &mut Vec<u8>, pairs: &[(u32, u32)])
    requires { vec_len out.old + 8 * length pairs.now ≤ vec_capacity out.old }
    ensures { out.new.items ≡ out.old.items ++ flat_map pair_bytes pairs.now }
{
    for pair in pairs {
        fill(out, &pair_bytes(pair.0, pair.1));
    }
}

/// Appends the record of these pending requests, each with its number and the number of its job, 1 to 4,096 of them:
/// what `write` appends for their bytes. Where memory runs out nothing is appended.
#[tactic(auto, using(crate::proofs::Pairs::pairs_len))]
pub fn write_pending(pairs: &[(u32, u32)], out: &mut Vec<u8>) -> Result<(), NoMemory>
    requires some { 1 ≤ length pairs.now }
    requires few { length pairs.now ≤ 4096 }
    ensures ok { OnOk result (out.new.items ≡ out.old.items ++ record_bytes (Pending pairs.now)) }
    ensures err { OnErr result (out.new.items ≡ out.old.items) }
    ensures full { OnErr result (vec_capacity out.old < vec_len out.old + length (record_bytes (Pending pairs.now))) }
{
    out.reserve(3 + 8 * pairs.len())?;
    fill(out, &pending_head(pairs.len() as u16));
    fill_pairs(out, pairs);
    Ok(())
}
