//! The records that close the stream of one device.

ghost use Rattle.std.specs.Prelude.{◌≡◌, ◌+◌, ◌<◌, ◌≤◌, ℕ, suc, List, Option, length, OnOk, OnErr};
ghost use Rattle.vfm_types.specs.declared.desc.Desc.{Desc as Description};
ghost use Rattle.vfm_types.specs.Desc.{device_count};
ghost use Rattle.vfm_types.specs.Machine.{device_of};
ghost use Rattle.vfm_types.specs.Valid.{IsValid};
ghost use Rattle.vfm_plain.specs.Shape.{IsSound};
ghost use Rattle.vfm_record.specs.Record.{Config};
ghost use Rattle.vfm_record.specs.Shape.{shape_digest};
ghost use Rattle.vfm_streams.specs.Sent.{Sent, engine_record, pending_records, push, push_all, with_device_closed};
ghost use Rattle.vfm_outlets.specs.Carrying.{Carries, all_failed, links_of};
ghost use Rattle.vfm_closing.specs.Closing.{CarriesPart, HasEngine, HasRoom, most_of_device};

use vfm_outlets::Outlets;
use vfm_outside::Link;
use vfm_plain::Plain;
use vfm_record::{Rec, shape_digest};
use vfm_types::{Desc, DeviceId, NoMemory};

/// The most pending requests of one record.
const MOST_PAIRS: usize = 4096;

/// Puts the record that ends a stream: the digest of its shape. Stream 0 is memory, stream `d + 1` is device `d`. When
/// memory runs out nothing is put.
pub fn put_config<L: Link>(
    desc: &Desc,
    outlets: &mut Outlets<L>,
    stream: u32,
) -> Result<(), NoMemory>
    requires valid { IsValid desc.now }
    requires stream { stream ≤ device_count desc.now }
    requires room { HasRoom L.sent 1 outlets.old }
    ensures put { (D : Description) (starts : List (Option (List ℕ))) (all : List Sent) → Carries L.sent D starts all outlets.old
        → OnOk result (Carries L.sent D starts (push stream (Config (shape_digest desc.now stream)) all) outlets.new) }
    ensures unchanged { (D : Description) (starts : List (Option (List ℕ))) (all : List Sent) → Carries L.sent D starts all outlets.old
        → OnErr result (Carries L.sent D starts all outlets.new) }
    ensures links { links_of outlets.new ≡ links_of outlets.old }
    ensures failed { all_failed outlets.new ≡ all_failed outlets.old }
{
    let digest = shape_digest(desc, stream);
    outlets.put(stream, &Rec::Config { digest: &digest })
}

// Puts the counts and the buffer of device d. When memory runs out nothing is put.
fn put_engine<L: Link>(joint: &Plain, outlets: &mut Outlets<L>, d: DeviceId) -> Result<(), NoMemory>
    requires device { d < length joint.now.devices }
    requires stream { d < 8 }
    requires engine { HasEngine (device_of joint.now d) }
    requires room { HasRoom L.sent 1 outlets.old }
    ensures put { (D : Description) (starts : List (Option (List ℕ))) (all : List Sent) → Carries L.sent D starts all outlets.old
        → OnOk result (Carries L.sent D starts (push (suc d) (engine_record (device_of joint.now d)) all) outlets.new) }
    ensures unchanged { (D : Description) (starts : List (Option (List ℕ))) (all : List Sent) → Carries L.sent D starts all outlets.old
        → OnErr result (Carries L.sent D starts all outlets.new) }
    ensures links { links_of outlets.new ≡ links_of outlets.old }
    ensures failed { all_failed outlets.new ≡ all_failed outlets.old }
{
    let (accepted, done, lost) = joint.counts(d);
    let engine = Rec::Engine {
        accepted,
        done,
        lost,
        pend: joint.pending(d).len() as u32,
        buf: joint.buf(d),
    };
    outlets.put(u32::from(d.0) + 1, &engine)
}

// Puts the pending requests of a stream, in records of 4,096, of which the last may have fewer. When memory runs out the
// records before are put.
fn put_pendings<L: Link>(
    outlets: &mut Outlets<L>,
    stream: u32,
    pairs: &[(u32, u32)],
) -> Result<(), NoMemory>
    requires stream { stream ≤ 8 }
    requires few { length pairs.now ≤ 50000 }
    requires room { HasRoom L.sent 13 outlets.old }
    ensures put { (D : Description) (starts : List (Option (List ℕ))) (all : List Sent) → Carries L.sent D starts all outlets.old
        → OnOk result (Carries L.sent D starts (push_all stream (pending_records pairs.now) all) outlets.new) }
    ensures part { (D : Description) (starts : List (Option (List ℕ))) (all : List Sent) → Carries L.sent D starts all outlets.old
        → OnErr result (CarriesPart L.sent D starts (push_all stream (pending_records pairs.now) all) outlets.new) }
    ensures links { links_of outlets.new ≡ links_of outlets.old }
    ensures failed { all_failed outlets.new ≡ all_failed outlets.old }
{
    let mut rest = pairs;
    while !rest.is_empty() {
        let (piece, after) = rest.split_at(rest.len().min(MOST_PAIRS));
        outlets.put_pending(stream, piece)?;
        rest = after;
    }
    Ok(())
}

/// Puts the records that close the stream of device `d`: its counts, its pending requests, and the digest of its shape.
/// When memory runs out some of the first of them are put.
pub fn put_device_closed<L: Link>(
    desc: &Desc,
    joint: &Plain,
    outlets: &mut Outlets<L>,
    d: DeviceId,
) -> Result<(), NoMemory>
    requires valid { IsValid desc.now }
    requires sound { IsSound desc.now joint.now }
    requires device { d < device_count desc.now }
    requires room { HasRoom L.sent most_of_device outlets.old }
    ensures put { (D : Description) (starts : List (Option (List ℕ))) (all : List Sent) → Carries L.sent D starts all outlets.old
        → OnOk result (Carries L.sent D starts (with_device_closed desc.now d (device_of joint.now d) all) outlets.new) }
    ensures part { (D : Description) (starts : List (Option (List ℕ))) (all : List Sent) → Carries L.sent D starts all outlets.old
        → OnErr result (CarriesPart L.sent D starts (with_device_closed desc.now d (device_of joint.now d) all) outlets.new) }
    ensures links { links_of outlets.new ≡ links_of outlets.old }
    ensures failed { all_failed outlets.new ≡ all_failed outlets.old }
{
    let stream = u32::from(d.0) + 1;
    put_engine(joint, outlets, d)?;
    put_pendings(outlets, stream, joint.pending(d))?;
    put_config(desc, outlets, stream)
}
