//! The receiving side as a whole: readers, a mesh, an intake, and the verdict.

ghost use Rattle.std.specs.Prelude.{◌≡◌, ◌+◌, ◌<◌, ◌≤◌, IfOk, OnOk, length};
ghost use Rattle.vfm_types.specs.Desc.{device_count};
ghost use Rattle.vfm_types.specs.Valid.{IsValid};
ghost use Rattle.vfm_mesh.specs.Rows.{stream_count, fan_rings};
ghost use Rattle.vfm_mesh.specs.Meshes.{AreMesh, streams_left};
ghost use Rattle.vfm_intake.specs.Intakes.{IsIntakeOf, stream_count as intake_streams};

use crate::Trouble;
use crate::machine::Machine;
use crate::words::channel_of;
use std::alloc::Global;
use vfm_intake::{Intake, verdict_of};
use vfm_mesh::{Fan, Funnel, Mesh, Parcel, Rest, settle};
use vfm_outside::ScriptLink;
use vfm_packet::Expect;
use vfm_plain::Part;
use vfm_recv::{ChannelEnd, Reader};
use vfm_types::{Desc, Refusal};

/// How many bytes a link gives at a time.
const PIECE: u32 = 65536;

/// What the destination answers about these channels: each is read to its end, and then all that its streams got is taken,
/// first from the rings of so many slots, then what is left in the mesh.
pub fn received(
    alloc: Global,
    machine: &Machine,
    slots: u32,
    words: &[&str],
) -> Result<Result<Vec<Part>, Refusal>, Trouble> {
    let desc = &machine.desc;
    if slots == 0 || words.len() != desc.channels as usize {
        return Err(Trouble::Form);
    }
    let streams = desc.devices.len() + 1;
    let (mut fans, mut funnels) = Mesh::of(alloc, desc.channels, streams, slots as usize)?;
    let ends = read_all(alloc, desc, &mut fans, &funnels, words)?;
    let mut intake = Intake::of(alloc, desc)?;
    for stream in 0..streams {
        take_known(desc, &fans, &mut funnels, stream, &mut intake)?;
    }
    let mut rest = settle(fans, funnels);
    for stream in 0..streams {
        take_left(desc, &mut rest, stream, &mut intake)?;
    }
    Ok(verdict_of(desc, ends.as_slice(), intake))
}

// Reads each channel to its end, one after the other.
fn read_all(
    alloc: Global,
    desc: &Desc,
    fans: &mut Vec<Fan>,
    funnels: &Vec<Funnel>,
    words: &[&str],
) -> Result<Vec<ChannelEnd>, Trouble>
    requires valid { IsValid desc.now }
    requires mesh { AreMesh fans.old.items funnels.now.items }
    requires streams { length funnels.now.items ≡ device_count desc.now + 1 }
    requires channels { length words.now ≡ length fans.old.items }
    ensures mesh { OnOk result (AreMesh fans.new.items funnels.now.items) }
    ensures fans { length fans.new.items ≡ length fans.old.items }
    ensures count { IfOk result (λ ends. length ends.items ≡ length words.now) }
{
    let mut ends = Vec::with_capacity(alloc, words.len())?;
    for k in 0..words.len() {
        let bytes = channel_of(alloc, words[k])?;
        let end = read_one(alloc, desc, fans, funnels, k, bytes)?;
        ends.push(end)?;
    }
    Ok(ends)
}

// Reads one channel to its end.
fn read_one(
    alloc: Global,
    desc: &Desc,
    fans: &mut Vec<Fan>,
    funnels: &Vec<Funnel>,
    k: usize,
    bytes: Vec<u8>,
) -> Result<ChannelEnd, Trouble>
    requires valid { IsValid desc.now }
    requires mesh { AreMesh fans.old.items funnels.now.items }
    requires streams { length funnels.now.items ≡ device_count desc.now + 1 }
    requires channel { k < length fans.old.items }
    ensures mesh { AreMesh fans.new.items funnels.now.items }
    ensures fans { length fans.new.items ≡ length fans.old.items }
{
    let link = ScriptLink::of(alloc, bytes, 0, Vec::new(alloc), PIECE)?;
    let expect = expected_of(desc);
    Ok(read_link(alloc, link, expect, &mut fans[k]))
}

// Reads a link to its end.
fn read_link(alloc: Global, link: ScriptLink, expect: Expect, fan: &mut Fan) -> ChannelEnd
    requires { stream_count fan.old ≡ expect.streams }
    ensures { fan_rings fan.new ≡ fan_rings fan.old }
{
    let mut reader = Reader::of(alloc, link, 0, expect);
    reader.pump(fan)
}

// What the channels of a move are expected to carry.
fn expected_of(desc: &Desc) -> Expect
    requires { IsValid desc.now }
    ensures { result.streams ≡ device_count desc.now + 1 }
{
    Expect {
        version: desc.version,
        session: desc.session,
        streams: desc.devices.len() + 1,
    }
}

// Takes all parcels of a stream that its rings are known to hold.
fn take_known(
    desc: &Desc,
    fans: &Vec<Fan>,
    funnels: &mut Vec<Funnel>,
    stream: u32,
    intake: &mut Intake,
) -> Result<(), Trouble>
    requires made { IsIntakeOf intake.old desc.now }
    requires stream { stream < intake_streams intake.old }
    requires mesh { AreMesh fans.now.items funnels.old.items }
    requires funnels { length funnels.old.items ≡ intake_streams intake.old }
    ensures made { IsIntakeOf intake.new desc.now }
    ensures streams { intake_streams intake.new ≡ intake_streams intake.old }
    ensures mesh { OnOk result (AreMesh fans.now.items funnels.new.items) }
    ensures funnels { length funnels.new.items ≡ length funnels.old.items }
{
    for _ in 0..u32::MAX {
        match take_one(fans, funnels, stream) {
            Some(parcel) => intake.take(desc, stream, parcel)?,
            None => return Ok(()),
        }
    }
    Err(Trouble::Form)
}

fn take_one(fans: &Vec<Fan>, funnels: &mut Vec<Funnel>, stream: u32) -> Option<Parcel>
    requires mesh { AreMesh fans.now.items funnels.old.items }
    requires stream { stream < length funnels.old.items }
    ensures mesh { AreMesh fans.now.items funnels.new.items }
    ensures funnels { length funnels.new.items ≡ length funnels.old.items }
{
    match funnels[stream as usize].take() {
        Some((_, parcel)) => Some(parcel),
        None => None,
    }
}

// Takes all parcels of a stream that are left in the mesh.
fn take_left(desc: &Desc, rest: &mut Rest, stream: u32, intake: &mut Intake) -> Result<(), Trouble>
    requires made { IsIntakeOf intake.old desc.now }
    requires stream { stream < intake_streams intake.old }
    requires left { stream < streams_left rest.old }
    ensures made { IsIntakeOf intake.new desc.now }
    ensures streams { intake_streams intake.new ≡ intake_streams intake.old }
    ensures left { streams_left rest.new ≡ streams_left rest.old }
{
    for _ in 0..u32::MAX {
        match rest.pop(stream) {
            Some((_, parcel)) => intake.take(desc, stream, parcel)?,
            None => return Ok(()),
        }
    }
    Err(Trouble::Form)
}
