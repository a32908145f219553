//! A channel is read, put in order and loaded.

ghost use Rattle.std.specs.Prelude.{◌≡◌, ◌+◌, ◌<◌, ◌≤◌, length};
ghost use Rattle.vfm_types.specs.Desc.{device_count};
ghost use Rattle.vfm_types.specs.Valid.{IsValid};
ghost use Rattle.vfm_mesh.specs.Rows.{stream_count, fan_rings};
ghost use Rattle.vfm_mesh.specs.Meshes.{AreMesh, streams_left};
ghost use Rattle.vfm_intake.specs.Intakes.{IsIntakeOf, stream_count as intake_streams};

use anyhow::{Result, bail};
use std::alloc::Global;
use vfm_intake::{Intake, verdict_of};
use vfm_mesh::{Fan, Mesh, Rest, settle};
use vfm_outside::ScriptLink;
use vfm_packet::Expect;
use vfm_recv::{ChannelEnd, Reader};
use vfm_types::Desc;

/// How many parcels a ring holds.
const SLOTS: usize = 64;

/// How many bytes the link gives at a time, at most.
const PIECE: u32 = 65_536;

/// Loads the machine of these bytes of one channel: they are read off a link, go through the rings of a mesh into the intake
/// of their stream, and the verdict is asked for. Fails where it isn't a machine.
pub fn load(alloc: Global, desc: &Desc, bytes: Vec<u8>) -> Result<()>
    requires { IsValid desc.now }
{
    let Ok((mut fans, funnels)) = Mesh::of(alloc, 1, desc.devices.len() + 1, SLOTS) else {
        bail!("no memory for the rings");
    };
    let Ok(link) = ScriptLink::of(alloc, bytes, 0, Vec::new(alloc), PIECE) else {
        bail!("no memory for the link");
    };
    let Ok(mut intake) = Intake::of(alloc, desc) else {
        bail!("no memory for the intake");
    };
    let end = read(alloc, link, expected_of(desc), &mut fans[0]);
    let mut rest = settle(fans, funnels);
    for stream in 0..desc.devices.len() + 1 {
        take_left(desc, &mut rest, stream, &mut intake)?;
    }
    match verdict_of(desc, &[end], intake) {
        Ok(_) => Ok(()),
        Err(refusal) => bail!("the channel is refused: {refusal:?}"),
    }
}

// Reads the link to its end.
fn read(alloc: Global, link: ScriptLink, expect: Expect, fan: &mut Fan) -> ChannelEnd
    requires { stream_count fan.old ≡ expect.streams }
    ensures { fan_rings fan.new ≡ fan_rings fan.old }
{
    let mut reader = Reader::of(alloc, link, 0, expect);
    reader.pump(fan)
}

// What the channel is expected to carry.
fn expected_of(desc: &Desc) -> Expect
    requires { IsValid desc.now }
    ensures { result.streams ≡ device_count desc.now + 1 }
{
    Expect {
        version: desc.version,
        session: desc.session,
        streams: desc.devices.len() + 1,
    }
}

// Takes all parcels of a stream.
fn take_left(desc: &Desc, rest: &mut Rest, stream: u32, intake: &mut Intake) -> Result<()>
    requires made { IsIntakeOf intake.old desc.now }
    requires known { stream < intake_streams intake.old }
    requires left { stream < streams_left rest.old }
    ensures made { IsIntakeOf intake.new desc.now }
    ensures streams { intake_streams intake.new ≡ intake_streams intake.old }
    ensures left { streams_left rest.new ≡ streams_left rest.old }
{
    for _ in 0..u32::MAX {
        let Some((_, parcel)) = rest.pop(stream) else {
            return Ok(());
        };
        if intake.take(desc, stream, parcel).is_err() {
            bail!("no memory for a packet");
        }
    }
    bail!("more packets than a channel can have")
}
