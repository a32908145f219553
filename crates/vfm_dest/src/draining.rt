//! What is left in a mesh goes into an intake.

ghost use Rattle.std.specs.Prelude.{◌≡◌, ◌+◌, ◌<◌, ℕ, [], OnOk};
ghost use Rattle.vfm_types.specs.Desc.{device_count};
ghost use Rattle.vfm_mesh.specs.Meshes.{streams_left, channels_left, left};
ghost use Rattle.vfm_intake.specs.Intakes.{IsIntakeOf, HasTaken, stream_count};
ghost use Rattle.vfm_dest.specs.Drained.{Moves, HasDrained};

use vfm_intake::Intake;
use vfm_mesh::{Parcel, Rest};
use vfm_types::{Desc, NoMemory};

/// Takes all that is left in a mesh, stream by stream, into an intake, behind what came to it before.
pub fn drain(desc: &Desc, rest: &mut Rest, intake: &mut Intake) -> Result<(), NoMemory>
    requires made { IsIntakeOf intake.old desc.now }
    requires streams { streams_left rest.old ≡ device_count desc.now + 1 }
    ensures made { IsIntakeOf intake.new desc.now }
    ensures drained { OnOk result (HasDrained desc.now rest.old intake.old intake.new) }
{
    for stream in 0..desc.devices.len() + 1 {
        drain_stream(desc, stream, rest, intake)?;
    }
    Ok(())
}

/// Takes all that is left of a stream in a mesh into an intake.
pub fn drain_stream(
    desc: &Desc,
    stream: u32,
    rest: &mut Rest,
    intake: &mut Intake,
) -> Result<(), NoMemory>
    requires made { IsIntakeOf intake.old desc.now }
    requires known { stream < stream_count intake.old }
    requires left { stream < streams_left rest.old }
    ensures made { IsIntakeOf intake.new desc.now }
    ensures streams { streams_left rest.new ≡ streams_left rest.old }
    ensures channels { channels_left rest.new ≡ channels_left rest.old }
    ensures moved { OnOk result (Moves desc.now stream rest.old rest.new intake.old intake.new) }
    ensures all { OnOk result ((k : ℕ) → k < channels_left rest.old → left rest.new k stream ≡ []) }
{
    while let Some((_, parcel)) = rest.pop(stream) {
        intake.take(desc, stream, parcel)?;
    }
    Ok(())
}
