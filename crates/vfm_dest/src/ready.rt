//! What is taken before a byte is read.

ghost use Rattle.std.specs.Prelude.{◌≡◌, ◌+◌, ◌<◌, ◌≤◌, [], vec_capacity, IfOk};
ghost use Rattle.vfm_types.specs.Desc.{device_count};
ghost use Rattle.vfm_types.specs.Valid.{IsValid};
ghost use Rattle.vfm_dest.specs.Crews.{HasPlaces, HasPlacesOfStreams};
ghost use Rattle.vfm_dest.specs.Staging.{IsReadyFor};

use crate::{AllHeard, AllTaken, ChannelWorker, hire_streams};
use std::alloc::Global;
use vfm_intake::Intake;
use vfm_mesh::{Fan, Mesh};
use vfm_outside::Link;
use vfm_stream_work::StreamWorker;
use vfm_types::{Desc, NoMemory};

/// All that the reading of the channels of a description takes: the fans of a mesh, the workers of all streams, room for
/// those of all channels, and room for what is left of both. It is taken before a byte is read, so that the links come back
/// whatever happens.
#[derive(Drop)]
pub struct Ready<L> {
    pub fans: Vec<Fan>,
    pub streams: Vec<StreamWorker>,
    pub channels: Vec<ChannelWorker<L>>,
    pub heard: AllHeard<L>,
    pub taken: AllTaken,
}

/// Takes the memory for the reading of the channels of a description, through rings of so many slots, at least one.
pub(crate) fn make_ready<L: Link>(
    alloc: Global,
    desc: &Desc,
    slots: usize,
) -> Result<Ready<L>, NoMemory>
    requires valid { IsValid desc.now }
    requires slots { 0 < slots }
    ensures { IfOk result (λ ready. IsReadyFor desc.now ready) }
{
    let count = desc.devices.len() + 1;
    let (fans, funnels) = Mesh::of(alloc, desc.channels, count, slots)?;
    let intakes = Intake::of(alloc, desc)?.into_streams();
    let room = Vec::with_capacity(alloc, count as usize)?;
    let streams = hire_streams(desc.channels, funnels, intakes, room);
    let channels = Vec::with_capacity(alloc, desc.channels as usize)?;
    let heard = places(alloc, desc.channels as usize)?;
    let taken = places_of_streams(alloc, count as usize)?;
    Ok(Ready {
        fans,
        streams,
        channels,
        heard,
        taken,
    })
}

// Takes the room for what is left of the workers of so many channels.
fn places<L: Link>(alloc: Global, channels: usize) -> Result<AllHeard<L>, NoMemory>
    ensures { IfOk result (λ all. HasPlaces channels all) }
{
    let links = Vec::with_capacity(alloc, channels)?;
    let ends = Vec::with_capacity(alloc, channels)?;
    let fans = Vec::with_capacity(alloc, channels)?;
    Ok(AllHeard { links, ends, fans })
}

// Takes the room for what is left of the workers of so many streams.
fn places_of_streams(alloc: Global, streams: usize) -> Result<AllTaken, NoMemory>
    ensures { IfOk result (λ all. HasPlacesOfStreams streams all) }
{
    let funnels = Vec::with_capacity(alloc, streams)?;
    let intakes = Vec::with_capacity(alloc, streams)?;
    Ok(AllTaken {
        funnels,
        intakes,
        is_short: false,
    })
}
