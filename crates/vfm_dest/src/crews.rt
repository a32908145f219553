//! The workers of all channels and of all streams: hired before they work, and dismissed once they are done.

ghost use Rattle.std.specs.Prelude.{◌≡◌, ◌≤◌, [], false, length, map, vec_capacity, All};
ghost use Rattle.vfm_stream_work.specs.Workers.{funnel_of, intake_of, is_short};
ghost use Rattle.vfm_dest.specs.ChannelWorkers.{link_in, fan_in, end_in, expect_in};
ghost use Rattle.vfm_dest.specs.Crews.{HasPlaces, HasPlacesOfStreams};

use crate::{ChannelWorker, Heard};
use std::alloc::Global;
use vfm_intake::StreamIntake;
use vfm_mesh::{Fan, Funnel};
use vfm_outside::Link;
use vfm_packet::Expect;
use vfm_recv::ChannelEnd;
use vfm_stream_work::StreamWorker;

/// The number of the worker of channel 0; those of the others follow.
const FIRST_CHANNEL: u32 = 48;

/// The number of the worker of stream 0; those of the others follow.
const FIRST_STREAM: u32 = 64;

/// What is left of the workers of all channels, in their order.
#[derive(Drop)]
pub struct AllHeard<L> {
    pub links: Vec<L>,
    pub ends: Vec<ChannelEnd>,
    pub fans: Vec<Fan>,
}

/// What is left of the workers of all streams, in their order, and whether memory ran out for one of them.
#[derive(Drop)]
pub struct AllTaken {
    pub funnels: Vec<Funnel>,
    pub intakes: Vec<StreamIntake>,
    pub is_short: bool,
}

/// A worker for each channel, over its link and its fan. They go into `workers`, which has the room.
pub fn hire_channels<L: Link>(
    alloc: Global,
    expect: Expect,
    links: Vec<L>,
    fans: Vec<Fan>,
    mut workers: Vec<ChannelWorker<L>>,
) -> Vec<ChannelWorker<L>>
    requires count { length fans.items ≡ length links.items }
    requires few { length links.items ≤ 8 }
    requires none { workers.items ≡ [] }
    requires room { length links.items ≤ vec_capacity workers }
    ensures links { map link_in result.items ≡ links.items }
    ensures fans { map fan_in result.items ≡ fans.items }
    ensures expects { All (λ w. expect_in w ≡ expect) result.items }
{
    let mut fans = fans.into_iter();
    let mut channel = 0;
    for link in links {
        let fan = fans.next().unwrap();
        let number = FIRST_CHANNEL + channel;
        let worker = ChannelWorker::of(alloc, number, channel, expect, link, fan);
        workers.push(worker).unwrap();
        channel += 1;
    }
    workers
}

/// Takes the workers of all channels apart. What is left of them goes into `all`, which has the room.
pub fn dismiss_channels<L: Link>(
    workers: Vec<ChannelWorker<L>>,
    mut all: AllHeard<L>,
) -> AllHeard<L>
    requires { HasPlaces (length workers.items) all }
    ensures links { result.links.items ≡ map link_in workers.items }
    ensures fans { result.fans.items ≡ map fan_in workers.items }
    ensures ends { result.ends.items ≡ map end_in workers.items }
{
    for worker in workers {
        let Heard { link, fan, end } = worker.into_heard();
        all.links.push(link).unwrap();
        all.fans.push(fan).unwrap();
        all.ends.push(end).unwrap();
    }
    all
}

/// A worker for each stream, over its funnel and its intake. They go into `workers`, which has the room.
pub fn hire_streams(
    channels: u32,
    funnels: Vec<Funnel>,
    intakes: Vec<StreamIntake>,
    mut workers: Vec<StreamWorker>,
) -> Vec<StreamWorker>
    requires count { length intakes.items ≡ length funnels.items }
    requires few { length funnels.items ≤ 9 }
    requires none { workers.items ≡ [] }
    requires room { length funnels.items ≤ vec_capacity workers }
    ensures funnels { map funnel_of result.items ≡ funnels.items }
    ensures intakes { map intake_of result.items ≡ intakes.items }
    ensures short { All (λ w. is_short w ≡ false) result.items }
{
    let mut intakes = intakes.into_iter();
    let mut stream = 0;
    for funnel in funnels {
        let intake = intakes.next().unwrap();
        let number = FIRST_STREAM + stream;
        let worker = StreamWorker::of(number, funnel, intake, channels);
        workers.push(worker).unwrap();
        stream += 1;
    }
    workers
}

/// Takes the workers of all streams apart. What is left of them goes into `all`, which has the room.
pub fn dismiss_streams(workers: Vec<StreamWorker>, mut all: AllTaken) -> AllTaken
    requires { HasPlacesOfStreams (length workers.items) all }
    ensures funnels { result.funnels.items ≡ map funnel_of workers.items }
    ensures intakes { result.intakes.items ≡ map intake_of workers.items }
    ensures short { result.is_short ≡ false → All (λ w. is_short w ≡ false) workers.items }
{
    for worker in workers {
        let (funnel, intake, is_short) = worker.into_parts();
        all.funnels.push(funnel).unwrap();
        all.intakes.push(intake).unwrap();
        all.is_short = all.is_short || is_short;
    }
    all
}
