//! All workers beside one another.

ghost use Rattle.std.specs.Prelude.{◌≡◌, ◌<◌, ℕ, length, slice_index_or, All};
ghost use denote.Param.Send.{IsSync, IsSend};
ghost use Rattle.vfm_intake.specs.Streams.{stream_in, IsStreamOf};
ghost use Rattle.vfm_stream_work.specs.declared.worker.StreamWorker.{StreamWorker};
ghost use Rattle.vfm_stream_work.specs.Workers.{intake_of, HasWorked};
ghost use Rattle.vfm_dest.specs.declared.channel_worker.ChannelWorker.{ChannelWorker};
ghost use Rattle.vfm_dest.specs.Heards.{told, out_words};
ghost use Rattle.vfm_dest.specs.ChannelWorkers.{IsFresh, HasHeard};

use crate::ChannelWorker;
use std::thread::{Threads, for_each_mut, join_mut};
use vfm_outside::{Beat, Link};
use vfm_stream_work::StreamWorker;
use vfm_types::Desc;

/// The most channels and the most streams of a move; so each worker has a thread of its own.
const MOST_CHANNELS: usize = 8;

const MOST_STREAMS: usize = 9;

// The workers of all channels beside one another.
fn read_all<H: Threads + Sync, L: Link, B: Beat + Sync>(
    rt: &H,
    beat: &B,
    workers: &mut [ChannelWorker<L>],
)
    requires { All (λ w. IsFresh w) workers.old }
    ensures { (k : ℕ) (d : ChannelWorker L) → k < length workers.old
        → HasHeard (told L.received L.ended L.failed_in) (out_words L.sent L.finished L.failed_out)
        (slice_index_or workers.old k d) (slice_index_or workers.new k d) }
{
    for_each_mut(
        rt,
        workers,
        MOST_CHANNELS,
        &|_, worker: &mut ChannelWorker<L>|
            requires { IsFresh worker.old }
        { worker.work(beat) },
    );
}

// The workers of all streams beside one another.
fn load_all<H: Threads + Sync, B: Beat + Sync>(
    rt: &H,
    desc: &Desc,
    beat: &B,
    workers: &mut [StreamWorker],
)
    requires { All (λ w. IsStreamOf (intake_of w) desc.now (stream_in (intake_of w))) workers.old }
    ensures { (s : ℕ) (d : StreamWorker) → s < length workers.old
        → HasWorked desc.now (slice_index_or workers.old s d) (slice_index_or workers.new s d) }
{
    for_each_mut(
        rt,
        workers,
        MOST_STREAMS,
        &|_, worker: &mut StreamWorker| worker.work(desc, beat),
    );
}

// The workers of all channels and of all streams beside one another.
fn work_slices<H: Threads + Sync, L: Link, B: Beat + Sync>(
    rt: &H,
    desc: &Desc,
    beat: &B,
    channels: &mut [ChannelWorker<L>],
    streams: &mut [StreamWorker],
)
    requires fresh { All (λ w. IsFresh w) channels.old }
    requires made { All (λ w. IsStreamOf (intake_of w) desc.now (stream_in (intake_of w))) streams.old }
    ensures heard { (k : ℕ) (d : ChannelWorker L) → k < length channels.old
        → HasHeard (told L.received L.ended L.failed_in) (out_words L.sent L.finished L.failed_out)
        (slice_index_or channels.old k d) (slice_index_or channels.new k d) }
    ensures worked { (s : ℕ) (d : StreamWorker) → s < length streams.old
        → HasWorked desc.now (slice_index_or streams.old s d) (slice_index_or streams.new s d) }
{
    join_mut(
        rt,
        &mut ||
            requires { IsSync H.row × IsSync B.row × IsSend L.row × All (λ w. IsFresh w) channels.now }
        { read_all(rt, beat, channels) },
        &mut ||
            requires { IsSync H.row × IsSync B.row × All (λ w. IsStreamOf (intake_of w) desc.now (stream_in (intake_of w))) streams.now }
        { load_all(rt, desc, beat, streams) },
    );
}

/// The workers of all channels and of all streams beside one another, each in a thread of its own where one can be made.
pub fn work_all<H: Threads + Sync, L: Link, B: Beat + Sync>(
    rt: &H,
    desc: &Desc,
    beat: &B,
    channels: &mut Vec<ChannelWorker<L>>,
    streams: &mut Vec<StreamWorker>,
)
    requires fresh { All (λ w. IsFresh w) channels.old.items }
    requires made { All (λ w. IsStreamOf (intake_of w) desc.now (stream_in (intake_of w))) streams.old.items }
    ensures channels { length channels.new.items ≡ length channels.old.items }
    ensures streams { length streams.new.items ≡ length streams.old.items }
    ensures heard { (k : ℕ) (d : ChannelWorker L) → k < length channels.old.items
        → HasHeard (told L.received L.ended L.failed_in) (out_words L.sent L.finished L.failed_out)
        (slice_index_or channels.old.items k d) (slice_index_or channels.new.items k d) }
    ensures worked { (s : ℕ) (d : StreamWorker) → s < length streams.old.items
        → HasWorked desc.now (slice_index_or streams.old.items s d) (slice_index_or streams.new.items s d) }
{
    work_slices(
        rt,
        desc,
        beat,
        channels.as_mut_slice(),
        streams.as_mut_slice(),
    );
}
