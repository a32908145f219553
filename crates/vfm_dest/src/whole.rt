//! Staging: all channels are read, and a machine is made of what came.

ghost use Rattle.std.specs.Prelude.{◌≡◌, ◌<◌, length, map};
ghost use Rattle.vfm_types.specs.Valid.{IsValid};
ghost use Rattle.vfm_streams.specs.Verdict.{Expects};
ghost use Rattle.vfm_dest.specs.Heards.{told, out_words, SendAsBefore};
ghost use Rattle.vfm_dest.specs.Staging.{IsReadyFor, IsStagedBy, Judges, NamesFailed, ReadsOut};

use crate::ready::{Ready, make_ready};
use crate::{
    AllHeard, AllTaken, StageFault, Staged, dismiss_channels, dismiss_streams, hire_channels,
    judge, work_all,
};
use std::alloc::Global;
use std::thread::Threads;
use vfm_outside::{Beat, Link};
use vfm_packet::Expect;
use vfm_types::Desc;

/// How many slots each ring of a mesh has where nothing else is asked for.
const SLOTS: usize = 64;

// What the channels of a move are expected to carry.
fn expected_of(desc: &Desc) -> Expect
    requires { IsValid desc.now }
    ensures { Expects desc.now result }
{
    Expect {
        version: desc.version,
        session: desc.session,
        streams: desc.devices.len() + 1,
    }
}

/// Reads every link to its end and stages the machine that came, through a mesh whose rings have 64 slots: as `stage_in`.
pub fn stage<H: Threads + Sync, L: Link, B: Beat + Sync>(
    rt: &H,
    alloc: Global,
    desc: &Desc,
    links: Vec<L>,
    beat: &B,
) -> (Vec<L>, Result<Staged, StageFault>)
    requires valid { IsValid desc.now }
    requires channels { length links.items ≡ desc.now.channels }
    ensures links { length result.0.items ≡ length links.items }
    ensures verdict { Judges desc.now (record {
      before = map (told L.received L.ended L.failed_in) links.items;
      now = map (told L.received L.ended L.failed_in) result.0.items;
    }) result.1 }
    ensures read_out { ReadsOut (record {
      before = map (told L.received L.ended L.failed_in) links.items;
      now = map (told L.received L.ended L.failed_in) result.0.items;
    }) result.1 }
    ensures failed { NamesFailed (record {
      before = map (told L.received L.ended L.failed_in) links.items;
      now = map (told L.received L.ended L.failed_in) result.0.items;
    }) result.1 }
    ensures out { SendAsBefore (out_words L.sent L.finished L.failed_out) links.items result.0.items }
{
    stage_in(rt, alloc, desc, links, SLOTS, beat)
}

/// Reads every link to its end, all beside one another, and stages the machine that came. The links come back in their order.
/// What comes goes through a mesh whose rings have so many slots, at least one, and is loaded while it comes, each stream by
/// a worker of its own; what these leave is loaded in the end. Where a thread can't be made its work is done without it.
///
/// The beat is told of worker 48 + k before channel k is read, and of worker 64 + s before each take of stream s.
///
/// `Ok` and `Refusal` are the verdict on the bytes that came in this call; then every link has ended, or has given more
/// than 67,108,864 bytes. `Link` names the first channel whose link failed; each below it was read out so. `NoMemory` may
/// come in place of any answer. Nothing is sent.
pub fn stage_in<H: Threads + Sync, L: Link, B: Beat + Sync>(
    rt: &H,
    alloc: Global,
    desc: &Desc,
    links: Vec<L>,
    slots: usize,
    beat: &B,
) -> (Vec<L>, Result<Staged, StageFault>)
    requires valid { IsValid desc.now }
    requires channels { length links.items ≡ desc.now.channels }
    requires slots { 0 < slots }
    ensures links { length result.0.items ≡ length links.items }
    ensures verdict { Judges desc.now (record {
      before = map (told L.received L.ended L.failed_in) links.items;
      now = map (told L.received L.ended L.failed_in) result.0.items;
    }) result.1 }
    ensures read_out { ReadsOut (record {
      before = map (told L.received L.ended L.failed_in) links.items;
      now = map (told L.received L.ended L.failed_in) result.0.items;
    }) result.1 }
    ensures failed { NamesFailed (record {
      before = map (told L.received L.ended L.failed_in) links.items;
      now = map (told L.received L.ended L.failed_in) result.0.items;
    }) result.1 }
    ensures out { SendAsBefore (out_words L.sent L.finished L.failed_out) links.items result.0.items }
{
    match make_ready(alloc, desc, slots) {
        Ok(ready) => stage_ready(rt, alloc, desc, links, ready, beat),
        Err(_) => (links, Err(StageFault::NoMemory)),
    }
}

// Reads every link to its end, and stages the machine that came, with what was made ready.
fn stage_ready<H: Threads + Sync, L: Link, B: Beat + Sync>(
    rt: &H,
    alloc: Global,
    desc: &Desc,
    links: Vec<L>,
    ready: Ready<L>,
    beat: &B,
) -> (Vec<L>, Result<Staged, StageFault>)
    requires valid { IsValid desc.now }
    requires channels { length links.items ≡ desc.now.channels }
    requires ready { IsReadyFor desc.now ready }
    ensures links { length result.0.items ≡ length links.items }
    ensures staged { IsStagedBy desc.now (record {
      before = map (told L.received L.ended L.failed_in) links.items;
      now = map (told L.received L.ended L.failed_in) result.0.items;
    }) result.1 }
    ensures out { SendAsBefore (out_words L.sent L.finished L.failed_out) links.items result.0.items }
{
    let Ready {
        fans,
        mut streams,
        channels,
        heard,
        taken,
    } = ready;
    let mut channels = hire_channels(alloc, expected_of(desc), links, fans, channels);
    work_all(rt, desc, beat, &mut channels, &mut streams);
    let AllHeard { links, ends, fans } = dismiss_channels(channels, heard);
    let taken = dismiss_streams(streams, taken);
    let answer = judge(alloc, desc, ends.as_slice(), fans, taken);
    (links, answer)
}
