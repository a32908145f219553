//! The offer of a machine with a doorbell: one device writes into the BAR of the other, and rings it. What is expected was
//! computed by another program from the rules of the model and of the format, and is the same in whatever order the
//! devices make their steps of a round.

ghost use Rattle.std.specs.Prelude.{◌≡◌, ◌<◌, IfOk, length};
ghost use Rattle.vfm_source.specs.declared.phase.Phase.TheVariants.{Fresh};

use crate::tests::{arc, digest_of, joint_of};
use crate::{Mover, Phase};
use std::alloc::Global;
use std::process::Abort;
use std::test::Fail;
use vfm_core::Core;
use vfm_outside::ScriptLink;
use vfm_plain::Plain;
use vfm_types::{
    Bars, Bytes64, Desc, DevShape, DeviceId, Entry, Flags, Job, Jobs, MigState, Name, Queue, Shapes,
};

// The device that rings, and the one that is rung.
const NIC: DeviceId = DeviceId(0);

const GPU: DeviceId = DeviceId(1);

// The digest of the machine once all three requests were done, and those of its two channels.
const STATE: [u8; 32] = [
    0x35, 0x73, 0x0d, 0x0d, 0x4e, 0x42, 0x08, 0xd9, 0x06, 0xae, 0xdf, 0xaf, 0x5c, 0xeb, 0x9a, 0x76,
    0xac, 0xe9, 0x79, 0xba, 0xd9, 0x64, 0x4e, 0x29, 0xfb, 0x9a, 0x8c, 0x47, 0xbb, 0x39, 0xfe, 0xf8,
];

const FIRST: [u8; 32] = [
    0xcc, 0x44, 0x16, 0x67, 0x57, 0x51, 0xd4, 0x2e, 0x4b, 0xfc, 0x1b, 0x7e, 0x5c, 0x25, 0x25, 0x26,
    0xd0, 0xca, 0xf0, 0xf4, 0x50, 0x5e, 0x6c, 0xab, 0xf7, 0x9c, 0x40, 0xc7, 0x6f, 0x3d, 0xb3, 0xf0,
];

const SECOND: [u8; 32] = [
    0x22, 0xea, 0xc9, 0xa1, 0x0f, 0xee, 0xbb, 0x6f, 0x93, 0x3f, 0xe9, 0xcc, 0x01, 0x64, 0xc0, 0x61,
    0xea, 0x9b, 0x1d, 0x3c, 0x0a, 0x91, 0xaf, 0xd9, 0xca, 0xed, 0x10, 0x6d, 0x4d, 0xc3, 0x9a, 0x95,
];

// A device with a BAR of 4,096 bytes and these jobs, of which so many stand in its queue.
fn device(
    alloc: Global,
    name: &[u8],
    budget: u32,
    jobs: Vec<Job>,
    queued: u32,
) -> Result<DevShape, Fail> {
    let mut queue = Vec::new(alloc);
    for job in 0..queued {
        queue.push(job)?;
    }
    if jobs.len() > 4096 || queue.len() > 50_000 {
        return Err("too many jobs".into());
    }
    Ok(DevShape {
        name: Name::of(name).ok_or("no name")?,
        flags: Flags::of(7).ok_or("no flags")?,
        bars: Bars::of(&[4096]).ok_or("no bars")?,
        window: 2,
        tells: true,
        budget,
        fails: 0,
        jobs: Jobs::of(jobs),
        queue: Queue::of(queue),
    })
}

// The device that writes four bytes into block 1 of the other's BAR, and rings it for its job 0.
fn nic(alloc: Global) -> Result<DevShape, Fail> {
    let bytes = Bytes64::of(&[0xa1, 0xa2, 0xa3, 0xa4]).ok_or("no bytes")?;
    let bell = Bytes64::of(&[0, 0, 0, 0, 0, 0, 0, 0]).ok_or("no bytes")?;
    let jobs = vec![in alloc;
        Job::Write {
            at: 268_959_808,
            bytes
        },
        Job::Write {
            at: 268_959_744,
            bytes: bell
        },
    ]?;
    device(alloc, b"nic", 2, jobs, 2)
}

// The device that adds 5 to a number at the beginning of page 2.
fn gpu(alloc: Global) -> Result<DevShape, Fail> {
    let jobs = vec![in alloc; Job::Add { at: 8192, value: 5 }]?;
    device(alloc, b"gpu", 1, jobs, 0)
}

// A source with both, 64 pages, and two channels.
fn pair(rt: &impl Abort, alloc: Global) -> Result<Mover, Fail>
    ensures { IfOk result (λ mover. mover.phase ≡ Fresh) }
{
    let devices = vec![in alloc; nic(alloc)?, gpu(alloc)?]?;
    let desc = Desc {
        session: 7,
        page: 4096,
        pages: 64,
        channels: 2,
        version: 1,
        begin: 1,
        rounds: 2,
        threshold: 4,
        devices: Shapes::of(devices),
    };
    assert!(rt; desc.is_in_range());
    let mover = Mover::of(alloc, Desc::new(desc)?)?;
    Ok(mover)
}

// A link that sends at most 1,000 bytes at once.
fn link(alloc: Global) -> Result<ScriptLink, Fail> {
    Ok(ScriptLink::of(alloc, Vec::new(alloc), 150_000, Vec::new(alloc), 1000)?)
}

// The offer of that source over its two links, which have what was sent.
#[derive(Drop)]
struct Offered {
    mover: Mover,
    first: ScriptLink,
    second: ScriptLink,
    result: Option<[u8; 32]>,
}

fn make_offer(rt: &impl Abort, alloc: Global) -> Result<Offered, Fail> {
    let mut mover = pair(rt, alloc)?;
    let links = vec![in alloc; link(alloc)?, link(alloc)?]?;
    if links.len() != mover.core().desc().channels as usize {
        return Err(Fail::from("another number of links"));
    }
    let (mut links, result) = mover.offer(alloc, links, 0);
    let second = links.pop().ok_or("no second link")?;
    let first = links.pop().ok_or("no first link")?;
    Ok(Offered {
        mover,
        first,
        second,
        result: result.ok(),
    })
}

// Whether a device is in this state, and issued and completed so many requests, and no other is left.
fn has_done(core: &Core, d: DeviceId, state: MigState, requests: u32) -> bool
    requires { d < 8 }
{
    let look = core.look();
    let device = look.devices[d.0 as usize];
    device.state == state
        && device.issued == requests
        && device.completes == requests
        && device.unissued == 0
}

#[test]
fn a_rung_device_is_moved(rt: HostRuntime) -> Result<(), Fail> {
    let alloc = rt.alloc();
    let Offered {
        mover,
        first,
        second,
        result,
    } = make_offer(&rt, alloc)?;
    assert!(rt; result == Some(STATE));
    assert_eq!(rt; mover.phase(), Phase::Offered);
    assert!(rt; has_done(mover.core(), NIC, MigState::StopCopy, 2));
    assert!(rt; has_done(mover.core(), GPU, MigState::StopCopy, 1));
    // the rung page is copied twice, and each other part once
    assert_eq!(rt; mover.core().journal().len(), 225);
    assert_eq!(rt; mover.core().look().passes, 3);
    assert_eq!(rt; first.sent().len(), 143_863);
    assert_eq!(rt; second.sent().len(), 139_795);
    assert_eq!(rt; digest_of(first.sent()), Some(FIRST));
    assert_eq!(rt; digest_of(second.sent()), Some(SECOND));
    assert!(rt; first.has_finished() && second.has_finished());
    Ok(())
}

// Whether a device has these counts (accepted, done, lost) at the joint stop, and no pending request.
fn has_counts(joint: &Plain, d: DeviceId, counts: (u32, u32, u32)) -> bool
    requires { d < length joint.now.devices }
{
    joint.counts(d) == counts && joint.pending(d).is_empty()
}

// Whether these bytes stand at a place of a region.
fn has_at(region: &[u8], at: usize, bytes: &[u8]) -> bool {
    at <= region.len() && bytes.len() <= region.len() - at && &region[at..at + bytes.len()] == bytes
}

#[test]
fn what_was_rung_for_stands_at_the_joint_stop(rt: HostRuntime) -> Result<(), Fail> {
    let alloc = rt.alloc();
    let Offered { mover, .. } = make_offer(&rt, alloc)?;
    let joint = joint_of(&mover, 64, 2).ok_or("no joint state")?;
    assert!(rt; has_at(joint.page(2), 0, &[5, 0, 0, 0, 0, 0, 0, 0]));
    assert!(rt; has_at(joint.bar(GPU), 64, &[0xa1, 0xa2, 0xa3, 0xa4]));
    assert!(rt; has_counts(joint, NIC, (2, 2, 0)));
    assert!(rt; has_counts(joint, GPU, (1, 1, 0)));
    Ok(())
}

#[test]
fn a_rung_device_goes_home(rt: HostRuntime) -> Result<(), Fail> {
    let alloc = rt.alloc();
    let Offered { mut mover, .. } = make_offer(&rt, alloc)?;
    assert_eq!(rt; mover.phase(), Phase::Offered);
    mover.give_up();
    assert!(rt; has_done(mover.core(), NIC, MigState::Running, 2));
    assert!(rt; has_done(mover.core(), GPU, MigState::Running, 1));
    let entries = mover.core().journal().as_slice();
    assert_eq!(rt; entries.len(), 232);
    let home = [
        Entry::Abort,
        arc(NIC, MigState::Stop),
        arc(NIC, MigState::RunningP2p),
        arc(GPU, MigState::Stop),
        arc(GPU, MigState::RunningP2p),
        arc(NIC, MigState::Running),
        arc(GPU, MigState::Running),
    ];
    assert!(rt; &entries[225..] == home.as_slice());
    Ok(())
}
