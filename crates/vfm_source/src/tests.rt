//! Offers of small machines over links in memory. The bytes of their channels are known by digests that another program made
//! of the format.

ghost use Rattle.std.specs.Prelude.{◌≡◌, ◌≢◌, IfOk, IfSome, length};
ghost use Rattle.vfm_types.specs.Valid.{IsValid};
ghost use Rattle.vfm_source.specs.declared.phase.Phase.TheVariants.{Fresh, Gone, GivenUp};

use crate::{Mover, OfferFault, Phase};
use std::alloc::Global;
use std::process::Abort;
use std::test::Fail;
use vfm_core::Core;
use vfm_outside::ScriptLink;
use vfm_packet::seal;
use vfm_plain::Plain;
use vfm_types::{
    Bars, Bytes64, Desc, DevShape, DeviceId, Entry, Flags, Job, Jobs, MigState, Name, Queue, Shapes,
};

// The devices.
const A: DeviceId = DeviceId(0);

const B: DeviceId = DeviceId(1);

const C: DeviceId = DeviceId(2);

/// The digest of the written machine.
pub const STATE: [u8; 32] = [
    0x39, 0x2e, 0xaa, 0x8d, 0x26, 0x6f, 0xc7, 0xca, 0xde, 0xc8, 0xb4, 0xa0, 0x0e, 0x64, 0x8b, 0xdf,
    0xca, 0xf5, 0xb2, 0xea, 0x22, 0xc7, 0xc7, 0xd8, 0xf2, 0x0c, 0x24, 0xaf, 0x1e, 0xba, 0x1d, 0xc6,
];

// Those of its channels: of the one that it has, of its two, and of one that is given up after the first pass.
const ONE: [u8; 32] = [
    0x0a, 0x9c, 0xaa, 0x4e, 0x64, 0x99, 0xd3, 0x24, 0x68, 0x05, 0x10, 0xe8, 0x29, 0x5e, 0x72, 0x08,
    0x62, 0x10, 0xa6, 0x12, 0xa9, 0x34, 0x1f, 0x65, 0xda, 0x8e, 0x64, 0x78, 0xad, 0x3b, 0x22, 0xa2,
];

const FIRST: [u8; 32] = [
    0xea, 0x28, 0x5d, 0x99, 0x05, 0xac, 0x13, 0xe9, 0x2e, 0x4b, 0x4f, 0xb7, 0xc8, 0x54, 0x20, 0xc0,
    0x12, 0xee, 0x84, 0x3c, 0xe0, 0xe8, 0x32, 0x1d, 0x8c, 0x90, 0x23, 0x94, 0x8d, 0xad, 0x48, 0xf3,
];

const SECOND: [u8; 32] = [
    0xf8, 0x14, 0xd7, 0x61, 0xcb, 0x45, 0xf0, 0x72, 0x39, 0x32, 0x11, 0xc1, 0xe8, 0x4e, 0xf0, 0xfe,
    0xcd, 0xcb, 0xde, 0x20, 0xa8, 0xcb, 0xc1, 0x5d, 0x41, 0xa0, 0xf1, 0x4b, 0x8d, 0xe4, 0xa2, 0x63,
];

const GIVEN_UP: [u8; 32] = [
    0xf3, 0x3f, 0x38, 0xfb, 0x54, 0xc3, 0xb5, 0x12, 0x9c, 0x08, 0x8a, 0xc5, 0x7f, 0xbe, 0x53, 0xdc,
    0x62, 0xbb, 0x97, 0xc4, 0x82, 0xff, 0x94, 0x97, 0x2b, 0x47, 0x11, 0x39, 0xa0, 0xab, 0x6c, 0xe2,
];

// ---- machines

/// What a move is limited by.
#[derive(Clone, Copy)]
pub struct Limits {
    pub channels: u32,
    pub begin: u32,
    pub rounds: u32,
    pub fails: u32,
}

/// Those of the written machine.
pub const WRITTEN: Limits = Limits {
    channels: 1,
    begin: 99,
    rounds: 0,
    fails: 0,
};

// A device with a BAR of 64 bytes and these jobs, of which each stands in its queue.
fn device(
    alloc: Global,
    name: &[u8],
    flags: u8,
    fails: u32,
    jobs: Vec<Job>,
) -> Result<DevShape, Fail> {
    if jobs.len() > 4096 {
        return Err("too many jobs".into());
    }
    let requests = jobs.len() as u32;
    let mut queue = Vec::new(alloc);
    for number in 0..requests {
        queue.push(number)?;
    }
    if queue.len() > 50_000 {
        return Err("too long a queue".into());
    }
    Ok(DevShape {
        name: Name::of(name).ok_or("no name")?,
        flags: Flags::of(flags).ok_or("no flags")?,
        bars: Bars::of(&[64]).ok_or("no bars")?,
        window: 1,
        tells: true,
        budget: requests,
        fails,
        jobs: Jobs::of(jobs),
        queue: Queue::of(queue),
    })
}

// A machine of these devices, with pages of 16 bytes.
fn machine(
    rt: &impl Abort,
    limits: Limits,
    pages: u32,
    devices: Vec<DevShape>,
) -> Result<Desc, Fail>
    ensures { IfOk result IsValid }
{
    assert!(rt; devices.len() <= 8);
    let desc = Desc {
        session: 7,
        page: 16,
        pages,
        channels: limits.channels,
        version: 1,
        begin: limits.begin,
        rounds: limits.rounds,
        threshold: 0,
        devices: Shapes::of(devices),
    };
    assert!(rt; desc.is_in_range());
    Ok(Desc::new(desc)?)
}

/// The machine with one device whose one request writes 1, 2, 3, 4 into the second of two pages.
pub fn written(rt: &impl Abort, alloc: Global, limits: Limits) -> Result<Mover, Fail>
    ensures { IfOk result (λ mover. mover.phase ≡ Fresh) }
{
    let bytes = Bytes64::of(&[1, 2, 3, 4]).ok_or("no bytes")?;
    let jobs = vec![in alloc; Job::Write { at: 18, bytes }]?;
    let a = device(alloc, b"a", 1, limits.fails, jobs)?;
    let desc = machine(rt, limits, 2, vec![in alloc; a]?)?;
    let mover = Mover::of(alloc, desc)?;
    Ok(mover)
}

// The machine of one page with a device that has PRE_COPY and nothing to do.
fn quiet(rt: &impl Abort, alloc: Global, limits: Limits) -> Result<Mover, Fail>
    ensures { IfOk result (λ mover. mover.phase ≡ Fresh) }
{
    let a = device(alloc, b"a", 7, 0, Vec::new(alloc))?;
    let desc = machine(rt, limits, 1, vec![in alloc; a]?)?;
    let mover = Mover::of(alloc, desc)?;
    Ok(mover)
}

// The machine of one page with three devices that have nothing to do, of which the second fails an arc.
fn three(rt: &impl Abort, alloc: Global, limits: Limits) -> Result<Mover, Fail>
    ensures { IfOk result (λ mover. mover.phase ≡ Fresh) }
{
    let a = device(alloc, b"a", 7, 0, Vec::new(alloc))?;
    let b = device(alloc, b"b", 7, limits.fails, Vec::new(alloc))?;
    let c = device(alloc, b"c", 7, 0, Vec::new(alloc))?;
    let desc = machine(rt, limits, 1, vec![in alloc; a, b, c]?)?;
    let mover = Mover::of(alloc, desc)?;
    Ok(mover)
}

// ---- links

// A link that sends at most 20 bytes at once, and whose call `fail` fails, if it is one.
fn link(alloc: Global, fail: Option<u32>) -> Result<ScriptLink, Fail> {
    let mut failing = Vec::new(alloc);
    if let Some(call) = fail {
        failing.push(call)?;
    }
    Ok(ScriptLink::of(alloc, Vec::new(alloc), 2000, failing, 20)?)
}

// As many links as the source has channels, of which number `k` fails so.
fn links(alloc: Global, channels: u32, k: u32, fail: Option<u32>) -> Result<Vec<ScriptLink>, Fail> {
    let mut links = Vec::new(alloc);
    for channel in 0..channels {
        let fail = if channel == k { fail } else { None };
        links.push(link(alloc, fail)?)?;
    }
    Ok(links)
}

/// What came of an offer.
#[derive(Drop)]
pub struct Offered {
    pub links: Vec<ScriptLink>,
    pub result: Result<[u8; 32], OfferFault>,
}

/// An offer over links of which number `k` fails so.
pub fn offer(
    mover: &mut Mover,
    alloc: Global,
    k: u32,
    fail: Option<u32>,
    abort_after: u32,
) -> Result<Offered, Fail>
    requires { mover.old.phase ≡ Fresh }
    ensures before_go { IfOk result (λ _. mover.new.phase ≢ Gone) }
    ensures once { IfOk result (λ _. mover.new.phase ≢ GivenUp) }
{
    let channels = mover.core().desc().channels;
    let links = links(alloc, channels, k, fail)?;
    if links.len() != channels as usize {
        return Err(Fail::from("another number of links"));
    }
    let (links, result) = mover.offer(alloc, links, abort_after);
    match mover.phase() {
        Phase::Offered | Phase::Failed => Ok(Offered { links, result }),
        _ => Err(Fail::from("another phase")),
    }
}

/// The joint state of a source whose machine has so many pages and devices.
pub fn joint_of(mover: &Mover, pages: u32, devices: u32) -> Option<&Plain>
    ensures pages { IfSome result (λ joint. length joint.now.pages ≡ pages) }
    ensures devices { IfSome result (λ joint. length joint.now.devices ≡ devices) }
{
    let desc = mover.core().desc();
    if desc.pages != pages || desc.devices.len() != devices {
        return None;
    }
    mover.joint()
}

/// The SHA-256 of a channel that begins with a header, which is made as a seal is.
pub fn digest_of(channel: &[u8]) -> Option<[u8; 32]> {
    if channel.len() < 40 {
        return None;
    }
    let mut first = [0; 40];
    first.copy_from_slice(&channel[..40]);
    Some(seal(&first, &channel[40..]))
}

// ---- journals

fn hold(d: DeviceId, to: MigState) -> Entry {
    Entry::Hold { d, to }
}

/// The entry by which a device makes an arc.
pub fn arc(d: DeviceId, to: MigState) -> Entry {
    Entry::Arc { d, to }
}

// The entries of the written machine up to the joint stop and its last pass.
fn whole_move() -> [Entry; 11] {
    [
        Entry::Issue { d: A, n: 0 },
        Entry::Deliver { d: A, n: 0 },
        Entry::Complete { d: A, n: 0 },
        Entry::Begin,
        hold(A, MigState::Stop),
        arc(A, MigState::Stop),
        arc(A, MigState::StopCopy),
        Entry::Joint,
        Entry::Pass { k: 1 },
        Entry::Copy { p: 0 },
        Entry::Copy { p: 1 },
    ]
}

// Whether the journal is this list and then that one.
fn has_made(core: &Core, first: &[Entry], then: &[Entry]) -> bool {
    let all = core.journal().as_slice();
    all.len() == first.len() + then.len()
        && &all[..first.len()] == first
        && &all[first.len()..] == then
}

#[test]
fn a_source_gives_up_before_it_offers(rt: HostRuntime) -> Result<(), Fail> {
    let alloc = rt.alloc();
    let mut mover = written(&rt, alloc, WRITTEN)?;
    assert_eq!(rt; mover.phase(), Phase::Fresh);
    assert!(rt; mover.core().journal().len() == 0);
    assert!(rt; mover.joint().is_none());
    mover.give_up();
    assert_eq!(rt; mover.phase(), Phase::GivenUp);
    // its request is done at home
    let made = [
        Entry::Abort,
        Entry::Issue { d: A, n: 0 },
        Entry::Deliver { d: A, n: 0 },
        Entry::Complete { d: A, n: 0 },
    ];
    assert!(rt; has_made(mover.core(), &made, &[]));
    Ok(())
}

#[test]
fn the_written_machine_is_offered(rt: HostRuntime) -> Result<(), Fail> {
    let alloc = rt.alloc();
    let mut mover = written(&rt, alloc, WRITTEN)?;
    let Offered { mut links, result } = offer(&mut mover, alloc, 0, None, 0)?;
    assert!(rt; result == Ok(STATE));
    assert_eq!(rt; mover.phase(), Phase::Offered);
    assert!(rt; has_made(mover.core(), &whole_move(), &[Entry::Block { d: A, b: 0 }]));
    let link = links.pop().ok_or("no link")?;
    assert!(rt; link.has_finished());
    assert_eq!(rt; link.sent().len(), 538);
    assert_eq!(rt; digest_of(link.sent()), Some(ONE));
    Ok(())
}

#[test]
fn a_source_keeps_the_joint_state(rt: HostRuntime) -> Result<(), Fail> {
    let alloc = rt.alloc();
    let mut mover = written(&rt, alloc, WRITTEN)?;
    assert!(rt; joint_of(&mover, 2, 1).is_none());
    offer(&mut mover, alloc, 0, None, 0)?;
    let joint = joint_of(&mover, 2, 1).ok_or("no joint state")?;
    let page = [0, 0, 1, 2, 3, 4, 0, 0, 0, 0, 0, 0, 0, 0, 0, 0];
    assert!(rt; joint.page(1) == page.as_slice());
    Ok(())
}

#[test]
fn two_channels_share_what_is_sent(rt: HostRuntime) -> Result<(), Fail> {
    let alloc = rt.alloc();
    let limits = Limits {
        channels: 2,
        ..WRITTEN
    };
    let mut mover = written(&rt, alloc, limits)?;
    let Offered { mut links, result } = offer(&mut mover, alloc, 0, None, 0)?;
    assert!(rt; result == Ok(STATE));
    let second = links.pop().ok_or("no second link")?;
    let first = links.pop().ok_or("no first link")?;
    assert_eq!(rt; first.sent().len(), 295);
    assert_eq!(rt; digest_of(first.sent()), Some(FIRST));
    assert_eq!(rt; second.sent().len(), 283);
    assert_eq!(rt; digest_of(second.sent()), Some(SECOND));
    assert!(rt; first.has_finished() && second.has_finished());
    Ok(())
}

#[test]
fn a_source_is_to_give_up_after_a_pass(rt: HostRuntime) -> Result<(), Fail> {
    let alloc = rt.alloc();
    let mut mover = written(&rt, alloc, WRITTEN)?;
    let Offered { mut links, result } = offer(&mut mover, alloc, 0, None, 1)?;
    assert!(rt; result == Err(OfferFault::Aborted { pass: 1 }));
    assert_eq!(rt; mover.phase(), Phase::Failed);
    let link = links.pop().ok_or("no link")?;
    assert!(rt; link.has_finished());
    assert_eq!(rt; link.sent().len(), 271);
    assert_eq!(rt; digest_of(link.sent()), Some(GIVEN_UP));
    mover.give_up();
    let home = [
        Entry::Block { d: A, b: 0 },
        Entry::Abort,
        arc(A, MigState::Stop),
        arc(A, MigState::Running),
    ];
    assert!(rt; has_made(mover.core(), &whole_move(), &home));
    Ok(())
}

#[test]
fn a_device_is_read_before_the_stop(rt: HostRuntime) -> Result<(), Fail> {
    let alloc = rt.alloc();
    let limits = Limits {
        begin: 0,
        rounds: 1,
        ..WRITTEN
    };
    let mut mover = quiet(&rt, alloc, limits)?;
    let Offered { result, .. } = offer(&mut mover, alloc, 0, None, 0)?;
    assert!(rt; result.is_ok());
    let before = [
        Entry::Begin,
        arc(A, MigState::PreCopy),
        Entry::Pass { k: 1 },
        Entry::Copy { p: 0 },
        Entry::Block { d: A, b: 0 },
        hold(A, MigState::PreCopyP2p),
        arc(A, MigState::PreCopyP2p),
        hold(A, MigState::StopCopy),
        arc(A, MigState::StopCopy),
    ];
    let after = [
        Entry::Joint,
        Entry::Report { d: A },
        Entry::Pass { k: 2 },
        Entry::Dry { d: A },
    ];
    assert!(rt; has_made(mover.core(), &before, &after));
    Ok(())
}

// The entries of the written machine up to its first arc.
fn up_to_hold() -> [Entry; 5] {
    [
        Entry::Issue { d: A, n: 0 },
        Entry::Deliver { d: A, n: 0 },
        Entry::Complete { d: A, n: 0 },
        Entry::Begin,
        hold(A, MigState::Stop),
    ]
}

#[test]
fn the_first_arc_fails(rt: HostRuntime) -> Result<(), Fail> {
    let alloc = rt.alloc();
    let limits = Limits {
        fails: 1,
        ..WRITTEN
    };
    let mut mover = written(&rt, alloc, limits)?;
    let Offered { mut links, result } = offer(&mut mover, alloc, 0, None, 0)?;
    let to = MigState::Stop;
    assert!(rt; result == Err(OfferFault::ArcFailed { d: A, to }));
    assert!(rt; mover.joint().is_none());
    let link = links.pop().ok_or("no link")?;
    assert!(rt; link.has_finished());
    assert_eq!(rt; link.sent().len(), 40);
    mover.give_up();
    let home = [Entry::Fail { d: A, to }, Entry::Abort];
    assert!(rt; has_made(mover.core(), &up_to_hold(), &home));
    Ok(())
}

#[test]
fn the_second_arc_fails(rt: HostRuntime) -> Result<(), Fail> {
    let alloc = rt.alloc();
    let limits = Limits {
        fails: 2,
        ..WRITTEN
    };
    let mut mover = written(&rt, alloc, limits)?;
    let Offered { result, .. } = offer(&mut mover, alloc, 0, None, 0)?;
    let to = MigState::StopCopy;
    assert!(rt; result == Err(OfferFault::ArcFailed { d: A, to }));
    mover.give_up();
    let home = [
        arc(A, MigState::Stop),
        Entry::Fail { d: A, to },
        Entry::Abort,
        arc(A, MigState::Running),
    ];
    assert!(rt; has_made(mover.core(), &up_to_hold(), &home));
    Ok(())
}

#[test]
fn there_is_no_third_arc_to_fail(rt: HostRuntime) -> Result<(), Fail> {
    let alloc = rt.alloc();
    let limits = Limits {
        fails: 3,
        ..WRITTEN
    };
    let mut mover = written(&rt, alloc, limits)?;
    let Offered { result, .. } = offer(&mut mover, alloc, 0, None, 0)?;
    assert!(rt; result == Ok(STATE));
    Ok(())
}

#[test]
fn one_of_three_devices_fails_an_arc(rt: HostRuntime) -> Result<(), Fail> {
    let alloc = rt.alloc();
    let limits = Limits {
        fails: 2,
        ..WRITTEN
    };
    let mut mover = three(&rt, alloc, limits)?;
    let Offered { result, .. } = offer(&mut mover, alloc, 0, None, 0)?;
    let to = MigState::Stop;
    assert!(rt; result == Err(OfferFault::ArcFailed { d: B, to }));
    let entries = mover.core().journal().as_slice();
    assert!(rt; entries.contains(&arc(B, MigState::RunningP2p)));
    assert!(rt; entries.contains(&Entry::Fail { d: B, to }));
    mover.give_up();
    let look = mover.core().look();
    assert!(rt;
        look.devices
            .iter()
            .all(|device| device.state == MigState::Running)
    );
    Ok(())
}

// How many calls of a link of the written machine's channels there are: of its one, and of each of its two.
const CALLS: [u32; 2] = [31, 17];

// Whether an offer whose link `k` of so many fails at this call ends as it should, and the machine goes on then.
fn ends_well(
    rt: &impl Abort,
    alloc: Global,
    channels: u32,
    k: u32,
    call: u32,
) -> Result<bool, Fail> {
    let limits = Limits {
        channels,
        ..WRITTEN
    };
    let mut mover = written(rt, alloc, limits)?;
    let Offered { links, result } = offer(&mut mover, alloc, k, Some(call), 0)?;
    let calls = if channels == 1 { CALLS[0] } else { CALLS[1] };
    if call >= calls {
        return Ok(result == Ok(STATE));
    }
    let told = result == Err(OfferFault::Link { channel: k });
    let mut channel = 0;
    let mut finished = true;
    for link in &links {
        finished = finished && link.has_finished() == (channel != k);
        channel = if channel < 8 { channel + 1 } else { 0 };
    }
    mover.give_up();
    let look = mover.core().look();
    Ok(
        told && finished
            && look.devices[0].state == MigState::Running
            && look.devices[0].completes == 1,
    )
}

#[test]
fn a_link_may_fail_at_each_call(rt: HostRuntime) -> Result<(), Fail> {
    let alloc = rt.alloc();
    for call in 0..40 {
        assert!(rt; ends_well(&rt, alloc, 1, 0, call)?);
        assert!(rt; ends_well(&rt, alloc, 2, 0, call)?);
        assert!(rt; ends_well(&rt, alloc, 2, 1, call)?);
    }
    Ok(())
}
