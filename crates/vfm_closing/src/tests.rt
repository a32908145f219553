//! Channels that are closed. Their digests come from another program, which wrote each channel from the format.

ghost use Rattle.std.specs.Prelude.{◌≡◌, ◌+◌, ◌≤◌, ℕ, true, IfOk};
ghost use Rattle.vfm_types.specs.Valid.{IsValid};
ghost use Rattle.vfm_plain.specs.Shape.{IsSound};
ghost use Rattle.vfm_record.specs.Writing.{IsWritable};
ghost use Rattle.vfm_closing.specs.Closing.{HasRoom};

use super::*;
use std::alloc::Global;
use std::test::Fail;
use vfm_outlets::Outlets;
use vfm_outside::{Link, ScriptLink};
use vfm_packet::seal;
use vfm_plain::{Plain, sound_machines_can_lose};
use vfm_record::Rec;
use vfm_types::{Bars, Bytes64, Desc, DevShape, DeviceId, Flags, Job, Jobs, Name, Queue, Shapes};

// The digests of the one channel of the worked move, in version 1 and in version 2, and of its two channels in version 1.
const ONE: [u8; 32] = [
    0x0a, 0x9c, 0xaa, 0x4e, 0x64, 0x99, 0xd3, 0x24, 0x68, 0x05, 0x10, 0xe8, 0x29, 0x5e, 0x72, 0x08,
    0x62, 0x10, 0xa6, 0x12, 0xa9, 0x34, 0x1f, 0x65, 0xda, 0x8e, 0x64, 0x78, 0xad, 0x3b, 0x22, 0xa2,
];

const ONE_SEALED: [u8; 32] = [
    0xf7, 0xd3, 0x5e, 0x62, 0xb7, 0xb6, 0xff, 0x6e, 0x2b, 0x1b, 0x38, 0x7d, 0xc7, 0x3a, 0x62, 0x45,
    0x7e, 0x2e, 0x27, 0xb4, 0x00, 0x30, 0x21, 0xf5, 0xf4, 0x87, 0x47, 0x79, 0xdd, 0xbe, 0xda, 0x73,
];

const FIRST: [u8; 32] = [
    0xea, 0x28, 0x5d, 0x99, 0x05, 0xac, 0x13, 0xe9, 0x2e, 0x4b, 0x4f, 0xb7, 0xc8, 0x54, 0x20, 0xc0,
    0x12, 0xee, 0x84, 0x3c, 0xe0, 0xe8, 0x32, 0x1d, 0x8c, 0x90, 0x23, 0x94, 0x8d, 0xad, 0x48, 0xf3,
];

const SECOND: [u8; 32] = [
    0xf8, 0x14, 0xd7, 0x61, 0xcb, 0x45, 0xf0, 0x72, 0x39, 0x32, 0x11, 0xc1, 0xe8, 0x4e, 0xf0, 0xfe,
    0xcd, 0xcb, 0xde, 0x20, 0xa8, 0xcb, 0xc1, 0x5d, 0x41, 0xa0, 0xf1, 0x4b, 0x8d, 0xe4, 0xa2, 0x63,
];

// the digest of the channel of a device with 4,097 pending requests
const MANY: [u8; 32] = [
    0x97, 0x2a, 0x68, 0xc7, 0x78, 0xfc, 0xc7, 0xec, 0x6e, 0xf7, 0x33, 0xcd, 0x07, 0xf6, 0x5c, 0xb0,
    0x97, 0x40, 0xec, 0xc9, 0x0f, 0x2d, 0x38, 0x57, 0x08, 0xdd, 0x22, 0x86, 0x39, 0xc9, 0xd3, 0x9d,
];

// the digests of the two channels of two devices, of which the first has two BARs and a pending request
const BARS_FIRST: [u8; 32] = [
    0xb0, 0x40, 0xa2, 0xf4, 0x20, 0x6b, 0x0d, 0x5a, 0xe2, 0x5a, 0x4b, 0x5d, 0x5a, 0x51, 0x4a, 0x85,
    0x34, 0xb7, 0x0b, 0x62, 0x18, 0xfe, 0x4d, 0x01, 0x20, 0xf3, 0x30, 0x32, 0x76, 0x55, 0x81, 0x32,
];

const BARS_SECOND: [u8; 32] = [
    0x5c, 0x03, 0xcc, 0xe7, 0x44, 0x13, 0xed, 0xbd, 0x07, 0xf8, 0x34, 0x27, 0x1f, 0x5f, 0x26, 0x50,
    0x32, 0xe1, 0x8a, 0xa1, 0x35, 0xd2, 0x2c, 0xd3, 0xc0, 0x4f, 0xa2, 0xec, 0x3a, 0xd9, 0xf5, 0xfb,
];

static PAGE_1: [u8; 16] = [0, 0, 1, 2, 3, 4, 0, 0, 0, 0, 0, 0, 0, 0, 0, 0];

// a device with one BAR, whose job writes 1, 2, 3, 4 at address 18, and which is asked for it so often
fn device(alloc: Global, name: &[u8], requests: u32) -> Result<DevShape, Fail> {
    let bytes = Bytes64::of(&[1, 2, 3, 4]).ok_or("no bytes")?;
    let jobs = Jobs::of(vec![in alloc; Job::Write { at: 18, bytes }]?);
    let mut queue = Vec::new(alloc);
    for _i in 0..requests {
        queue.push(0u32)?;
    }
    if queue.len() > 50_000 {
        return Err(Fail::from("too many requests"));
    }
    Ok(DevShape {
        name: Name::of(name).ok_or("no name")?,
        flags: Flags::of(1).ok_or("no flags")?,
        bars: Bars::of(&[64]).ok_or("no BARs")?,
        window: 1,
        tells: true,
        budget: requests,
        fails: 0,
        jobs,
        queue: Queue::of(queue),
    })
}

// a description of these devices, with so many channels and of this version
fn description(
    alloc: Global,
    channels: u32,
    version: u16,
    devices: Vec<DevShape>,
) -> Result<Desc, Fail>
    ensures valid { IfOk result IsValid }
{
    if devices.len() > 8 {
        return Err(Fail::from("too many devices"));
    }
    let desc = Desc {
        session: 7,
        page: 16,
        pages: 2,
        channels,
        version,
        begin: 0,
        rounds: 0,
        threshold: 0,
        devices: Shapes::of(devices),
    };
    if !desc.is_in_range() {
        return Err(Fail::from("out of range"));
    }
    Ok(Desc::new(desc).ok().ok_or("not valid")?)
}

// the channels of that description over these links, with nothing put
fn outlets_over<L: Link>(alloc: Global, desc: &Desc, links: Vec<L>) -> Result<Outlets<L>, Fail>
    requires valid { IsValid desc.now }
    ensures room { IfOk result (HasRoom L.sent 124) }
{
    if links.len() != desc.channels as usize {
        return Err(Fail::from("another number of links"));
    }
    match Outlets::of(alloc, desc, links) {
        Ok(outlets) => Ok(outlets),
        Err((_, _)) => Err(Fail::from("no memory")),
    }
}

// so many links in memory, each with room for 40,000 bytes
fn links_of(alloc: Global, count: u32) -> Result<Vec<ScriptLink>, Fail> {
    let mut links = Vec::with_capacity(alloc, 8)?;
    for _k in 0..count {
        let link = ScriptLink::of(alloc, Vec::new(alloc), 40_000, Vec::new(alloc), 100);
        links.push(link.ok().ok_or("no memory")?)?;
    }
    Ok(links)
}

// puts a record for which there is room; whether there was memory
fn put<L: Link>(outlets: &mut Outlets<L>, stream: u32, rec: &Rec) -> bool
    requires stream { stream ≤ 8 }
    requires writable { IsWritable rec.now }
    requires room { HasRoom L.sent 1 outlets.old }
    ensures room { (n : ℕ) → HasRoom L.sent (n + 1) outlets.old → result ≡ true → HasRoom L.sent n outlets.new }
{
    outlets.put(stream, rec).is_ok()
}

// puts the pages and the block that the worked move sends before its streams are closed
fn put_passes<L: Link>(outlets: &mut Outlets<L>) -> bool
    requires room { HasRoom L.sent 124 outlets.old }
    ensures room { result ≡ true → HasRoom L.sent 121 outlets.new }
{
    let first = Rec::Page {
        p: 0,
        bytes: &[0; 16],
    };
    let second = Rec::Page {
        p: 1,
        bytes: &PAGE_1,
    };
    let block = Rec::Block {
        b: 0,
        bytes: &[0; 64],
    };
    put(outlets, 0, &first) && put(outlets, 0, &second) && put(outlets, 1, &block)
}

// the machine of the worked move at the joint stop: it has done its one request
fn joint_of(alloc: Global, desc: &Desc) -> Result<Plain, Fail>
    requires valid { IsValid desc.now }
    ensures sound { IfOk result (IsSound desc.now) }
{
    sound_machines_can_lose();
    let mut joint = Plain::of(alloc, desc)?;
    if desc.devices.len() == 0 || joint.apply(desc, DeviceId(0), 0).is_err() {
        return Err(Fail::from("no request"));
    }
    Ok(joint)
}

// the channels of the worked move, closed
fn moved(alloc: Global, channels: u32, version: u16) -> Result<Vec<ScriptLink>, Fail> {
    let devices = vec![in alloc; device(alloc, b"a", 1)?]?;
    let desc = description(alloc, channels, version, devices)?;
    let joint = joint_of(alloc, &desc)?;
    let mut outlets = outlets_over(alloc, &desc, links_of(alloc, channels)?)?;
    if !put_passes(&mut outlets) || put_closed(&desc, &joint, &mut outlets).is_err() {
        return Err(Fail::from("no memory"));
    }
    match outlets.end(false) {
        None => Ok(outlets.into_links()),
        Some(_) => Err(Fail::from("a link failed")),
    }
}

// the SHA-256 of a channel that begins with a header, which is made as a seal is
fn digest_of(channel: &[u8]) -> Option<[u8; 32]> {
    if channel.len() < 40 {
        return None;
    }
    let mut first = [0; 40];
    first.copy_from_slice(&channel[..40]);
    Some(seal(&first, &channel[40..]))
}

#[test]
fn the_move_over_one_channel(rt: HostRuntime) -> Result<(), Fail> {
    let alloc = rt.alloc();
    for (version, size, digest) in [(1, 538, ONE), (2, 762, ONE_SEALED)] {
        let links = moved(alloc, 1, version)?;
        assert_eq!(rt; links.len(), 1);
        for link in &links {
            assert_eq!(rt; link.sent().len(), size);
            assert_eq!(rt; digest_of(link.sent()), Some(digest));
        }
    }
    Ok(())
}

#[test]
fn the_move_over_two_channels(rt: HostRuntime) -> Result<(), Fail> {
    let alloc = rt.alloc();
    let mut links = moved(alloc, 2, 1)?;
    let second = links.pop().ok_or("no second link")?;
    let first = links.pop().ok_or("no first link")?;
    assert_eq!(rt; first.sent().len(), 295);
    assert_eq!(rt; digest_of(first.sent()), Some(FIRST));
    assert_eq!(rt; second.sent().len(), 283);
    assert_eq!(rt; digest_of(second.sent()), Some(SECOND));
    Ok(())
}

#[test]
fn a_record_of_4096_requests_and_one_of_one(rt: HostRuntime) -> Result<(), Fail> {
    let alloc = rt.alloc();
    let devices = vec![in alloc; device(alloc, b"a", 4097)?]?;
    let desc = description(alloc, 1, 1, devices)?;
    let joint = Plain::of(alloc, &desc)?;
    let mut outlets = outlets_over(alloc, &desc, links_of(alloc, 1)?)?;
    assert!(rt; put_closed(&desc, &joint, &mut outlets).is_ok());
    // memory's digest, the counts, 4,096 requests, one request, and the digest
    assert_eq!(rt; outlets.next_index(0), 1);
    assert_eq!(rt; outlets.next_index(1), 4);
    assert_eq!(rt; outlets.end(false), None);
    let links = outlets.into_links();
    let link = links.first().ok_or("no link")?;
    assert_eq!(rt; link.sent().len(), 33_169);
    assert_eq!(rt; digest_of(link.sent()), Some(MANY));
    Ok(())
}

#[test]
fn several_bars_and_devices(rt: HostRuntime) -> Result<(), Fail> {
    let alloc = rt.alloc();
    let mut first = device(alloc, b"a", 1)?;
    first.flags = Flags::of(7).ok_or("no flags")?;
    first.bars = Bars::of(&[64, 128]).ok_or("no BARs")?;
    first.window = 2;
    first.budget = 2;
    let mut second = device(alloc, b"b", 0)?;
    second.flags = Flags::of(7).ok_or("no flags")?;
    second.jobs = Jobs::of(Vec::new(alloc));
    let mut devices = Vec::new(alloc);
    devices.push(first)?;
    devices.push(second)?;
    let desc = description(alloc, 2, 1, devices)?;
    let joint = Plain::of(alloc, &desc)?;
    let mut outlets = outlets_over(alloc, &desc, links_of(alloc, 2)?)?;
    assert!(rt; put_closed(&desc, &joint, &mut outlets).is_ok());
    assert_eq!(rt; outlets.end(false), None);
    let mut links = outlets.into_links();
    let second = links.pop().ok_or("no second link")?;
    let first = links.pop().ok_or("no first link")?;
    assert_eq!(rt; first.sent().len(), 285);
    assert_eq!(rt; digest_of(first.sent()), Some(BARS_FIRST));
    assert_eq!(rt; second.sent().len(), 307);
    assert_eq!(rt; digest_of(second.sent()), Some(BARS_SECOND));
    Ok(())
}

// Where memory runs out the channel has a prefix of what it would have, and then says that the source gave up. Which
// allocation fails is said by the one who runs the test.
#[test]
fn a_prefix_where_memory_runs_out(rt: HostRuntime) -> Result<(), Fail> {
    let alloc = rt.alloc();
    let devices = vec![in alloc; device(alloc, b"a", 4097)?]?;
    let desc = description(alloc, 1, 1, devices)?;
    let joint = Plain::of(alloc, &desc)?;
    let mut outlets = outlets_over(alloc, &desc, links_of(alloc, 1)?)?;
    let closed = put_closed(&desc, &joint, &mut outlets).is_ok();
    assert_eq!(rt; outlets.end(!closed), None);
    let links = outlets.into_links();
    let sent = links.first().ok_or("no link")?.sent();
    let mut again = outlets_over(alloc, &desc, links_of(alloc, 1)?)?;
    if put_closed(&desc, &joint, &mut again).is_err() {
        return Err(Fail::from("no memory again"));
    }
    assert_eq!(rt; again.end(false), None);
    let links = again.into_links();
    let whole = links.first().ok_or("no link")?.sent();
    assert_eq!(rt; digest_of(whole), Some(MANY));
    assert!(rt; 40 <= sent.len() && sent.len() <= whole.len());
    assert_eq!(rt; sent[..sent.len() - 40], whole[..sent.len() - 40]);
    assert_eq!(rt; closed, sent.len() == whole.len());
    Ok(())
}
