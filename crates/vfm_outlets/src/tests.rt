//! The worked move over one channel and over two. Its records are written from the format by hand, and the digests of its
//! channels come from another program.

ghost use Rattle.std.specs.Prelude.{◌≡◌, ◌≤◌, length, IfOk};
ghost use Rattle.vfm_types.specs.Valid.{IsValid};
ghost use Rattle.vfm_record.specs.Writing.{IsWritable};

use super::*;
use std::alloc::Global;
use std::test::Fail;
use vfm_outside::{Link, ScriptLink};
use vfm_packet::seal;
use vfm_record::Rec;
use vfm_types::{Bars, Desc, DevShape, Flags, Jobs, Name, Queue, Shapes};

// The digests of the one channel of the move, in version 1 and in version 2, and of its two channels in version 1.
const ONE: [u8; 32] = [
    0x0a, 0x9c, 0xaa, 0x4e, 0x64, 0x99, 0xd3, 0x24, 0x68, 0x05, 0x10, 0xe8, 0x29, 0x5e, 0x72, 0x08,
    0x62, 0x10, 0xa6, 0x12, 0xa9, 0x34, 0x1f, 0x65, 0xda, 0x8e, 0x64, 0x78, 0xad, 0x3b, 0x22, 0xa2,
];

const ONE_SEALED: [u8; 32] = [
    0xf7, 0xd3, 0x5e, 0x62, 0xb7, 0xb6, 0xff, 0x6e, 0x2b, 0x1b, 0x38, 0x7d, 0xc7, 0x3a, 0x62, 0x45,
    0x7e, 0x2e, 0x27, 0xb4, 0x00, 0x30, 0x21, 0xf5, 0xf4, 0x87, 0x47, 0x79, 0xdd, 0xbe, 0xda, 0x73,
];

const FIRST: [u8; 32] = [
    0xea, 0x28, 0x5d, 0x99, 0x05, 0xac, 0x13, 0xe9, 0x2e, 0x4b, 0x4f, 0xb7, 0xc8, 0x54, 0x20, 0xc0,
    0x12, 0xee, 0x84, 0x3c, 0xe0, 0xe8, 0x32, 0x1d, 0x8c, 0x90, 0x23, 0x94, 0x8d, 0xad, 0x48, 0xf3,
];

const SECOND: [u8; 32] = [
    0xf8, 0x14, 0xd7, 0x61, 0xcb, 0x45, 0xf0, 0x72, 0x39, 0x32, 0x11, 0xc1, 0xe8, 0x4e, 0xf0, 0xfe,
    0xcd, 0xcb, 0xde, 0x20, 0xa8, 0xcb, 0xc1, 0x5d, 0x41, 0xa0, 0xf1, 0x4b, 0x8d, 0xe4, 0xa2, 0x63,
];

// the digests of the shapes of both streams
static MEMORY: [u8; 32] = [
    94, 148, 244, 223, 86, 188, 237, 150, 179, 131, 232, 236, 237, 83, 131, 21, 250, 55, 153, 193,
    124, 243, 135, 10, 52, 150, 161, 63, 188, 188, 251, 88,
];

static DEVICE: [u8; 32] = [
    98, 188, 233, 173, 230, 99, 232, 37, 98, 140, 190, 119, 124, 130, 244, 69, 182, 52, 21, 139,
    157, 226, 229, 195, 22, 23, 231, 92, 174, 202, 87, 239,
];

static PAGE_1: [u8; 16] = [0, 0, 1, 2, 3, 4, 0, 0, 0, 0, 0, 0, 0, 0, 0, 0];

// a description with so many channels and of this version; nothing else of it plays a part
fn description(alloc: Global, channels: u32, version: u16) -> Result<Desc, Fail>
    ensures { IfOk result (λ desc. IsValid desc) }
{
    let name = Name::of(b"d").ok_or("no name")?;
    let flags = Flags::of(1).ok_or("no flags")?;
    let bars = Bars::of(&[64]).ok_or("no BARs")?;
    let device = DevShape {
        name,
        flags,
        bars,
        window: 1,
        tells: true,
        budget: 1,
        fails: 0,
        jobs: Jobs::of(Vec::new(alloc)),
        queue: Queue::of(Vec::new(alloc)),
    };
    let desc = Desc {
        session: 7,
        page: 16,
        pages: 2,
        channels,
        version,
        begin: 0,
        rounds: 0,
        threshold: 0,
        devices: Shapes::of(vec![in alloc; device]?),
    };
    if !desc.is_in_range() {
        return Err(Fail::from("out of range"));
    }
    Ok(Desc::new(desc).ok().ok_or("not valid")?)
}

// the channels of that description over links in memory with this room, of which those with these numbers fail at once
fn outlets(
    alloc: Global,
    desc: &Desc,
    room: usize,
    failing: &[u32],
) -> Result<Outlets<ScriptLink>, Fail>
    requires { IsValid desc.now }
{
    let mut links = Vec::with_capacity(alloc, 8)?;
    for k in 0..desc.channels {
        let fail = if failing.contains(&k) {
            [0u32, 1, 2].to_vec(alloc)?
        } else {
            Vec::new(alloc)
        };
        let link = ScriptLink::of(alloc, Vec::new(alloc), room, fail, 100);
        links.push(link.ok().ok_or("no memory")?)?;
    }
    if links.len() != desc.channels as usize {
        return Err(Fail::from("another number of links"));
    }
    match Outlets::of(alloc, desc, links) {
        Ok(outlets) => Ok(outlets),
        Err((_, _)) => Err(Fail::from("no memory")),
    }
}

// puts a record; whether there was memory, and an index for it
fn put(outlets: &mut Outlets<ScriptLink>, stream: u32, rec: &Rec) -> bool
    requires stream { stream ≤ 8 }
    requires writable { IsWritable rec.now }
{
    outlets.next_index(stream) < u32::MAX && outlets.put(stream, rec).is_ok()
}

// puts the records of memory that the passes give
fn put_pages(outlets: &mut Outlets<ScriptLink>) -> bool {
    let first = Rec::Page {
        p: 0,
        bytes: &[0; 16],
    };
    let second = Rec::Page {
        p: 1,
        bytes: &PAGE_1,
    };
    put(outlets, 0, &first) && put(outlets, 0, &second)
}

// puts the records of the device
fn put_device(outlets: &mut Outlets<ScriptLink>) -> bool {
    let engine = Rec::Engine {
        accepted: 1,
        done: 1,
        lost: 0,
        pend: 0,
        buf: &[0; 64],
    };
    put(outlets, 1, &engine) && put(outlets, 1, &Rec::Config { digest: &DEVICE })
}

// puts the records of the move in their order
fn put_move(outlets: &mut Outlets<ScriptLink>) -> bool {
    let block = Rec::Block {
        b: 0,
        bytes: &[0; 64],
    };
    put_pages(outlets)
        && put(outlets, 1, &block)
        && put(outlets, 0, &Rec::Config { digest: &MEMORY })
        && put_device(outlets)
}

// the SHA-256 of a channel that begins with a header, which is made as a seal is
fn digest_of(channel: &[u8]) -> Option<[u8; 32]> {
    if channel.len() < 40 {
        return None;
    }
    let mut first = [0; 40];
    first.copy_from_slice(&channel[..40]);
    Some(seal(&first, &channel[40..]))
}

#[test]
fn the_move_over_one_channel(rt: HostRuntime) -> Result<(), Fail> {
    let alloc = rt.alloc();
    for (version, size, digest) in [(1, 538, ONE), (2, 762, ONE_SEALED)] {
        let desc = description(alloc, 1, version)?;
        let mut outlets = outlets(alloc, &desc, 1000, &[])?;
        assert!(rt; put_move(&mut outlets));
        assert_eq!(rt; outlets.send_all(), None);
        assert_eq!(rt; outlets.end(false), None);
        let links = outlets.into_links();
        assert_eq!(rt; links.len(), 1);
        for link in &links {
            assert!(rt; link.has_finished());
            assert_eq!(rt; link.sent().len(), size);
            assert_eq!(rt; digest_of(link.sent()), Some(digest));
        }
    }
    Ok(())
}

#[test]
fn the_move_over_two_channels(rt: HostRuntime) -> Result<(), Fail> {
    let alloc = rt.alloc();
    let desc = description(alloc, 2, 1)?;
    let mut outlets = outlets(alloc, &desc, 1000, &[])?;
    assert!(rt; put_move(&mut outlets));
    // what waits is sent by the end of the channels, too
    assert_eq!(rt; outlets.end(false), None);
    let mut links = outlets.into_links();
    let second = links.pop().ok_or("no second link")?;
    let first = links.pop().ok_or("no first link")?;
    assert_eq!(rt; first.sent().len(), 295);
    assert_eq!(rt; digest_of(first.sent()), Some(FIRST));
    assert_eq!(rt; second.sent().len(), 283);
    assert_eq!(rt; digest_of(second.sent()), Some(SECOND));
    Ok(())
}

#[test]
fn a_failing_channel_is_silent(rt: HostRuntime) -> Result<(), Fail> {
    let alloc = rt.alloc();
    let desc = description(alloc, 3, 1)?;
    let mut outlets = outlets(alloc, &desc, 1000, &[1])?;
    assert!(rt; put_move(&mut outlets));
    assert_eq!(rt; outlets.send_all(), Some(1));
    // the others go on, and are told that the source gave up
    assert_eq!(rt; outlets.end(true), Some(1));
    let mut links = outlets.into_links();
    let third = links.pop().ok_or("no third link")?;
    let second = links.pop().ok_or("no second link")?;
    let first = links.pop().ok_or("no first link")?;
    assert_eq!(rt; second.sent().len(), 0);
    assert!(rt; !second.has_finished());
    assert!(rt; first.has_finished());
    assert!(rt; third.has_finished());
    assert!(rt; first.sent().len() > 40 && third.sent().len() > 40);
    Ok(())
}
