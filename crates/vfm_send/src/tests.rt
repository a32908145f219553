//! What no clause says: that the calls succeed with ample memory, and the worked move over links in memory and over rings.
//! Its packets are written from the format by hand, and the digests of its channels come from another program.

ghost use Rattle.std.specs.Prelude.{◌≡◌, ◌<◌, ◌≤◌};
ghost use Rattle.vfm_packet.specs.Header.{IsVersion};

use super::*;
use std::alloc::Global;
use std::test::Fail;
use vfm_outside::{Ends, Link, RingLink, RingWires, ScriptLink, Wires};
use vfm_packet::{Header, Kind, seal};
use vfm_types::{LinkFault, NoMemory};

static PAGE_0: [u8; 21] = [
    1, 0, 0, 0, 0, 0, 0, 0, 0, 0, 0, 0, 0, 0, 0, 0, 0, 0, 0, 0, 0,
];

static PAGE_1: [u8; 21] = [
    1, 0, 0, 0, 1, 0, 0, 1, 2, 3, 4, 0, 0, 0, 0, 0, 0, 0, 0, 0, 0,
];

static BLOCK_0: [u8; 69] = [
    2, 0, 0, 0, 0, 0, 0, 0, 0, 0, 0, 0, 0, 0, 0, 0, 0, 0, 0, 0, 0, 0, 0, 0, 0, 0, 0, 0, 0, 0, 0, 0,
    0, 0, 0, 0, 0, 0, 0, 0, 0, 0, 0, 0, 0, 0, 0, 0, 0, 0, 0, 0, 0, 0, 0, 0, 0, 0, 0, 0, 0, 0, 0, 0,
    0, 0, 0, 0, 0,
];

static MEMORY: [u8; 33] = [
    5, 94, 148, 244, 223, 86, 188, 237, 150, 179, 131, 232, 236, 237, 83, 131, 21, 250, 55, 153,
    193, 124, 243, 135, 10, 52, 150, 161, 63, 188, 188, 251, 88,
];

static ENGINE: [u8; 81] = [
    3, 0, 0, 0, 1, 0, 0, 0, 1, 0, 0, 0, 0, 0, 0, 0, 0, 0, 0, 0, 0, 0, 0, 0, 0, 0, 0, 0, 0, 0, 0, 0,
    0, 0, 0, 0, 0, 0, 0, 0, 0, 0, 0, 0, 0, 0, 0, 0, 0, 0, 0, 0, 0, 0, 0, 0, 0, 0, 0, 0, 0, 0, 0, 0,
    0, 0, 0, 0, 0, 0, 0, 0, 0, 0, 0, 0, 0, 0, 0, 0, 0,
];

static DEVICE: [u8; 33] = [
    5, 98, 188, 233, 173, 230, 99, 232, 37, 98, 140, 190, 119, 124, 130, 244, 69, 182, 52, 21, 139,
    157, 226, 229, 195, 22, 23, 231, 92, 174, 202, 87, 239,
];

// The digests of the one channel of the move, in version 1 and in version 2, and of its two channels in version 1.
const ONE: [u8; 32] = [
    0x0a, 0x9c, 0xaa, 0x4e, 0x64, 0x99, 0xd3, 0x24, 0x68, 0x05, 0x10, 0xe8, 0x29, 0x5e, 0x72, 0x08,
    0x62, 0x10, 0xa6, 0x12, 0xa9, 0x34, 0x1f, 0x65, 0xda, 0x8e, 0x64, 0x78, 0xad, 0x3b, 0x22, 0xa2,
];

const ONE_SEALED: [u8; 32] = [
    0xf7, 0xd3, 0x5e, 0x62, 0xb7, 0xb6, 0xff, 0x6e, 0x2b, 0x1b, 0x38, 0x7d, 0xc7, 0x3a, 0x62, 0x45,
    0x7e, 0x2e, 0x27, 0xb4, 0x00, 0x30, 0x21, 0xf5, 0xf4, 0x87, 0x47, 0x79, 0xdd, 0xbe, 0xda, 0x73,
];

const FIRST: [u8; 32] = [
    0xea, 0x28, 0x5d, 0x99, 0x05, 0xac, 0x13, 0xe9, 0x2e, 0x4b, 0x4f, 0xb7, 0xc8, 0x54, 0x20, 0xc0,
    0x12, 0xee, 0x84, 0x3c, 0xe0, 0xe8, 0x32, 0x1d, 0x8c, 0x90, 0x23, 0x94, 0x8d, 0xad, 0x48, 0xf3,
];

const SECOND: [u8; 32] = [
    0xf8, 0x14, 0xd7, 0x61, 0xcb, 0x45, 0xf0, 0x72, 0x39, 0x32, 0x11, 0xc1, 0xe8, 0x4e, 0xf0, 0xfe,
    0xcd, 0xcb, 0xde, 0x20, 0xa8, 0xcb, 0xc1, 0x5d, 0x41, 0xa0, 0xf1, 0x4b, 0x8d, 0xe4, 0xa2, 0x63,
];

// The digest of the packet of page 0 and an abort packet.
const ABORTED: [u8; 32] = [
    0x47, 0x6a, 0x12, 0x6f, 0x37, 0x84, 0xde, 0x91, 0x6b, 0x68, 0x6c, 0x8c, 0x6b, 0xde, 0xc9, 0x8d,
    0x7c, 0xce, 0xf5, 0x79, 0xc7, 0x59, 0xe1, 0xe7, 0x30, 0xeb, 0x31, 0x55, 0x30, 0x6b, 0x4c, 0x6b,
];

// The header of a packet of the move.
fn head(version: u16, kind: Kind, stream: u32, index: u32, length: u32) -> Header
    ensures { result ≡ record { version = version; kind = kind; session = 7; stream = stream; index = index; length = length } }
{
    Header {
        version,
        kind,
        session: 7,
        stream,
        index,
        length,
    }
}

// Puts those packets of the move that go over this channel of so many.
fn put_share<L: Link>(
    sender: &mut Sender<L>,
    version: u16,
    channel: u32,
    channels: u32,
) -> Result<(), NoMemory>
    requires version { IsVersion version }
    requires channels { 0 < channels }
{
    if lane(0, 0, channels) == channel {
        sender.put(&head(version, Kind::Data, 0, 0, 21), &PAGE_0)?;
    }
    if lane(0, 1, channels) == channel {
        sender.put(&head(version, Kind::Data, 0, 1, 21), &PAGE_1)?;
    }
    if lane(1, 0, channels) == channel {
        sender.put(&head(version, Kind::Data, 1, 0, 69), &BLOCK_0)?;
    }
    if lane(0, 2, channels) == channel {
        sender.put(&head(version, Kind::Config, 0, 2, 33), &MEMORY)?;
    }
    if lane(1, 1, channels) == channel {
        sender.put(&head(version, Kind::Data, 1, 1, 81), &ENGINE)?;
    }
    if lane(1, 2, channels) == channel {
        sender.put(&head(version, Kind::Config, 1, 2, 33), &DEVICE)?;
    }
    Ok(())
}

// The SHA-256 of a channel that begins with a header, which is made as a seal is.
fn digest_of(channel: &[u8]) -> Option<[u8; 32]> {
    if channel.len() < 40 {
        return None;
    }
    let mut first = [0; 40];
    first.copy_from_slice(&channel[..40]);
    Some(seal(&first, &channel[40..]))
}

// A link in memory with room for so many bytes, which fails at these calls.
fn script(alloc: Global, room: usize, fail: &[u32]) -> Result<ScriptLink, Fail> {
    let fail = fail.to_vec(alloc)?;
    let link = ScriptLink::of(alloc, Vec::new(alloc), room, fail, 100);
    Ok(link.ok().ok_or("no memory")?)
}

// The two ends of a channel over rings of so many slots, which wait for nothing.
fn ring_pair(alloc: Global, slots: usize) -> Result<(RingLink, RingLink), Fail>
    requires { 0 < slots }
{
    let mut wires = RingWires::of(alloc, slots, 0, Vec::new(alloc));
    let Ends {
        source_control: _,
        mut source,
        dest_control: _,
        mut dest,
    } = wires.connect(1).ok().ok_or("no memory")?;
    let near = source.pop().ok_or("no source")?;
    let far = dest.pop().ok_or("no destination")?;
    Ok((near, far))
}

// What comes over a link until its end, or until it fails.
fn receive_all<L: Link>(alloc: Global, link: &mut L) -> Result<Vec<u8>, NoMemory> {
    let mut came = Vec::new(alloc);
    let mut buf = [0u8; 1000];
    for _ in 0..10_000 {
        match link.recv(&mut buf) {
            Ok(n) if n > 0 => came.extend_from_slice(&buf[..n])?,
            _ => return Ok(came),
        }
    }
    Ok(came)
}

#[test]
fn the_move_over_one_link_in_memory(rt: HostRuntime) -> Result<(), Fail> {
    let alloc = rt.alloc();
    for (version, size, digest) in [(1, 538, ONE), (2, 762, ONE_SEALED)] {
        let mut sender = Sender::of(alloc, script(alloc, 1000, &[])?);
        assert_eq!(rt; put_share(&mut sender, version, 0, 1), Ok(()));
        assert_eq!(rt; sender.send_all(), Ok(()));
        assert_eq!(rt; sender.end(false, 7, version), Ok(()));
        assert!(rt; !sender.has_failed());
        let link = sender.into_link();
        assert!(rt; link.has_finished());
        assert_eq!(rt; link.sent().len(), size);
        assert_eq!(rt; digest_of(link.sent()), Some(digest));
    }
    Ok(())
}

#[test]
fn the_move_over_two_links(rt: HostRuntime) -> Result<(), Fail> {
    let alloc = rt.alloc();
    for (channel, size, digest) in [(0, 295, FIRST), (1, 283, SECOND)] {
        let mut sender = Sender::of(alloc, script(alloc, 1000, &[])?);
        assert_eq!(rt; put_share(&mut sender, 1, channel, 2), Ok(()));
        // what waits is sent by the end of the channel, too
        assert_eq!(rt; sender.end(false, 7, 1), Ok(()));
        let link = sender.into_link();
        assert_eq!(rt; link.sent().len(), size);
        assert_eq!(rt; digest_of(link.sent()), Some(digest));
    }
    Ok(())
}

#[test]
fn the_move_over_a_ring_pair(rt: HostRuntime) -> Result<(), Fail> {
    let alloc = rt.alloc();
    for (version, size, digest) in [(1, 538, ONE), (2, 762, ONE_SEALED)] {
        let (near, mut far) = ring_pair(alloc, 8)?;
        let mut sender = Sender::of(alloc, near);
        assert_eq!(rt; put_share(&mut sender, version, 0, 1), Ok(()));
        assert_eq!(rt; sender.send_all(), Ok(()));
        assert_eq!(rt; sender.end(false, 7, version), Ok(()));
        let came = receive_all(alloc, &mut far).ok().ok_or("no memory")?;
        assert!(rt; far.has_ended());
        assert_eq!(rt; came.len(), size);
        assert_eq!(rt; digest_of(came.as_slice()), Some(digest));
    }
    Ok(())
}

#[test]
fn a_sender_that_gives_up(rt: HostRuntime) -> Result<(), Fail> {
    let alloc = rt.alloc();
    let mut sender = Sender::of(alloc, script(alloc, 1000, &[])?);
    assert_eq!(rt; sender.put(&head(1, Kind::Data, 0, 0, 21), &PAGE_0), Ok(()));
    assert_eq!(rt; sender.end(true, 7, 1), Ok(()));
    let link = sender.into_link();
    assert_eq!(rt; link.sent().len(), 101);
    assert_eq!(rt; digest_of(link.sent()), Some(ABORTED));
    Ok(())
}

#[test]
fn a_fault_makes_the_sender_silent(rt: HostRuntime) -> Result<(), Fail> {
    let alloc = rt.alloc();
    // the first packet goes in one call, the second one's first call fails
    let mut sender = Sender::of(alloc, script(alloc, 1000, &[1])?);
    assert_eq!(rt; sender.put(&head(1, Kind::Data, 0, 0, 21), &PAGE_0), Ok(()));
    assert_eq!(rt; sender.send_all(), Ok(()));
    assert_eq!(rt; sender.put(&head(1, Kind::Data, 0, 1, 21), &PAGE_1), Ok(()));
    assert_eq!(rt; sender.send_all(), Err(LinkFault));
    assert!(rt; sender.has_failed());
    assert_eq!(rt;
        sender.put(&head(1, Kind::Data, 1, 0, 69), &BLOCK_0),
        Ok(())
    );
    assert_eq!(rt; sender.send_all(), Err(LinkFault));
    assert_eq!(rt; sender.end(false, 7, 1), Err(LinkFault));
    let link = sender.into_link();
    assert_eq!(rt; link.sent().len(), 61);
    assert_eq!(rt; link.faults(), 1);
    assert!(rt; !link.has_finished());
    Ok(())
}

#[test]
fn a_link_that_cannot_be_finished(rt: HostRuntime) -> Result<(), Fail> {
    let alloc = rt.alloc();
    let mut sender = Sender::of(alloc, script(alloc, 1000, &[1])?);
    assert_eq!(rt; sender.end(false, 7, 2), Err(LinkFault));
    let link = sender.into_link();
    assert_eq!(rt; link.sent().len(), 72);
    assert!(rt; !link.has_finished());
    Ok(())
}

// Sends a packet of so many bytes of payload through a ring of one slot, which nobody empties. Says whether all went, how
// often the link failed, and how many bytes came.
fn through_one_slot(alloc: Global, length: u32) -> Result<(bool, u64, usize), Fail>
    requires some { 0 < length }
    requires most { length ≤ 65536 }
{
    let payload = vec![in alloc; 7u8; length as usize]?;
    let (near, mut far) = ring_pair(alloc, 1)?;
    let mut sender = Sender::of(alloc, near);
    let header = head(1, Kind::Data, 0, 0, length);
    sender
        .put(&header, payload.as_slice())
        .ok()
        .ok_or("no memory")?;
    let all = sender.send_all().is_ok();
    let still = sender.send_all().is_ok();
    let near = sender.into_link();
    let came = receive_all(alloc, &mut far).ok().ok_or("no memory")?;
    Ok((all && still, near.failed_out(), came.len()))
}

#[test]
fn packets_through_a_ring_of_one_slot(rt: HostRuntime) -> Result<(), Fail> {
    for (length, all, faults, came) in [
        (1, true, 0, 41),
        (215, true, 0, 255),
        (216, true, 0, 256),
        (217, false, 1, 256),
        (65_536, false, 1, 256),
    ] {
        let (went, failed, got) = through_one_slot(rt.alloc(), length)?;
        assert_eq!(rt; went, all, "{length}");
        assert_eq!(rt; failed, faults, "{length}");
        assert_eq!(rt; got, came, "{length}");
    }
    Ok(())
}

#[test]
fn lanes_go_round(rt: HostRuntime) {
    for (stream, index, channels, want) in [
        (0, 0, 1, 0),
        (8, 3, 1, 0),
        (0, 1, 2, 1),
        (1, 1, 2, 0),
        (8, 7, 8, 7),
        // sums that pass 32 bits
        (u32::MAX, 1, 3, 1),
        (u32::MAX, u32::MAX, 7, 6),
    ] {
        assert_eq!(rt; lane(stream, index, channels), want, "{stream} {index}");
    }
}
