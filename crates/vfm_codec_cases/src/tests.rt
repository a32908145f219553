//! The worked move: two pages of 16 bytes and one device with one job, which has written four bytes at 18. The packets
//! are written out from the format by hand; the two digests and the seals come from another program.

ghost use Rattle.std.specs.Prelude.{◌≡◌, ◌<◌, ◌≤◌, IfOk};
ghost use Rattle.vfm_types.specs.Desc.{device_count};

use std::alloc::Global;
use std::test::Fail;
use vfm_packet::{Cause, Decoded, Expect, Header, Kind, decode};
use vfm_record::{Rec, put_end, put_record, read, records_are_payloads, shape_digest};
use vfm_types::{Bars, Bytes64, Desc, DevShape, Flags, Job, Jobs, Name, NoMemory, Queue, Shapes};

const EXPECT: Expect = Expect {
    version: 1,
    session: 7,
    streams: 2,
};

const EXPECT_SEALED: Expect = Expect {
    version: 2,
    session: 7,
    streams: 2,
};

// What the job wrote lies at 2 of page 1.
static WRITTEN: [u8; 16] = [0, 0, 1, 2, 3, 4, 0, 0, 0, 0, 0, 0, 0, 0, 0, 0];

static UNTOUCHED: [u8; 16] = [0; 16];

static ZEROS: [u8; 64] = [0; 64];

// PAGE_0 at 0
static PAGE_0: [u8; 61] = [
    0x56, 0x46, 0x4d, 0x44, 0, 1, 0, 1, 0, 0, 0, 0, 0, 0, 0, 7, 0, 0, 0, 0, 0, 0, 0, 0, 0, 0, 0,
    0x15, 0, 0, 0, 0, 0, 0, 0, 0, 0, 0, 0, 0, 1, 0, 0, 0, 0, 0, 0, 0, 0, 0, 0, 0, 0, 0, 0, 0, 0, 0,
    0, 0, 0,
];

// PAGE_1 at 61
static PAGE_1: [u8; 61] = [
    0x56, 0x46, 0x4d, 0x44, 0, 1, 0, 1, 0, 0, 0, 0, 0, 0, 0, 7, 0, 0, 0, 0, 0, 0, 0, 1, 0, 0, 0,
    0x15, 0, 0, 0, 0, 0, 0, 0, 0, 0, 0, 0, 0, 1, 0, 0, 0, 1, 0, 0, 1, 2, 3, 4, 0, 0, 0, 0, 0, 0, 0,
    0, 0, 0,
];

// BLOCK_0 at 122
static BLOCK_0: [u8; 109] = [
    0x56, 0x46, 0x4d, 0x44, 0, 1, 0, 1, 0, 0, 0, 0, 0, 0, 0, 7, 0, 0, 0, 1, 0, 0, 0, 0, 0, 0, 0,
    0x45, 0, 0, 0, 0, 0, 0, 0, 0, 0, 0, 0, 0, 2, 0, 0, 0, 0, 0, 0, 0, 0, 0, 0, 0, 0, 0, 0, 0, 0, 0,
    0, 0, 0, 0, 0, 0, 0, 0, 0, 0, 0, 0, 0, 0, 0, 0, 0, 0, 0, 0, 0, 0, 0, 0, 0, 0, 0, 0, 0, 0, 0, 0,
    0, 0, 0, 0, 0, 0, 0, 0, 0, 0, 0, 0, 0, 0, 0, 0, 0, 0, 0,
];

// MEMORY at 231
static MEMORY: [u8; 73] = [
    0x56, 0x46, 0x4d, 0x44, 0, 1, 0, 2, 0, 0, 0, 0, 0, 0, 0, 7, 0, 0, 0, 0, 0, 0, 0, 2, 0, 0, 0,
    0x21, 0, 0, 0, 0, 0, 0, 0, 0, 0, 0, 0, 0, 5, 0x5e, 0x94, 0xf4, 0xdf, 0x56, 0xbc, 0xed, 0x96,
    0xb3, 0x83, 0xe8, 0xec, 0xed, 0x53, 0x83, 0x15, 0xfa, 0x37, 0x99, 0xc1, 0x7c, 0xf3, 0x87, 0x0a,
    0x34, 0x96, 0xa1, 0x3f, 0xbc, 0xbc, 0xfb, 0x58,
];

// ENGINE at 304
static ENGINE: [u8; 121] = [
    0x56, 0x46, 0x4d, 0x44, 0, 1, 0, 1, 0, 0, 0, 0, 0, 0, 0, 7, 0, 0, 0, 1, 0, 0, 0, 1, 0, 0, 0,
    0x51, 0, 0, 0, 0, 0, 0, 0, 0, 0, 0, 0, 0, 3, 0, 0, 0, 1, 0, 0, 0, 1, 0, 0, 0, 0, 0, 0, 0, 0, 0,
    0, 0, 0, 0, 0, 0, 0, 0, 0, 0, 0, 0, 0, 0, 0, 0, 0, 0, 0, 0, 0, 0, 0, 0, 0, 0, 0, 0, 0, 0, 0, 0,
    0, 0, 0, 0, 0, 0, 0, 0, 0, 0, 0, 0, 0, 0, 0, 0, 0, 0, 0, 0, 0, 0, 0, 0, 0, 0, 0, 0, 0, 0, 0,
];

// DEVICE at 425
static DEVICE: [u8; 73] = [
    0x56, 0x46, 0x4d, 0x44, 0, 1, 0, 2, 0, 0, 0, 0, 0, 0, 0, 7, 0, 0, 0, 1, 0, 0, 0, 2, 0, 0, 0,
    0x21, 0, 0, 0, 0, 0, 0, 0, 0, 0, 0, 0, 0, 5, 0x62, 0xbc, 0xe9, 0xad, 0xe6, 0x63, 0xe8, 0x25,
    0x62, 0x8c, 0xbe, 0x77, 0x7c, 0x82, 0xf4, 0x45, 0xb6, 0x34, 0x15, 0x8b, 0x9d, 0xe2, 0xe5, 0xc3,
    0x16, 0x17, 0xe7, 0x5c, 0xae, 0xca, 0x57, 0xef,
];

// END at 498
static END: [u8; 40] = [
    0x56, 0x46, 0x4d, 0x44, 0, 1, 0, 3, 0, 0, 0, 0, 0, 0, 0, 7, 0, 0, 0, 0, 0, 0, 0, 0, 0, 0, 0, 0,
    0, 0, 0, 0, 0, 0, 0, 0, 0, 0, 0, 0,
];

// The SHA-256 of header and payload of each of these packets in version 2, in the order of the channel, from another
// program.
static SEALS: [[u8; 32]; 7] = [
    [
        0xae, 0x99, 0x5b, 0x19, 0xf5, 0xa6, 0x3b, 0x68, 0x85, 0xaf, 0xd1, 0x40, 0xf4, 0x47, 0x54,
        0x64, 0x41, 0x88, 0x27, 0x65, 0x3d, 0x6c, 0x40, 0xb2, 0x92, 0xd3, 0x72, 0x96, 0x23, 0xe5,
        0xcb, 0xee,
    ],
    [
        0xaa, 0x05, 0xeb, 0x45, 0x16, 0x14, 0xda, 0x7b, 0x44, 0x5c, 0x58, 0xd1, 0x23, 0x61, 0x52,
        0x74, 0xd8, 0x30, 0x1c, 0x95, 0xa1, 0x94, 0x03, 0x88, 0xd8, 0x7c, 0x94, 0x71, 0x69, 0x52,
        0xc1, 0xba,
    ],
    [
        0x4b, 0xea, 0x7a, 0xd4, 0xd4, 0x11, 0xee, 0x99, 0xe5, 0x5b, 0xd2, 0xea, 0xa2, 0x71, 0x1a,
        0x08, 0x4e, 0x05, 0x41, 0x56, 0x21, 0x1e, 0xb5, 0x11, 0x66, 0x60, 0xe9, 0x6d, 0x8e, 0x3b,
        0x18, 0x56,
    ],
    [
        0x1a, 0xd7, 0x13, 0x98, 0x2b, 0x39, 0x0e, 0x04, 0xbc, 0x68, 0xe3, 0xed, 0xbf, 0xa6, 0x57,
        0x00, 0x01, 0x43, 0x95, 0xb3, 0x9e, 0x1f, 0x9d, 0x88, 0x2b, 0x4e, 0x5e, 0xee, 0xd4, 0x4c,
        0x17, 0x75,
    ],
    [
        0x21, 0x7d, 0xcd, 0x19, 0x7a, 0x1d, 0xe9, 0x91, 0x83, 0x00, 0xf4, 0x9a, 0x74, 0x81, 0x41,
        0xc1, 0xe1, 0x1e, 0xb3, 0x36, 0xc3, 0xd6, 0xc6, 0xd0, 0x00, 0x43, 0xf6, 0xc8, 0xb6, 0x8e,
        0xef, 0xfe,
    ],
    [
        0x1b, 0xfc, 0xa6, 0x6c, 0x42, 0x6e, 0xb3, 0xf5, 0x49, 0xc0, 0x49, 0x10, 0xc3, 0xec, 0xd9,
        0x18, 0x49, 0xe5, 0x2d, 0x6c, 0xf2, 0xbc, 0x00, 0x9e, 0xf2, 0x5c, 0x05, 0x7c, 0x3f, 0xd3,
        0x4d, 0xa1,
    ],
    [
        0xe6, 0x17, 0xd7, 0xf5, 0x3f, 0xf6, 0x3b, 0x05, 0x83, 0x98, 0x3d, 0x29, 0x3b, 0x3b, 0x27,
        0x40, 0x02, 0x78, 0x78, 0x25, 0x6a, 0x82, 0xb6, 0x57, 0x2c, 0x2a, 0x7e, 0x1d, 0xfb, 0xe2,
        0x22, 0xae,
    ],
];

// The machine of the worked move.
fn machine(alloc: Global) -> Result<Desc, Fail>
    ensures { IfOk result (λ desc. device_count desc ≡ 1) }
{
    let bytes = Bytes64::of(&[1, 2, 3, 4]).ok_or("bytes")?;
    let jobs = vec![in alloc; Job::Write { at: 18, bytes }]?;
    let queue = vec![in alloc; 0]?;
    let shape = DevShape {
        name: Name::of(b"a").ok_or("name")?,
        flags: Flags::of(1).ok_or("flags")?,
        bars: Bars::of(&[64]).ok_or("bars")?,
        window: 1,
        tells: true,
        budget: 1,
        fails: 0,
        jobs: Jobs::of(jobs),
        queue: Queue::of(queue),
    };
    let shapes = vec![in alloc; shape]?;
    Ok(Desc {
        session: 7,
        page: 16,
        pages: 2,
        channels: 1,
        version: 1,
        begin: 99,
        rounds: 0,
        threshold: 0,
        devices: Shapes::of(shapes),
    })
}

// The header of a packet of the move, before its length is known.
fn head_of(version: u16, kind: Kind, stream: u32, index: u32) -> Header {
    Header {
        version,
        kind,
        session: 7,
        stream,
        index,
        length: 0,
    }
}

// Appends the packet of page `p`.
fn put_page(version: u16, p: u32, bytes: &[u8; 16], out: &mut Vec<u8>) -> Result<(), NoMemory>
    requires { p < 1024 }
{
    let head = head_of(version, Kind::Data, 0, p);
    put_record(&head, &Rec::Page { p, bytes }, out)
}

// Appends the packet of the device's one block.
fn put_block(version: u16, out: &mut Vec<u8>) -> Result<(), NoMemory> {
    let block = Rec::Block {
        b: 0,
        bytes: &ZEROS,
    };
    put_record(&head_of(version, Kind::Data, 1, 0), &block, out)
}

// Appends the packet of the device's counts and buffer.
fn put_engine(version: u16, out: &mut Vec<u8>) -> Result<(), NoMemory> {
    let engine = Rec::Engine {
        accepted: 1,
        done: 1,
        lost: 0,
        pend: 0,
        buf: &ZEROS,
    };
    put_record(&head_of(version, Kind::Data, 1, 1), &engine, out)
}

// Appends the packet that ends a stream: each has two others.
fn put_config(version: u16, desc: &Desc, stream: u32, out: &mut Vec<u8>) -> Result<(), NoMemory>
    requires { stream ≤ device_count desc.now }
{
    let digest = shape_digest(desc, stream);
    let config = Rec::Config { digest: &digest };
    put_record(&head_of(version, Kind::Config, stream, 2), &config, out)
}

// The one channel of the move.
fn only_channel(alloc: Global, version: u16, desc: &Desc) -> Result<Vec<u8>, NoMemory>
    requires { device_count desc.now ≡ 1 }
{
    let mut out = Vec::new(alloc);
    put_page(version, 0, &UNTOUCHED, &mut out)?;
    put_page(version, 1, &WRITTEN, &mut out)?;
    put_block(version, &mut out)?;
    put_config(version, desc, 0, &mut out)?;
    put_engine(version, &mut out)?;
    put_config(version, desc, 1, &mut out)?;
    put_end(version, 7, &mut out)?;
    Ok(out)
}

// The first of two channels: it carries the packets of which stream and index together are even.
fn first_channel(alloc: Global, desc: &Desc) -> Result<Vec<u8>, NoMemory>
    requires { device_count desc.now ≡ 1 }
{
    let mut out = Vec::new(alloc);
    put_page(1, 0, &UNTOUCHED, &mut out)?;
    put_config(1, desc, 0, &mut out)?;
    put_engine(1, &mut out)?;
    put_end(1, 7, &mut out)?;
    Ok(out)
}

// The second of two channels.
fn second_channel(alloc: Global, desc: &Desc) -> Result<Vec<u8>, NoMemory>
    requires { device_count desc.now ≡ 1 }
{
    let mut out = Vec::new(alloc);
    put_page(1, 1, &WRITTEN, &mut out)?;
    put_block(1, &mut out)?;
    put_config(1, desc, 1, &mut out)?;
    put_end(1, 7, &mut out)?;
    Ok(out)
}

// Whether a channel is these packets and nothing else.
fn is_made_of(channel: &[u8], packets: &[&[u8]]) -> bool {
    let mut rest = channel;
    for packet in packets {
        if packet.len() > rest.len() {
            return false;
        }
        let (first, after) = rest.split_at(packet.len());
        if first != *packet {
            return false;
        }
        rest = after;
    }
    rest.is_empty()
}

// Whether the packet at this place carries this record.
fn carries(desc: &Desc, channel: &[u8], place: usize, want: &Rec) -> bool {
    if place > channel.len() {
        return false;
    }
    let rest = &channel[place..];
    match decode(rest, &EXPECT) {
        Decoded::Packet { head, used } => {
            if used < 40 || used > rest.len() || used > 65_576 || head.stream > desc.devices.len() {
                return false;
            }
            read(desc, head.stream, &rest[40..used]) == Ok(*want)
        }
        _ => false,
    }
}

#[test]
fn one_channel(rt: HostRuntime) -> Result<(), Fail> {
    let desc = machine(rt.alloc())?;
    let out = only_channel(rt.alloc(), 1, &desc)?;
    let channel = out.as_slice();
    assert_eq!(rt; channel.len(), 538);
    assert!(rt;
        is_made_of(
            channel,
            &[&PAGE_0, &PAGE_1, &BLOCK_0, &MEMORY, &ENGINE, &DEVICE, &END]
        )
    );
    assert!(rt;
        carries(
            &desc,
            channel,
            0,
            &Rec::Page {
                p: 0,
                bytes: &UNTOUCHED
            }
        )
    );
    assert!(rt;
        carries(
            &desc,
            channel,
            61,
            &Rec::Page {
                p: 1,
                bytes: &WRITTEN
            }
        )
    );
    assert!(rt;
        carries(
            &desc,
            channel,
            122,
            &Rec::Block {
                b: 0,
                bytes: &ZEROS
            }
        )
    );
    Ok(())
}

#[test]
fn records_after_the_block(rt: HostRuntime) -> Result<(), Fail> {
    let desc = machine(rt.alloc())?;
    let out = only_channel(rt.alloc(), 1, &desc)?;
    let channel = out.as_slice();
    let memory = shape_digest(&desc, 0);
    let device = shape_digest(&desc, 1);
    let engine = Rec::Engine {
        accepted: 1,
        done: 1,
        lost: 0,
        pend: 0,
        buf: &ZEROS,
    };
    assert!(rt; carries(&desc, channel, 231, &Rec::Config { digest: &memory }));
    assert!(rt; carries(&desc, channel, 304, &engine));
    assert!(rt; carries(&desc, channel, 425, &Rec::Config { digest: &device }));
    Ok(())
}

#[test]
fn two_channels(rt: HostRuntime) -> Result<(), Fail> {
    let desc = machine(rt.alloc())?;
    let first = first_channel(rt.alloc(), &desc)?;
    assert_eq!(rt; first.len(), 295);
    assert!(rt; is_made_of(first.as_slice(), &[&PAGE_0, &MEMORY, &ENGINE, &END]));
    let second = second_channel(rt.alloc(), &desc)?;
    assert_eq!(rt; second.len(), 283);
    assert!(rt; is_made_of(second.as_slice(), &[&PAGE_1, &BLOCK_0, &DEVICE, &END]));
    Ok(())
}

// The packet in version 2, without its seal.
fn in_version_2<const N: usize>(packet: &[u8; N]) -> [u8; N] {
    let mut bytes = *packet;
    for (i, b) in bytes.iter_mut().enumerate() {
        if i == 5 {
            *b = 2;
        }
    }
    bytes
}

#[test]
fn one_sealed_channel(rt: HostRuntime) -> Result<(), Fail> {
    let desc = machine(rt.alloc())?;
    let out = only_channel(rt.alloc(), 2, &desc)?;
    assert_eq!(rt; out.len(), 762);
    let [page_0, page_1, block, memory, engine, device, end] = &SEALS;
    assert!(rt;
        is_made_of(
            out.as_slice(),
            &[
                &in_version_2(&PAGE_0),
                page_0,
                &in_version_2(&PAGE_1),
                page_1,
                &in_version_2(&BLOCK_0),
                block,
                &in_version_2(&MEMORY),
                memory,
                &in_version_2(&ENGINE),
                engine,
                &in_version_2(&DEVICE),
                device,
                &in_version_2(&END),
                end
            ]
        )
    );
    Ok(())
}

// The place of the first packet that isn't a data or config packet, and what stands there.
fn first_other(channel: &[u8]) -> (usize, Decoded) {
    let mut rest = channel;
    for _ in 0..8 {
        match decode(rest, &EXPECT_SEALED) {
            Decoded::Packet { head, used } if head.length > 0 && used <= rest.len() => {
                rest = &rest[used..];
            }
            other => return (channel.len() - rest.len(), other),
        }
    }
    (channel.len() - rest.len(), Decoded::More)
}

#[test]
fn places_in_a_sealed_channel(rt: HostRuntime) -> Result<(), Fail> {
    let desc = machine(rt.alloc())?;
    let out = only_channel(rt.alloc(), 2, &desc)?;
    let channel = out.as_slice();
    // the second packet begins after the first one's seal
    match decode(channel, &EXPECT_SEALED) {
        Decoded::Packet { used, .. } => assert_eq!(rt; used, 93),
        other => assert_eq!(rt; other, Decoded::More),
    }
    let (place, end) = first_other(channel);
    assert_eq!(rt; place, 690);
    let mark = Decoded::Packet {
        head: head_of(2, Kind::End, 0, 0),
        used: 72,
    };
    assert_eq!(rt; end, mark);
    Ok(())
}

#[test]
fn changed_bytes_of_a_sealed_channel(rt: HostRuntime) -> Result<(), Fail> {
    let desc = machine(rt.alloc())?;
    // the last byte of the payload of page 0's packet, a byte of the end packet's seal, and the first header's version
    for (at, place, cause) in [
        (60, 0, Cause::Corrupt),
        (730, 690, Cause::Corrupt),
        (761, 690, Cause::Corrupt),
        (5, 0, Cause::Version),
    ] {
        let mut out = only_channel(rt.alloc(), 2, &desc)?;
        if let Some(byte) = out.get_mut(at) {
            *byte ^= 3;
        }
        let (found, answer) = first_other(out.as_slice());
        assert_eq!(rt; found, place, "byte {at}");
        assert_eq!(rt; answer, Decoded::Bad { cause }, "byte {at}");
    }
    assert_eq!(rt; Cause::Corrupt.number(), 13);
    assert_eq!(rt; Cause::Version.number(), 2);
    Ok(())
}

#[test]
fn a_sealed_channel_that_is_cut(rt: HostRuntime) -> Result<(), Fail> {
    let desc = machine(rt.alloc())?;
    let mut out = only_channel(rt.alloc(), 2, &desc)?;
    out.truncate(71);
    assert_eq!(rt; first_other(out.as_slice()), (0, Decoded::More));
    Ok(())
}

// The law holds of every record; calling it does nothing.
#[test]
fn laws() {
    records_are_payloads();
}
