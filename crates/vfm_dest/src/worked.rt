//! The worked machine of the tests, and the channel that its source sends, written from the format by hand.

ghost use Rattle.std.specs.Prelude.{◌<◌, IfOk};
ghost use Rattle.vfm_types.specs.Valid.{IsValid};

use crate::{StageFault, Staged, stage_in};
use sha2::{Digest, Sha256};
use std::alloc::Global;
use std::test::Fail;
use std::thread::Threads;
use vfm_outside::{NoBeat, ScriptLink};
use vfm_types::{Bars, Bytes64, Desc, DevShape, Flags, Job, Jobs, Name, Queue, Refusal, Shapes};

/// Where a packet or the end of the worked channel begins, and where the channel ends.
pub const PAGE_0: usize = 0;

pub const PAGE_1: usize = 61;

pub const BLOCK: usize = 122;

pub const MEMORY: usize = 231;

pub const ENGINE: usize = 304;

pub const DEVICE: usize = 425;

pub const END: usize = 498;

pub const ALL: usize = 538;

/// The digest of the worked machine's state.
pub const DIGEST: [u8; 32] = [
    57, 46, 170, 141, 38, 111, 199, 202, 222, 200, 180, 160, 14, 100, 139, 223, 202, 245, 178, 234,
    34, 199, 199, 216, 242, 12, 36, 175, 30, 186, 29, 198,
];

// the digests of the shapes of the memory and of the device
const SHAPE_OF_MEMORY: [u8; 32] = [
    94, 148, 244, 223, 86, 188, 237, 150, 179, 131, 232, 236, 237, 83, 131, 21, 250, 55, 153, 193,
    124, 243, 135, 10, 52, 150, 161, 63, 188, 188, 251, 88,
];

const SHAPE_OF_DEVICE: [u8; 32] = [
    98, 188, 233, 173, 230, 99, 232, 37, 98, 140, 190, 119, 124, 130, 244, 69, 182, 52, 21, 139,
    157, 226, 229, 195, 22, 23, 231, 92, 174, 202, 87, 239,
];

/// The machine: two pages of 16 bytes, and a device with one block whose one request writes 1, 2, 3, 4 to address 18.
pub fn described(alloc: Global, channels: u32, version: u16) -> Result<Desc, Fail>
    ensures { IfOk result IsValid }
{
    let bytes = Bytes64::of(&[1, 2, 3, 4]).ok_or("bytes")?;
    let jobs = vec![in alloc; Job::Write { at: 18, bytes }]?;
    let queue = Vec::from_slice(alloc, &[0])?;
    let shape = DevShape {
        name: Name::of(b"a").ok_or("name")?,
        flags: Flags::of(1).ok_or("flags")?,
        bars: Bars::of(&[64]).ok_or("bars")?,
        window: 1,
        tells: true,
        budget: 1,
        fails: 0,
        jobs: Jobs::of(jobs),
        queue: Queue::of(queue),
    };
    let shapes = vec![in alloc; shape]?;
    let desc = Desc {
        session: 7,
        page: 16,
        pages: 2,
        channels,
        version,
        begin: 99,
        rounds: 0,
        threshold: 0,
        devices: Shapes::of(shapes),
    };
    if !desc.is_in_range() {
        return Err(Fail::from("range"));
    }
    match Desc::new(desc) {
        Ok(desc) => Ok(desc),
        Err(_) => Err(Fail::from("valid")),
    }
}

// what a packet is: 1 for data, 2 for a config, 3 for the end; its stream and its index
#[derive(Clone, Copy)]
struct Head {
    kind: u8,
    stream: u8,
    index: u8,
}

// puts a packet of session 7; under version 2 with its seal
fn put(out: &mut Vec<u8>, version: u8, head: Head, payload: &[u8]) -> Result<(), Fail> {
    let mut bytes = [0; 40];
    bytes[0] = b'V';
    bytes[1] = b'F';
    bytes[2] = b'M';
    bytes[3] = b'D';
    bytes[5] = version;
    bytes[7] = head.kind;
    bytes[15] = 7;
    bytes[19] = head.stream;
    bytes[23] = head.index;
    bytes[27] = (payload.len() % 256) as u8;
    out.extend_from_slice(&bytes)?;
    out.extend_from_slice(payload)?;
    if version == 2 {
        let mut hasher = Sha256::new();
        hasher.update(&bytes);
        hasher.update(payload);
        out.extend_from_slice(&hasher.finalize())?;
    }
    Ok(())
}

// puts a page of zeros, or with 1, 2, 3, 4 at 2
fn put_page(out: &mut Vec<u8>, version: u8, page: u8) -> Result<(), Fail> {
    let mut record = [0; 21];
    record[0] = 1;
    record[4] = page;
    if page == 1 {
        record[7] = 1;
        record[8] = 2;
        record[9] = 3;
        record[10] = 4;
    }
    let head = Head {
        kind: 1,
        stream: 0,
        index: page,
    };
    put(out, version, head, &record)
}

// puts the device's block of zeros
fn put_block(out: &mut Vec<u8>, version: u8) -> Result<(), Fail> {
    let mut record = [0; 69];
    record[0] = 2;
    let head = Head {
        kind: 1,
        stream: 1,
        index: 0,
    };
    put(out, version, head, &record)
}

// puts the device's counts: one request accepted and done
fn put_engine(out: &mut Vec<u8>, version: u8) -> Result<(), Fail> {
    let mut record = [0; 81];
    record[0] = 3;
    record[4] = 1;
    record[8] = 1;
    let head = Head {
        kind: 1,
        stream: 1,
        index: 1,
    };
    put(out, version, head, &record)
}

// puts the digest of a shape
fn put_config(out: &mut Vec<u8>, version: u8, stream: u8, shape: &[u8; 32]) -> Result<(), Fail> {
    let mut record = [5; 33];
    record[1..].copy_from_slice(shape);
    let head = Head {
        kind: 2,
        stream,
        index: 2,
    };
    put(out, version, head, &record)
}

/// The channel that the machine's source sends once its request is done: 538 bytes, under version 2 with 32 more for each
/// of the seven packets.
pub fn channel(alloc: Global, version: u8) -> Result<Vec<u8>, Fail> {
    let mut out = Vec::new(alloc);
    put_page(&mut out, version, 0)?;
    put_page(&mut out, version, 1)?;
    put_block(&mut out, version)?;
    put_config(&mut out, version, 0, &SHAPE_OF_MEMORY)?;
    put_engine(&mut out, version)?;
    put_config(&mut out, version, 1, &SHAPE_OF_DEVICE)?;
    let end = Head {
        kind: 3,
        stream: 0,
        index: 0,
    };
    put(&mut out, version, end, &[])?;
    Ok(out)
}

/// These pieces of a channel, each from a place to another, with these bytes at these places in place of their own.
pub fn cut(
    alloc: Global,
    channel: &[u8],
    pieces: &[(usize, usize)],
    set: &[(usize, u8)],
) -> Result<Vec<u8>, Fail> {
    let mut out = Vec::new(alloc);
    for (from, to) in pieces {
        if *from > *to || *to > channel.len() {
            return Err(Fail::from("a piece outside"));
        }
        out.extend_from_slice(&channel[*from..*to])?;
    }
    for (at, byte) in set {
        if *at >= out.len() {
            return Err(Fail::from("a place outside"));
        }
        out[*at] = *byte;
    }
    Ok(out)
}

/// A link that brings these bytes, 50 in a call, and whose calls of these numbers fail; it takes 100 bytes.
pub fn link(alloc: Global, inbox: Vec<u8>, fail: &[u32]) -> Result<ScriptLink, Fail> {
    let calls = Vec::from_slice(alloc, fail)?;
    Ok(ScriptLink::of(alloc, inbox, 100, calls, 50)?)
}

/// What is staged of these links, through rings of so many slots.
pub fn staged<H: Threads + Sync>(
    rt: &H,
    alloc: Global,
    desc: &Desc,
    links: Vec<ScriptLink>,
    slots: usize,
) -> Result<Result<Staged, StageFault>, Fail>
    requires { IsValid desc.now }
{
    if links.len() != desc.channels as usize || slots == 0 {
        return Err(Fail::from("channels"));
    }
    let (_, answer) = stage_in(rt, alloc, desc, links, slots, &NoBeat);
    Ok(answer)
}

/// The digest of the machine that was staged.
pub fn digest_of(answer: Result<Staged, StageFault>) -> Result<[u8; 32], Fail> {
    match answer {
        Ok(staged) => Ok(staged.digest()),
        Err(_) => Err(Fail::from("nothing was staged")),
    }
}

/// The code and the two numbers of a refusal.
pub fn refusal_in(answer: Result<Staged, StageFault>) -> Result<(u32, u64, u64), Fail> {
    match answer {
        Err(StageFault::Refusal(Refusal { code, a, b })) => Ok((code, a, b)),
        _ => Err(Fail::from("nothing was refused")),
    }
}

/// The refusal of the worked channel, cut and changed so.
pub fn refused<H: Threads + Sync>(
    rt: &H,
    alloc: Global,
    version: u8,
    pieces: &[(usize, usize)],
    set: &[(usize, u8)],
) -> Result<(u32, u64, u64), Fail> {
    let desc = described(alloc, 1, u16::from(version))?;
    let whole = channel(alloc, version)?;
    let links = vec![in alloc; link(alloc, cut(alloc, whole.as_slice(), pieces, set)?, &[])?]?;
    refusal_in(staged(rt, alloc, &desc, links, 4)?)
}
