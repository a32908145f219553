//! What no clause says: that the calls succeed with ample memory; and worked streams, whose payloads are written from the
//! format by hand. The digests come from another program.

ghost use Rattle.std.specs.Prelude.{◌≡◌, ◌+◌, ◌<◌, ◌≤◌, IfOk, length};
ghost use Rattle.vfm_types.specs.Valid.{IsValid};
ghost use Rattle.vfm_load.specs.Loads.{stream_of, applied, is_closed, IsLoaderOf};

use super::*;
use std::alloc::Global;
use std::test::Fail;
use vfm_plain::Part;
use vfm_types::{Bars, Bytes64, Desc, DevShape, Flags, Job, Jobs, Name, Queue, Shapes};

// The digests of the shape texts: of memory, of the device with a budget of 5, and of the one with the greatest.
const OF_MEMORY: [u8; 32] = [
    0x5e, 0x94, 0xf4, 0xdf, 0x56, 0xbc, 0xed, 0x96, 0xb3, 0x83, 0xe8, 0xec, 0xed, 0x53, 0x83, 0x15,
    0xfa, 0x37, 0x99, 0xc1, 0x7c, 0xf3, 0x87, 0x0a, 0x34, 0x96, 0xa1, 0x3f, 0xbc, 0xbc, 0xfb, 0x58,
];

const OF_DEVICE: [u8; 32] = [
    0x54, 0x1b, 0x74, 0x2f, 0x93, 0x3a, 0x70, 0x79, 0x61, 0x14, 0xff, 0x94, 0xf3, 0x08, 0x4b, 0x13,
    0x78, 0xc6, 0xc3, 0xde, 0x93, 0x21, 0xd6, 0xd9, 0xe1, 0xf7, 0x0b, 0xc5, 0xf2, 0x79, 0x13, 0x19,
];

const OF_LARGE: [u8; 32] = [
    0xd8, 0xcd, 0x23, 0xb9, 0x85, 0x5f, 0x88, 0x2e, 0x3d, 0xf7, 0x46, 0x77, 0xeb, 0x58, 0xfb, 0xc0,
    0xe5, 0x0f, 0x89, 0xec, 0x1e, 0x8c, 0x55, 0xa7, 0xe2, 0xa3, 0x38, 0x15, 0xe9, 0xc6, 0xeb, 0xb2,
];

// What a payload says; a page has 16 bytes and a block 64, all equal.
#[derive(Clone, Copy)]
enum Say<'a> {
    Page(u32, u8),
    Block(u32, u8),
    Counts(u32, u32, u32, u32),
    Pairs(&'a [(u32, u32)]),
    // so many pairs with rising numbers from the first one on, of job 0 where the number is even, else of job 1
    Numbered(u32, u32),
    Digest([u8; 32]),
    Bytes(&'a [u8]),
}

fn push_number(out: &mut Vec<u8>, n: u32) -> Result<(), Fail> {
    out.extend_from_slice(&n.to_be_bytes())?;
    Ok(())
}

fn payload_of(alloc: Global, say: &Say) -> Result<Vec<u8>, Fail> {
    let mut out = Vec::new(alloc);
    match say {
        Say::Page(p, byte) => {
            out.push(1)?;
            push_number(&mut out, *p)?;
            out.extend_from_slice(&[*byte; 16])?;
        }
        Say::Block(b, byte) => {
            out.push(2)?;
            push_number(&mut out, *b)?;
            out.extend_from_slice(&[*byte; 64])?;
        }
        Say::Counts(accepted, done, lost, pend) => {
            out.push(3)?;
            for n in [*accepted, *done, *lost, *pend] {
                push_number(&mut out, n)?;
            }
            out.extend_from_slice(&[9; 64])?;
        }
        Say::Pairs(pairs) => push_pairs(&mut out, pairs)?,
        Say::Numbered(from, count) => {
            let pairs = numbered(alloc, *from, *count)?;
            push_pairs(&mut out, pairs.as_slice())?;
        }
        Say::Digest(digest) => {
            out.push(5)?;
            out.extend_from_slice(digest)?;
        }
        Say::Bytes(bytes) => out.extend_from_slice(bytes)?,
    }
    Ok(out)
}

fn push_pairs(out: &mut Vec<u8>, pairs: &[(u32, u32)]) -> Result<(), Fail> {
    out.push(4)?;
    out.push((pairs.len() / 256 % 256) as u8)?;
    out.push((pairs.len() % 256) as u8)?;
    for (number, job) in pairs {
        push_number(out, *number)?;
        push_number(out, *job)?;
    }
    Ok(())
}

fn numbered(alloc: Global, from: u32, count: u32) -> Result<Vec<(u32, u32)>, Fail> {
    let mut pairs = Vec::new(alloc);
    for i in 0..count {
        let number = from.wrapping_add(i);
        pairs.push((number, number % 2))?;
    }
    Ok(pairs)
}

// Two pages of 16 bytes; a device with two blocks, two jobs and this budget.
fn described(alloc: Global, budget: u32) -> Result<Desc, Fail>
    ensures { IfOk result IsValid }
{
    let bytes = Bytes64::of(&[7, 0, 0, 0, 0, 0, 0, 0]).ok_or("bytes")?;
    let jobs = vec![in alloc; Job::Write { at: 8, bytes }, Job::Read { at: 16, len: 5 }]?;
    let shape = DevShape {
        name: Name::of(b"a").ok_or("name")?,
        flags: Flags::of(3).ok_or("flags")?,
        bars: Bars::of(&[128]).ok_or("bars")?,
        window: 2,
        tells: true,
        budget,
        fails: 0,
        jobs: Jobs::of(jobs),
        queue: Queue::of(Vec::new(alloc)),
    };
    let shapes = vec![in alloc; shape]?;
    let desc = Desc {
        session: 9,
        page: 16,
        pages: 2,
        channels: 2,
        version: 1,
        begin: 3,
        rounds: 4,
        threshold: 6,
        devices: Shapes::of(shapes),
    };
    if !desc.is_in_range() {
        return Err(Fail::from("range"));
    }
    match Desc::new(desc) {
        Ok(desc) => Ok(desc),
        Err(_) => Err(Fail::from("valid")),
    }
}

// Applies a payload behind those that were applied.
fn apply_next(
    loader: &mut Loader,
    desc: &Desc,
    index: u32,
    config: bool,
    payload: &[u8],
) -> Result<(), Fail>
    requires made { IsLoaderOf loader.old desc.now (stream_of loader.old) }
    requires next { index ≡ applied loader.old }
    ensures made { IsLoaderOf loader.new desc.now (stream_of loader.old) }
    ensures stream { stream_of loader.new ≡ stream_of loader.old }
    ensures applied { IfOk result (λ _. applied loader.new ≡ applied loader.old + 1) }
    ensures closed { IfOk result (λ _. is_closed loader.new ≡ config) }
{
    if payload.len() > 65536 {
        return Err(Fail::from("too long"));
    }
    loader.apply(desc, index, config, payload);
    Ok(())
}

// Loads data packets with these payloads and a config packet behind them.
fn load(
    alloc: Global,
    desc: &Desc,
    stream: u32,
    data: &[Say],
    last: Say,
) -> Result<Result<Part, LoadFault>, Fail>
    requires { IsValid desc.now }
{
    if stream > desc.devices.len() || data.len() > 1000 {
        return Err(Fail::from("too many"));
    }
    let mut loader = Loader::of(alloc, desc, stream)?;
    for i in 0..data.len() {
        let payload = payload_of(alloc, &data[i])?;
        apply_next(&mut loader, desc, i as u32, false, payload.as_slice())?;
    }
    let payload = payload_of(alloc, &last)?;
    apply_next(
        &mut loader,
        desc,
        data.len() as u32,
        true,
        payload.as_slice(),
    )?;
    Ok(loader.finish())
}

// Whether the part is two pages of these bytes.
fn has_pages(part: &Part, first: u8, second: u8) -> bool {
    match part {
        Part::Pages(sheets) => match sheets.lent() {
            [a, b] => a.lent() == [first; 16].as_slice() && b.lent() == [second; 16].as_slice(),
            _ => false,
        },
        Part::Device { .. } => false,
    }
}

// Whether the part is a device with two blocks of these bytes, these counts and these pending requests.
fn has_device(
    part: &Part,
    blocks: (u8, u8),
    counts: (u32, u32, u32),
    pending: &[(u32, u32)],
) -> bool {
    let mut both = [blocks.0; 128];
    both[64..].fill(blocks.1);
    match part {
        Part::Pages(_) => false,
        Part::Device {
            bar,
            buf,
            counts: (accepted, done, lost),
            pending: requests,
        } => {
            bar.lent() == both.as_slice()
                && buf == &[9; 64]
                && (*accepted, *done, *lost) == counts
                && requests.lent() == pending
        }
    }
}

#[test]
fn the_last_record_of_a_page_counts(rt: HostRuntime) -> Result<(), Fail> {
    let alloc = rt.alloc();
    let desc = described(alloc, 5)?;
    let data = [Say::Page(1, 3), Say::Page(0, 4), Say::Page(1, 5)];
    match load(alloc, &desc, 0, &data, Say::Digest(OF_MEMORY))? {
        Ok(part) => assert!(rt; has_pages(&part, 4, 5)),
        Err(_) => return Err(Fail::from("refused")),
    }
    Ok(())
}

#[test]
fn what_is_wrong_with_memory(rt: HostRuntime) -> Result<(), Fail> {
    let alloc = rt.alloc();
    let desc = described(alloc, 5)?;
    let own = Say::Digest(OF_MEMORY);
    let other = Say::Digest(OF_DEVICE);
    let bad = |index, place| LoadFault::BadRecord { index, place };
    let differs = LoadFault::ConfigDiffers {
        ours: OF_MEMORY,
        theirs: OF_DEVICE,
    };
    let page_of_one_byte = [1, 0, 0, 0, 0, 7];
    let cases: [(&[Say], Say, LoadFault); 10] = [
        (&[], own, LoadFault::NotWhole { least: 0 }),
        (&[Say::Page(0, 1)], own, LoadFault::NotWhole { least: 1 }),
        (&[Say::Page(1, 1)], own, LoadFault::NotWhole { least: 0 }),
        (&[Say::Page(0, 1)], other, differs),
        (&[Say::Page(2, 1)], own, bad(0, 1)),
        (
            &[Say::Page(0, 1), Say::Bytes(&page_of_one_byte)],
            own,
            bad(1, 6),
        ),
        // a block is no record of memory
        (
            &[Say::Page(0, 1), Say::Page(1, 1), Say::Block(0, 0)],
            own,
            bad(2, 0),
        ),
        // a digest in a data packet, a page in a config packet
        (&[own, Say::Page(0, 1), Say::Page(1, 1)], own, bad(0, 0)),
        (&[Say::Page(0, 1)], Say::Page(1, 1), bad(1, 0)),
        // the first counts
        (
            &[Say::Page(0, 1), Say::Page(9, 1), Say::Bytes(&[])],
            other,
            bad(1, 1),
        ),
    ];
    for (data, last, fault) in cases {
        match load(alloc, &desc, 0, data, last)? {
            Ok(_) => return Err(Fail::from("taken")),
            Err(found) => assert_eq!(rt; found, fault),
        }
    }
    Ok(())
}

#[test]
fn a_whole_device(rt: HostRuntime) -> Result<(), Fail> {
    let alloc = rt.alloc();
    let desc = described(alloc, 5)?;
    let own = Say::Digest(OF_DEVICE);
    // of 4 accepted requests 1 is done; the pending ones come in two records
    let data = [
        Say::Block(1, 3),
        Say::Block(0, 0),
        Say::Block(1, 8),
        Say::Counts(4, 1, 6, 3),
        Say::Pairs(&[(0, 1), (2, 0)]),
        Say::Pairs(&[(3, 1)]),
    ];
    match load(alloc, &desc, 1, &data, own)? {
        Ok(part) => assert!(rt; has_device(&part, (0, 8), (4, 1, 6), &[(0, 1), (2, 0), (3, 1)])),
        Err(_) => return Err(Fail::from("refused")),
    }
    let idle = [Say::Block(0, 0), Say::Block(1, 1), Say::Counts(0, 0, 0, 0)];
    match load(alloc, &desc, 1, &idle, own)? {
        Ok(part) => assert!(rt; has_device(&part, (0, 1), (0, 0, 0), &[])),
        Err(_) => return Err(Fail::from("refused")),
    }
    Ok(())
}

#[test]
fn what_can_not_stand_in_the_stream_of_a_device(rt: HostRuntime) -> Result<(), Fail> {
    let alloc = rt.alloc();
    let desc = described(alloc, 5)?;
    let own = Say::Digest(OF_DEVICE);
    let counts = Say::Counts(4, 1, 0, 3);
    let cases: [(&[Say], u32, u32); 14] = [
        (&[counts, Say::Block(0, 0)], 1, 0),
        (&[counts, counts], 1, 0),
        (&[Say::Pairs(&[(0, 0)])], 0, 0),
        (&[counts, own], 1, 0),
        // more than the counts announce: in one record, and over two
        (
            &[counts, Say::Pairs(&[(0, 0), (1, 0), (2, 0), (3, 0)])],
            1,
            1,
        ),
        (
            &[
                counts,
                Say::Pairs(&[(0, 0), (1, 0)]),
                Say::Pairs(&[(2, 0), (3, 0)]),
            ],
            2,
            1,
        ),
        // a number that wasn't accepted, one that doesn't rise, one that doesn't over two records
        (&[counts, Say::Pairs(&[(0, 0), (4, 0)])], 1, 11),
        (&[counts, Say::Pairs(&[(1, 0), (1, 0)])], 1, 11),
        (
            &[counts, Say::Pairs(&[(2, 0)]), Say::Pairs(&[(2, 0)])],
            2,
            3,
        ),
        // a job that isn't there; the number comes first
        (&[counts, Say::Pairs(&[(0, 1), (1, 2)])], 1, 15),
        (&[counts, Say::Pairs(&[(4, 2)])], 1, 3),
        // what the reader of records refuses
        (&[Say::Block(0, 1)], 0, 5),
        (&[Say::Block(2, 0)], 0, 1),
        (&[Say::Counts(6, 0, 0, 6)], 0, 1),
    ];
    for (data, index, place) in cases {
        match load(alloc, &desc, 1, data, own)? {
            Ok(_) => return Err(Fail::from("taken")),
            Err(found) => assert_eq!(rt; found, LoadFault::BadRecord { index, place }),
        }
    }
    Ok(())
}

#[test]
fn what_a_device_lacks(rt: HostRuntime) -> Result<(), Fail> {
    let alloc = rt.alloc();
    let desc = described(alloc, 5)?;
    let own = Say::Digest(OF_DEVICE);
    let blocks = [Say::Block(0, 0), Say::Block(1, 1)];
    let counts = Say::Counts(2, 0, 0, 2);
    let lacking = |least| LoadFault::NotWhole { least };
    let cases: [(&[Say], Say, LoadFault); 6] = [
        (&[blocks[0], counts], own, lacking(1)),
        (&[blocks[1]], own, lacking(0)),
        (&blocks, own, lacking(4294967295)),
        (&[blocks[0], blocks[1], counts], own, lacking(4294967295)),
        (
            &[blocks[0], blocks[1], counts, Say::Pairs(&[(0, 0)])],
            own,
            lacking(4294967295),
        ),
        (
            &[blocks[0]],
            Say::Digest(OF_MEMORY),
            LoadFault::ConfigDiffers {
                ours: OF_DEVICE,
                theirs: OF_MEMORY,
            },
        ),
    ];
    for (data, last, fault) in cases {
        match load(alloc, &desc, 1, data, last)? {
            Ok(_) => return Err(Fail::from("taken")),
            Err(found) => assert_eq!(rt; found, fault),
        }
    }
    Ok(())
}

#[test]
fn as_many_pending_requests_as_any_budget_allows(rt: HostRuntime) -> Result<(), Fail> {
    let alloc = rt.alloc();
    let desc = described(alloc, 50000)?;
    // 12 records of 4,096 and one of 848
    let data = [
        Say::Block(0, 0),
        Say::Block(1, 1),
        Say::Counts(50000, 0, 400000, 50000),
        Say::Numbered(0, 4096),
        Say::Numbered(4096, 4096),
        Say::Numbered(8192, 4096),
        Say::Numbered(12288, 4096),
        Say::Numbered(16384, 4096),
        Say::Numbered(20480, 4096),
        Say::Numbered(24576, 4096),
        Say::Numbered(28672, 4096),
        Say::Numbered(32768, 4096),
        Say::Numbered(36864, 4096),
        Say::Numbered(40960, 4096),
        Say::Numbered(45056, 4096),
        Say::Numbered(49152, 848),
    ];
    let pending = numbered(alloc, 0, 50000)?;
    match load(alloc, &desc, 1, &data, Say::Digest(OF_LARGE))? {
        Ok(part) => assert!(rt; has_device(&part, (0, 1), (50000, 0, 400000), pending.as_slice())),
        Err(_) => return Err(Fail::from("refused")),
    }
    Ok(())
}
