//! The bytes of worked records, the place of each refusal and worked digests, written from the format by hand. The
//! digests come from another program.

ghost use Rattle.std.specs.Prelude.{◌≡◌, IfOk};
ghost use Rattle.vfm_types.specs.Desc.{device_count};

use super::*;
use std::alloc::Global;
use std::test::Fail;
use vfm_types::{Bars, Bytes64, Desc, DevShape, Flags, Job, Jobs, Name, NoMemory, Queue, Shapes};

// One machine with this device.
fn machine(alloc: Global, page: u32, pages: u32, shape: DevShape) -> Result<Desc, NoMemory>
    ensures { IfOk result (λ desc. device_count desc ≡ 1) }
{
    let shapes = vec![in alloc; shape]?;
    Ok(Desc {
        session: 7,
        page,
        pages,
        channels: 1,
        version: 1,
        begin: 99,
        rounds: 0,
        threshold: 0,
        devices: Shapes::of(shapes),
    })
}

// A device with two blocks and a budget of 5, and no jobs.
fn small(alloc: Global) -> Result<DevShape, Fail> {
    Ok(DevShape {
        name: Name::of(b"a").ok_or("name")?,
        flags: Flags::of(1).ok_or("flags")?,
        bars: Bars::of(&[128]).ok_or("bars")?,
        window: 1,
        tells: true,
        budget: 5,
        fails: 0,
        jobs: Jobs::of(Vec::new(alloc)),
        queue: Queue::of(Vec::new(alloc)),
    })
}

// The device of the worked move: one job, which is queued.
fn worked(alloc: Global) -> Result<DevShape, Fail> {
    let bytes = Bytes64::of(&[1, 2, 3, 4]).ok_or("bytes")?;
    let jobs = vec![in alloc; Job::Write { at: 18, bytes }]?;
    let queue = vec![in alloc; 0]?;
    Ok(DevShape {
        name: Name::of(b"a").ok_or("name")?,
        flags: Flags::of(1).ok_or("flags")?,
        bars: Bars::of(&[64]).ok_or("bars")?,
        window: 1,
        tells: true,
        budget: 1,
        fails: 0,
        jobs: Jobs::of(jobs),
        queue: Queue::of(queue),
    })
}

// A device with one job of each kind, and the largest numbers.
fn large(alloc: Global) -> Result<DevShape, Fail> {
    let bytes = Bytes64::of(&[0x00, 0xff, 0x7a]).ok_or("bytes")?;
    let jobs = vec![in alloc;
        Job::Write {
            at: 268_435_464,
            bytes
        },
        Job::Read { at: 0, len: 64 },
        Job::Store { at: 4032, len: 1 },
        Job::Add {
            at: 8,
            value: u64::MAX
        },
    ]?;
    Ok(DevShape {
        name: Name::of(b"gpu_0").ok_or("name")?,
        flags: Flags::of(7).ok_or("flags")?,
        bars: Bars::of(&[65_536]).ok_or("bars")?,
        window: 8,
        tells: false,
        budget: 50_000,
        fails: 0,
        jobs: Jobs::of(jobs),
        queue: Queue::of(Vec::new(alloc)),
    })
}

// Page 1, whose bytes count up.
static PAGE: [u8; 21] = [
    1, 0, 0, 0, 1, 0, 1, 2, 3, 4, 5, 6, 7, 8, 9, 10, 11, 12, 13, 14, 15,
];

// Block 0, which begins with eight zeros, and then nines.
static BLOCK: [u8; 69] = [
    2, 0, 0, 0, 0, 0, 0, 0, 0, 0, 0, 0, 0, 9, 9, 9, 9, 9, 9, 9, 9, 9, 9, 9, 9, 9, 9, 9, 9, 9, 9, 9,
    9, 9, 9, 9, 9, 9, 9, 9, 9, 9, 9, 9, 9, 9, 9, 9, 9, 9, 9, 9, 9, 9, 9, 9, 9, 9, 9, 9, 9, 9, 9, 9,
    9, 9, 9, 9, 9,
];

// 5 accepted, 3 done, 400,000 (0x61a80) lost, 2 pending, and a buffer of eights.
static ENGINE: [u8; 81] = [
    3, 0, 0, 0, 5, 0, 0, 0, 3, 0, 6, 0x1a, 0x80, 0, 0, 0, 2, 8, 8, 8, 8, 8, 8, 8, 8, 8, 8, 8, 8, 8,
    8, 8, 8, 8, 8, 8, 8, 8, 8, 8, 8, 8, 8, 8, 8, 8, 8, 8, 8, 8, 8, 8, 8, 8, 8, 8, 8, 8, 8, 8, 8, 8,
    8, 8, 8, 8, 8, 8, 8, 8, 8, 8, 8, 8, 8, 8, 8, 8, 8, 8, 8,
];

// Two pending requests: number 3 of job 258, number 4 of job 0.
static PENDING: [u8; 19] = [4, 0, 2, 0, 0, 0, 3, 0, 0, 1, 2, 0, 0, 0, 4, 0, 0, 0, 0];

// A digest of sevens.
static CONFIG: [u8; 33] = [
    5, 7, 7, 7, 7, 7, 7, 7, 7, 7, 7, 7, 7, 7, 7, 7, 7, 7, 7, 7, 7, 7, 7, 7, 7, 7, 7, 7, 7, 7, 7, 7,
    7,
];

// These bytes and zeros after them, 96 in all, with two places changed.
fn changed(bytes: &[u8], first: (usize, u8), second: (usize, u8)) -> [u8; 96] {
    let mut copy = [0; 96];
    for (to, from) in copy.iter_mut().zip(bytes) {
        *to = *from;
    }
    for (i, to) in copy.iter_mut().enumerate() {
        if i == first.0 {
            *to = first.1;
        }
        if i == second.0 {
            *to = second.1;
        }
    }
    copy
}

// The place that is answered for so many bytes, or `None` where the record is read.
fn place(desc: &Desc, stream: u32, bytes: &[u8], len: usize) -> Option<u32> {
    if stream > desc.devices.len() || len > bytes.len() || len > 65_536 {
        return Some(u32::MAX);
    }
    match read(desc, stream, &bytes[..len]) {
        Ok(_) => None,
        Err(fault) => Some(fault.place),
    }
}

#[test]
fn places_of_wrong_tags(rt: HostRuntime) -> Result<(), Fail> {
    let desc = machine(rt.alloc(), 16, 2, small(rt.alloc())?)?;
    for (stream, tag, want) in [
        (0, 0, Some(0)),
        (0, 2, Some(0)),
        (0, 3, Some(0)),
        (0, 4, Some(0)),
        (0, 6, Some(0)),
        (0, 255, Some(0)),
        (1, 0, Some(0)),
        (1, 1, Some(0)),
        (1, 6, Some(0)),
        // the right tag, and a length that is wrong
        (0, 1, Some(1)),
        (0, 5, Some(1)),
        (1, 2, Some(1)),
        (1, 3, Some(1)),
        (1, 4, Some(1)),
        (1, 5, Some(1)),
    ] {
        assert_eq!(rt;
            place(&desc, stream, &[tag], 1),
            want,
            "stream {stream}, tag {tag}"
        );
    }
    assert_eq!(rt; place(&desc, 0, &[], 0), Some(0));
    assert_eq!(rt; place(&desc, 1, &[], 0), Some(0));
    Ok(())
}

#[test]
fn places_of_wrong_pages_and_digests(rt: HostRuntime) -> Result<(), Fail> {
    let desc = machine(rt.alloc(), 16, 2, small(rt.alloc())?)?;
    let none = (95, 0);
    for (len, change, want) in [
        (21, none, None),
        (20, none, Some(20)),
        (22, none, Some(22)),
        (5, none, Some(5)),
        // page 0, and the pages after the last one
        (21, (4, 0), None),
        (21, (4, 2), Some(1)),
        (21, (1, 1), Some(1)),
        // the length before the number
        (22, (4, 2), Some(22)),
    ] {
        let bytes = changed(&PAGE, change, none);
        assert_eq!(rt; place(&desc, 0, &bytes, len), want, "{len} bytes of a page");
    }
    for (stream, len, want) in [
        (0, 33, None),
        (1, 33, None),
        (0, 32, Some(32)),
        (1, 34, Some(34)),
    ] {
        let bytes = changed(&CONFIG, none, none);
        assert_eq!(rt;
            place(&desc, stream, &bytes, len),
            want,
            "{len} bytes of a digest"
        );
    }
    Ok(())
}

#[test]
fn places_of_wrong_blocks(rt: HostRuntime) -> Result<(), Fail> {
    let desc = machine(rt.alloc(), 16, 2, small(rt.alloc())?)?;
    let none = (95, 0);
    for (len, first, second, want) in [
        (69, none, none, None),
        (68, none, none, Some(68)),
        (70, none, none, Some(70)),
        // the block after the last one
        (69, (4, 1), none, None),
        (69, (4, 2), none, Some(1)),
        (69, (3, 1), none, Some(1)),
        // the doorbell: the first and the last of eight bytes, and the one after
        (69, (5, 1), none, Some(5)),
        (69, (12, 1), none, Some(5)),
        (69, (13, 1), none, None),
        // block 1 has none
        (69, (4, 1), (5, 1), None),
        // the number before the doorbell
        (69, (4, 2), (5, 1), Some(1)),
    ] {
        let bytes = changed(&BLOCK, first, second);
        assert_eq!(rt;
            place(&desc, 1, &bytes, len),
            want,
            "{len} bytes of a block"
        );
    }
    Ok(())
}

#[test]
fn places_of_wrong_engines(rt: HostRuntime) -> Result<(), Fail> {
    let desc = machine(rt.alloc(), 16, 2, small(rt.alloc())?)?;
    let none = (95, 0);
    for (len, first, second, want) in [
        (81, none, none, None),
        (80, none, none, Some(80)),
        (82, none, none, Some(82)),
        // more than the budget, also where the sum is right
        (81, (4, 6), none, Some(1)),
        (81, (4, 6), (8, 4), Some(1)),
        (81, (4, 4), (8, 2), None),
        // the sum, also where only 32 bits of it are right
        (81, (8, 2), none, Some(5)),
        (81, (16, 3), none, Some(5)),
        (81, (4, 0), (8, 0), Some(5)),
        (81, (5, 128), (13, 128), Some(5)),
        // 400,001 lost
        (81, (12, 0x81), none, Some(9)),
        (81, (9, 1), none, Some(9)),
        // the first of two
        (81, (4, 6), (12, 0x81), Some(1)),
        (81, (8, 2), (12, 0x81), Some(5)),
    ] {
        let bytes = changed(&ENGINE, first, second);
        assert_eq!(rt;
            place(&desc, 1, &bytes, len),
            want,
            "{len} bytes of an engine"
        );
    }
    Ok(())
}

#[test]
fn places_of_wrong_pending_requests(rt: HostRuntime) -> Result<(), Fail> {
    let desc = machine(rt.alloc(), 16, 2, small(rt.alloc())?)?;
    let none = (95, 0);
    for (len, first, second, want) in [
        (19, none, none, None),
        // no count
        (1, none, none, Some(1)),
        (2, none, none, Some(2)),
        // a count of 0 and of 4,097, whatever the length
        (3, (2, 0), none, Some(1)),
        (19, (1, 0x10), (2, 1), Some(1)),
        // a count of 4,096 and too few bytes
        (19, (1, 0x10), (2, 0), Some(19)),
        (18, none, none, Some(18)),
        (20, none, none, Some(20)),
        (3, none, none, Some(3)),
        (19, (2, 1), none, Some(19)),
        (11, (2, 1), none, None),
        // what the pairs say isn't looked at
        (19, (3, 255), (18, 255), None),
    ] {
        let bytes = changed(&PENDING, first, second);
        assert_eq!(rt;
            place(&desc, 1, &bytes, len),
            want,
            "{len} bytes of pending requests"
        );
    }
    Ok(())
}

#[test]
fn worked_records_are_written_and_read(rt: HostRuntime) -> Result<(), Fail> {
    let desc = machine(rt.alloc(), 16, 2, small(rt.alloc())?)?;
    let page = Rec::Page {
        p: 1,
        bytes: &PAGE[5..],
    };
    let block = Rec::Block {
        b: 0,
        bytes: &BLOCK[5..],
    };
    let engine = Rec::Engine {
        accepted: 5,
        done: 3,
        lost: 400_000,
        pend: 2,
        buf: &ENGINE[17..],
    };
    let pending = Rec::Pending {
        count: 2,
        bytes: &PENDING[3..],
    };
    let config = Rec::Config {
        digest: &CONFIG[1..],
    };
    let mut out = Vec::new(rt.alloc());
    write(&page, &mut out)?;
    write(&block, &mut out)?;
    write(&engine, &mut out)?;
    write(&pending, &mut out)?;
    write(&config, &mut out)?;
    let ends = [
        encoded_len(&page),
        encoded_len(&block),
        encoded_len(&engine),
        encoded_len(&pending),
        encoded_len(&config),
    ];
    assert_eq!(rt; ends, [21, 69, 81, 19, 33]);
    assert_eq!(rt; out.len(), 223);
    let out = out.as_slice();
    if out.len() == 223 {
        assert_eq!(rt; &out[..21], PAGE.as_slice());
        assert_eq!(rt; &out[21..90], BLOCK.as_slice());
        assert_eq!(rt; &out[90..171], ENGINE.as_slice());
        assert_eq!(rt; &out[171..190], PENDING.as_slice());
        assert_eq!(rt; &out[190..], CONFIG.as_slice());
    }
    assert!(rt; read(&desc, 0, &PAGE) == Ok(page));
    assert!(rt; read(&desc, 1, &BLOCK) == Ok(block));
    assert!(rt; read(&desc, 1, &ENGINE) == Ok(engine));
    assert!(rt; read(&desc, 1, &PENDING) == Ok(pending));
    assert!(rt; read(&desc, 0, &CONFIG) == Ok(config));
    assert!(rt; read(&desc, 1, &CONFIG) == Ok(config));
    assert_eq!(rt; pending_at(&PENDING[3..], 0), (3, 258));
    assert_eq!(rt; pending_at(&PENDING[3..], 1), (4, 0));
    Ok(())
}

#[test]
fn pending_requests_are_written_from_pairs(rt: HostRuntime) -> Result<(), Fail> {
    let mut out = Vec::new(rt.alloc());
    write_pending(&[(3, 258), (4, 0)], &mut out)?;
    assert_eq!(rt; out.as_slice(), PENDING.as_slice());
    Ok(())
}

#[test]
fn worked_digests(rt: HostRuntime) -> Result<(), Fail> {
    let one = machine(rt.alloc(), 16, 2, worked(rt.alloc())?)?;
    // memory 16 2
    let want: [u8; 32] = [
        0x5e, 0x94, 0xf4, 0xdf, 0x56, 0xbc, 0xed, 0x96, 0xb3, 0x83, 0xe8, 0xec, 0xed, 0x53, 0x83,
        0x15, 0xfa, 0x37, 0x99, 0xc1, 0x7c, 0xf3, 0x87, 0x0a, 0x34, 0x96, 0xa1, 0x3f, 0xbc, 0xbc,
        0xfb, 0x58,
    ];
    assert_eq!(rt; shape_digest(&one, 0), want);
    // device a 1 64 1 1 1 1
    // write 18 01020304
    let want: [u8; 32] = [
        0x62, 0xbc, 0xe9, 0xad, 0xe6, 0x63, 0xe8, 0x25, 0x62, 0x8c, 0xbe, 0x77, 0x7c, 0x82, 0xf4,
        0x45, 0xb6, 0x34, 0x15, 0x8b, 0x9d, 0xe2, 0xe5, 0xc3, 0x16, 0x17, 0xe7, 0x5c, 0xae, 0xca,
        0x57, 0xef,
    ];
    assert_eq!(rt; shape_digest(&one, 1), want);
    let other = machine(rt.alloc(), 4096, 1024, large(rt.alloc())?)?;
    // memory 4096 1024
    let want: [u8; 32] = [
        0x48, 0x04, 0x6d, 0x92, 0x3f, 0xe8, 0xc5, 0x08, 0xa3, 0xce, 0xf2, 0x14, 0x14, 0xc3, 0x65,
        0xb5, 0x99, 0xdb, 0x1c, 0xe2, 0x73, 0xcf, 0xd6, 0xf2, 0xdb, 0x90, 0xd4, 0xfa, 0xaf, 0x8b,
        0xda, 0xeb,
    ];
    assert_eq!(rt; shape_digest(&other, 0), want);
    // device gpu_0 7 65536 8 0 50000 4
    // write 268435464 00ff7a
    // read 0 64
    // store 4032 1
    // add 8 18446744073709551615
    let want: [u8; 32] = [
        0x1f, 0x13, 0xb7, 0x2c, 0x5b, 0x8e, 0x88, 0xe5, 0x53, 0xd5, 0xf5, 0xb0, 0x9f, 0x76, 0x0b,
        0xad, 0x69, 0x21, 0xa6, 0xe9, 0x67, 0x4d, 0x67, 0x2b, 0x15, 0x7b, 0x63, 0x2c, 0x27, 0x4f,
        0xb9, 0xe5,
    ];
    assert_eq!(rt; shape_digest(&other, 1), want);
    Ok(())
}

#[test]
fn several_bars_are_one_word_and_one_range_of_blocks(rt: HostRuntime) -> Result<(), Fail> {
    let mut shape = small(rt.alloc())?;
    shape.bars = Bars::of(&[128, 64]).ok_or("bars")?;
    let desc = machine(rt.alloc(), 16, 1, shape)?;
    // device a 1 128+64 1 1 5 0
    let want: [u8; 32] = [
        0x81, 0x63, 0x70, 0xf6, 0x6f, 0x7c, 0x1a, 0x6e, 0x26, 0xff, 0xe3, 0x24, 0x9a, 0x16, 0x24,
        0x90, 0xf6, 0xec, 0x8d, 0x96, 0x55, 0x39, 0x24, 0x0f, 0xd0, 0x5d, 0x77, 0x86, 0xb6, 0x0b,
        0xc9, 0xcb,
    ];
    assert_eq!(rt; shape_digest(&desc, 1), want);
    let last = changed(&BLOCK, (4, 2), (5, 0));
    assert_eq!(rt; place(&desc, 1, &last, 69), None);
    let beyond = changed(&BLOCK, (4, 3), (5, 0));
    assert_eq!(rt; place(&desc, 1, &beyond, 69), Some(1));
    Ok(())
}

// The laws hold of every value; calling them does nothing.
#[test]
fn laws() {
    one_encoding();
    written_is_read();
    read_is_written();
    size_of_a_record();
    what_can_be_written();
}
