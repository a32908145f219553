//! The machine against values that an independent model computed.

ghost use Rattle.std.specs.Prelude.{◌≡◌, ◌<◌, ◌≤◌, ℕ, IsTrue, IfOk, nat_lt, length, slice_index_or};
ghost use Rattle.vfm_types.specs.Valid.{IsValid};
ghost use Rattle.vfm_plain.specs.Shape.{IsSound};

use crate::Plain;
use std::alloc::{AllocError, Global};
use std::process::Abort;
use std::test::Fail;
use vfm_types::{Bars, Bytes64, Desc, DevShape, DeviceId, Flags, Job, Jobs, Name, Queue, Shapes};

// a job: its kind (0 Write of a pattern, 1 Read, 2 Store, 3 Add, 4 Write of a number), address, length and value
type Row = (u8, u64, u8, u64);

static ROWS_A: [Row; 9] = [
    (0, 3, 9, 17),
    (1, 0, 16, 0),
    (2, 268959808, 16, 0),
    (4, 268959744, 8, 4),
    (4, 269484032, 8, 2),
    (3, 24, 8, 18446744073709551600),
    (0, 268959752, 33, 200),
    (2, 32, 5, 0),
    (4, 269484032, 8, 4),
];

static ROWS_B: [Row; 7] = [
    (3, 24, 8, 33),
    (1, 268435472, 40, 0),
    (0, 268435516, 4, 90),
    (2, 269484040, 24, 0),
    (4, 268435456, 8, 7),
    (4, 269484032, 8, 1099511627776),
    (0, 48, 16, 1),
];

static ROWS_C: [Row; 8] = [
    (1, 268959816, 7, 0),
    (2, 40, 8, 0),
    (0, 268435468, 50, 33),
    (3, 268435496, 8, 9223372036854775809),
    (4, 268435456, 8, 8),
    (2, 268959744, 8, 0),
    (1, 56, 8, 0),
    (0, 56, 8, 3),
];

static STEPS: [(u8, u32, bool); 68] = [
    (0, 2, true),
    (0, 0, true),
    (2, 1, true),
    (2, 0, true),
    (0, 6, false),
    (0, 3, true),
    (2, 3, true),
    (0, 10, false),
    (0, 1, true),
    (1, 0, true),
    (0, 0, false),
    (0, 4, true),
    (0, 8, false),
    (1, 8, false),
    (0, 5, true),
    (2, 10, false),
    (0, 8, false),
    (2, 2, true),
    (0, 7, false),
    (1, 1, true),
    (1, 2, true),
    (1, 3, true),
    (0, 6, true),
    (2, 4, true),
    (0, 7, true),
    (2, 5, true),
    (0, 10, true),
    (1, 4, true),
    (0, 8, true),
    (1, 2, false),
    (0, 9, true),
    (2, 6, true),
    (2, 1, false),
    (2, 7, true),
    (2, 9, true),
    (2, 10, true),
    (0, 4, false),
    (0, 11, true),
    (2, 4, false),
    (2, 11, true),
    (1, 10, false),
    (2, 8, true),
    (1, 5, true),
    (0, 6, false),
    (0, 12, true),
    (1, 6, true),
    (1, 7, true),
    (1, 6, false),
    (0, 13, true),
    (2, 12, true),
    (1, 8, true),
    (1, 9, true),
    (0, 14, true),
    (0, 7, false),
    (0, 15, true),
    (2, 14, true),
    (1, 0, false),
    (2, 11, false),
    (2, 13, true),
    (0, 16, true),
    (0, 17, true),
    (0, 19, true),
    (2, 12, false),
    (0, 6, false),
    (0, 18, true),
    (2, 15, true),
    (2, 4, false),
    (2, 16, true),
];

static MIDDLE: [u8; 512] = [
    0, 0, 0, 17, 24, 31, 38, 45, 52, 59, 66, 73, 0, 0, 0, 0, 0, 0, 0, 0, 0, 0, 0, 0, 33, 0, 0, 0,
    0, 0, 0, 0, 0, 0, 0, 0, 0, 0, 0, 0, 0, 0, 0, 0, 0, 0, 0, 0, 1, 8, 15, 22, 29, 36, 43, 50, 57,
    64, 71, 78, 85, 92, 99, 106, 0, 0, 0, 0, 0, 0, 0, 0, 0, 0, 0, 0, 33, 40, 47, 54, 61, 68, 75,
    82, 89, 96, 103, 110, 117, 124, 131, 138, 145, 152, 159, 166, 173, 180, 187, 194, 201, 208,
    215, 222, 229, 236, 243, 250, 1, 8, 15, 22, 29, 36, 43, 50, 57, 64, 71, 78, 85, 92, 99, 106,
    113, 120, 0, 0, 0, 0, 0, 0, 0, 0, 0, 0, 200, 207, 214, 221, 228, 235, 242, 249, 0, 7, 14, 21,
    28, 35, 42, 49, 56, 63, 70, 77, 84, 91, 98, 105, 112, 119, 126, 133, 140, 147, 154, 161, 168,
    0, 0, 0, 0, 0, 0, 0, 0, 0, 0, 0, 0, 0, 0, 0, 0, 0, 0, 0, 0, 0, 0, 0, 0, 0, 0, 17, 24, 31, 38,
    45, 52, 59, 66, 73, 0, 0, 0, 0, 0, 0, 0, 0, 0, 0, 0, 0, 0, 0, 0, 0, 0, 0, 0, 0, 0, 0, 0, 0, 0,
    0, 0, 0, 0, 0, 0, 0, 0, 0, 0, 0, 0, 0, 0, 0, 0, 0, 0, 0, 0, 0, 0, 0, 0, 0, 0, 0, 0, 0, 0, 0, 0,
    0, 0, 0, 0, 0, 0, 0, 0, 0, 0, 0, 0, 0, 0, 0, 0, 0, 0, 0, 0, 0, 0, 0, 0, 0, 0, 0, 0, 0, 0, 0, 0,
    0, 0, 0, 0, 0, 0, 0, 0, 0, 0, 0, 0, 0, 0, 0, 0, 0, 0, 0, 0, 0, 0, 0, 0, 0, 0, 0, 0, 0, 0, 17,
    24, 31, 38, 45, 52, 59, 66, 73, 0, 0, 0, 0, 0, 0, 0, 0, 0, 0, 0, 0, 0, 0, 0, 0, 0, 0, 0, 0, 0,
    0, 0, 0, 0, 0, 0, 0, 0, 0, 0, 0, 0, 0, 0, 0, 0, 0, 0, 0, 0, 0, 0, 0, 0, 0, 0, 0, 0, 0, 0, 0, 0,
    0, 0, 0, 0, 0, 0, 0, 117, 124, 131, 138, 145, 152, 159, 166, 173, 180, 187, 194, 201, 208, 215,
    222, 229, 236, 243, 250, 1, 8, 15, 22, 29, 36, 43, 50, 57, 64, 71, 78, 0, 0, 0, 0, 0, 0, 0, 0,
    0, 0, 0, 0, 0, 0, 0, 0, 0, 0, 0, 0, 0, 0, 0, 0, 0, 0, 0, 0, 0, 0, 0, 0, 0, 0, 0, 0, 0, 0, 0, 0,
    0, 0, 0, 0, 0, 0, 0, 0, 0, 0, 0, 0, 0, 0, 0, 0, 0, 0, 0, 0, 0, 0, 0, 0, 0, 0, 0, 0, 0, 0, 0, 0,
    0, 0, 0, 0, 0, 0, 0, 0, 0, 0, 0, 0, 0, 0, 0, 0,
];

static END: [u8; 512] = [
    0, 0, 0, 17, 24, 31, 38, 45, 52, 59, 66, 73, 0, 0, 0, 0, 0, 0, 0, 0, 0, 0, 0, 0, 17, 0, 0, 0,
    0, 0, 0, 0, 33, 0, 0, 0, 0, 0, 0, 0, 52, 59, 66, 73, 0, 0, 0, 22, 1, 8, 15, 22, 29, 36, 43, 50,
    57, 64, 71, 78, 85, 92, 99, 106, 0, 0, 0, 0, 0, 0, 0, 0, 0, 0, 0, 0, 33, 40, 47, 54, 61, 68,
    75, 82, 89, 96, 103, 110, 117, 124, 131, 138, 145, 152, 159, 166, 173, 180, 187, 194, 201, 208,
    215, 222, 229, 236, 243, 250, 1, 8, 15, 22, 29, 36, 43, 50, 57, 64, 71, 78, 85, 92, 99, 106,
    90, 97, 104, 111, 0, 0, 0, 0, 0, 0, 0, 0, 200, 207, 214, 221, 228, 235, 242, 249, 0, 7, 14, 21,
    28, 35, 42, 49, 56, 63, 70, 77, 84, 91, 98, 105, 112, 119, 126, 133, 140, 147, 154, 161, 168,
    0, 0, 0, 0, 0, 0, 0, 0, 0, 0, 0, 0, 0, 0, 0, 0, 0, 0, 0, 0, 0, 0, 0, 0, 0, 0, 17, 24, 31, 38,
    45, 52, 59, 66, 73, 0, 0, 0, 0, 0, 0, 0, 0, 0, 0, 0, 0, 0, 0, 0, 0, 0, 0, 0, 0, 0, 0, 0, 0, 0,
    0, 0, 0, 0, 0, 0, 0, 0, 0, 0, 0, 0, 0, 0, 0, 0, 0, 0, 0, 0, 0, 0, 0, 0, 0, 0, 0, 0, 0, 0, 0, 0,
    0, 0, 0, 0, 0, 0, 0, 0, 0, 0, 0, 117, 124, 131, 138, 145, 152, 159, 166, 173, 180, 187, 194,
    201, 208, 215, 222, 0, 0, 0, 0, 0, 0, 0, 0, 0, 0, 0, 0, 0, 0, 0, 0, 0, 0, 0, 0, 0, 0, 0, 0, 0,
    0, 0, 0, 0, 0, 0, 0, 33, 0, 0, 0, 0, 0, 0, 0, 52, 59, 66, 73, 0, 0, 0, 0, 0, 0, 0, 0, 0, 0, 0,
    0, 0, 0, 0, 0, 0, 0, 0, 0, 0, 0, 0, 0, 0, 0, 0, 0, 0, 0, 0, 0, 0, 0, 0, 0, 0, 0, 0, 0, 0, 0, 0,
    0, 0, 0, 0, 0, 0, 0, 0, 0, 0, 0, 0, 0, 0, 0, 0, 0, 117, 124, 131, 138, 145, 152, 159, 166, 173,
    180, 187, 194, 201, 208, 215, 222, 229, 236, 243, 250, 1, 8, 15, 22, 29, 36, 43, 50, 57, 64,
    71, 78, 0, 0, 0, 0, 0, 0, 0, 0, 0, 0, 0, 0, 0, 0, 0, 0, 0, 0, 0, 0, 0, 0, 0, 0, 52, 59, 66, 73,
    0, 0, 0, 22, 0, 0, 0, 0, 0, 0, 0, 0, 0, 0, 0, 0, 0, 0, 0, 0, 0, 0, 0, 0, 0, 0, 0, 0, 0, 0, 0,
    0, 0, 0, 0, 0, 0, 0, 0, 0, 0, 0, 0, 0, 0, 0, 0, 0, 0, 0, 0, 0, 0, 0, 0, 0, 0, 0, 0, 0,
];

// a device, its counts, and its pending requests
const MIDDLE_DEVICES: [(u8, (u32, u32, u32), &[(u32, u32)]); 3] = [
    (0, (11, 7, 0), &[(7, 5), (8, 8), (9, 3), (10, 8)]),
    (1, (9, 4, 0), &[(4, 3), (5, 2), (6, 4), (7, 2), (8, 4)]),
    (2, (9, 4, 1), &[(4, 3), (5, 0), (6, 1), (7, 5), (8, 2)]),
];

const END_COUNTS: [(u8, (u32, u32, u32)); 3] = [
    (0, (20, 20, 2)),
    (1, (10, 10, 1)),
    (2, (17, 17, 1)),
];

// the first bytes of a pattern
fn pattern(value: u64, len: u8) -> Option<Bytes64> {
    let mut bytes = [0u8; 64];
    let mut next = (value % 256) as u8;
    for i in 0..64usize {
        bytes[i] = next;
        next = next.wrapping_add(7);
    }
    if len > 64 {
        return None;
    }
    Bytes64::of(&bytes[..len as usize])
}

// the job of a row
fn job_of(row: &Row) -> Option<Job> {
    let (kind, at, len, value) = *row;
    match kind {
        0 => {
            let bytes = pattern(value, len)?;
            Some(Job::Write { at, bytes })
        }
        1 => Some(Job::Read { at, len }),
        2 => Some(Job::Store { at, len }),
        3 => Some(Job::Add { at, value }),
        _ => {
            let bytes = Bytes64::of(&value.to_le_bytes())?;
            Some(Job::Write { at, bytes })
        }
    }
}

// a device with these jobs and this queue
fn device(
    rt: &impl Abort,
    alloc: Global,
    name: &[u8],
    sizes: (u32, u8, u32),
    rows: &[Row],
    queue: &[u32],
) -> Result<DevShape, Fail> {
    let mut jobs = Vec::new(alloc);
    for row in rows {
        jobs.push(job_of(row).ok_or("no job")?)?;
    }
    let queue = Vec::from_slice(alloc, queue)?;
    assert!(rt; jobs.len() <= 4096);
    assert!(rt; queue.len() <= 50000);
    Ok(DevShape {
        name: Name::of(name).ok_or("no name")?,
        flags: Flags::of(7).ok_or("no flags")?,
        bars: Bars::of(&[sizes.0]).ok_or("no bars")?,
        window: sizes.1,
        tells: true,
        budget: sizes.2,
        fails: 0,
        jobs: Jobs::of(jobs),
        queue: Queue::of(queue),
    })
}

// a machine of four pages of 16 bytes with these devices
fn machine(rt: &impl Abort, devices: Vec<DevShape>) -> Result<Desc, Fail>
    ensures { IfOk result IsValid }
{
    assert!(rt; devices.len() <= 8);
    let desc = Desc {
        session: 7,
        page: 16,
        pages: 4,
        channels: 1,
        version: 1,
        begin: 0,
        rounds: 0,
        threshold: 0,
        devices: Shapes::of(devices),
    };
    assert!(rt; desc.is_in_range());
    Ok(Desc::new(desc)?)
}

#[tactic(auto, using(crate::proofs::Effects::can_lose))]
// tries these requests in order: device, number, and whether it is enabled
fn play(rt: &impl Abort, desc: &Desc, plain: &mut Plain, steps: &[(u8, u32, bool)])
    requires valid { IsValid desc.now }
    requires sound { IsSound desc.now plain.old }
    ensures { IsSound desc.now plain.new }
{
    for step in steps {
        let (d, n, enabled) = *step;
        assert!(rt; u32::from(d) < desc.devices.len());
        assert_eq!(rt; plain.can_do(desc, DeviceId(d), n), enabled);
        let answer = plain.apply(desc, DeviceId(d), n);
        assert_eq!(rt; answer.is_ok(), enabled);
    }
}

// the bytes of all pages, then of all BARs, then of all buffers
fn state_bytes(alloc: Global, desc: &Desc, plain: &Plain) -> Result<Vec<u8>, AllocError>
    requires valid { IsValid desc.now }
    requires sound { IsSound desc.now plain.now }
{
    let mut bytes = Vec::new(alloc);
    for p in 0..desc.pages {
        bytes.extend_from_slice(plain.page(p))?;
    }
    for d in 0..desc.devices.len() {
        bytes.extend_from_slice(plain.bar(DeviceId(d as u8)))?;
    }
    for d in 0..desc.devices.len() {
        bytes.extend_from_slice(&plain.buf(DeviceId(d as u8))[..])?;
    }
    Ok(bytes)
}

// The counts of a device (accepted, done, lost) and its pending requests.
fn assert_device(
    rt: &impl Abort,
    desc: &Desc,
    plain: &Plain,
    d: u8,
    counts: (u32, u32, u32),
    pending: &[(u32, u32)],
)
    requires valid { IsValid desc.now }
    requires sound { IsSound desc.now plain.now }
{
    assert!(rt; u32::from(d) < desc.devices.len());
    assert_eq!(rt; plain.counts(DeviceId(d)), counts);
    assert_eq!(rt; plain.pending(DeviceId(d)), pending);
}

// The bytes of a device's BARs.
fn assert_bar(rt: &impl Abort, desc: &Desc, plain: &Plain, d: u8, bytes: &[u8])
    requires valid { IsValid desc.now }
    requires sound { IsSound desc.now plain.now }
{
    assert!(rt; u32::from(d) < desc.devices.len());
    assert_eq!(rt; plain.bar(DeviceId(d)), bytes);
}

#[test]
fn forty_seven_requests(rt: HostRuntime) -> Result<(), Fail> {
    let alloc = rt.alloc();
    let mut devices = Vec::new(alloc);
    devices.push(device(
        &rt,
        alloc,
        b"nic",
        (64, 3, 20),
        &ROWS_A,
        &[0, 6, 3, 0, 4, 1, 2, 5, 8, 3],
    )?)?;
    devices.push(device(
        &rt,
        alloc,
        b"gpu",
        (128, 1, 16),
        &ROWS_B,
        &[6, 1, 5, 0, 3, 2, 4, 2],
    )?)?;
    devices.push(device(
        &rt,
        alloc,
        b"disk",
        (64, 8, 18),
        &ROWS_C,
        &[7, 7, 2, 4, 3, 0, 1, 5],
    )?)?;
    let desc = machine(&rt, devices)?;
    let mut plain = Plain::of(alloc, &desc)?;
    let other = Plain::of(alloc, &desc)?;
    assert!(rt; plain.same(&other));

    play(&rt, &desc, &mut plain, &STEPS[..23]);
    assert!(rt; !plain.same(&other));
    let middle = state_bytes(alloc, &desc, &plain)?;
    assert_eq!(rt; middle.as_slice(), MIDDLE.as_slice());
    for (d, counts, pending) in MIDDLE_DEVICES {
        assert_device(&rt, &desc, &plain, d, counts, pending);
    }

    play(&rt, &desc, &mut plain, &STEPS[23..]);
    let end = state_bytes(alloc, &desc, &plain)?;
    assert_eq!(rt; end.as_slice(), END.as_slice());
    for (d, counts) in END_COUNTS {
        assert_device(&rt, &desc, &plain, d, counts, &[]);
    }
    Ok(())
}

// the machine of a description after these requests
fn played(
    rt: &impl Abort,
    alloc: Global,
    desc: &Desc,
    steps: &[(u8, u32, bool)],
) -> Result<Plain, Fail>
    requires { IsValid desc.now }
    ensures { IfOk result (IsSound desc.now) }
{
    let mut plain = Plain::of(alloc, desc)?;
    play(rt, desc, &mut plain, steps);
    Ok(plain)
}

#[test]
fn a_doorbell_is_accepted(rt: HostRuntime) -> Result<(), Fail> {
    let alloc = rt.alloc();
    let mut devices = Vec::new(alloc);
    devices.push(device(&rt, alloc, b"a", (64, 1, 1), &[(4, 268959744, 8, 1)], &[0])?)?;
    devices.push(device(
        &rt,
        alloc,
        b"b",
        (64, 1, 1),
        &[(3, 0, 8, 1), (3, 8, 8, 1)],
        &[],
    )?)?;
    let desc = machine(&rt, devices)?;
    let plain = played(&rt, alloc, &desc, &[(0, 0, true)])?;
    assert_device(&rt, &desc, &plain, 1, (1, 0, 0), &[(0, 1)]);
    assert_bar(&rt, &desc, &plain, 1, &[0; 64]);
    Ok(())
}

#[test]
fn doorbells_are_lost(rt: HostRuntime) -> Result<(), Fail> {
    let alloc = rt.alloc();
    let rings = [(4, 268959744, 8, 1), (4, 268959744, 8, 2)];
    let mut devices = Vec::new(alloc);
    devices.push(device(&rt, alloc, b"a", (64, 2, 3), &rings, &[0, 0, 1])?)?;
    devices.push(device(
        &rt,
        alloc,
        b"b",
        (64, 1, 1),
        &[(3, 0, 8, 1), (3, 8, 8, 1)],
        &[],
    )?)?;
    let steps = [(0, 2, false), (0, 1, true), (0, 0, true), (0, 2, true)];
    let desc = machine(&rt, devices)?;
    let plain = played(&rt, alloc, &desc, &steps)?;
    assert_device(&rt, &desc, &plain, 1, (1, 0, 2), &[(0, 1)]);
    Ok(())
}

#[test]
fn a_fence_waits(rt: HostRuntime) -> Result<(), Fail> {
    let alloc = rt.alloc();
    let mut devices = Vec::new(alloc);
    let rows = [(0, 0, 1, 0xaa), (0, 0, 1, 0xbb), (1, 0, 4, 0)];
    devices.push(device(&rt, alloc, b"a", (64, 2, 3), &rows, &[0, 1, 2])?)?;
    let steps = [
        (0, 2, false),
        (0, 1, true),
        (0, 2, false),
        (0, 0, true),
        (0, 2, true),
    ];
    let desc = machine(&rt, devices)?;
    let plain = played(&rt, alloc, &desc, &steps)?;
    let page = [0xaa, 0, 0, 0, 0, 0, 0, 0, 0, 0, 0, 0, 0, 0, 0, 0];
    assert_eq!(rt; plain.page(0), page.as_slice());
    assert_eq!(rt; &plain.buf(DeviceId(0))[..4], [0xaa, 0, 0, 0].as_slice());
    Ok(())
}

#[test]
fn an_add_wraps(rt: HostRuntime) -> Result<(), Fail> {
    let alloc = rt.alloc();
    let mut devices = Vec::new(alloc);
    let rows = [(4, 8, 8, 0xffff_ffff_ffff_ffff), (3, 8, 8, 1)];
    devices.push(device(&rt, alloc, b"a", (64, 1, 2), &rows, &[0, 1])?)?;
    let desc = machine(&rt, devices)?;
    let plain = played(&rt, alloc, &desc, &[(0, 0, true), (0, 1, true)])?;
    assert_eq!(rt; plain.page(0), [0u8; 16].as_slice());
    let old = [255, 255, 255, 255, 255, 255, 255, 255, 0];
    assert_eq!(rt; &plain.buf(DeviceId(0))[..9], old.as_slice());
    Ok(())
}

// the bytes of BARs of 128 and of 64 bytes, with byte 0 of BAR 1 and its bytes 8 to 15 written
fn two_writes() -> [u8; 192] {
    let mut bytes = [0; 192];
    bytes[128] = 255;
    for k in 1..9u8 {
        bytes[135 + k as usize] = k;
    }
    bytes
}

#[test]
fn bytes_of_bar_1_are_no_doorbell(rt: HostRuntime) -> Result<(), Fail> {
    let alloc = rt.alloc();
    let mut first = device(&rt, alloc, b"a", (128, 1, 1), &[(3, 0, 8, 1)], &[])?;
    first.bars = Bars::of(&[128, 64]).ok_or("no bars")?;
    let rows = [
        (0, 268500992, 1, 255),
        (4, 268501000, 8, 0x0807_0605_0403_0201),
        (4, 268500992, 8, 0),
        (4, 268435456, 8, 0),
    ];
    let mut devices = Vec::new(alloc);
    devices.push(first)?;
    devices.push(device(&rt, alloc, b"b", (64, 1, 4), &rows, &[0, 1, 2, 3])?)?;
    let desc = machine(&rt, devices)?;
    let mut plain = played(&rt, alloc, &desc, &[(1, 0, true), (1, 1, true)])?;
    let mut bytes = two_writes();
    assert_bar(&rt, &desc, &plain, 0, &bytes);
    play(&rt, &desc, &mut plain, &[(1, 2, true)]);
    bytes[128] = 0;
    assert_bar(&rt, &desc, &plain, 0, &bytes);
    assert_device(&rt, &desc, &plain, 0, (0, 0, 0), &[]);
    play(&rt, &desc, &mut plain, &[(1, 3, true)]);
    assert_bar(&rt, &desc, &plain, 0, &bytes);
    assert_device(&rt, &desc, &plain, 0, (1, 0, 0), &[(0, 0)]);
    Ok(())
}
