//! Numbers of generated loads, worked out by hand.

use crate::{Sums, generate};
use std::test::Fail;
use vfm_plain::Plain;
use vfm_types::{Desc, DevShape, Job};

// device `d`, if there is one
fn device_of(desc: &Desc, d: u32) -> Option<&DevShape> {
    if d < desc.devices.len() {
        Some(desc.devices.at(d))
    } else {
        None
    }
}

// job `j` of device `d`, if there is one
fn job_of(desc: &Desc, d: u32, j: u32) -> Option<&Job> {
    let shape = device_of(desc, d)?;
    if j < shape.jobs.len() {
        Some(shape.jobs.at(j))
    } else {
        None
    }
}

// the address and the value of an Add
fn added(desc: &Desc, d: u32, j: u32) -> Option<(u64, u64)> {
    match job_of(desc, d, j)? {
        Job::Add { at, value } => Some((*at, *value)),
        _ => None,
    }
}

// whether the job writes so many bytes, all as this one, at this address
fn writes(desc: &Desc, d: u32, j: u32, to: u64, count: usize, byte: u8) -> bool {
    match job_of(desc, d, j) {
        Some(Job::Write { at, bytes }) => {
            let bytes = bytes.bytes();
            *at == to && bytes.len() == count && bytes.iter().all(|b| *b == byte)
        }
        _ => false,
    }
}

#[test]
fn the_least_load(rt: HostRuntime) -> Result<(), Fail> {
    let desc = generate(rt.alloc(), 0)?;
    assert_eq!(rt; desc.session, 0);
    assert_eq!(rt; desc.devices.len(), 8);
    assert_eq!(rt; added(&desc, 0, 0), Some((0, 1)));
    assert_eq!(rt; added(&desc, 0, 1), Some((4104, 2)));
    assert_eq!(rt; added(&desc, 7, 33), Some((917504, 1)));
    assert!(rt; job_of(&desc, 7, 35).is_none());
    assert!(rt; writes(&desc, 7, 34, 268435520, 64, 8));
    Ok(())
}

#[test]
fn the_seventh_load(rt: HostRuntime) -> Result<(), Fail> {
    let desc = generate(rt.alloc(), 7)?;
    assert_eq!(rt; desc.session, 7);
    assert_eq!(rt; added(&desc, 3, 1), Some((397376, 12)));
    assert!(rt; writes(&desc, 2, 34, 270008832, 64, 3));
    assert!(rt; matches!(job_of(&desc, 2, 32), Some(Job::Write { at: 270008320, .. })));
    let Some(shape) = device_of(&desc, 2) else {
        return Err("device".into());
    };
    assert_eq!(rt; shape.name.bytes(), b"d2".as_slice());
    assert!(rt; shape.tells);
    assert_eq!(rt; shape.bar_bytes(), 4096);
    let queue = shape.queue.as_slice();
    assert_eq!(rt; queue.len(), 1088);
    assert!(rt; queue.starts_with(&[0, 1, 2]));
    assert!(rt; queue[30..36] == [30, 31, 32, 34, 0, 1]);
    assert!(rt; queue.ends_with(&[31, 32, 34]));
    Ok(())
}

#[test]
fn the_greatest_load(rt: HostRuntime) -> Result<(), Fail> {
    let desc = generate(rt.alloc(), 4_294_967_295)?;
    assert_eq!(rt; desc.session, 4_294_967_295);
    assert_eq!(rt; added(&desc, 7, 31), Some((1044720, 4294967334)));
    assert!(rt; writes(&desc, 7, 34, 268437504, 64, 8));
    assert!(rt; desc.is_in_range());
    assert!(rt; Desc::new(desc).is_ok());
    Ok(())
}

#[test]
fn sums_at_the_start(rt: HostRuntime) -> Result<(), Fail> {
    let alloc = rt.alloc();
    let desc = generate(alloc, 7)?;
    let plain = Plain::of(alloc, &desc)?;
    let sums = Sums::of(&desc, &plain);
    assert_eq!(rt;
        sums,
        Sums {
            accepted: 8704,
            done: 0,
            lost: 0
        }
    );
    Ok(())
}
