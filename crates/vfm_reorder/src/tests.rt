//! What no clause says: that the calls succeed with ample memory, and worked cases whose answers are those of the rule.

use super::*;
use std::alloc::Global;
use std::test::Fail;
use vfm_mesh::Payload;

// A buffer into which packets with these indexes were put, config packets where it says so, each with its index as its one
// byte of payload.
fn buffer_of(alloc: Global, packets: &[(u32, bool)]) -> Result<ReorderBuf, Fail> {
    let mut buffer = ReorderBuf::of(alloc);
    for (index, config) in packets {
        let payload = payload_of(alloc, *index)?;
        buffer.put(*index, *config, payload).ok().ok_or("refused")?;
    }
    Ok(buffer)
}

fn payload_of(alloc: Global, index: u32) -> Result<Payload, Fail> {
    Ok(Payload::of(vec![in alloc; (index % 256) as u8]?, 0))
}

// The next packet, without its payload, which has to be its own.
fn next(buffer: &mut ReorderBuf) -> Result<Option<(u32, bool)>, Fail> {
    match buffer.pop_ready() {
        Some((index, config, payload)) => {
            if payload.lent() != [(index % 256) as u8].as_slice() {
                return Err(Fail::from("another payload"));
            }
            Ok(Some((index, config)))
        }
        None => Ok(None),
    }
}

// How many packets are given, and what is answered then.
fn end_of(mut buffer: ReorderBuf) -> Option<(u32, Result<u64, Gap>)> {
    let mut given = 0u32;
    for _ in 0..1000 {
        match buffer.pop_ready() {
            Some(_) => given = given.saturating_add(1),
            None => return Some((given, buffer.finish())),
        }
    }
    None
}

#[test]
fn a_packet_that_came_early(rt: HostRuntime) -> Result<(), Fail> {
    let mut buffer = buffer_of(rt.alloc(), &[(3, false), (0, false)])?;
    assert_eq!(rt; next(&mut buffer)?, Some((0, false)));
    assert_eq!(rt; next(&mut buffer)?, None);
    for index in [3, 0] {
        let again = buffer.put(index, true, payload_of(rt.alloc(), index)?);
        assert_eq!(rt; again, Err(PutFault::Doubled { index }));
    }
    for index in [2, 1] {
        let put = buffer.put(index, false, payload_of(rt.alloc(), index)?);
        assert_eq!(rt; put, Ok(()));
    }
    for index in [1, 2, 3] {
        assert_eq!(rt; next(&mut buffer)?, Some((index, false)));
    }
    assert_eq!(rt; next(&mut buffer)?, None);
    Ok(())
}

#[test]
fn nothing_follows_the_config_packet(rt: HostRuntime) -> Result<(), Fail> {
    let mut buffer = buffer_of(rt.alloc(), &[(1, true), (2, false), (0, false)])?;
    assert_eq!(rt; next(&mut buffer)?, Some((0, false)));
    assert_eq!(rt; next(&mut buffer)?, Some((1, true)));
    assert_eq!(rt; next(&mut buffer)?, None);
    Ok(())
}

#[test]
fn answers_at_the_end(rt: HostRuntime) -> Result<(), Fail> {
    let alloc = rt.alloc();
    let max = u32::MAX;
    let cases: [(&[(u32, bool)], u32, Result<u64, Gap>); 12] = [
        (&[(0, true)], 1, Ok(1)),
        (&[(2, true), (1, false), (0, false)], 3, Ok(3)),
        (&[], 0, Err(Gap::NoConfig)),
        (&[(1, false), (0, false)], 2, Err(Gap::NoConfig)),
        (&[(max, false)], 0, Err(Gap::NoConfig)),
        (&[(0, false), (3, true)], 1, Err(Gap::Missing { index: 1 })),
        (
            &[(3, true), (0, false), (2, false)],
            1,
            Err(Gap::Missing { index: 1 }),
        ),
        (&[(max, true)], 0, Err(Gap::Missing { index: 0 })),
        (
            &[(0, false), (1, true), (7, false), (5, false)],
            2,
            Err(Gap::Past { index: 5 }),
        ),
        (
            &[(0, false), (1, true), (7, true), (9, false)],
            2,
            Err(Gap::Past { index: 7 }),
        ),
        // a packet above the config packet is answered before one that is lacking below it
        (
            &[(0, false), (3, true), (4, false)],
            1,
            Err(Gap::Past { index: 4 }),
        ),
        (
            &[(5, true), (8, true), (2, false)],
            0,
            Err(Gap::Past { index: 8 }),
        ),
    ];
    for (packets, given, answer) in cases {
        assert_eq!(rt; end_of(buffer_of(alloc, packets)?), Some((given, answer)));
    }
    Ok(())
}
