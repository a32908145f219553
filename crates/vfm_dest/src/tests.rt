//! Staging over links with a script: the worked channel as it is, cut and changed.

use super::*;
use crate::worked::*;
use std::alloc::Global;
use std::test::Fail;
use std::thread::Threads;
use vfm_outside::{NoBeat, ScriptLink};

#[test]
fn a_sound_channel_is_staged(rt: HostRuntime) -> Result<(), Fail> {
    let alloc = rt.alloc();
    for version in [1, 2] {
        let desc = described(alloc, 1, u16::from(version))?;
        let links = vec![in alloc; link(alloc, channel(alloc, version)?, &[])?]?;
        let answer = staged(&rt, alloc, &desc, links, 1)?;
        assert_eq!(rt; digest_of(answer)?, DIGEST);
    }
    Ok(())
}

#[test]
fn a_staged_core_has_made_no_entry(rt: HostRuntime) -> Result<(), Fail> {
    let alloc = rt.alloc();
    let desc = described(alloc, 1, 1)?;
    let links = vec![in alloc; link(alloc, channel(alloc, 1)?, &[])?]?;
    if links.len() != desc.channels as usize {
        return Err(Fail::from("channels"));
    }
    let (links, answer) = stage(&rt, alloc, &desc, links, &NoBeat);
    assert_eq!(rt; links.len(), 1);
    match answer {
        Ok(staged) => assert_eq!(rt; staged.core().journal().len(), 0),
        Err(_) => return Err(Fail::from("nothing was staged")),
    }
    Ok(())
}

// All packets in reverse order on the last of three channels.
fn reversed(alloc: Global) -> Result<Vec<ScriptLink>, Fail> {
    let whole = channel(alloc, 1)?;
    let end = [(END, ALL)];
    let back = [
        (DEVICE, END),
        (ENGINE, DEVICE),
        (MEMORY, ENGINE),
        (BLOCK, MEMORY),
        (PAGE_1, BLOCK),
        (PAGE_0, PAGE_1),
        (END, ALL),
    ];
    let first = link(alloc, cut(alloc, whole.as_slice(), &end, &[])?, &[])?;
    let second = link(alloc, cut(alloc, whole.as_slice(), &end, &[])?, &[])?;
    let third = link(alloc, cut(alloc, whole.as_slice(), &back, &[])?, &[])?;
    Ok(vec![in alloc; first, second, third]?)
}

#[test]
fn the_order_of_packets_does_not_count(rt: HostRuntime) -> Result<(), Fail> {
    let alloc = rt.alloc();
    let desc = described(alloc, 3, 1)?;
    for slots in [64, 1] {
        let answer = staged(&rt, alloc, &desc, reversed(alloc)?, slots)?;
        assert_eq!(rt; digest_of(answer)?, DIGEST);
    }
    Ok(())
}

#[test]
fn channels_that_end_too_early_or_too_late(rt: HostRuntime) -> Result<(), Fail> {
    let alloc = rt.alloc();
    assert_eq!(rt; refused(&rt, alloc, 1, &[], &[])?, (8, 0, 0));
    assert_eq!(rt; refused(&rt, alloc, 1, &[(0, 39)], &[])?, (7, 0, 0));
    assert_eq!(rt; refused(&rt, alloc, 1, &[(0, 100)], &[])?, (7, 0, 61));
    assert_eq!(rt; refused(&rt, alloc, 1, &[(0, END)], &[])?, (8, 0, 498));
    assert_eq!(rt;
        refused(&rt, alloc, 1, &[(0, ALL), (0, 1)], &[])?,
        (9, 0, 538)
    );
    assert_eq!(rt;
        refused(&rt, alloc, 1, &[(0, ALL), (END, ALL)], &[])?,
        (9, 0, 538)
    );
    // Abort in place of the end
    assert_eq!(rt;
        refused(&rt, alloc, 1, &[(0, ALL)], &[(END + 7, 4)])?,
        (11, 0, 498)
    );
    Ok(())
}

#[test]
fn headers_that_are_not_sound(rt: HostRuntime) -> Result<(), Fail> {
    let alloc = rt.alloc();
    let all = [(0, ALL)];
    // another version, another kind
    assert_eq!(rt; refused(&rt, alloc, 1, &all, &[(5, 2)])?, (2, 0, 0));
    assert_eq!(rt;
        refused(&rt, alloc, 1, &all, &[(ENGINE + 7, 9)])?,
        (3, 0, 304)
    );
    // another session, another stream
    assert_eq!(rt;
        refused(&rt, alloc, 1, &all, &[(PAGE_1 + 15, 8)])?,
        (4, 0, 61)
    );
    assert_eq!(rt;
        refused(&rt, alloc, 1, &all, &[(PAGE_1 + 19, 2)])?,
        (4, 0, 61)
    );
    // of length 0, and 65,537
    assert_eq!(rt;
        refused(&rt, alloc, 1, &all, &[(BLOCK + 27, 0)])?,
        (5, 0, 122)
    );
    assert_eq!(rt;
        refused(&rt, alloc, 1, &all, &[(BLOCK + 25, 1), (BLOCK + 27, 1)])?,
        (5, 0, 122)
    );
    // a spare byte
    assert_eq!(rt;
        refused(&rt, alloc, 1, &all, &[(END + 39, 1)])?,
        (6, 0, 498)
    );
    Ok(())
}

#[test]
fn streams_that_are_not_whole(rt: HostRuntime) -> Result<(), Fail> {
    let alloc = rt.alloc();
    // the engine packet twice; a word changed besides, which a channel is refused for
    let twice = [(0, DEVICE), (ENGINE, ALL)];
    assert_eq!(rt; refused(&rt, alloc, 1, &twice, &[])?, (21, 1, 1));
    assert_eq!(rt; refused(&rt, alloc, 1, &twice, &[(0, 87)])?, (1, 0, 0));
    // a packet of index 3 behind the memory's config, which has index 2
    assert_eq!(rt;
        refused(&rt, alloc, 1, &[(0, PAGE_1), (0, ALL)], &[(23, 3)])?,
        (22, 0, 3)
    );
    // page 1 with index 5
    assert_eq!(rt;
        refused(&rt, alloc, 1, &[(0, ALL)], &[(PAGE_1 + 23, 5)])?,
        (22, 0, 5)
    );
    // without the memory's config, without page 0
    assert_eq!(rt;
        refused(&rt, alloc, 1, &[(0, MEMORY), (ENGINE, ALL)], &[])?,
        (23, 0, 0)
    );
    assert_eq!(rt; refused(&rt, alloc, 1, &[(PAGE_1, ALL)], &[])?, (24, 0, 0));
    Ok(())
}

#[test]
fn records_that_are_not_sound(rt: HostRuntime) -> Result<(), Fail> {
    let alloc = rt.alloc();
    let all = [(0, ALL)];
    // page 7
    assert_eq!(rt; refused(&rt, alloc, 1, &all, &[(44, 7)])?, (25, 0, 1));
    // one request pending, which with one done is one too many; 400,001 lost
    assert_eq!(rt;
        refused(&rt, alloc, 1, &all, &[(ENGINE + 56, 1)])?,
        (25, 1, 65541)
    );
    assert_eq!(rt;
        refused(
            &rt,
            alloc,
            1,
            &all,
            &[(ENGINE + 50, 6), (ENGINE + 51, 26), (ENGINE + 52, 129)]
        )?,
        (25, 1, 65545)
    );
    // the engine before the block
    assert_eq!(rt;
        refused(&rt, alloc, 1, &all, &[(BLOCK + 23, 1), (ENGINE + 23, 0)])?,
        (25, 1, 65536)
    );
    // another shape
    assert_eq!(rt;
        refused(&rt, alloc, 1, &all, &[(DEVICE + 72, 0)])?,
        (26, 1, 0)
    );
    // page 0 twice, so that page 1 never came
    assert_eq!(rt;
        refused(&rt, alloc, 1, &all, &[(PAGE_1 + 44, 0)])?,
        (27, 0, 1)
    );
    Ok(())
}

#[test]
fn sealed_channels(rt: HostRuntime) -> Result<(), Fail> {
    let alloc = rt.alloc();
    let all = [(0, 762)];
    // a byte of the first packet, a byte of the end's seal
    assert_eq!(rt; refused(&rt, alloc, 2, &all, &[(50, 1)])?, (13, 0, 0));
    assert_eq!(rt;
        refused(&rt, alloc, 2, &all, &[(761, 0), (760, 0)])?,
        (13, 0, 690)
    );
    // cut in the first seal
    assert_eq!(rt; refused(&rt, alloc, 2, &[(0, 92)], &[])?, (7, 0, 0));
    // the other version
    assert_eq!(rt; refused(&rt, alloc, 2, &all, &[(5, 1)])?, (2, 0, 0));
    Ok(())
}

// What comes of two channels with these bytes, which fail at these calls.
fn of_two<H: Threads + Sync>(
    rt: &H,
    alloc: Global,
    first: (&[(usize, usize)], &[u32]),
    second: (&[(usize, usize)], &[u32]),
) -> Result<Result<Staged, StageFault>, Fail> {
    let desc = described(alloc, 2, 1)?;
    let whole = channel(alloc, 1)?;
    let one = link(alloc, cut(alloc, whole.as_slice(), first.0, &[])?, first.1)?;
    let two = link(
        alloc,
        cut(alloc, whole.as_slice(), second.0, &[])?,
        second.1,
    )?;
    staged(rt, alloc, &desc, vec![in alloc; one, two]?, 4)
}

// The fault of it.
fn fault(answer: Result<Staged, StageFault>) -> Result<StageFault, Fail> {
    match answer {
        Err(fault) => Ok(fault),
        Ok(_) => Err(Fail::from("a machine was staged")),
    }
}

#[test]
fn the_least_channel_counts(rt: HostRuntime) -> Result<(), Fail> {
    let alloc = rt.alloc();
    let whole: &[(usize, usize)] = &[(0, ALL)];
    let short: &[(usize, usize)] = &[(0, 39)];
    assert_eq!(rt;
        refusal_in(of_two(&rt, alloc, (whole, &[]), (short, &[]))?)?,
        (7, 1, 0)
    );
    assert_eq!(rt;
        refusal_in(of_two(&rt, alloc, (&[], &[]), (short, &[]))?)?,
        (8, 0, 0)
    );
    // a link that fails comes before every refusal, the least of them first
    let behind = fault(of_two(&rt, alloc, (short, &[]), (whole, &[0]))?)?;
    assert_eq!(rt; behind, StageFault::Link { channel: 1 });
    let both = fault(of_two(&rt, alloc, (whole, &[1]), (whole, &[0]))?)?;
    assert_eq!(rt; both, StageFault::Link { channel: 0 });
    Ok(())
}
