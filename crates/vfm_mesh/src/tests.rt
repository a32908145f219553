//! What no clause says: that the calls succeed with ample memory, that an end sees what the other gave, and that the two ends
//! may be in two threads. The expected lists are those of the rule: what was given, in order.

ghost use Rattle.std.specs.Prelude.{◌≡◌, ◌<◌, length, OnOk};
ghost use Rattle.vfm_mesh.specs.Meshes.{AreMesh, streams_left};

use super::*;
use std::alloc::Global;
use std::test::Fail;
use std::thread::{self, join};
use vfm_packet::{Header, Kind};

// The mark as a number, beside the indexes of packets.
const CLOSE: u32 = 1000;

// A packet with this index, or the mark.
fn parcel_of(alloc: Global, index: u32) -> Result<Parcel, Fail> {
    if index == CLOSE {
        return Ok(Parcel::Close);
    }
    let head = Header {
        version: 1,
        kind: Kind::Data,
        session: 7,
        stream: 0,
        index,
        length: 2,
    };
    // the payload stands after another byte
    let list = vec![in alloc; 9, (index % 256) as u8, 5]?;
    Ok(Parcel::Packet {
        head,
        payload: Payload::of(list, 1),
    })
}

// The index of a packet, whose payload has to be its own, or the mark.
fn index_of(parcel: &Parcel) -> Result<u32, Fail> {
    match parcel {
        Parcel::Close => Ok(CLOSE),
        Parcel::Packet { head, payload } => {
            if payload.lent() != [(head.index % 256) as u8, 5].as_slice() {
                return Err(Fail::from("another payload"));
            }
            Ok(head.index)
        }
    }
}

// Gives parcels of stream 0 to a channel's fan.
fn give(
    alloc: Global,
    fans: &mut Vec<Fan>,
    funnels: &Vec<Funnel>,
    channel: usize,
    indexes: &[u32],
) -> Result<(), Fail>
    requires mesh { AreMesh fans.old.items funnels.now.items }
    requires channel { channel < length fans.old.items }
    requires stream { 0 < length funnels.now.items }
    ensures mesh { OnOk result (AreMesh fans.new.items funnels.now.items) }
    ensures fans { length fans.new.items ≡ length fans.old.items }
{
    for index in indexes {
        let parcel = parcel_of(alloc, *index)?;
        give_one(fans, funnels, channel, parcel)?;
    }
    Ok(())
}

fn give_one(
    fans: &mut Vec<Fan>,
    funnels: &Vec<Funnel>,
    channel: usize,
    parcel: Parcel,
) -> Result<(), Fail>
    requires mesh { AreMesh fans.old.items funnels.now.items }
    requires channel { channel < length fans.old.items }
    requires stream { 0 < length funnels.now.items }
    ensures mesh { AreMesh fans.new.items funnels.now.items }
    ensures fans { length fans.new.items ≡ length fans.old.items }
{
    match fans[channel].offer(0, parcel) {
        Ok(()) => Ok(()),
        Err(_) => Err(Fail::from("no memory")),
    }
}

// Takes so many parcels of stream 0, or all that are seen: the channel and the index of each.
fn take(
    alloc: Global,
    fans: &Vec<Fan>,
    funnels: &mut Vec<Funnel>,
    most: u32,
) -> Result<Vec<(u32, u32)>, Fail>
    requires mesh { AreMesh fans.now.items funnels.old.items }
    requires stream { 0 < length funnels.old.items }
    ensures mesh { OnOk result (AreMesh fans.now.items funnels.new.items) }
    ensures funnels { length funnels.new.items ≡ length funnels.old.items }
{
    let mut taken = Vec::new(alloc);
    for _ in 0..most {
        match take_one(fans, funnels)? {
            Some(one) => taken.push(one)?,
            None => return Ok(taken),
        }
    }
    Ok(taken)
}

fn take_one(fans: &Vec<Fan>, funnels: &mut Vec<Funnel>) -> Result<Option<(u32, u32)>, Fail>
    requires mesh { AreMesh fans.now.items funnels.old.items }
    requires stream { 0 < length funnels.old.items }
    ensures mesh { AreMesh fans.now.items funnels.new.items }
    ensures funnels { length funnels.new.items ≡ length funnels.old.items }
{
    match funnels[0].take() {
        Some((channel, parcel)) => Ok(Some((channel, index_of(&parcel)?))),
        None => Ok(None),
    }
}

// All that is left of stream 0.
fn all_left(alloc: Global, mut rest: Rest) -> Result<Vec<(u32, u32)>, Fail>
    requires { 0 < streams_left rest }
{
    let mut left = Vec::new(alloc);
    for _ in 0..1000 {
        match rest.pop(0) {
            Some((channel, parcel)) => left.push((channel, index_of(&parcel)?))?,
            None => return Ok(left),
        }
    }
    Err(Fail::from("it does not end"))
}

// The indexes of a channel among parcels.
fn of_channel(alloc: Global, channel: u32, parcels: &[(u32, u32)]) -> Result<Vec<u32>, Fail> {
    let mut indexes = Vec::new(alloc);
    for parcel in parcels {
        if parcel.0 == channel {
            indexes.push(parcel.1)?;
        }
    }
    Ok(indexes)
}

#[test]
fn one_slot(rt: HostRuntime) -> Result<(), Fail> {
    let alloc = rt.alloc();
    let (mut fans, mut funnels) = Mesh::of(alloc, 1, 1, 1).ok().ok_or("no memory")?;
    give(alloc, &mut fans, &funnels, 0, &[1, 2, 3])?;
    assert_eq!(rt;
        take(alloc, &fans, &mut funnels, 5)?.as_slice(),
        [(0, 1)].as_slice()
    );
    let left = all_left(alloc, settle(fans, funnels))?;
    assert_eq!(rt; left.as_slice(), [(0, 2), (0, 3)].as_slice());
    Ok(())
}

#[test]
fn what_was_kept_goes_into_the_ring_first(rt: HostRuntime) -> Result<(), Fail> {
    let alloc = rt.alloc();
    let (mut fans, mut funnels) = Mesh::of(alloc, 1, 1, 2).ok().ok_or("no memory")?;
    give(alloc, &mut fans, &funnels, 0, &[1, 2, 3, 4])?;
    assert_eq!(rt;
        take(alloc, &fans, &mut funnels, 1)?.as_slice(),
        [(0, 1)].as_slice()
    );
    give(alloc, &mut fans, &funnels, 0, &[CLOSE])?;
    let taken = take(alloc, &fans, &mut funnels, 9)?;
    assert_eq!(rt; taken.as_slice(), [(0, 2), (0, 3)].as_slice());
    let left = all_left(alloc, settle(fans, funnels))?;
    assert_eq!(rt; left.as_slice(), [(0, 4), (0, CLOSE)].as_slice());
    Ok(())
}

// Two channels whose parcels come in turns; a loader takes so many of them, and the rest is taken back.
fn two_channels(alloc: Global, most: u32) -> Result<(Vec<(u32, u32)>, Vec<(u32, u32)>), Fail> {
    let (mut fans, mut funnels) = Mesh::of(alloc, 2, 1, 2).ok().ok_or("no memory")?;
    give(alloc, &mut fans, &funnels, 1, &[1, 3, CLOSE])?;
    give(alloc, &mut fans, &funnels, 0, &[0, 2, CLOSE])?;
    let taken = take(alloc, &fans, &mut funnels, most)?;
    let left = all_left(alloc, settle(fans, funnels))?;
    Ok((taken, left))
}

#[test]
fn what_is_taken_and_what_is_left(rt: HostRuntime) -> Result<(), Fail> {
    let alloc = rt.alloc();
    for most in 0..7u32 {
        let (mut all, left) = two_channels(alloc, most)?;
        // of the six parcels, the two marks are kept
        assert_eq!(rt; all.len(), most.min(4) as usize, "{most}");
        assert!(rt; left.is_sorted_by(|a, b| a.0 <= b.0), "{most}");
        all.extend_from_slice(left.as_slice())?;
        assert_eq!(rt;
            of_channel(alloc, 0, all.as_slice())?.as_slice(),
            [0, 2, CLOSE].as_slice(),
            "{most}"
        );
        assert_eq!(rt;
            of_channel(alloc, 1, all.as_slice())?.as_slice(),
            [1, 3, CLOSE].as_slice(),
            "{most}"
        );
    }
    Ok(())
}

// Takes parcels until one comes.
fn wait_for_one(mut funnel: Funnel) -> bool {
    for _ in 0..10_000_000u32 {
        if funnel.take().is_some() {
            return true;
        }
        thread::yield_now();
    }
    false
}

#[test]
fn the_two_ends_in_two_threads(rt: HostRuntime) -> Result<(), Fail> {
    let (mut fans, mut funnels) = Mesh::of(rt.alloc(), 1, 1, 1).ok().ok_or("no memory")?;
    let mut fan = fans.pop().ok_or("no fan")?;
    let funnel = funnels.pop().ok_or("no funnel")?;
    let (given, taken) = join(
        &rt,
        move || fan.close().is_ok(),
        move || wait_for_one(funnel),
    );
    assert!(rt; given && taken);
    Ok(())
}
