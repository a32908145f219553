//! What no clause says: that the calls succeed with ample memory, and worked cases of the objects in memory.

ghost use Rattle.std.specs.Prelude.{◌<◌, IfOk};
ghost use Rattle.vfm_outside.specs.Links.{IsNew};
ghost use Rattle.vfm_outside.specs.ScriptEnds.{script_told};

use crate::{
    Beat, ConnectFault, Ends, Failed, Link, MemSink, MemSource, NoBeat, ReadFault, RingLink,
    RingWires, ScriptLink, ScriptWires, Sink, Wires, read_up_to, write_all,
};
use std::alloc::Global;
use std::test::Fail;

const TEXT: [u8; 8] = [1, 2, 3, 4, 5, 6, 7, 8];

#[test]
fn a_source_is_read_up_to_a_bound(rt: HostRuntime) -> Result<(), Fail> {
    let alloc = rt.alloc();
    let mut source = MemSource::of(TEXT.to_vec(alloc)?, Vec::new(alloc), 3);
    let first = read_up_to(alloc, &mut source, 5).ok().ok_or("no bytes")?;
    assert_eq!(rt; first.as_slice(), [1, 2, 3, 4, 5].as_slice());
    let rest = read_up_to(alloc, &mut source, 5).ok().ok_or("no bytes")?;
    assert_eq!(rt; rest.as_slice(), [6, 7, 8].as_slice());
    Ok(())
}

#[test]
fn a_read_that_fails_ends_the_reading(rt: HostRuntime) -> Result<(), Fail> {
    let alloc = rt.alloc();
    let mut source = MemSource::of(TEXT.to_vec(alloc)?, [1u32].to_vec(alloc)?, 3);
    let fault = read_up_to(alloc, &mut source, 8).err();
    assert_eq!(rt; fault, Some(ReadFault::Failed));
    let rest = read_up_to(alloc, &mut source, 8).ok().ok_or("no bytes")?;
    assert_eq!(rt; rest.as_slice(), [4, 5, 6, 7, 8].as_slice());
    Ok(())
}

#[test]
fn a_sink_takes_all_or_a_prefix(rt: HostRuntime) -> Result<(), Fail> {
    let alloc = rt.alloc();
    let mut sink = MemSink::of(alloc, 11, [4u32].to_vec(alloc)?, 2)
        .ok()
        .ok_or("no memory")?;
    assert_eq!(rt; write_all(&mut sink, &TEXT), Ok(()));
    assert_eq!(rt; sink.write(&[]), Ok(0));
    assert_eq!(rt; write_all(&mut sink, &[9]), Err(Failed));
    assert_eq!(rt; write_all(&mut sink, &TEXT), Err(Failed));
    assert_eq!(rt; sink.bytes(), [1, 2, 3, 4, 5, 6, 7, 8, 1, 2].as_slice());
    Ok(())
}

// The calls of a link without their clauses: a test compares what it sees, and needs none of them.
fn send<L: Link>(link: &mut L, bytes: &[u8]) -> Result<usize, Failed> {
    link.send(bytes)
}

fn recv<L: Link>(link: &mut L, buf: &mut [u8]) -> Result<usize, Failed> {
    link.recv(buf)
}

fn finish<L: Link>(link: &mut L) -> Result<(), Failed> {
    link.finish()
}

#[test]
fn a_link_numbers_its_calls_together(rt: HostRuntime) -> Result<(), Fail> {
    let alloc = rt.alloc();
    let made = ScriptLink::of(alloc, TEXT[..3].to_vec(alloc)?, 4, [2u32].to_vec(alloc)?, 2);
    let mut link = made.ok().ok_or("no memory")?;
    let mut buf = [0u8; 8];
    assert_eq!(rt; send(&mut link, &TEXT), Ok(2));
    assert_eq!(rt; recv(&mut link, &mut buf), Ok(2));
    assert_eq!(rt; finish(&mut link), Err(Failed));
    assert_eq!(rt; recv(&mut link, &mut buf), Ok(1));
    assert!(rt; !link.has_ended());
    assert_eq!(rt; recv(&mut link, &mut buf), Ok(0));
    assert!(rt; link.has_ended());
    assert_eq!(rt; link.sent(), [1, 2].as_slice());
    assert_eq!(rt; link.received(), [1, 2, 3].as_slice());
    assert_eq!(rt; link.faults(), 1);
    Ok(())
}

// A new link with this inbox.
fn link_of(alloc: Global, inbox: &[u8]) -> Result<ScriptLink, Fail>
    ensures { IfOk result (λ link. IsNew (script_told link)) }
{
    let link = ScriptLink::of(alloc, inbox.to_vec(alloc)?, 8, Vec::new(alloc), 8);
    Ok(link.ok().ok_or("no memory")?)
}

#[test]
fn wires_give_their_links_once(rt: HostRuntime) -> Result<(), Fail> {
    let alloc = rt.alloc();
    let mut source = Vec::new(alloc);
    source.push(link_of(alloc, &[])?)?;
    let mut dest = Vec::new(alloc);
    dest.push(link_of(alloc, &TEXT)?)?;
    let ends = Ends {
        source_control: link_of(alloc, &[1])?,
        source,
        dest_control: link_of(alloc, &[2])?,
        dest,
    };
    let mut wires = ScriptWires::of(alloc, Some(ends));
    assert_eq!(rt; wires.connect(2).err(), Some(ConnectFault::Failed));
    let ends = wires.connect(1).ok().ok_or("no links")?;
    assert_eq!(rt; ends.source.len(), 1);
    assert_eq!(rt; wires.connect(1).err(), Some(ConnectFault::Failed));
    wires.back(ends);
    Ok(())
}

#[test]
fn wires_without_links_fail(rt: HostRuntime) {
    let mut wires = ScriptWires::of(rt.alloc(), None);
    assert_eq!(rt; wires.connect(1).err(), Some(ConnectFault::Failed));
}

fn shared<B: Beat + Sync>(beat: &B) {
    beat.at(0, 0);
}

#[test]
fn a_beat_may_be_shared() {
    shared(&NoBeat);
}

// The links of one channel over rings of so many slots, which wait for nothing.
fn ring_ends(alloc: Global, slots: usize, fail: &[(u32, u32)]) -> Result<Ends<RingLink>, Fail>
    requires { 0 < slots }
{
    let mut pairs = Vec::new(alloc);
    for pair in fail {
        pairs.push(*pair)?;
    }
    let mut wires = RingWires::of(alloc, slots, 0, pairs);
    Ok(wires.connect(1).ok().ok_or("no memory")?)
}

// The two ends of the one channel.
fn channel_of(ends: Ends<RingLink>) -> Result<(RingLink, RingLink), Fail> {
    let Ends {
        source_control: _,
        mut source,
        dest_control: _,
        mut dest,
    } = ends;
    let near = source.pop().ok_or("no source")?;
    let far = dest.pop().ok_or("no destination")?;
    Ok((near, far))
}

#[test]
fn what_one_end_of_a_ring_sends_the_other_receives(rt: HostRuntime) -> Result<(), Fail> {
    let alloc = rt.alloc();
    let (mut near, mut far) = channel_of(ring_ends(alloc, 4, &[])?)?;
    assert_eq!(rt; send(&mut near, &TEXT), Ok(8));
    assert_eq!(rt; send(&mut far, &[9]), Ok(1));
    assert_eq!(rt; send(&mut near, &[]), Ok(0));
    assert_eq!(rt; finish(&mut near), Ok(()));
    assert!(rt; near.has_finished());
    let mut buf = [0u8; 5];
    assert_eq!(rt; recv(&mut far, &mut buf), Ok(5));
    assert_eq!(rt; buf, [1, 2, 3, 4, 5]);
    assert_eq!(rt; recv(&mut far, &mut []), Ok(0));
    assert!(rt; !far.has_ended());
    assert_eq!(rt; recv(&mut far, &mut buf), Ok(3));
    assert_eq!(rt; buf, [6, 7, 8, 4, 5]);
    // the end comes again at each receipt
    assert_eq!(rt; recv(&mut far, &mut buf), Ok(0));
    assert_eq!(rt; recv(&mut far, &mut buf), Ok(0));
    assert!(rt; far.has_ended());
    assert_eq!(rt; recv(&mut near, &mut buf), Ok(1));
    assert_eq!(rt; buf[0], 9);
    assert_eq!(rt; recv(&mut near, &mut buf), Err(Failed));
    assert_eq!(rt; (near.failed_out(), near.failed_in()), (0, 1));
    assert_eq!(rt; (far.failed_out(), far.failed_in()), (0, 0));
    Ok(())
}

#[test]
fn a_ring_of_one_slot_takes_one_piece(rt: HostRuntime) -> Result<(), Fail> {
    let alloc = rt.alloc();
    for (len, went) in [(1, 1), (255, 255), (256, 256), (257, 256), (65_576, 256)] {
        let (mut near, mut far) = channel_of(ring_ends(alloc, 1, &[])?)?;
        let bytes = vec![in alloc; 7u8; len]?;
        assert_eq!(rt; send(&mut near, bytes.as_slice()), Ok(went));
        assert_eq!(rt; send(&mut near, bytes.as_slice()), Err(Failed));
        assert_eq!(rt; near.failed_out(), 1);
        let mut buf = [0u8; 300];
        assert_eq!(rt; recv(&mut far, &mut buf), Ok(went));
        assert!(rt; buf.iter().take(went).all(|b| *b == 7));
        assert!(rt; buf.iter().skip(went).all(|b| *b == 0));
        assert_eq!(rt; finish(&mut near), Ok(()));
        assert_eq!(rt; finish(&mut near), Err(Failed));
        assert_eq!(rt; near.failed_out(), 2);
        assert_eq!(rt; recv(&mut far, &mut buf), Ok(0));
    }
    Ok(())
}

#[test]
fn a_large_slice_goes_in_as_many_pieces_as_there_is_room_for(rt: HostRuntime) -> Result<(), Fail> {
    let alloc = rt.alloc();
    let (mut near, mut far) = channel_of(ring_ends(alloc, 4, &[])?)?;
    let bytes = vec![in alloc; 7u8; 2000]?;
    assert_eq!(rt; send(&mut near, bytes.as_slice()), Ok(1024));
    let mut buf = [0u8; 256];
    for _ in 0..4 {
        assert_eq!(rt; recv(&mut far, &mut buf), Ok(256));
    }
    assert_eq!(rt; recv(&mut far, &mut buf), Err(Failed));
    assert_eq!(rt; far.failed_in(), 1);
    assert_eq!(rt; near.failed_out(), 0);
    Ok(())
}

#[test]
fn chosen_calls_of_chosen_links_fail(rt: HostRuntime) -> Result<(), Fail> {
    let alloc = rt.alloc();
    // source control's call 0, destination control's 1, the source channel's 1 and the destination channel's 0
    let mut ends = ring_ends(alloc, 4, &[(0, 0), (1, 1), (2, 1), (3, 0)])?;
    let mut buf = [0u8; 8];
    assert_eq!(rt; send(&mut ends.source_control, &[1]), Err(Failed));
    assert_eq!(rt; send(&mut ends.source_control, &[2]), Ok(1));
    assert_eq!(rt; recv(&mut ends.dest_control, &mut buf), Ok(1));
    assert_eq!(rt; buf[0], 2);
    assert_eq!(rt; finish(&mut ends.dest_control), Err(Failed));
    assert!(rt; !ends.dest_control.has_finished());
    assert_eq!(rt; finish(&mut ends.dest_control), Ok(()));
    let (mut near, mut far) = channel_of(ends)?;
    assert_eq!(rt; send(&mut near, &[3]), Ok(1));
    assert_eq!(rt; send(&mut near, &[4]), Err(Failed));
    assert_eq!(rt; send(&mut near, &[5]), Ok(1));
    assert_eq!(rt; recv(&mut far, &mut buf), Err(Failed));
    assert_eq!(rt; recv(&mut far, &mut buf), Ok(1));
    assert_eq!(rt; buf[0], 3);
    assert_eq!(rt; recv(&mut far, &mut buf), Ok(1));
    assert_eq!(rt; buf[0], 5);
    Ok(())
}

#[test]
fn ring_wires_connect_again(rt: HostRuntime) -> Result<(), Fail> {
    let mut wires = RingWires::of(rt.alloc(), 1, 3, Vec::new(rt.alloc()));
    let ends = wires.connect(0).ok().ok_or("no memory")?;
    assert_eq!(rt; ends.source.len(), 0);
    wires.back(ends);
    let ends = wires.connect(8).ok().ok_or("no memory")?;
    assert_eq!(rt; ends.dest.len(), 8);
    wires.back(ends);
    Ok(())
}
