//! What no clause says: that the calls succeed with ample memory; and worked moves of one device over two channels. The
//! answers are those of the table of refusals; the digests come from another program.

ghost use Rattle.std.specs.Prelude.{IfOk};
ghost use Rattle.vfm_types.specs.Valid.{IsValid};
ghost use Rattle.vfm_intake.specs.Intakes.{IsIntakeOf};
ghost use Rattle.vfm_intake.specs.Streams.{IsAtRest};

use super::*;
use std::alloc::Global;
use std::test::Fail;
use std::thread::join;
use vfm_mesh::{Parcel, Payload};
use vfm_packet::{Cause, Header, Kind};
use vfm_plain::Part;
use vfm_recv::ChannelEnd;
use vfm_types::{Bars, Bytes64, Desc, DevShape, Flags, Job, Jobs, Name, Queue, Refusal, Shapes};

// The digests of the shape texts of memory and of the device.
const OF_MEMORY: [u8; 32] = [
    0x5e, 0x94, 0xf4, 0xdf, 0x56, 0xbc, 0xed, 0x96, 0xb3, 0x83, 0xe8, 0xec, 0xed, 0x53, 0x83, 0x15,
    0xfa, 0x37, 0x99, 0xc1, 0x7c, 0xf3, 0x87, 0x0a, 0x34, 0x96, 0xa1, 0x3f, 0xbc, 0xbc, 0xfb, 0x58,
];

const OF_DEVICE: [u8; 32] = [
    0x54, 0x1b, 0x74, 0x2f, 0x93, 0x3a, 0x70, 0x79, 0x61, 0x14, 0xff, 0x94, 0xf3, 0x08, 0x4b, 0x13,
    0x78, 0xc6, 0xc3, 0xde, 0x93, 0x21, 0xd6, 0xd9, 0xe1, 0xf7, 0x0b, 0xc5, 0xf2, 0x79, 0x13, 0x19,
];

// What a packet says; a page has 16 bytes and a block 64, all equal.
#[derive(Clone, Copy)]
enum Say {
    Page(u32, u8),
    Block(u32, u8),
    Counts(u32, u32, u32, u32),
    Pair(u32, u32),
    Digest([u8; 32]),
}

// A packet of a stream, with its index.
type Sent = (u32, u32, Say);

// A sound move, stream by stream, each in order.
const SOUND: [Sent; 8] = [
    (0, 0, Say::Page(0, 1)),
    (0, 1, Say::Page(1, 2)),
    (0, 2, Say::Digest(OF_MEMORY)),
    (1, 0, Say::Block(0, 0)),
    (1, 1, Say::Block(1, 3)),
    (1, 2, Say::Counts(2, 1, 4, 1)),
    (1, 3, Say::Pair(1, 0)),
    (1, 4, Say::Digest(OF_DEVICE)),
];

const BOTH_ENDED: [ChannelEnd; 2] = [ChannelEnd::Ended, ChannelEnd::Ended];

fn push_numbers(out: &mut Vec<u8>, numbers: &[u32]) -> Result<(), Fail> {
    for n in numbers {
        out.extend_from_slice(&n.to_be_bytes())?;
    }
    Ok(())
}

fn payload_of(alloc: Global, say: Say) -> Result<Vec<u8>, Fail> {
    let mut out = Vec::new(alloc);
    match say {
        Say::Page(p, byte) => {
            out.push(1)?;
            push_numbers(&mut out, &[p])?;
            out.extend_from_slice(&[byte; 16])?;
        }
        Say::Block(b, byte) => {
            out.push(2)?;
            push_numbers(&mut out, &[b])?;
            out.extend_from_slice(&[byte; 64])?;
        }
        Say::Counts(accepted, done, lost, pend) => {
            out.push(3)?;
            push_numbers(&mut out, &[accepted, done, lost, pend])?;
            out.extend_from_slice(&[9; 64])?;
        }
        Say::Pair(number, job) => {
            out.extend_from_slice(&[4, 0, 1])?;
            push_numbers(&mut out, &[number, job])?;
        }
        Say::Digest(digest) => {
            out.push(5)?;
            out.extend_from_slice(&digest)?;
        }
    }
    Ok(out)
}

fn parcel_of(alloc: Global, sent: Sent) -> Result<Parcel, Fail> {
    let (stream, index, say) = sent;
    let list = payload_of(alloc, say)?;
    if list.len() > 65_536 {
        return Err(Fail::from("too long"));
    }
    let head = Header {
        version: 1,
        kind: match say {
            Say::Digest(_) => Kind::Config,
            _ => Kind::Data,
        },
        session: 9,
        stream,
        index,
        length: list.len() as u32,
    };
    Ok(Parcel::Packet {
        head,
        payload: Payload::of(list, 0),
    })
}

// Two pages of 16 bytes; a device with two blocks and two jobs.
fn described(alloc: Global) -> Result<Desc, Fail>
    ensures { IfOk result IsValid }
{
    let bytes = Bytes64::of(&[7, 0, 0, 0, 0, 0, 0, 0]).ok_or("bytes")?;
    let jobs = vec![in alloc; Job::Write { at: 8, bytes }, Job::Read { at: 16, len: 5 }]?;
    let shape = DevShape {
        name: Name::of(b"a").ok_or("name")?,
        flags: Flags::of(3).ok_or("flags")?,
        bars: Bars::of(&[128]).ok_or("bars")?,
        window: 2,
        tells: true,
        budget: 5,
        fails: 0,
        jobs: Jobs::of(jobs),
        queue: Queue::of(Vec::new(alloc)),
    };
    let shapes = vec![in alloc; shape]?;
    let desc = Desc {
        session: 9,
        page: 16,
        pages: 2,
        channels: 2,
        version: 1,
        begin: 3,
        rounds: 4,
        threshold: 6,
        devices: Shapes::of(shapes),
    };
    if !desc.is_in_range() {
        return Err(Fail::from("range"));
    }
    match Desc::new(desc) {
        Ok(desc) => Ok(desc),
        Err(_) => Err(Fail::from("valid")),
    }
}

// Gives a packet to the intake.
fn give(alloc: Global, desc: &Desc, intake: &mut Intake, sent: Sent) -> Result<(), Fail>
    requires { IsIntakeOf intake.old desc.now }
    ensures { IsIntakeOf intake.new desc.now }
{
    if sent.0 > desc.devices.len() {
        return Err(Fail::from("no such stream"));
    }
    let parcel = parcel_of(alloc, sent)?;
    intake.take(desc, sent.0, parcel)?;
    intake.take(desc, sent.0, Parcel::Close)?;
    Ok(())
}

// The answer where these packets came in this order, each followed by the mark of a channel, and the channels ended so.
fn answer(
    alloc: Global,
    ends: &[ChannelEnd],
    sent: &[Sent],
) -> Result<Result<Vec<Part>, Refusal>, Fail> {
    if ends.len() > 8 {
        return Err(Fail::from("too many"));
    }
    let desc = described(alloc)?;
    let mut intake = Intake::of(alloc, &desc)?;
    for i in 0..sent.len() {
        give(alloc, &desc, &mut intake, sent[i])?;
    }
    // as where each stream was fed apart from the others
    let joined = Intake::of_streams(alloc, &desc, intake.into_streams())?;
    Ok(verdict_of(&desc, ends, joined))
}

// Whether the parts are those of the sound move.
fn are_sound(parts: &[Part]) -> bool {
    match parts {
        [memory, device] => is_memory(memory) && is_device(device),
        _ => false,
    }
}

fn is_memory(part: &Part) -> bool {
    match part {
        Part::Pages(sheets) => match sheets.lent() {
            [a, b] => a.lent() == [1; 16].as_slice() && b.lent() == [2; 16].as_slice(),
            _ => false,
        },
        Part::Device { .. } => false,
    }
}

fn is_device(part: &Part) -> bool {
    let mut both = [0; 128];
    both[64..].fill(3);
    match part {
        Part::Pages(_) => false,
        Part::Device {
            bar,
            buf,
            counts: (accepted, done, lost),
            pending,
        } => {
            bar.lent() == both.as_slice()
                && buf == &[9; 64]
                && (*accepted, *done, *lost) == (2, 1, 4)
                && pending.lent() == [(1, 0)].as_slice()
        }
    }
}

// The refusal where these packets came, whatever the parts are where there is none.
fn refusal(alloc: Global, ends: &[ChannelEnd], sent: &[Sent]) -> Result<Option<Refusal>, Fail> {
    match answer(alloc, ends, sent)? {
        Ok(_) => Ok(None),
        Err(refusal) => Ok(Some(refusal)),
    }
}

fn refused(code: u32, a: u64, b: u64) -> Option<Refusal> {
    Some(Refusal { code, a, b })
}

#[test]
fn a_sound_move_in_any_order(rt: HostRuntime) -> Result<(), Fail> {
    let alloc = rt.alloc();
    let orders: [[usize; 8]; 4] = [
        [0, 1, 2, 3, 4, 5, 6, 7],
        [7, 6, 5, 4, 3, 2, 1, 0],
        [0, 4, 1, 5, 2, 6, 3, 7],
        [6, 2, 7, 0, 4, 5, 1, 3],
    ];
    for order in orders {
        let sent = order.map(|i| SOUND[i % 8]);
        match answer(alloc, &BOTH_ENDED, &sent)? {
            Ok(parts) => assert!(rt; are_sound(parts.as_slice())),
            Err(_) => return Err(Fail::from("refused")),
        }
    }
    Ok(())
}

#[test]
fn one_packet_lacking_each(rt: HostRuntime) -> Result<(), Fail> {
    let alloc = rt.alloc();
    let refusals = [
        refused(24, 0, 0),
        refused(24, 0, 1),
        refused(23, 0, 0),
        refused(24, 1, 0),
        refused(24, 1, 1),
        refused(24, 1, 2),
        refused(24, 1, 3),
        refused(23, 1, 0),
    ];
    for left_out in 0..8 {
        let mut others = Vec::new(alloc);
        for i in 0..8 {
            if i != left_out {
                others.push(SOUND[i])?;
            }
        }
        let found = refusal(alloc, &BOTH_ENDED, others.as_slice())?;
        assert_eq!(rt; found, refusals[left_out]);
    }
    Ok(())
}

#[test]
fn what_is_wrong_with_one_stream(rt: HostRuntime) -> Result<(), Fail> {
    let alloc = rt.alloc();
    let page = Say::Page(0, 1);
    let own = Say::Digest(OF_MEMORY);
    let other = Say::Digest(OF_DEVICE);
    let cases: [(&[Sent], Option<Refusal>); 12] = [
        (&[], refused(23, 0, 0)),
        // the least doubled index, in whatever order it came, before everything else
        (&[(0, 5, page), (0, 5, page)], refused(21, 0, 5)),
        (
            &[
                (0, 1, own),
                (0, 5, page),
                (0, 4, page),
                (0, 5, page),
                (0, 4, page),
            ],
            refused(21, 0, 4),
        ),
        (
            &[(0, 0, page), (0, 0, page), (0, 9, page), (0, 9, page)],
            refused(21, 0, 0),
        ),
        (&[(0, 3, own), (0, 0, page), (0, 3, own)], refused(21, 0, 3)),
        // above the digest, then below it
        (&[(0, 1, own), (0, 8, page), (0, 6, own)], refused(22, 0, 6)),
        (
            &[(0, 3, own), (0, 0, page), (0, 2, page)],
            refused(24, 0, 1),
        ),
        // a gap before a record that can't stand there
        (&[(0, 0, Say::Page(7, 1)), (0, 2, own)], refused(24, 0, 1)),
        (&[(0, 1, own), (0, 0, Say::Page(7, 1))], refused(25, 0, 1)),
        (
            &[(0, 2, own), (0, 1, Say::Block(0, 0)), (0, 0, page)],
            refused(25, 0, 65_536),
        ),
        (&[(0, 1, other), (0, 0, page)], refused(26, 0, 0)),
        (&[(0, 1, own), (0, 0, page)], refused(27, 0, 1)),
    ];
    for (sent, found) in cases {
        assert_eq!(rt; refusal(alloc, &BOTH_ENDED, sent)?, found);
    }
    Ok(())
}

#[test]
fn the_least_refused_stream_counts(rt: HostRuntime) -> Result<(), Fail> {
    let alloc = rt.alloc();
    let mut sent = SOUND;
    sent[4] = (1, 1, Say::Block(2, 3));
    assert_eq!(rt; refusal(alloc, &BOTH_ENDED, &sent)?, refused(25, 1, 65_537));
    sent[1] = (0, 1, Say::Page(0, 2));
    assert_eq!(rt; refusal(alloc, &BOTH_ENDED, &sent)?, refused(27, 0, 1));
    sent[0] = (0, 0, Say::Pair(0, 0));
    assert_eq!(rt; refusal(alloc, &BOTH_ENDED, &sent)?, refused(25, 0, 0));
    Ok(())
}

#[test]
fn a_refused_channel_comes_before_a_refused_stream(rt: HostRuntime) -> Result<(), Fail> {
    let alloc = rt.alloc();
    let cases = [
        (
            ChannelEnd::Bad {
                place: 40,
                cause: Cause::Magic,
            },
            1,
            40,
        ),
        (
            ChannelEnd::Bad {
                place: 0,
                cause: Cause::Spare,
            },
            6,
            0,
        ),
        (ChannelEnd::Truncated { place: 3 }, 7, 3),
        (ChannelEnd::NoEnd { place: 538 }, 8, 538),
        (ChannelEnd::AfterEnd { place: 578 }, 9, 578),
        (ChannelEnd::TooLong, 10, 67_108_864),
        (ChannelEnd::Aborted { place: 61 }, 11, 61),
    ];
    for (end, code, b) in cases {
        let last = [ChannelEnd::Ended, end];
        let both = [end, ChannelEnd::Truncated { place: 1 }];
        assert_eq!(rt; refusal(alloc, &last, &SOUND)?, refused(code, 1, b));
        assert_eq!(rt; refusal(alloc, &last, &[])?, refused(code, 1, b));
        assert_eq!(rt; refusal(alloc, &both, &[])?, refused(code, 0, b));
    }
    Ok(())
}

// Moves an intake of a stream to another thread, to which nothing came there.
fn has_no_config(intake: StreamIntake) -> bool
    requires { IsAtRest intake }
{
    match intake.finish() {
        Ok(_) => false,
        Err(refusal) => matches!(refusal, StreamRefusal::NoConfig),
    }
}

#[test]
fn two_streams_in_two_threads(rt: HostRuntime) -> Result<(), Fail> {
    let desc = described(rt.alloc())?;
    let memory = StreamIntake::of(rt.alloc(), &desc, 0)?;
    let device = StreamIntake::of(rt.alloc(), &desc, 1)?;
    let (first, second) = join(
        &rt,
        move || has_no_config(memory),
        move || has_no_config(device),
    );
    assert!(rt; first && second);
    Ok(())
}

#[test]
fn no_channel_brings_nothing(rt: HostRuntime) -> Result<(), Fail> {
    assert_eq!(rt; refusal(rt.alloc(), &[], &[])?, refused(23, 0, 0));
    assert_eq!(rt; end_refusal(3, ChannelEnd::Fault), refused(12, 3, 0));
    assert_eq!(rt; end_refusal(3, ChannelEnd::NoMemory), refused(40, 0, 0));
    assert_eq!(rt; end_refusal(3, ChannelEnd::Ended), None);
    Ok(())
}

#[test]
fn refusals_name_their_numbers(rt: HostRuntime) {
    let max = u32::MAX;
    let cases = [
        (StreamRefusal::Doubled { index: max }, 21, 4_294_967_295),
        (StreamRefusal::Past { index: 1 }, 22, 1),
        (StreamRefusal::NoConfig, 23, 0),
        (StreamRefusal::Missing { index: 2 }, 24, 2),
        (
            StreamRefusal::BadRecord {
                index: 2,
                place: 65_535,
            },
            25,
            196_607,
        ),
        (
            StreamRefusal::BadRecord {
                index: 2,
                place: 65_536,
            },
            25,
            196_607,
        ),
        (
            StreamRefusal::BadRecord {
                index: max,
                place: 1,
            },
            25,
            281_474_976_645_121,
        ),
        (
            StreamRefusal::ConfigDiffers {
                ours: OF_MEMORY,
                theirs: OF_DEVICE,
            },
            26,
            0,
        ),
        (StreamRefusal::NotWhole { least: max }, 27, 4_294_967_295),
    ];
    for (stream_refusal, code, b) in cases {
        assert_eq!(rt; Some(stream_refusal.refusal(8)), refused(code, 8, b));
    }
}
