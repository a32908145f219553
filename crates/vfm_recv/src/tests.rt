//! What no clause says: that a packet is handed on before the next read, that the calls succeed with ample memory, and what is
//! answered of worked channels. Their packets are written from the format by hand, their places are sums of packet sizes.

ghost use Rattle.std.specs.Prelude.{◌≡◌, ◌≤◌, ◌+◌, ◌<◌, ◌||◌, Ok, None, length, OnErr, IfOk, is_ok};
ghost use Rattle.vfm_packet.specs.Header.{IsVersion};
ghost use Rattle.vfm_mesh.specs.Rows.{stream_count};
ghost use Rattle.vfm_outside.specs.Counts.{CountsFaults};
ghost use Rattle.vfm_outside.specs.Told.{Takes, Receives};
ghost use Rattle.vfm_outside.specs.Links.{ended_after};

use super::*;
use std::alloc::Global;
use std::test::Fail;
use vfm_mesh::{Fan, Funnel, Mesh, Parcel};
use vfm_outside::{Failed, Link, ScriptLink};
use vfm_packet::{Cause, Expect, Header, Kind, encode_head, seal};

// The session of the worked channels.
const SESSION: u64 = 7;

// Appends a packet of the session: in version 2 with its seal.
fn append(
    out: &mut Vec<u8>,
    version: u16,
    kind: Kind,
    place: (u32, u32),
    payload: &[u8],
) -> Result<(), Fail>
    requires { length payload.now ≤ 65536 }
{
    let head = encode_head(&Header {
        version,
        kind,
        session: SESSION,
        stream: place.0,
        index: place.1,
        length: payload.len() as u32,
    });
    out.extend_from_slice(&head)?;
    out.extend_from_slice(payload)?;
    if version == 2 {
        out.extend_from_slice(&seal(&head, payload))?;
    }
    Ok(())
}

// The version whose packets are sealed, or the other one.
fn version_of(sealed: bool) -> u16
    ensures { IsVersion result }
{
    if sealed { 2 } else { 1 }
}

// A channel of two streams: two data packets, a config packet, and an end packet.
fn channel_of(alloc: Global, version: u16) -> Result<Vec<u8>, Fail> {
    let mut out = Vec::new(alloc);
    append(&mut out, version, Kind::Data, (0, 0), &[1, 2, 3])?;
    append(&mut out, version, Kind::Data, (1, 0), &[4])?;
    append(&mut out, version, Kind::Config, (0, 1), &[5, 6])?;
    append(&mut out, version, Kind::End, (0, 0), &[])?;
    Ok(out)
}

// One fan for two streams, and their funnels, with room for all parcels of a worked channel in the rings.
fn mesh_of(alloc: Global) -> Result<(Fan, Vec<Funnel>), Fail>
    ensures { IfOk result (λ mesh. stream_count mesh.0 ≡ 2) }
{
    let (mut fans, funnels) = Mesh::of(alloc, 1, 2, 16).ok().ok_or("no memory")?;
    let fan = fans.pop().ok_or("no fan")?;
    Ok((fan, funnels))
}

// The mark among parcels.
const CLOSE: u32 = 1000;

// A parcel: its stream, its index, the first byte of its payload, and how many that has.
type Got = (u32, u32, u8, usize);

// What the streams got, stream by stream.
fn all_got(alloc: Global, funnels: &mut Vec<Funnel>) -> Result<Vec<Got>, Fail> {
    let mut got = Vec::new(alloc);
    for stream in 0..funnels.len() {
        for _ in 0..16 {
            let Some((_, parcel)) = funnels[stream].take() else {
                break;
            };
            got.push(match parcel {
                Parcel::Close => ((stream % 16) as u32, CLOSE, 0, 0),
                Parcel::Packet { head, payload } => {
                    let bytes = payload.lent();
                    let first = bytes.first().copied().unwrap_or(0);
                    (head.stream, head.index, first, bytes.len())
                }
            })?;
        }
    }
    Ok(got)
}

// Changes a byte.
fn set(bytes: &mut Vec<u8>, at: usize, byte: u8) -> Result<(), Fail> {
    *bytes.get_mut(at).ok_or("too short")? = byte;
    Ok(())
}

// What a worked channel brings of which so many packets came whole.
fn brought(alloc: Global, packets: usize) -> Result<Vec<Got>, Fail> {
    let mut got = Vec::new(alloc);
    if packets > 0 {
        got.push((0, 0, 1, 3))?;
    }
    if packets > 2 {
        got.push((0, 1, 5, 2))?;
    }
    got.push((0, CLOSE, 0, 0))?;
    if packets > 1 {
        got.push((1, 0, 4, 1))?;
    }
    got.push((1, CLOSE, 0, 0))?;
    Ok(got)
}

// What is read of some bytes, which come in pieces of this size: the answer, what was got, and how often the link failed.
fn heard(
    alloc: Global,
    version: u16,
    inbox: &[u8],
    piece: u32,
    fail: &[u32],
) -> Result<(ChannelEnd, Vec<Got>, u64), Fail>
    requires version { IsVersion version }
    requires piece { 0 < piece }
{
    let fail = fail.to_vec(alloc)?;
    let inbox = inbox.to_vec(alloc)?;
    let link = ScriptLink::of(alloc, inbox, 0, fail, piece)
        .ok()
        .ok_or("no memory")?;
    let expect = Expect {
        version,
        session: SESSION,
        streams: 2,
    };
    let (mut fan, mut funnels) = mesh_of(alloc)?;
    let mut reader = Reader::of(alloc, link, 3, expect);
    let end = reader.pump(&mut fan);
    if reader.channel() != 3 {
        return Err(Fail::from("another channel"));
    }
    let link = reader.into_link();
    if link.faults() == 0 && !link.has_ended() {
        return Err(Fail::from("not read to its end"));
    }
    Ok((end, all_got(alloc, &mut funnels)?, link.faults()))
}

// The answer about a worked channel that is cut after so many bytes, and how many of its packets came, where these are the
// places at which its packets end.
fn of_cut(cut: usize, ends: [usize; 4]) -> (ChannelEnd, usize) {
    if cut == ends[3] {
        return (ChannelEnd::Ended, 3);
    }
    let mut whole = 0usize;
    let mut place = 0;
    for end in ends {
        if end <= cut {
            whole = whole.saturating_add(1);
            place = end;
        }
    }
    if place == cut {
        return (
            ChannelEnd::NoEnd {
                place: place as u64,
            },
            whole,
        );
    }
    (
        ChannelEnd::Truncated {
            place: place as u64,
        },
        whole,
    )
}

#[test]
fn a_channel_cut_at_every_byte(rt: HostRuntime) -> Result<(), Fail> {
    let alloc = rt.alloc();
    for (version, ends) in [(1, [43, 84, 126, 166]), (2, [75, 148, 222, 294])] {
        let channel = channel_of(alloc, version)?;
        assert_eq!(rt; channel.len(), ends[3]);
        for piece in [7, 5000] {
            for cut in 0..channel.len() + 1 {
                let (end, packets) = of_cut(cut, ends);
                let (answer, got, _) = heard(alloc, version, &channel[..cut], piece, &[])?;
                assert_eq!(rt; answer, end, "{cut}");
                assert_eq!(rt;
                    got.as_slice(),
                    brought(alloc, packets)?.as_slice(),
                    "{cut}"
                );
            }
        }
    }
    Ok(())
}

#[test]
fn hostile_channels(rt: HostRuntime) -> Result<(), Fail> {
    let alloc = rt.alloc();
    let bad = |place, cause| ChannelEnd::Bad { place, cause };
    for (sealed, at, byte, end, packets) in [
        (false, 0, b'X', bad(0, Cause::Magic), 0),
        (false, 43, b'X', bad(43, Cause::Magic), 1),
        (false, 48, 2, bad(43, Cause::Version), 1),
        (false, 50, 9, bad(43, Cause::Kind), 1),
        (false, 58, 8, bad(43, Cause::Foreign), 1),
        (false, 62, 2, bad(43, Cause::Foreign), 1),
        (false, 70, 0, bad(43, Cause::Length), 1),
        (false, 82, 1, bad(43, Cause::Spare), 1),
        (false, 133, 4, ChannelEnd::Aborted { place: 126 }, 3),
        (false, 145, 1, bad(126, Cause::Spare), 3),
        (true, 115, 5, bad(75, Cause::Corrupt), 1),
        (true, 147, 5, bad(75, Cause::Corrupt), 1),
        (true, 229, 4, bad(222, Cause::Corrupt), 3),
        (true, 293, 5, bad(222, Cause::Corrupt), 3),
        // a length of 257 takes the rest of the channel for payload
        (false, 69, 1, ChannelEnd::Truncated { place: 43 }, 1),
    ] {
        let version = version_of(sealed);
        let mut channel = channel_of(alloc, version)?;
        set(&mut channel, at, byte)?;
        for piece in [1, 41, 5000] {
            let (answer, got, _) = heard(alloc, version, channel.as_slice(), piece, &[])?;
            assert_eq!(rt; answer, end, "{at}");
            assert_eq!(rt; got.as_slice(), brought(alloc, packets)?.as_slice(), "{at}");
        }
    }
    Ok(())
}

#[test]
fn bytes_after_the_end(rt: HostRuntime) -> Result<(), Fail> {
    let alloc = rt.alloc();
    let mut channel = channel_of(alloc, 1)?;
    let again = channel_of(alloc, 1)?;
    channel.extend_from_slice(again.as_slice())?;
    for len in [167, 209, 332] {
        for piece in [1, 83, 5000] {
            let (answer, got, _) = heard(
                alloc,
                1,
                channel.get(..len).ok_or("too short")?,
                piece,
                &[],
            )?;
            assert_eq!(rt; answer, ChannelEnd::AfterEnd { place: 166 });
            assert_eq!(rt; got.as_slice(), brought(alloc, 3)?.as_slice());
        }
    }
    Ok(())
}

#[test]
fn a_link_that_fails(rt: HostRuntime) -> Result<(), Fail> {
    let alloc = rt.alloc();
    let mut channel = channel_of(alloc, 1)?;
    for (call, packets) in [(0, 0), (4, 0), (5, 1), (8, 1), (9, 2), (13, 3), (17, 3)] {
        let (answer, got, faults) = heard(alloc, 1, channel.as_slice(), 10, &[call])?;
        assert_eq!(rt; answer, ChannelEnd::Fault, "{call}");
        assert_eq!(rt;
            got.as_slice(),
            brought(alloc, packets)?.as_slice(),
            "{call}"
        );
        assert_eq!(rt; faults, 1);
    }
    // it comes before a refusal
    set(&mut channel, 43, b'X')?;
    let (answer, got, _) = heard(alloc, 1, channel.as_slice(), 10, &[17])?;
    assert_eq!(rt; answer, ChannelEnd::Fault);
    assert_eq!(rt; got.as_slice(), brought(alloc, 1)?.as_slice());
    Ok(())
}

// A link that gives the first bytes of a channel in one receipt, and in the next looks whether a parcel of stream 0 came
// before it gives the others.
#[derive(Drop)]
struct Watching {
    channel: Vec<u8>,
    first: usize,
    at: usize,
    funnels: Vec<Funnel>,
    came: bool,
    ended: bool,
    finished: bool,
}

impl Watching {
    // Gives bytes from where it stands, no more than these.
    fn give(&mut self, buf: &mut [u8], most: usize) -> usize
        ensures given { result ≤ length buf.new }
        ensures len { length buf.new ≡ length buf.old }
        ensures ended { self.new.ended ≡ self.old.ended }
        ensures finished { self.new.finished ≡ self.old.finished }
    {
        let rest = self.channel.get(self.at..).unwrap_or(&[]);
        let n = rest.len().min(most).min(buf.len());
        buf[..n].copy_from_slice(&rest[..n]);
        self.at = self.at.saturating_add(n);
        n
    }
}

impl Link for Watching {
    ghost failed_out = { λ _. 0 };

    ghost failed_in = { λ _. 0 };

    ghost ended = { λ l. l.ended };

    ghost finished = { λ l. l.finished };

    ghost sent = { λ _. None };

    ghost received = { λ _. None };

    fn send(&mut self, bytes: &[u8]) -> Result<usize, Failed> {
        Ok(bytes.len())
    }

    fn recv(&mut self, buf: &mut [u8]) -> Result<usize, Failed> {
        if buf.is_empty() {
            return Ok(0);
        }
        let most = if self.at == 0 { self.first } else { usize::MAX };
        if self.at == self.first {
            self.came = self
                .funnels
                .get_mut(0)
                .and_then(|funnel| funnel.take())
                .is_some();
        }
        let n = self.give(buf, most);
        if n == 0 {
            self.ended = true;
        }
        Ok(n)
    }

    fn finish(&mut self) -> Result<(), Failed> {
        self.finished = true;
        Ok(())
    }
}

// Whether the first packet came to its funnel before the reader read on, where a receipt gives so many bytes first.
fn came_before_the_next_read(alloc: Global, first: usize) -> Result<bool, Fail> {
    let (mut fan, funnels) = mesh_of(alloc)?;
    let link = Watching {
        channel: channel_of(alloc, 1)?,
        first,
        at: 0,
        funnels,
        came: false,
        ended: false,
        finished: false,
    };
    let expect = Expect {
        version: 1,
        session: SESSION,
        streams: 2,
    };
    let mut reader = Reader::of(alloc, link, 0, expect);
    if reader.pump(&mut fan) != ChannelEnd::Ended {
        return Err(Fail::from("another answer"));
    }
    Ok(reader.into_link().came)
}

#[test]
fn a_packet_is_handed_on_before_the_next_read(rt: HostRuntime) -> Result<(), Fail> {
    for (first, came) in [(42, false), (43, true), (44, true), (83, true)] {
        assert_eq!(rt;
            came_before_the_next_read(rt.alloc(), first)?,
            came,
            "{first}"
        );
    }
    Ok(())
}

// A link that gives some bytes over and over.
#[derive(Drop)]
struct Endless {
    bytes: Vec<u8>,
    at: usize,
    given: u64,
    ended: bool,
    finished: bool,
}

impl Link for Endless {
    ghost failed_out = { λ _. 0 };

    ghost failed_in = { λ _. 0 };

    ghost ended = { λ l. l.ended };

    ghost finished = { λ l. l.finished };

    ghost sent = { λ _. None };

    ghost received = { λ _. None };

    fn send(&mut self, bytes: &[u8]) -> Result<usize, Failed> {
        Ok(bytes.len())
    }

    fn recv(&mut self, buf: &mut [u8]) -> Result<usize, Failed> {
        if buf.is_empty() {
            return Ok(0);
        }
        if self.at >= self.bytes.len() {
            self.at = 0;
        }
        let rest = self.bytes.get(self.at..).unwrap_or(&[]);
        let n = rest.len().min(buf.len());
        buf[..n].copy_from_slice(&rest[..n]);
        if n == 0 {
            self.ended = true;
        }
        self.at = self.at.saturating_add(n);
        self.given = self.given.saturating_add(n as u64);
        Ok(n)
    }

    fn finish(&mut self) -> Result<(), Failed> {
        self.finished = true;
        Ok(())
    }
}

// The answer about bytes that come over and over, and how many were read.
fn answer_of_endless(alloc: Global, bytes: Vec<u8>) -> Result<(ChannelEnd, u64), Fail> {
    let (mut fan, _funnels) = mesh_of(alloc)?;
    let link = Endless {
        bytes,
        at: 0,
        given: 0,
        ended: false,
        finished: false,
    };
    let expect = Expect {
        version: 1,
        session: SESSION,
        streams: 2,
    };
    let mut reader = Reader::of(alloc, link, 0, expect);
    let end = reader.pump(&mut fan);
    Ok((end, reader.into_link().given))
}

#[test]
fn nothing_is_read_past_the_limit(rt: HostRuntime) -> Result<(), Fail> {
    let alloc = rt.alloc();
    let zeros = vec![in alloc; 0u8; 4096]?;
    let bad = ChannelEnd::Bad {
        place: 0,
        cause: Cause::Magic,
    };
    assert_eq!(rt; answer_of_endless(alloc, zeros)?, (bad, 67_108_865));
    let payload = vec![in alloc; 1u8; 65_536]?;
    let mut packet = Vec::new(alloc);
    append(&mut packet, 1, Kind::Data, (0, 0), payload.as_slice())?;
    assert_eq!(rt;
        answer_of_endless(alloc, packet)?,
        (ChannelEnd::TooLong, 67_108_865)
    );
    Ok(())
}
