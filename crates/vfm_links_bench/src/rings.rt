//! Packets through a sender and a pair of rings.

ghost use Rattle.std.specs.Prelude.{◌≡◌, ◌<◌, length};
ghost use Rattle.vfm_packet.specs.Header.{IsVersion};

use anyhow::{Result, bail};
use std::alloc::Global;
use vfm_outside::{Ends, Link, RingLink, RingWires, Wires};
use vfm_packet::{Header, Kind};
use vfm_send::Sender;

/// How many bytes of payload a packet has: the most that it can have.
const PAYLOAD: usize = 65_536;

/// How many pieces a ring holds: those of one packet, and more.
const SLOTS: usize = 1024;

// The two ends of a channel over rings, which wait for nothing.
fn ring_pair(alloc: Global) -> Result<(RingLink, RingLink)> {
    let mut wires = RingWires::of(alloc, SLOTS, 0, Vec::new(alloc));
    let Ok(ends) = wires.connect(1) else {
        bail!("no memory for the rings");
    };
    let Ends {
        source_control: _,
        mut source,
        dest_control: _,
        mut dest,
    } = ends;
    match (source.pop(), dest.pop()) {
        (Some(near), Some(far)) => Ok((near, far)),
        _ => bail!("no channel"),
    }
}

// Takes what is in the ring, and says how many bytes came.
fn drain(link: &mut RingLink) -> u64 {
    let mut buf = [0u8; 4096];
    let mut came: u64 = 0;
    for _ in 0..SLOTS {
        match link.recv(&mut buf) {
            Ok(n) if n > 0 => came = came.saturating_add(n as u64),
            _ => return came,
        }
    }
    came
}

// Puts a packet and sends it. Says whether it went.
fn send_packet(sender: &mut Sender<RingLink>, version: u16, index: u32, payload: &[u8]) -> bool
    requires version { IsVersion version }
    requires length { length payload.now ≡ 65536 }
{
    let head = Header {
        version,
        kind: Kind::Data,
        session: 7,
        stream: 0,
        index,
        length: 65_536,
    };
    sender.put(&head, payload).is_ok() && sender.send_all().is_ok()
}

/// Sends so many packets of this version through a pair of rings, and says how many bytes came, or none where a link failed.
pub fn through_rings(alloc: Global, version: u16, packets: u32) -> Result<Option<u64>>
    requires { IsVersion version }
{
    let payload = vec![in alloc; 7u8; PAYLOAD]?;
    let (near, mut far) = ring_pair(alloc)?;
    let mut sender = Sender::of(alloc, near);
    let mut came: u64 = 0;
    for index in 0..packets {
        if !send_packet(&mut sender, version, index, payload.as_slice()) {
            return Ok(None);
        }
        came = came.saturating_add(drain(&mut far));
    }
    Ok(Some(came))
}
