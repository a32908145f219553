//! What no clause says: that bytes go from the one end to the other, strangers don't, a call's wait ends, and nothing
//! stays open.

use crate::{TcpLink, TcpWires};
use std::alloc::Global;
use std::io::{Error, ErrorKind, Read, Write};
use std::net::{Net, OpenStream, SocketAddr, TcpListener, TcpStream};
use std::test::Fail;
use std::time::Duration;
use std::{fs, io};
use vfm_outside::{ConnectFault, Ends, Failed, Link, Wires};

const TEXT: [u8; 5] = [1, 2, 3, 4, 5];

// The calls of wires and links without their clauses: a test compares what it sees, and needs none of them.
fn connect<W: Wires>(wires: &mut W, channels: u32) -> Result<Ends<W::L>, ConnectFault> {
    wires.connect(channels)
}

fn send<L: Link>(link: &mut L, bytes: &[u8]) -> Result<usize, Failed> {
    link.send(bytes)
}

fn recv<L: Link>(link: &mut L, buf: &mut [u8]) -> Result<usize, Failed> {
    link.recv(buf)
}

fn finish<L: Link>(link: &mut L) -> Result<(), Failed> {
    link.finish()
}

// Sends through one link, and answers what came at the other end up to its end, if it did.
fn carried<L: Link>(alloc: Global, near: &mut L, far: &mut L) -> Result<Vec<u8>, Fail> {
    send(near, &TEXT).ok().ok_or("not sent")?;
    finish(near).ok().ok_or("not finished")?;
    let mut came = Vec::new(alloc);
    let mut buf = [0u8; 3];
    for _ in 0..10 {
        let n = recv(far, &mut buf).ok().ok_or("not received")?;
        if n == 0 {
            return Ok(came);
        }
        came.extend_from_slice(buf.get(..n).ok_or("too many bytes")?)?;
    }
    Err(Fail::from("no end"))
}

// How many files the process has open.
fn open_files(rt: &HostRuntime) -> Result<usize, Fail> {
    Ok(fs::read_dir(rt, "/proc/self/fd")?.count())
}

#[test]
fn bytes_go_both_ways_and_nothing_stays_open(rt: HostRuntime) -> Result<(), Fail> {
    let alloc = rt.alloc();
    let before = open_files(&rt)?;
    let mut wires = TcpWires::of(&rt, alloc, Duration::from_secs(5));
    let mut ends = connect(&mut wires, 2).ok().ok_or("not connected")?;
    let near = ends.source.get_mut(1).ok_or("no channel")?;
    let far = ends.dest.get_mut(1).ok_or("no channel")?;
    assert_eq!(rt; carried(alloc, near, far)?.as_slice(), TEXT.as_slice());
    let said = carried(alloc, &mut ends.dest_control, &mut ends.source_control)?;
    assert_eq!(rt; said.as_slice(), TEXT.as_slice());
    // two for each of three pairs; the socket that listened is closed
    assert_eq!(rt; open_files(&rt)?.checked_sub(before), Some(6));
    wires.back(ends);
    assert_eq!(rt; open_files(&rt)?, before);
    Ok(())
}

#[test]
fn a_call_that_waits_too_long_fails(rt: HostRuntime) -> Result<(), Fail> {
    let alloc = rt.alloc();
    let mut wires = TcpWires::of(&rt, alloc, Duration::from_millis(20));
    let mut ends = connect(&mut wires, 1).ok().ok_or("not connected")?;
    let mut buf = [0u8; 8];
    assert_eq!(rt; recv(&mut ends.source_control, &mut buf), Err(Failed));
    assert_eq!(rt; send(&mut ends.dest_control, &TEXT), Ok(5));
    assert_eq!(rt; recv(&mut ends.source_control, &mut buf), Ok(5));
    // nobody reads, so what the system holds for a channel fills up
    let piece = [0u8; 4096];
    let channel = ends.source.get_mut(0).ok_or("no channel")?;
    for _ in 0..30_000 {
        if send(channel, &piece).is_err() {
            break;
        }
    }
    assert_eq!(rt; send(channel, &piece), Err(Failed));
    Ok(())
}

#[test]
fn no_patience_makes_no_link(rt: HostRuntime) -> Result<(), Fail> {
    let alloc = rt.alloc();
    let before = open_files(&rt)?;
    let mut wires = TcpWires::of(&rt, alloc, Duration::ZERO);
    assert_eq!(rt; connect(&mut wires, 1).err(), Some(ConnectFault::Failed));
    assert_eq!(rt; open_files(&rt)?, before);
    Ok(())
}

// A network in which a stranger connects to each address before anybody else does, and sends a byte.
#[derive(Drop)]
struct Crowded<'a> {
    rt: &'a HostRuntime,
}

impl<'a> Net for Crowded<'a> {
    type Stream = TcpStream;

    type Listener = TcpListener;

    fn bind(&self, addr: SocketAddr) -> io::Result<TcpListener> {
        self.rt.bind(addr)
    }

    fn connect(&self, addr: SocketAddr) -> io::Result<TcpStream> {
        let mut stranger = self.rt.connect(addr)?;
        stranger.write(&[99])?;
        self.rt.connect(addr)
    }

    fn connect_timeout(&self, addr: SocketAddr, _timeout: Duration) -> io::Result<TcpStream> {
        self.connect(addr)
    }
}

#[test]
fn a_stranger_is_not_taken_for_a_link(rt: HostRuntime) -> Result<(), Fail> {
    let alloc = rt.alloc();
    let crowded = Crowded { rt: &rt };
    let before = open_files(&rt)?;
    let mut wires = TcpWires::of(&crowded, alloc, Duration::from_secs(5));
    let mut ends = connect(&mut wires, 1).ok().ok_or("not connected")?;
    assert_eq!(rt; open_files(&rt)?.checked_sub(before), Some(4));
    let near = ends.source.get_mut(0).ok_or("no channel")?;
    let far = ends.dest.get_mut(0).ok_or("no channel")?;
    assert_eq!(rt; carried(alloc, near, far)?.as_slice(), TEXT.as_slice());
    let said = carried(alloc, &mut ends.source_control, &mut ends.dest_control)?;
    assert_eq!(rt; said.as_slice(), TEXT.as_slice());
    Ok(())
}

// A stream that is cut off by a signal at every second call, moves a byte at the others, and fails after three.
#[derive(Drop)]
struct Halting {
    cut: bool,
    left: u32,
}

impl Halting {
    fn step(&mut self) -> io::Result<usize> {
        self.cut = !self.cut;
        if self.cut {
            return Err(Error::from(ErrorKind::Interrupted));
        }
        match self.left {
            0 => Err(Error::from(ErrorKind::ConnectionReset)),
            _ => {
                self.left -= 1;
                Ok(1)
            }
        }
    }
}

impl Read for Halting {
    fn read(&mut self, buf: &mut [u8]) -> io::Result<usize> {
        Ok(self.step()?.min(buf.len()))
    }
}

impl Write for Halting {
    fn write(&mut self, buf: &[u8]) -> io::Result<usize> {
        Ok(self.step()?.min(buf.len()))
    }

    fn flush(&mut self) -> io::Result<()> {
        Ok(())
    }
}

impl OpenStream for Halting {}

#[test]
fn a_stream_that_halts_is_tried_again_and_one_that_fails_is_not(rt: HostRuntime) {
    let stream = Halting {
        cut: false,
        left: 3,
    };
    let mut link = TcpLink::of(stream);
    let mut buf = [0u8; 4];
    assert_eq!(rt; send(&mut link, &TEXT), Ok(1));
    assert_eq!(rt; recv(&mut link, &mut buf), Ok(1));
    assert_eq!(rt; send(&mut link, &[]), Ok(0));
    assert_eq!(rt; send(&mut link, &TEXT), Ok(1));
    assert_eq!(rt; send(&mut link, &TEXT), Err(Failed));
    assert_eq!(rt; recv(&mut link, &mut buf), Err(Failed));
    // a stream that can't say that nothing more comes fails at that
    assert_eq!(rt; finish(&mut link), Err(Failed));
    link.close();
    assert_eq!(rt; send(&mut link, &TEXT), Err(Failed));
}
