//! A link over a TCP stream.

ghost use Rattle.std.specs.Prelude.{◌≡◌, ◌+◌, ◌<◌, ◌≤◌, None, Some, IfSome, false, length};
ghost use Rattle.vfm_outside.specs.Links.{IsNew};
ghost use Rattle.vfm_net.specs.TcpEnds.{tcp_told};

use std::io::{ErrorKind, Read, Write};
use std::net::{OpenStream, Shutdown};
use vfm_outside::{Counting, Failed, Link};

// How often a call is made again that a signal cut off before anything was moved.
const TRIES: u32 = 1_000;

/// A link over a TCP stream, or over one that is closed, which fails at every call that would move something. It
/// reports no bytes: what a stream sends and brings is up to the system.
#[derive(Drop)]
pub struct TcpLink<S> {
    stream: Option<S>,
    failed_out: u64,
    failed_in: u64,
    ended: bool,
    finished: bool,
}

impl<S: Drop> TcpLink<S> {
    /// A new link over this stream.
    pub fn of(stream: S) -> TcpLink<S>
        ensures new { IsNew (tcp_told result) }
        ensures stream { result.stream ≡ Some stream }
        ensures finished { result.finished ≡ false }
    {
        TcpLink {
            stream: Some(stream),
            failed_out: 0,
            failed_in: 0,
            ended: false,
            finished: false,
        }
    }

    /// Closes the stream. What the link reports stays.
    pub fn close(&mut self)
        ensures closed { self.new.stream ≡ None }
        ensures told { tcp_told self.new ≡ tcp_told self.old }
    {
        self.stream = None;
    }
}

// Writes at the least one byte of a piece that isn't empty, and answers how many; nothing where the stream fails.
fn write_some<S: Write>(stream: &mut S, bytes: &[u8]) -> Option<usize>
    ensures { IfSome result (λ n. (0 < n) × (n ≤ length bytes.now)) }
{
    for _ in 0..TRIES {
        match stream.write(bytes) {
            Ok(0) => return None,
            Ok(n) => return Some(n),
            Err(fault) if fault.kind() == ErrorKind::Interrupted => {}
            Err(_) => return None,
        }
    }
    None
}

// Reads bytes to the start of `buf`, and answers how many, 0 at the end; nothing where the stream fails.
fn read_some<S: Read>(stream: &mut S, buf: &mut [u8]) -> Option<usize>
    ensures some { IfSome result (λ n. n ≤ length buf.new) }
    ensures count { length buf.new ≡ length buf.old }
{
    for _ in 0..TRIES {
        match stream.read(buf) {
            Ok(n) => return Some(n),
            Err(fault) if fault.kind() == ErrorKind::Interrupted => {}
            Err(_) => return None,
        }
    }
    None
}

impl<S: Drop> Counting for TcpLink<S> {
    ghost faults = { λ l. l.failed_out + l.failed_in };

    fn fault_count(&self) -> u64 {
        self.failed_out.saturating_add(self.failed_in)
    }
}

impl<S: Read + Write + OpenStream + Send + Drop> Link for TcpLink<S> {
    ghost failed_out = { λ l. l.failed_out };

    ghost failed_in = { λ l. l.failed_in };

    ghost ended = { λ l. l.ended };

    ghost finished = { λ l. l.finished };

    ghost sent = { λ _. None };

    ghost received = { λ _. None };

    fn send(&mut self, bytes: &[u8]) -> Result<usize, Failed> {
        if bytes.is_empty() {
            return Ok(0);
        }
        let written = match &mut self.stream {
            Some(stream) => write_some(stream, bytes),
            None => None,
        };
        match written {
            Some(n) => Ok(n),
            None => {
                self.failed_out = self.failed_out.saturating_add(1);
                Err(Failed)
            }
        }
    }

    fn recv(&mut self, buf: &mut [u8]) -> Result<usize, Failed> {
        if buf.is_empty() {
            return Ok(0);
        }
        let read = match &mut self.stream {
            Some(stream) => read_some(stream, buf),
            None => None,
        };
        match read {
            Some(n) => {
                if n == 0 {
                    self.ended = true;
                }
                Ok(n)
            }
            None => {
                self.failed_in = self.failed_in.saturating_add(1);
                Err(Failed)
            }
        }
    }

    fn finish(&mut self) -> Result<(), Failed> {
        let told = match &self.stream {
            Some(stream) => stream.shutdown(Shutdown::Write).is_ok(),
            None => false,
        };
        if !told {
            self.failed_out = self.failed_out.saturating_add(1);
            return Err(Failed);
        }
        self.finished = true;
        Ok(())
    }
}
