//! The receiving end of a channel.

use crate::ChannelEnd;
use crate::intake::Intake;
use std::alloc::Global;
use vfm_mesh::Fan;
use vfm_outside::Link;
use vfm_packet::{CHANNEL_LIMIT, Expect};

/// How many bytes a reader asks its link for at a time, at most.
const CHUNK_LEN: usize = 8_192;

/// Reads a channel off a link. A reader may move to another thread.
#[derive(Drop)]
pub struct Reader<L> {
    alloc: Global,
    link: L,
    channel: u32,
    expect: Expect,
}

impl<L: Link> Reader<L> {
    ghost use Rattle.std.specs.Prelude.{◌≡◌, ◌≤◌, ℕ};
    ghost use Rattle.vfm_mesh.specs.Rows.{stream_count, fan_rings};
    ghost use Rattle.vfm_recv.specs.Readers.{link_of, channel_of, expected_by};
    ghost use Rattle.vfm_recv.specs.Pumped.{seen, Pumped, ReadOut};

    /// A reader of this link, which is channel number `channel` and has to say what is expected.
    pub fn of(alloc: Global, link: L, channel: u32, expect: Expect) -> Reader<L>
        ensures link { link_of result ≡ link }
        ensures channel { channel_of result ≡ channel }
        ensures expect { expected_by result ≡ expect }
    {
        Reader {
            alloc,
            link,
            channel,
            expect,
        }
    }

    /// The number of the channel.
    pub fn channel(&self) -> u32
        ensures { result ≡ channel_of self.now }
    {
        self.channel
    }

    /// The link.
    pub fn into_link(self) -> L
        ensures { result ≡ link_of self }
    {
        let Reader {
            alloc: _,
            link,
            channel: _,
            expect: _,
        } = self;
        link
    }

    /// Reads the channel to its end, and hands each packet before the channel's first refusal on to the fan, in order, each
    /// once, then the mark that nothing more comes, for every stream. A packet is handed on as soon as it is whole, before
    /// anything more is read. After a refusal, and where memory ran out, what comes is read and dropped, so that the other
    /// end isn't left waiting. Nothing is read after the byte that makes the channel too long.
    ///
    /// The answer is the channel's refusal, or `Ended`; but `Fault` where the link failed, which counts it; and `NoMemory`
    /// where memory ran out. The bytes of a payload are copied once, from the buffer of this call to the vector of the parcel.
    pub fn pump(&mut self, fan: &mut Fan) -> ChannelEnd
        requires { stream_count fan.old ≡ (expected_by self.old).streams }
        ensures pumped { Pumped (expected_by self.old) (seen L.received L.ended L.failed_in (link_of self.old) fan.old)
            (seen L.received L.ended L.failed_in (link_of self.new) fan.new) result }
        ensures never_falls { L.failed_in (link_of self.old) ≤ L.failed_in (link_of self.new) }
        ensures streams { stream_count fan.new ≡ stream_count fan.old }
        ensures rings { fan_rings fan.new ≡ fan_rings fan.old }
        // nothing else changes
        ensures expect { expected_by self.new ≡ expected_by self.old }
        ensures channel { channel_of self.new ≡ channel_of self.old }
        ensures failed_out { L.failed_out (link_of self.new) ≡ L.failed_out (link_of self.old) }
        ensures sent { L.sent (link_of self.new) ≡ L.sent (link_of self.old) }
        ensures finished { L.finished (link_of self.new) ≡ L.finished (link_of self.old) }
    {
        let end = self.read_out(fan);
        match fan.close() {
            Ok(()) => end,
            Err(_) => ChannelEnd::NoMemory,
        }
    }

    // The same, without the mark.
    fn read_out(&mut self, fan: &mut Fan) -> ChannelEnd
        requires { stream_count fan.old ≡ (expected_by self.old).streams }
        ensures read { ReadOut (expected_by self.old) (seen L.received L.ended L.failed_in (link_of self.old) fan.old)
            (seen L.received L.ended L.failed_in (link_of self.new) fan.new) result }
        ensures never_falls { L.failed_in (link_of self.old) ≤ L.failed_in (link_of self.new) }
        ensures streams { stream_count fan.new ≡ stream_count fan.old }
        ensures rings { fan_rings fan.new ≡ fan_rings fan.old }
        ensures expect { expected_by self.new ≡ expected_by self.old }
        ensures channel { channel_of self.new ≡ channel_of self.old }
        ensures failed_out { L.failed_out (link_of self.new) ≡ L.failed_out (link_of self.old) }
        ensures sent { L.sent (link_of self.new) ≡ L.sent (link_of self.old) }
        ensures finished { L.finished (link_of self.new) ≡ L.finished (link_of self.old) }
    {
        let mut intake = Intake::of(self.alloc, self.expect);
        let mut chunk = [0; CHUNK_LEN];
        while intake.came() <= CHANNEL_LIMIT {
            let room = (CHANNEL_LIMIT + 1 - intake.came()).min(CHUNK_LEN as u64) as usize;
            match self.link.recv(&mut chunk[..room]) {
                Ok(0) => return intake.answer(),
                Ok(n) => intake.take_in(&chunk[..n], fan),
                Err(_) => return intake.fault(),
            }
        }
        intake.answer()
    }
}
