//! The worker of one channel.

use std::alloc::Global;
use vfm_mesh::Fan;
use vfm_outside::{Beat, Link};
use vfm_packet::Expect;
use vfm_recv::{ChannelEnd, Reader};

/// Reads one channel to its end, and hands what comes to the fan of the channel. It may move to another thread.
#[derive(Drop)]
pub struct ChannelWorker<L> {
    number: u32,
    reader: Reader<L>,
    fan: Fan,
    end: ChannelEnd,
}

/// What is left of a channel's worker: the link, the fan, and the answer about the channel.
#[derive(Drop)]
pub struct Heard<L> {
    pub link: L,
    pub fan: Fan,
    pub end: ChannelEnd,
}

impl<L: Link> ChannelWorker<L> {
    ghost use Rattle.std.specs.Prelude.{◌≡◌};
    ghost use Rattle.vfm_dest.specs.Heards.{told, out_words};
    ghost use Rattle.vfm_dest.specs.ChannelWorkers.{link_in, fan_in, end_in, expect_in, IsFresh, HasHeard};

    /// The worker of a channel over its link and its fan. A beat is told `number`.
    pub fn of(
        alloc: Global,
        number: u32,
        channel: u32,
        expect: Expect,
        link: L,
        fan: Fan,
    ) -> ChannelWorker<L>
        ensures link { link_in result ≡ link }
        ensures fan { fan_in result ≡ fan }
        ensures expect { expect_in result ≡ expect }
    {
        ChannelWorker {
            number,
            reader: Reader::of(alloc, link, channel, expect),
            fan,
            end: ChannelEnd::Ended,
        }
    }

    /// Reads the channel to its end, and hands what came to the fan, to which nothing was given. The beat is called once,
    /// before it.
    pub fn work<B: Beat>(&mut self, beat: &B)
        requires { IsFresh self.old }
        ensures { HasHeard (told L.received L.ended L.failed_in) (out_words L.sent L.finished L.failed_out) self.old self.new }
    {
        beat.at(self.number, 0);
        self.end = self.reader.pump(&mut self.fan);
    }

    /// The link, the fan, and the answer about the channel.
    pub fn into_heard(self) -> Heard<L>
        ensures link { result.link ≡ link_in self }
        ensures fan { result.fan ≡ fan_in self }
        ensures end { result.end ≡ end_in self }
    {
        let ChannelWorker {
            number: _,
            reader,
            fan,
            end,
        } = self;
        Heard {
            link: reader.into_link(),
            fan,
            end,
        }
    }
}
