//! The worker of one stream.

ghost use Rattle.std.specs.Prelude.{◌≡◌};
ghost use Rattle.vfm_streams.specs.Whole.{is_config};

use std::thread;
use vfm_intake::StreamIntake;
use vfm_mesh::{Funnel, Parcel};
use vfm_outside::Beat;
use vfm_packet::Kind;
use vfm_types::{Desc, NoMemory};

/// After how many takes in a row that found nothing a worker stops.
pub const IDLE_TAKES: u32 = 65_536;

/// Takes the parcels of one stream off the rings of its funnel, and gives the packets to the intake of the stream. It may
/// move to another thread.
#[derive(Drop)]
pub struct StreamWorker {
    number: u32,
    funnel: Funnel,
    intake: StreamIntake,
    // how many channels have given no mark yet
    unclosed: u32,
    // memory ran out
    is_short: bool,
}

impl StreamWorker {
    ghost use Rattle.std.specs.Prelude.{◌≡◌, false};
    ghost use Rattle.vfm_mesh.specs.Rows.{all_known, all_taken, funnel_rings};
    ghost use Rattle.vfm_intake.specs.Streams.{stream_in, IsStreamOf};
    ghost use Rattle.vfm_stream_work.specs.Workers.{funnel_of, intake_of, is_short, HasWorked, HasGiven};

    /// The worker of a stream, over its funnel and its intake, with so many channels. A beat is told its number.
    pub fn of(number: u32, funnel: Funnel, intake: StreamIntake, channels: u32) -> StreamWorker
        ensures funnel { funnel_of result ≡ funnel }
        ensures intake { intake_of result ≡ intake }
        ensures short { is_short result ≡ false }
    {
        StreamWorker {
            number,
            funnel,
            intake,
            unclosed: channels,
            is_short: false,
        }
    }

    /// Takes parcels while they come: until each channel has given its mark, or so many takes in a row found nothing, or
    /// memory ran out. The beat is called before each take. What it took of each channel it took in order, and unless
    /// memory ran out all packets of it came to the intake.
    pub fn work<B: Beat>(&mut self, desc: &Desc, beat: &B)
        requires { IsStreamOf (intake_of self.old) desc.now (stream_in (intake_of self.old)) }
        ensures { HasWorked desc.now self.old self.new }
    {
        let mut idle = 0;
        for turn in 0..u64::MAX {
            if self.unclosed == 0 || self.is_short || idle >= IDLE_TAKES {
                return;
            }
            beat.at(self.number, turn);
            idle = if self.take_one(desc) { 0 } else { idle + 1 };
        }
    }

    // Takes a parcel, if one is there, and says whether.
    fn take_one(&mut self, desc: &Desc) -> bool
        requires { IsStreamOf (intake_of self.old) desc.now (stream_in (intake_of self.old)) }
        ensures { HasWorked desc.now self.old self.new }
    {
        match self.funnel.take() {
            Some((_, parcel)) => {
                self.give(desc, parcel);
                true
            }
            None => {
                thread::yield_now();
                false
            }
        }
    }

    // Gives a parcel that was taken to the intake.
    fn give(&mut self, desc: &Desc, parcel: Parcel)
        requires { IsStreamOf (intake_of self.old) desc.now (stream_in (intake_of self.old)) }
        ensures given { HasGiven desc.now parcel self.old self.new }
        ensures funnel { funnel_of self.new ≡ funnel_of self.old }
    {
        match parcel {
            Parcel::Packet { head, payload } => {
                let config = is_config(head.kind);
                if let Err(NoMemory) = self.intake.take(desc, head.index, config, payload) {
                    self.is_short = true;
                }
            }
            Parcel::Close => self.unclosed = self.unclosed.saturating_sub(1),
        }
    }

    /// The funnel and the intake, and whether memory ran out.
    pub fn into_parts(self) -> (Funnel, StreamIntake, bool)
        ensures funnel { result.0 ≡ funnel_of self }
        ensures intake { result.1 ≡ intake_of self }
        ensures short { result.2 ≡ is_short self }
    {
        let StreamWorker {
            number: _,
            funnel,
            intake,
            unclosed: _,
            is_short,
        } = self;
        (funnel, intake, is_short)
    }
}

// Whether a packet of this kind is a config packet.
fn is_config(kind: Kind) -> bool
    ensures { result ≡ is_config kind }
{
    match kind {
        Kind::Config => true,
        Kind::Data | Kind::End | Kind::Abort => false,
    }
}
