//! Why a stream or a channel is refused.

ghost use Rattle.std.specs.Prelude.{◌≡◌, ℕ, List};
ghost use Rattle.vfm_types.specs.declared.desc.Desc.{Desc};
ghost use Rattle.vfm_record.specs.Record.{Record};
ghost use Rattle.vfm_streams.specs.Verdict.{index_and_place, stream_refusal};
ghost use Rattle.vfm_intake.specs.Causes.{end_refusal, fault_named};
ghost use Rattle.vfm_intake.specs.Given.{gap_named, load_named, KeepsDigests};

use vfm_load::LoadFault;
use vfm_packet::CHANNEL_LIMIT;
use vfm_recv::ChannelEnd;
use vfm_reorder::Gap;
use vfm_types::Refusal;

/// Why a stream makes no part of a machine. Where several apply, the first of this order is the answer.
#[derive(Clone, Copy, Debug, PartialEq, Eq)]
pub enum StreamRefusal {
    /// Two packets came with this index, the least such.
    Doubled { index: u32 },
    /// A packet stands above the config packet, this one first.
    Past { index: u32 },
    /// No config packet came.
    NoConfig,
    /// No packet below the config packet came with this index, the least such.
    Missing { index: u32 },
    /// The payload of the packet with this index, the first such, isn't a record that can stand there, by the test of what
    /// stands at this place.
    BadRecord { index: u32, place: u32 },
    /// The digest that came isn't that of the own shape text.
    ConfigDiffers { ours: [u8; 32], theirs: [u8; 32] },
    /// This page or block, the least such, never came; 4,294,967,295 where all came and counts or pending requests lack.
    NotWhole { least: u32 },
}

impl StreamRefusal {
    /// The refusal of stream number `stream`: its code, the stream, and the index or what else is named.
    pub fn refusal(&self, stream: u32) -> Refusal
        ensures { result ≡ stream_refusal stream (fault_named self.now) }
    {
        match self {
            StreamRefusal::Doubled { index } => named(21, stream, u64::from(*index)),
            StreamRefusal::Past { index } => named(22, stream, u64::from(*index)),
            StreamRefusal::NoConfig => named(23, stream, 0),
            StreamRefusal::Missing { index } => named(24, stream, u64::from(*index)),
            StreamRefusal::BadRecord { index, place } => {
                named(25, stream, index_and_place(*index, *place))
            }
            StreamRefusal::ConfigDiffers { .. } => named(26, stream, 0),
            StreamRefusal::NotWhole { least } => named(27, stream, u64::from(*least)),
        }
    }

    // That of a gap.
    pub(crate) fn of_gap(gap: Gap) -> StreamRefusal
        ensures { fault_named result ≡ gap_named gap }
    {
        match gap {
            Gap::Past { index } => StreamRefusal::Past { index },
            Gap::NoConfig => StreamRefusal::NoConfig,
            Gap::Missing { index } => StreamRefusal::Missing { index },
        }
    }

    // That of what the loader found.
    pub(crate) fn of_load(fault: LoadFault) -> StreamRefusal
        ensures fault { fault_named result ≡ load_named fault }
        ensures digests { (D : Desc) (s : ℕ) (records : List Record) → KeepsDigests D s records fault result }
    {
        match fault {
            LoadFault::BadRecord { index, place } => StreamRefusal::BadRecord { index, place },
            LoadFault::ConfigDiffers { ours, theirs } => {
                StreamRefusal::ConfigDiffers { ours, theirs }
            }
            LoadFault::NotWhole { least } => StreamRefusal::NotWhole { least },
        }
    }
}

// An index and a place in one number: the place is cut to what fits beside the index.
fn index_and_place(index: u32, place: u32) -> u64
    ensures { result ≡ index_and_place index place }
{
    u64::from(index) * 65_536 + u64::from(place.min(65_535))
}

// A refusal with this code.
fn named(code: u32, of: u32, b: u64) -> Refusal
    ensures { result ≡ record { code = code; a = of; b = b } }
{
    Refusal {
        code,
        a: u64::from(of),
        b,
    }
}

/// The refusal of channel number `channel` that ended so, if it is refused. A fault of the link is code 12, and want of
/// memory code 40: they are no refusals of the verdict, and have their codes for the frame that names them.
pub fn end_refusal(channel: u32, end: ChannelEnd) -> Option<Refusal>
    ensures { result ≡ end_refusal channel end }
{
    match end {
        ChannelEnd::Ended => None,
        ChannelEnd::Bad { place, cause } => Some(named(cause.number(), channel, place)),
        ChannelEnd::Truncated { place } => Some(named(7, channel, place)),
        ChannelEnd::NoEnd { place } => Some(named(8, channel, place)),
        ChannelEnd::AfterEnd { place } => Some(named(9, channel, place)),
        ChannelEnd::TooLong => Some(named(10, channel, CHANNEL_LIMIT)),
        ChannelEnd::Aborted { place } => Some(named(11, channel, place)),
        ChannelEnd::Fault => Some(named(12, channel, 0)),
        ChannelEnd::NoMemory => Some(named(40, 0, 0)),
    }
}
