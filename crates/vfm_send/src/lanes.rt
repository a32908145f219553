//! Which channel carries a packet.

ghost use Rattle.std.specs.Prelude.{◌≡◌, ◌<◌};
ghost use Rattle.vfm_send.specs.Lanes.{lane};

/// The channel that carries the packet of this stream and index, where packets go round over so many channels. Stream 0 is
/// memory, stream `d + 1` is device `d`; there is at least one channel. The sum is taken in 64 bits.
pub fn lane(stream: u32, index: u32, channels: u32) -> u32
    requires { 0 < channels }
    ensures value { result ≡ lane stream index channels }
    ensures below { result < channels }
{
    ((u64::from(stream) + u64::from(index)) % u64::from(channels)) as u32
}
