//! What is left of a mesh once its readers and loaders are done.

ghost use Rattle.std.specs.Prelude.{◌≡◌, ◌≤◌, length, map, replicate};
ghost use Rattle.vfm_mesh.specs.Rows.{stream_count, channel_count};

use crate::{Fan, Funnel, Parcel};

/// The fans and the funnels of a mesh, and in them the parcels that no loader took.
#[derive(Drop)]
pub struct Rest {
    pub(crate) fans: Vec<Fan>,
    pub(crate) funnels: Vec<Funnel>,
    ghost numbered: { length fans.items ≤ 4294967295 },
    ghost feeds: { map stream_count fans.items ≡ replicate (length fans.items) (length funnels.items) },
    ghost rings: { map channel_count funnels.items ≡ replicate (length funnels.items) (length fans.items) },
}

impl Rest {
    ghost use Rattle.std.specs.Prelude.{◌≡◌, ◌<◌, ℕ, [], ◌∷◌, IfSome, IfNone};
    ghost use Rattle.vfm_mesh.specs.Meshes.{channels_left, streams_left, in_ring, kept_back, left, Gives, IsSameLeft};

    // Takes the oldest parcel that is in the ring of a channel and a stream.
    fn pop_ring(&mut self, channel: usize, stream: usize) -> Option<Parcel>
        requires channel { channel < channels_left self.old }
        requires stream { stream < streams_left self.old }
        ensures some { IfSome result (λ parcel. in_ring self.old channel stream ≡ parcel ∷ in_ring self.new channel stream) }
        ensures none { IfNone result ((in_ring self.old channel stream ≡ []) × (in_ring self.new channel stream ≡ [])) }
        ensures others { (k t : ℕ) → (k ≡ channel → t ≡ stream → ⊥) → in_ring self.new k t ≡ in_ring self.old k t }
        ensures fans { self.new.fans ≡ self.old.fans }
        ensures streams { streams_left self.new ≡ streams_left self.old }
    {
        self.funnels[stream].pop_known(channel)
    }

    // Takes the oldest parcel of a stream that a channel's fan kept.
    fn pop_kept(&mut self, channel: usize, stream: usize) -> Option<Parcel>
        requires channel { channel < channels_left self.old }
        requires stream { stream < streams_left self.old }
        ensures some { IfSome result (λ parcel. kept_back self.old channel stream ≡ parcel ∷ kept_back self.new channel stream) }
        ensures none { IfNone result ((kept_back self.old channel stream ≡ []) × (kept_back self.new channel stream ≡ [])) }
        ensures others { (k t : ℕ) → (k ≡ channel → t ≡ stream → ⊥) → kept_back self.new k t ≡ kept_back self.old k t }
        ensures funnels { self.new.funnels ≡ self.old.funnels }
        ensures channels { channels_left self.new ≡ channels_left self.old }
    {
        self.fans[channel].pop_kept(stream)
    }

    // Takes the oldest parcel that is left of a channel and a stream.
    fn pop_of(&mut self, channel: usize, stream: usize) -> Option<Parcel>
        requires channel { channel < channels_left self.old }
        requires stream { stream < streams_left self.old }
        ensures some { IfSome result (λ parcel. left self.old channel stream ≡ parcel ∷ left self.new channel stream) }
        ensures none { IfNone result ((left self.old channel stream ≡ []) × (left self.new channel stream ≡ [])) }
        ensures others { (k t : ℕ) → (k ≡ channel → t ≡ stream → ⊥) → left self.new k t ≡ left self.old k t }
        ensures channels { channels_left self.new ≡ channels_left self.old }
        ensures streams { streams_left self.new ≡ streams_left self.old }
    {
        match self.pop_ring(channel, stream) {
            Some(parcel) => Some(parcel),
            None => self.pop_kept(channel, stream),
        }
    }

    /// Takes a parcel of a stream, and says of which channel: all of channel 0 in order, then of channel 1, and so on.
    /// `None` exactly where nothing of the stream is left.
    pub fn pop(&mut self, stream: u32) -> Option<(u32, Parcel)>
        requires { stream < streams_left self.old }
        ensures some { IfSome result (λ given. Gives self.old self.new stream given) }
        ensures none { IfNone result (((k : ℕ) → k < channels_left self.old → left self.old k stream ≡ []) × IsSameLeft self.old self.new) }
        ensures channels { channels_left self.new ≡ channels_left self.old }
        ensures streams { streams_left self.new ≡ streams_left self.old }
    {
        for channel in 0..self.fans.len() {
            if let Some(parcel) = self.pop_of(channel, stream as usize) {
                return Some((channel as u32, parcel));
            }
        }
        None
    }
}
