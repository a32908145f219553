//! The reader's end of a mesh: a feed for each stream.

use crate::feed::{Feed, see_all};
use crate::{Funnel, Parcel};
use std::alloc::Global;
use vfm_types::NoMemory;

/// What the reader of one channel gives its parcels to, stream by stream. It may move to another thread.
#[derive(Drop)]
pub struct Fan {
    pub(crate) feeds: Vec<Feed>,
}

impl Fan {
    ghost use Rattle.std.specs.Prelude.{◌≡◌, ◌+◌, ◌<◌, ◌≤◌, ℕ, ◌∷◌, [], ◌++◌, length, map, slice_set, slice_index_or, ◌==◌, if◌then◌else◌, IsOk, IsErr, IfOk, IfErr, IfSome, IfNone, OnOk, OnErr};
    ghost use Rattle.vfm_mesh.specs.declared.feed.Feed.{Feed};
    ghost use Rattle.vfm_mesh.specs.Feeds.{feed_given, feed_kept, feed_free, feed_ring, RingId};
    ghost use Rattle.vfm_mesh.specs.Rows.{stream_count, all_given, given, all_kept, kept, all_free, free_slots, fan_rings, closed, ClosedInPart, HasFullRing, channel_count, all_taken, taken, all_known, known, funnel_rings};

    /// Gives a parcel of a stream. It goes into the ring of the stream, or to the end of what the fan keeps, so that the
    /// stream's loader gets all parcels of this channel in order. It is kept, which may take memory, only where no slot of
    /// the ring is seen to be free; so the first parcels, as many as the ring has slots, go into it. What was kept before
    /// goes into the ring first, as far as there are slots. When memory runs out the parcel comes back.
    pub fn offer(&mut self, stream: u32, parcel: Parcel) -> Result<(), (Parcel, NoMemory)>
        requires { stream < stream_count self.old }
        ensures given { OnOk result (all_given self.new ≡ slice_set (all_given self.old) stream (given self.old stream ++ parcel ∷ [])) }
        ensures unchanged { OnErr result (all_given self.new ≡ all_given self.old) }
        ensures back { IfErr result (λ e. e.0 ≡ parcel) }
        ensures in_ring { kept self.old stream ≡ [] → 0 < free_slots self.old stream
            → IsOk result × (kept self.new stream ≡ []) × (free_slots self.old stream ≤ free_slots self.new stream + 1) }
        ensures kept { 0 < length (kept self.new stream) → free_slots self.new stream ≡ 0 }
        ensures memory { IsErr result → free_slots self.new stream ≡ 0 }
        // no other stream is touched
        ensures others { (d : Feed) → self.new.feeds.items ≡ slice_set self.old.feeds.items stream (slice_index_or self.new.feeds.items stream d) }
        ensures rings { fan_rings self.new ≡ fan_rings self.old }
        ensures streams { stream_count self.new ≡ stream_count self.old }
    {
        self.offer_at(stream as usize, parcel)
    }

    // The same.
    fn offer_at(&mut self, stream: usize, parcel: Parcel) -> Result<(), (Parcel, NoMemory)>
        requires { stream < stream_count self.old }
        ensures given { OnOk result (all_given self.new ≡ slice_set (all_given self.old) stream (given self.old stream ++ parcel ∷ [])) }
        ensures unchanged { OnErr result (all_given self.new ≡ all_given self.old) }
        ensures back { IfErr result (λ e. e.0 ≡ parcel) }
        ensures in_ring { kept self.old stream ≡ [] → 0 < free_slots self.old stream
            → IsOk result × (kept self.new stream ≡ []) × (free_slots self.old stream ≤ free_slots self.new stream + 1) }
        ensures kept { 0 < length (kept self.new stream) → free_slots self.new stream ≡ 0 }
        ensures memory { IsErr result → free_slots self.new stream ≡ 0 }
        // no other stream is touched
        ensures others { (d : Feed) → self.new.feeds.items ≡ slice_set self.old.feeds.items stream (slice_index_or self.new.feeds.items stream d) }
        ensures rings { fan_rings self.new ≡ fan_rings self.old }
        ensures streams { stream_count self.new ≡ stream_count self.old }
    {
        self.feeds[stream].offer(parcel)
    }

    /// Gives the mark that nothing more comes to every stream, in rising order. When memory runs out, which needs a ring that is
    /// full, the first of them have got it and the others haven't.
    pub fn close(&mut self) -> Result<(), NoMemory>
        ensures closed { OnOk result (all_given self.new ≡ map closed (all_given self.old)) }
        ensures in_part { OnErr result (ClosedInPart (all_given self.old) (all_given self.new)) }
        ensures memory { OnErr result (HasFullRing self.new) }
        ensures rings { fan_rings self.new ≡ fan_rings self.old }
        ensures streams { stream_count self.new ≡ stream_count self.old }
    {
        for stream in 0..self.feeds.len() {
            match self.offer_at(stream, Parcel::Close) {
                Ok(()) => {}
                Err((_, fault)) => return Err(fault),
            }
        }
        Ok(())
    }

    // A fan with no stream yet, and room for so many.
    pub(crate) fn of(alloc: Global, streams: u32) -> Result<Fan, NoMemory>
        ensures { IfOk result (λ fan. fan.feeds.items ≡ []) }
    {
        Ok(Fan {
            feeds: Vec::with_capacity(alloc, streams as usize)?,
        })
    }

    // One stream more, over this feed.
    pub(crate) fn add(&mut self, feed: Feed) -> Result<(), NoMemory>
        ensures given { OnOk result (all_given self.new ≡ all_given self.old ++ feed_given feed ∷ []) }
        ensures kept { OnOk result (all_kept self.new ≡ all_kept self.old ++ feed_kept feed ∷ []) }
        ensures free { OnOk result (all_free self.new ≡ all_free self.old ++ feed_free feed ∷ []) }
        ensures rings { OnOk result (fan_rings self.new ≡ fan_rings self.old ++ feed_ring feed ∷ []) }
        ensures streams { OnOk result (stream_count self.new ≡ stream_count self.old + 1) }
    {
        Ok(self.feeds.push(feed)?)
    }

    // Takes the oldest parcel of a stream that is kept.
    pub(crate) fn pop_kept(&mut self, stream: usize) -> Option<Parcel>
        requires { stream < stream_count self.old }
        ensures some { IfSome result (λ parcel. kept self.old stream ≡ parcel ∷ kept self.new stream) }
        ensures none { IfNone result ((kept self.old stream ≡ []) × (kept self.new stream ≡ [])) }
        ensures others { all_kept self.new ≡ slice_set (all_kept self.old) stream (kept self.new stream) }
        ensures rings { fan_rings self.new ≡ fan_rings self.old }
        ensures streams { stream_count self.new ≡ stream_count self.old }
    {
        self.feeds[stream].pop_kept()
    }

    // Lets a funnel see all that is in the ring of a stream and of this fan's channel.
    pub(crate) fn see_all(&mut self, stream: usize, funnel: &mut Funnel, channel: usize)
        requires stream { stream < stream_count self.old }
        requires channel { channel < channel_count funnel.old }
        requires joined { (d : RingId) → slice_index_or (fan_rings self.old) stream d ≡ slice_index_or (funnel_rings funnel.old) channel d }
        ensures given { all_given self.new ≡ all_given self.old }
        ensures kept { all_kept self.new ≡ all_kept self.old }
        ensures rings { fan_rings self.new ≡ fan_rings self.old }
        ensures taken { all_taken funnel.new ≡ all_taken funnel.old }
        ensures funnel { funnel_rings funnel.new ≡ funnel_rings funnel.old }
        ensures known { all_known funnel.new ≡ slice_set (all_known funnel.old) channel (known funnel.new channel) }
        ensures left { taken funnel.new channel ++ (known funnel.new channel ++ kept self.new stream) ≡ given self.new stream }
    {
        see_all(&mut self.feeds[stream], &mut funnel.rings[channel]);
    }
}
