//! The loader's end of a mesh: a ring for each channel.

ghost use Rattle.std.specs.Prelude.{◌≤◌, vec_len};

use crate::Parcel;
use rtrb::Consumer;

/// What the loader of one stream takes its parcels from, channel by channel. It may move to another thread.
#[derive(Drop)]
pub struct Funnel {
    pub(crate) rings: Vec<Consumer<Parcel>>,
    ghost numbered: { vec_len rings ≤ 4294967295 },
}

impl Funnel {
    ghost use Rattle.std.specs.Prelude.{◌≡◌, ◌+◌, ◌<◌, ◌≤◌, ℕ, ◌∷◌, [], ◌++◌, length, map, slice_set, slice_index_or, vec_len, IfSome, IfNone};
    ghost use Rattle.vfm_mesh.specs.Feeds.{consumer_ring};
    ghost use Rattle.vfm_mesh.specs.Rows.{channel_count, all_taken, taken, all_known, known, funnel_rings};

    /// A funnel over these rings, one a channel.
    pub(crate) fn of(rings: Vec<Consumer<Parcel>>) -> Funnel
        requires { vec_len rings ≤ 4294967295 }
        ensures { result.rings ≡ rings }
    {
        Funnel { rings }
    }

    // Takes a parcel out of a channel's ring, if one is seen there.
    fn take_of(&mut self, channel: usize) -> Option<Parcel>
        requires { channel < channel_count self.old }
        ensures some { IfSome result (λ parcel. all_taken self.new ≡ slice_set (all_taken self.old) channel (taken self.old channel ++ parcel ∷ [])) }
        ensures none { IfNone result (all_taken self.new ≡ all_taken self.old) }
        ensures nothing { IfNone result (known self.new channel ≡ []) }
        ensures others { all_known self.new ≡ slice_set (all_known self.old) channel (known self.new channel) }
        ensures rings { funnel_rings self.new ≡ funnel_rings self.old }
        ensures channels { channel_count self.new ≡ channel_count self.old }
    {
        match self.rings[channel].pop() {
            Ok(parcel) => Some(parcel),
            Err(_) => None,
        }
    }

    /// Takes a parcel, and says of which channel: it looks into the rings in rising order until one gives a parcel.
    /// `None` comes only where no ring has a parcel that the funnel knows of, and a later call may find one.
    pub fn take(&mut self) -> Option<(u32, Parcel)>
        ensures channel { IfSome result (λ r. r.0 < channel_count self.old) }
        ensures some { IfSome result (λ r. all_taken self.new ≡ slice_set (all_taken self.old) r.0 (taken self.old r.0 ++ r.1 ∷ [])) }
        ensures none { IfNone result (all_taken self.new ≡ all_taken self.old) }
        ensures nothing { IfNone result ((k : ℕ) → k < channel_count self.new → known self.new k ≡ []) }
        ensures rings { funnel_rings self.new ≡ funnel_rings self.old }
        ensures channels { channel_count self.new ≡ channel_count self.old }
    {
        for channel in 0..self.rings.len() {
            if let Some(parcel) = self.take_of(channel) {
                return Some((channel as u32, parcel));
            }
        }
        None
    }

    // Takes the first parcel that is known to be in a channel's ring.
    pub(crate) fn pop_known(&mut self, channel: usize) -> Option<Parcel>
        requires { channel < channel_count self.old }
        ensures some { IfSome result (λ parcel. known self.old channel ≡ parcel ∷ known self.new channel) }
        ensures none { IfNone result ((known self.old channel ≡ []) × (known self.new channel ≡ [])) }
        ensures others { all_known self.new ≡ slice_set (all_known self.old) channel (known self.new channel) }
        ensures rings { funnel_rings self.new ≡ funnel_rings self.old }
        ensures channels { channel_count self.new ≡ channel_count self.old }
    {
        let ring = &mut self.rings[channel];
        if ring.cached_slots() == 0 {
            return None;
        }
        Some(ring.pop_known())
    }
}
