//! The reader's end of one ring, with the parcels that it keeps while the ring is full.

ghost use Rattle.std.specs.Prelude.{◌≡◌, ◌+◌, ◌<◌, ◌≤◌, ◌∷◌, [], ◌++◌, length, IsOk, IsErr, IfErr, IfSome, IfNone, OnOk, OnErr};
ghost use Rattle.rtrb.specs.Ring.{sent, known_free, received, known_items};
ghost use Rattle.vfm_mesh.specs.Feeds.{feed_given, feed_kept, feed_free, feed_ring, producer_ring, consumer_ring};

use crate::Parcel;
use rtrb::{Consumer, Producer};
use std::alloc::Global;
use std::collections::VecDeque;
use vfm_types::NoMemory;

/// The producer of a ring, and the parcels that wait for a free slot, oldest first.
#[derive(Drop)]
pub struct Feed {
    pub ring: Producer<Parcel>,
    pub kept: VecDeque<Parcel>,
}

impl Feed {
    /// The feed over this ring, with nothing kept.
    pub fn of(alloc: Global, ring: Producer<Parcel>) -> Feed
        ensures given { feed_given result ≡ sent ring }
        ensures kept { feed_kept result ≡ [] }
        ensures free { feed_free result ≡ known_free ring }
        ensures ring { feed_ring result ≡ producer_ring ring }
    {
        Feed {
            ring,
            kept: VecDeque::new(alloc),
        }
    }

    // Moves what is kept into the ring, oldest first, until no slot is seen to be free.
    fn refill(&mut self)
        ensures given { feed_given self.new ≡ feed_given self.old }
        ensures full { 0 < length (feed_kept self.new) → feed_free self.new ≡ 0 }
        ensures nothing { feed_kept self.old ≡ [] → (feed_kept self.new ≡ []) × (self.new.ring ≡ self.old.ring) }
        ensures ring { feed_ring self.new ≡ feed_ring self.old }
    {
        while !self.kept.is_empty() && !self.ring.is_full() {
            if let Some(parcel) = self.kept.pop_front() {
                self.ring.push_reserved(parcel);
            }
        }
    }

    /// Gives a parcel: to the ring, or where something is kept or no slot is seen to be free, to the end of what is kept.
    pub fn offer(&mut self, parcel: Parcel) -> Result<(), (Parcel, NoMemory)>
        ensures given { OnOk result (feed_given self.new ≡ feed_given self.old ++ parcel ∷ []) }
        ensures unchanged { OnErr result (feed_given self.new ≡ feed_given self.old) }
        ensures back { IfErr result (λ e. e.0 ≡ parcel) }
        ensures in_ring { feed_kept self.old ≡ [] → 0 < feed_free self.old
            → IsOk result × (feed_kept self.new ≡ []) × (feed_free self.old ≤ feed_free self.new + 1) }
        ensures kept { 0 < length (feed_kept self.new) → feed_free self.new ≡ 0 }
        ensures memory { IsErr result → feed_free self.new ≡ 0 }
        ensures ring { feed_ring self.new ≡ feed_ring self.old }
    {
        self.refill();
        if !self.kept.is_empty() || self.ring.is_full() {
            return match self.kept.push_back(parcel) {
                Ok(()) => Ok(()),
                Err(refused) => Err((refused.value, NoMemory)),
            };
        }
        self.ring.push_reserved(parcel);
        Ok(())
    }

    /// Takes the oldest parcel that is kept.
    pub fn pop_kept(&mut self) -> Option<Parcel>
        ensures some { IfSome result (λ parcel. feed_kept self.old ≡ parcel ∷ feed_kept self.new) }
        ensures none { IfNone result ((feed_kept self.old ≡ []) × (feed_kept self.new ≡ [])) }
        ensures ring { self.new.ring ≡ self.old.ring }
    {
        self.kept.pop_front()
    }
}

/// Lets a ring's consumer see all that is in the ring: both ends are here, so nothing goes in any more.
pub fn see_all(feed: &mut Feed, ring: &mut Consumer<Parcel>)
    requires { feed_ring feed.old ≡ consumer_ring ring.old }
    ensures given { feed_given feed.new ≡ feed_given feed.old }
    ensures kept { feed_kept feed.new ≡ feed_kept feed.old }
    ensures feed { feed_ring feed.new ≡ feed_ring feed.old }
    ensures taken { received ring.new ≡ received ring.old }
    ensures ring { consumer_ring ring.new ≡ consumer_ring ring.old }
    ensures left { received ring.new ++ (known_items ring.new ++ feed_kept feed.new) ≡ feed_given feed.new }
{
    ring.slots_beside(&mut feed.ring);
}
