//! Making a mesh.

ghost use Rattle.std.specs.Prelude.{◌≡◌, ◌<◌, ◌≤◌, ℕ, [], length, map, All, IfOk};
ghost use Rattle.vfm_mesh.specs.Rows.{fan_rings, stream_count, channel_count, taken, funnel_rings};
ghost use Rattle.vfm_mesh.specs.Meshes.{given_at, kept_at, free_at, taken_at, AreMesh, appended};

use crate::feed::Feed;
use crate::{Fan, Funnel};
use rtrb::RingBuffer;
use std::alloc::Global;
use vfm_types::NoMemory;

/// A ring for each channel and stream.
pub struct Mesh;

impl Mesh {
    /// The fans of so many channels and the funnels of so many streams, joined by rings of so many slots, at least one. All
    /// slots are known to be free. Takes all the memory that the rings need.
    pub fn of(
        alloc: Global,
        channels: u32,
        streams: u32,
        slots: usize,
    ) -> Result<(Vec<Fan>, Vec<Funnel>), NoMemory>
        requires { 0 < slots }
        ensures channels { IfOk result (λ mesh. length mesh.0.items ≡ channels) }
        ensures streams { IfOk result (λ mesh. length mesh.1.items ≡ streams) }
        ensures feeds { IfOk result (λ mesh. All (λ fan. stream_count fan ≡ streams) mesh.0.items) }
        ensures rings { IfOk result (λ mesh. All (λ funnel. channel_count funnel ≡ channels) mesh.1.items) }
        ensures mesh { IfOk result (λ mesh. AreMesh mesh.0.items mesh.1.items) }
        ensures given { IfOk result (λ mesh. (k s : ℕ) → given_at mesh.0.items k s ≡ []) }
        ensures kept { IfOk result (λ mesh. (k s : ℕ) → kept_at mesh.0.items k s ≡ []) }
        ensures free { IfOk result (λ mesh. (k s : ℕ) → free_at mesh.0.items k s slots ≡ slots) }
        ensures taken { IfOk result (λ mesh. (k s : ℕ) → taken_at mesh.1.items k s ≡ []) }
    {
        let mut fans = Vec::with_capacity(alloc, channels as usize)?;
        for _ in 0..channels {
            fans.push(Fan::of(alloc, streams)?)?;
        }
        let mut funnels = Vec::with_capacity(alloc, streams as usize)?;
        for _ in 0..streams {
            funnels.push(add_stream(alloc, &mut fans, slots)?)?;
        }
        Ok((fans, funnels))
    }
}

// Adds a stream to every fan, and gives its funnel.
fn add_stream(alloc: Global, fans: &mut Vec<Fan>, slots: usize) -> Result<Funnel, NoMemory>
    requires { length fans.old.items ≤ 4294967295 }
    ensures rings { IfOk result (λ funnel. map fan_rings fans.new.items ≡ appended (map fan_rings fans.old.items) (funnel_rings funnel)) }
    ensures channels { IfOk result (λ funnel. channel_count funnel ≡ length fans.old.items) }
    ensures fans { IfOk result (λ _. length fans.new.items ≡ length fans.old.items) }
    ensures given { IfOk result (λ _. ((k s : ℕ) → given_at fans.old.items k s ≡ []) → (k s : ℕ) → given_at fans.new.items k s ≡ []) }
    ensures kept { IfOk result (λ _. ((k s : ℕ) → kept_at fans.old.items k s ≡ []) → (k s : ℕ) → kept_at fans.new.items k s ≡ []) }
    ensures free { IfOk result (λ _. ((k s : ℕ) → free_at fans.old.items k s slots ≡ slots)
        → (k s : ℕ) → free_at fans.new.items k s slots ≡ slots) }
    ensures taken { IfOk result (λ funnel. (k : ℕ) → taken funnel k ≡ []) }
{
    let mut rings = Vec::with_capacity(alloc, fans.len())?;
    for k in 0..fans.len() {
        let (producer, consumer) = RingBuffer::new(alloc, slots)?;
        fans[k].add(Feed::of(alloc, producer))?;
        rings.push(consumer)?;
    }
    Ok(Funnel::of(rings))
}
