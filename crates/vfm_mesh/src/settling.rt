//! Taking a mesh back.

ghost use Rattle.std.specs.Prelude.{◌≡◌, ◌<◌, ◌≤◌, ℕ, ◌++◌, length, map};
ghost use Rattle.vfm_mesh.specs.Rows.{all_given, all_kept, fan_rings, all_taken, taken, known, funnel_rings};
ghost use Rattle.vfm_mesh.specs.Meshes.{cell, given_at, taken_at, IsStream, AreMesh, channels_left, streams_left, left};

use crate::{Fan, Funnel, Rest};

// Lets the funnel of a stream see all that is in its rings.
fn see_stream(fans: &mut Vec<Fan>, funnel: &mut Funnel, stream: usize)
    requires { IsStream (map fan_rings fans.old.items) (funnel_rings funnel.old) stream }
    ensures given { map all_given fans.new.items ≡ map all_given fans.old.items }
    ensures kept { map all_kept fans.new.items ≡ map all_kept fans.old.items }
    ensures rings { map fan_rings fans.new.items ≡ map fan_rings fans.old.items }
    ensures taken { all_taken funnel.new ≡ all_taken funnel.old }
    ensures funnel { funnel_rings funnel.new ≡ funnel_rings funnel.old }
    ensures left { (k : ℕ) → k < length fans.old.items
        → taken funnel.new k ++ (known funnel.new k ++ cell (map all_kept fans.old.items) k stream)
        ≡ cell (map all_given fans.old.items) k stream }
{
    for channel in 0..fans.len() {
        fans[channel].see_all(stream, funnel, channel);
    }
}

/// Takes all the fans and all the funnels of a mesh back, in their order. Takes no memory.
pub fn settle(mut fans: Vec<Fan>, mut funnels: Vec<Funnel>) -> Rest
    requires mesh { AreMesh fans.items funnels.items }
    requires numbered { length fans.items ≤ 4294967295 }
    // of each channel and stream, what was taken and what is left are what was given, in order
    ensures left { (k s : ℕ) → k < length fans.items → s < length funnels.items
        → taken_at funnels.items k s ++ left result k s ≡ given_at fans.items k s }
    ensures channels { channels_left result ≡ length fans.items }
    ensures streams { streams_left result ≡ length funnels.items }
{
    for stream in 0..funnels.len() {
        see_stream(&mut fans, &mut funnels[stream], stream);
    }
    Rest { fans, funnels }
}
