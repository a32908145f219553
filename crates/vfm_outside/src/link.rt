//! One end of a channel between the two machines.

ghost use Rattle.std.specs.Prelude.{◌≡◌, ℕ, ◌<◌, ◌||◌, Bool, List, Option, Ok, is_ok, length};
ghost use Rattle.vfm_outside.specs.Counts.{CountsFaults};
ghost use Rattle.vfm_outside.specs.Told.{Takes, Receives};
ghost use Rattle.vfm_outside.specs.Links.{ended_after};

use crate::Failed;

/// One end of a channel, which sends bytes to the other end and receives what that one sends. Nothing ties what one
/// end received to what the other sent: bytes may be changed, cut or lost on the way.
///
/// The faults of a link are the sum of `failed_out` and `failed_in`. A link may be let go of without an answer, so that
/// a worker can own it.
pub trait Link: Send + Drop {
    /// How often `send` and `finish` have failed.
    ghost failed_out: { Self → ℕ };

    /// How often `recv` has failed.
    ghost failed_in: { Self → ℕ };

    /// Whether the end of the channel has been received. Every link reports it.
    ghost ended: { Self → Bool };

    /// Whether `finish` has said that nothing more is sent. Every link reports it.
    ghost finished: { Self → Bool };

    /// The bytes sent so far, where the link reports them.
    ghost sent: { Self → Option (List ℕ) };

    /// The bytes received so far, where the link reports them.
    ghost received: { Self → Option (List ℕ) };

    /// Sends a prefix of the piece, and answers how many bytes of it: at least one, if the piece isn't empty. A link
    /// that sends none of a piece that isn't empty answers `Failed` and counts it. An empty piece changes nothing.
    fn send(&mut self, bytes: &[u8]) -> Result<usize, Failed>
        ensures count { CountsFaults result (failed_out self.old) (failed_out self.new) }
        ensures taken { Takes result bytes.now (sent self.old) (sent self.new) }
        ensures empty { length bytes.now ≡ 0 → result ≡ Ok 0 }
        ensures other_count { failed_in self.new ≡ failed_in self.old }
        ensures received { received self.new ≡ received self.old }
        ensures ended { ended self.new ≡ ended self.old }
        ensures finished { finished self.new ≡ finished self.old };

    /// Receives bytes at the start of `buf`, and answers how many. With a buffer that isn't empty, 0 is the end of
    /// the channel. What stands in `buf` after them is left open, and after `Failed` all of it. An empty buffer
    /// changes nothing.
    fn recv(&mut self, buf: &mut [u8]) -> Result<usize, Failed>
        ensures count { CountsFaults result (failed_in self.old) (failed_in self.new) }
        ensures given { Receives result buf.new (received self.old) (received self.new) }
        ensures empty { length buf.old ≡ 0 → result ≡ Ok 0 }
        ensures ended { ended self.new ≡ ended_after result (length buf.old) (ended self.old) }
        ensures other_count { failed_out self.new ≡ failed_out self.old }
        ensures sent { sent self.new ≡ sent self.old }
        ensures finished { finished self.new ≡ finished self.old };

    /// Says to the other end that nothing more is sent.
    fn finish(&mut self) -> Result<(), Failed>
        ensures count { CountsFaults result (failed_out self.old) (failed_out self.new) }
        ensures other_count { failed_in self.new ≡ failed_in self.old }
        ensures sent { sent self.new ≡ sent self.old }
        ensures received { received self.new ≡ received self.old }
        ensures ended { ended self.new ≡ ended self.old }
        ensures finished { finished self.new ≡ (finished self.old || is_ok result) };
}
