//! What takes bytes, and the loop that writes all of them.

ghost use Rattle.std.specs.Prelude.{◌≡◌, ℕ, ◌<◌, List, Option, Ok, length, take, OnOk, OnErr};
ghost use Rattle.vfm_outside.specs.Counts.{CountsFaults};
ghost use Rattle.vfm_outside.specs.Told.{with_appended, Takes};

use crate::Failed;

/// What takes bytes, in order.
pub trait Sink {
    /// How often a write has failed.
    ghost faults: { Self → ℕ };

    /// The bytes taken so far, where the sink reports them.
    ghost holds: { Self → Option (List ℕ) };

    /// Takes a prefix of the piece, and answers how many bytes of it: at least one, if the piece isn't empty. A sink
    /// that takes none of a piece that isn't empty answers `Failed` and counts it. An empty piece changes nothing.
    fn write(&mut self, bytes: &[u8]) -> Result<usize, Failed>
        ensures count { CountsFaults result (faults self.old) (faults self.new) }
        ensures taken { Takes result bytes.now (holds self.old) (holds self.new) }
        ensures empty { length bytes.now ≡ 0 → result ≡ Ok 0 };
}

/// Writes all the bytes, in as many writes as the sink wants. At `Failed` a write failed, and the sink has taken a
/// part of the bytes that lacks at least the last one.
pub fn write_all<S: Sink>(out: &mut S, bytes: &[u8]) -> Result<(), Failed>
    ensures count { CountsFaults result (S.faults out.old) (S.faults out.new) }
    ensures ok { OnOk result (S.holds out.new ≡ with_appended (S.holds out.old) bytes.now) }
    ensures failed { OnErr result ((n : ℕ) × (n < length bytes.now) × (S.holds out.new ≡ with_appended (S.holds out.old) (take n bytes.now))) }
{
    let mut at = 0;
    while at < bytes.len() {
        at += out.write(&bytes[at..])?;
    }
    Ok(())
}
