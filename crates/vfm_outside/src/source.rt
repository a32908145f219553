//! What gives bytes, and the loop that reads up to a bound.

ghost use Rattle.std.specs.Prelude.{◌≡◌, ℕ, ◌≤◌, List, Option, Ok, length, vec_len, IfOk, OnOk, OnErr, IfSome, take, IsErrOf};
ghost use Rattle.vfm_outside.specs.Counts.{Rose};
ghost use Rattle.vfm_outside.specs.Counts.{CountsFaults};
ghost use Rattle.vfm_outside.specs.Told.{with_prepended, Reads};

use crate::{Failed, ReadFault};
use std::alloc::Global;

/// The most bytes that one read asks for.
const PIECE: usize = 4096;

/// What gives bytes, in order, until its end.
pub trait Source {
    /// How often a read has failed.
    ghost faults: { Self → ℕ };

    /// The bytes that are left to give, where the source reports them.
    ghost left: { Self → Option (List ℕ) };

    /// Gives bytes at the start of `buf`, and answers how many. With a buffer that isn't empty, 0 is the end. What
    /// stands in `buf` after them is left open, and after `Failed` all of it. An empty buffer changes nothing.
    fn read(&mut self, buf: &mut [u8]) -> Result<usize, Failed>
        ensures count { CountsFaults result (faults self.old) (faults self.new) }
        ensures given { Reads result buf.new (left self.old) (left self.new) }
        ensures empty { length buf.old ≡ 0 → result ≡ Ok 0 };
}

/// Reads the first `most` bytes that are left, or all of them where there are fewer.
pub fn read_up_to<S: Source>(
    alloc: Global,
    source: &mut S,
    most: usize,
) -> Result<Vec<u8>, ReadFault>
    ensures never_falls { S.faults source.old ≤ S.faults source.new }
    ensures ok { OnOk result (S.faults source.new ≡ S.faults source.old) }
    ensures failed { IsErrOf result ReadFault.Failed → Rose (S.faults source.old) (S.faults source.new) }
    ensures no_memory { IsErrOf result ReadFault.NoMemory → S.faults source.new ≡ S.faults source.old }
    ensures bound { IfOk result (λ bytes. vec_len bytes ≤ most) }
    ensures bytes { IfOk result (λ bytes. IfSome (S.left source.old) (λ left. bytes.items ≡ take most left)) }
    ensures rest { IfOk result (λ bytes. S.left source.old ≡ with_prepended bytes.items (S.left source.new)) }
    ensures lost { OnErr result ((bytes : List ℕ) × (length bytes ≤ most) × (S.left source.old ≡ with_prepended bytes (S.left source.new))) }
{
    let mut bytes = Vec::new(alloc);
    let mut buf = [0u8; PIECE];
    while bytes.len() < most {
        let want = PIECE.min(most - bytes.len());
        let n = source.read(&mut buf[..want])?;
        if n == 0 {
            return Ok(bytes);
        }
        bytes.extend_from_slice(&buf[..n])?;
    }
    Ok(bytes)
}
