//! Short byte strings that lie inside a value and take no memory of their own.

ghost use Rattle.std.specs.Prelude.{◌≡◌, ◌≤◌, ◌<◌, ◌↔◌, length, IsSome, IfSome};

use std::marker::Model;

/// At most `N` bytes, for an `N` of at most 255. Seen as the list of them.
#[derive(Debug, Drop)]
pub struct ShortBytes<const N: usize> {
    len: u8,
    bytes: [u8; N],
}

impl<const N: usize> Model for ShortBytes<N> {
    ghost use Rattle.std.specs.Prelude.{ℕ, List, take, ◌≤◌};

    ghost Value = { List ℕ };

    ghost view = { λ b. take b.len b.bytes };

    ghost invariant = { λ b. b.len ≤ N };
}

impl<const N: usize> ShortBytes<N> {
    /// These bytes, or `None` exactly where there are more than `N`.
    pub fn of(bytes: &[u8]) -> Option<ShortBytes<N>>
        requires { N < 256 }
        ensures known { IsSome result ↔ (length bytes.now ≤ N) }
        ensures value { IfSome result (λ kept. kept ≡ bytes.now) }
    {
        let len = bytes.len();
        if len > N {
            return None;
        }
        let mut copy = [0u8; N];
        copy[..len].copy_from_slice(bytes);
        Some(ShortBytes {
            len: len as u8,
            bytes: copy,
        })
    }

    /// The bytes.
    pub fn bytes(&self) -> &[u8]
        ensures value { result.now ≡ self.now }
        ensures most { length self.now ≤ N }
    {
        &self.bytes[..self.len as usize]
    }

    /// How many there are.
    pub fn len(&self) -> u32
        ensures value { result ≡ length self.now }
        ensures most { result ≤ N }
    {
        u32::from(self.len)
    }

    /// Equal bytes.
    pub fn copy(&self) -> ShortBytes<N>
        ensures { result ≡ self.now }
    {
        ShortBytes {
            len: self.len,
            bytes: self.bytes,
        }
    }
}
