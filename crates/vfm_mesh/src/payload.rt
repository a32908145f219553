//! The payload of a packet, in the memory into which the packet was read.

ghost use Rattle.std.specs.Prelude.{◌≡◌, ◌<◌, ◌≤◌, length, drop, vec_len};

use std::marker::Model;

/// Bytes that stand in a vector, of which the first may be left aside. So a packet's payload needs no copy of its own: it
/// stays where the packet was read, after its header. Seen as the list of the bytes, which are fewer than 2 ^ 32.
#[derive(Debug, Drop)]
pub struct Payload {
    list: Vec<u8>,
    from: usize,
}

impl Model for Payload {
    ghost use Rattle.std.specs.Prelude.{ℕ, List, length, drop, vec_len, ◌<◌, ◌≤◌};

    ghost Value = { List ℕ };

    ghost view = { λ p. drop p.from p.list.items };

    ghost invariant = { λ p. (p.from ≤ vec_len p.list) × (length (drop p.from p.list.items) < 4294967296) };
}

impl Payload {
    /// The bytes of the list from a place on. Takes no memory.
    pub fn of(list: Vec<u8>, from: usize) -> Payload
        requires place { from ≤ vec_len list }
        requires short { length (drop from list.items) < 4294967296 }
        ensures { result ≡ drop from list.items }
    {
        Payload { list, from }
    }

    /// Lends the bytes.
    pub fn lent(&self) -> &[u8]
        ensures bytes { result.now ≡ self.now }
        ensures short { length self.now < 4294967296 }
    {
        &self.list[self.from..]
    }
}
