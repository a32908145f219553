//! A run of bytes that keeps its length: a page of memory, or the BARs of a device.

ghost use Rattle.std.specs.Prelude.{◌≡◌, ◌+◌, ◌≤◌, ◌↔◌, length, replicate, take, IfOk, IsTrue};
ghost use Rattle.std.specs.Int.{w64, from_le_bytes};
ghost use Rattle.vfm_types.specs.Machine.{splice, added};

use byteorder::{ByteOrder, LittleEndian};
use std::alloc::Global;
use std::marker::Model;
use vfm_types::{Bytes, NoMemory};

/// A run of bytes whose length doesn't change. Seen as the list of them.
#[derive(Drop)]
pub struct Sheet {
    bytes: Vec<u8>,
}

impl Model for Sheet {
    ghost use Rattle.std.specs.Prelude.{ℕ, List};

    ghost Value = { List ℕ };

    ghost view = { λ s. s.bytes.items };
}

impl Sheet {
    /// So many zeros.
    pub fn zeros(alloc: Global, len: u32) -> Result<Sheet, NoMemory>
        ensures { IfOk result (λ sheet. sheet ≡ replicate len 0) }
    {
        let bytes = vec![in alloc; 0u8; len as usize]?;
        Ok(Sheet { bytes })
    }

    /// These bytes. Takes no memory.
    pub fn of(bytes: Bytes) -> Sheet
        ensures { result ≡ bytes }
    {
        Sheet {
            bytes: bytes.into_list(),
        }
    }

    /// Lends the bytes.
    pub fn bytes(&self) -> &[u8]
        ensures { result.now ≡ self.now }
    {
        self.bytes.as_slice()
    }

    /// Puts these bytes at an offset.
    pub fn put(&mut self, offset: u32, bytes: &[u8])
        requires { offset + length bytes.now ≤ length self.old }
        ensures { self.new ≡ splice self.old offset bytes.now }
    {
        put_bytes(self.bytes.as_mut_slice(), offset as usize, bytes);
    }

    /// Whether both have the same bytes.
    pub fn same(&self, other: &Sheet) -> bool
        ensures { IsTrue result ↔ (self.now ≡ other.now) }
    {
        same_bytes(self.bytes.as_slice(), other.bytes.as_slice())
    }
}

/// Puts these bytes into others from an offset on.
pub fn put_bytes(into: &mut [u8], offset: usize, bytes: &[u8])
    requires { offset + length bytes.now ≤ length into.old }
    ensures { into.new ≡ splice into.old offset bytes.now }
{
    let end = offset + bytes.len();
    into[offset..end].copy_from_slice(bytes);
}

/// Whether both are the same bytes.
pub fn same_bytes(one: &[u8], other: &[u8]) -> bool
    ensures { IsTrue result ↔ (one.now ≡ other.now) }
{
    one == other
}

/// At most 64 bytes, with zeros after them.
pub fn held_bytes(bytes: &[u8]) -> [u8; 64]
    requires { length bytes.now ≤ 64 }
    ensures { take (length bytes.now) result ≡ bytes.now }
{
    let mut held = [0; 64];
    held[..bytes.len()].copy_from_slice(bytes);
    held
}

/// The number that 8 bytes are, little-endian.
pub fn number_of(bytes: &[u8]) -> u64
    requires { length bytes.now ≡ 8 }
    ensures { result ≡ from_le_bytes w64 bytes.now }
{
    LittleEndian::read_u64(bytes)
}

/// 8 bytes, little-endian, with a value added to them, wrapping.
pub fn added_to(bytes: &[u8], value: u64) -> [u8; 8]
    requires { length bytes.now ≡ 8 }
    ensures { result ≡ added bytes.now value }
{
    let sum = number_of(bytes).wrapping_add(value);
    let mut new = [0; 8];
    LittleEndian::write_u64(&mut new, sum);
    new
}
