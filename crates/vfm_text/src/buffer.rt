//! Text in a fixed buffer, so that a sink is given pieces of kilobytes.

ghost use Rattle.std.specs.Prelude.{◌≡◌, ℕ, ◌+◌, ◌<◌, ◌≤◌, ◌↔◌, List, [], ◌++◌, length, take, IsTrue, OnOk, OnErr};
ghost use Rattle.vfm_outside.specs.Counts.{CountsFaults};
ghost use Rattle.vfm_outside.specs.Told.{with_appended};

use std::marker::Model;
use vfm_outside::{Failed, Sink, write_all};

/// How many bytes the buffer has room for.
pub const ROOM: usize = 4096;

/// At most 4,096 bytes. Seen as the list of them.
#[derive(Drop)]
pub struct TextBuffer {
    bytes: [u8; ROOM],
    len: usize,
}

impl Model for TextBuffer {
    ghost use Rattle.std.specs.Prelude.{ℕ, List, take, ◌≤◌};

    ghost Value = { List ℕ };

    ghost view = { λ g. take g.len g.bytes };

    ghost invariant = { λ g. g.len ≤ 4096 };
}

impl TextBuffer {
    /// An empty buffer.
    pub fn new() -> TextBuffer
        ensures { result ≡ [] }
    {
        TextBuffer {
            bytes: [0; ROOM],
            len: 0,
        }
    }

    /// Whether so many bytes more have room.
    pub fn has_room(&self, count: usize) -> bool
        ensures { IsTrue result ↔ (length self.now + count ≤ 4096) }
    {
        count <= ROOM - self.len
    }

    /// Puts bytes after those that are in it.
    pub fn add(&mut self, bytes: &[u8])
        requires { length self.old + length bytes.now ≤ 4096 }
        ensures { self.new ≡ self.old ++ bytes.now }
    {
        let end = self.len + bytes.len();
        self.bytes[self.len..end].copy_from_slice(bytes);
        self.len = end;
    }

    /// What is in it.
    pub fn as_slice(&self) -> &[u8]
        ensures { result.now ≡ self.now }
    {
        &self.bytes[..self.len]
    }

    /// Writes all that is in the buffer, and empties it. At `Failed` a prefix of it is written, and all of it stays in the
    /// buffer.
    pub fn flush<S: Sink>(&mut self, out: &mut S) -> Result<(), Failed>
        ensures count { CountsFaults result (S.faults out.old) (S.faults out.new) }
        ensures ok { OnOk result (S.holds out.new ≡ with_appended (S.holds out.old) self.old) }
        ensures empty { OnOk result (self.new ≡ []) }
        ensures failed { OnErr result ((n : ℕ) × (n < length self.old) × (S.holds out.new ≡ with_appended (S.holds out.old) (take n self.old))) }
        ensures kept { OnErr result (self.new ≡ self.old) }
    {
        write_all(out, self.as_slice())?;
        self.len = 0;
        Ok(())
    }
}
