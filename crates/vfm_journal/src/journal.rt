//! A list of entries whose room is taken once, so that no later entry can want memory; or that grows.

ghost use Rattle.std.specs.Prelude.{◌≡◌, ℕ, ◌<◌, ◌≤◌, ◌^◌, ◌↔◌, List, [], ◌∷◌, ◌++◌, length, Some, slice_get, IfOk, OnOk, OnErr, IsTrue, ◌+◌, max};
ghost use Rattle.vfm_types.specs.declared.entry.Entry.{Entry as Item};

use std::alloc::Global;
use std::marker::Model;
use vfm_types::{Entry, NoMemory};

const _: () = prove!(size_of::<Entry>() <= 16);

/// The entries that were made, oldest first, and how many there is room for.
#[derive(Debug, Drop)]
pub struct Journal {
    entries: Vec<Entry>,
    room: usize,
}

impl Model for Journal {
    ghost use Rattle.std.specs.Prelude.{ℕ, ◌≤◌, ◌^◌, ◌<◌, vec_len, vec_capacity};
    ghost use Rattle.vfm_journal.specs.Log.{Log};

    ghost Value = { Log };

    ghost view = { λ j. record { entries = j.entries.items; room = j.room } };

    ghost invariant = { λ j. (vec_len j.entries ≤ j.room) × (j.room ≤ vec_capacity j.entries) };
}

impl Journal {
    /// An empty journal with room for `n` entries, all of which is taken here.
    pub fn with_room(alloc: Global, n: u64) -> Result<Journal, NoMemory>
        ensures entries { IfOk result (λ journal. journal.entries ≡ []) }
        ensures room { IfOk result (λ journal. journal.room ≡ n) }
    {
        let room = n as usize;
        Ok(Journal {
            entries: Vec::with_capacity(alloc, room)?,
            room,
        })
    }

    /// Adds an entry after the others.
    pub fn push(&mut self, entry: Entry)
        requires { length self.old.entries < self.old.room }
        ensures entries { self.new.entries ≡ self.old.entries ++ entry ∷ [] }
        ensures room { self.new.room ≡ self.old.room }
    {
        self.entries.push_reserved(entry);
    }

    /// Adds an entry after the others, and takes memory where no room is left. Where there is none, the journal stays
    /// as it is.
    pub fn push_growing(&mut self, entry: Entry) -> Result<(), NoMemory>
        ensures entries { OnOk result (self.new.entries ≡ self.old.entries ++ entry ∷ []) }
        ensures room { OnOk result (self.new.room ≡ max self.old.room (length self.old.entries + 1)) }
        ensures same { OnErr result (self.new ≡ self.old) }
    {
        match self.entries.push(entry) {
            Ok(()) => {
                self.room = self.room.max(self.entries.len());
                Ok(())
            }
            Err(_) => Err(NoMemory),
        }
    }

    /// How many entries there are.
    pub fn len(&self) -> u64
        ensures { result ≡ length self.now.entries }
    {
        self.entries.len() as u64
    }

    /// Whether there is none.
    pub fn is_empty(&self) -> bool
        ensures { IsTrue result ↔ (self.now.entries ≡ []) }
    {
        self.entries.is_empty()
    }

    /// The entry at place `i`, counted from 0.
    pub fn at(&self, i: u64) -> Entry
        requires { i < length self.now.entries }
        ensures { slice_get self.now.entries i ≡ Some result }
    {
        self.entries[i as usize]
    }

    /// All entries, oldest first.
    pub fn as_slice(&self) -> &[Entry]
        ensures { result.now ≡ self.now.entries }
    {
        self.entries.as_slice()
    }
}
