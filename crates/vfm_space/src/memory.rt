//! The pages of guest memory.

ghost use Rattle.std.specs.Prelude.{◌≡◌, ◌+◌, ◌<◌, ◌≤◌, [], length, take, drop, replicate, slice_index_or, slice_set, IfOk};
ghost use Rattle.vfm_types.specs.Machine.{splice};

use std::alloc::Global;
use std::marker::Model;
use vfm_plain::Sheet;
use vfm_types::NoMemory;

/// Guest memory: pages of one size. Seen as the list of them, each the list of its bytes.
///
/// Only `of` takes memory.
#[derive(Drop)]
pub struct Memory {
    pages: Vec<Sheet>,
}

impl Model for Memory {
    ghost use Rattle.std.specs.Prelude.{ℕ, List};

    ghost Value = { List (List ℕ) };

    ghost view = { λ m. m.pages.items };
}

impl Memory {
    /// So many pages of so many zeros.
    pub fn of(alloc: Global, page: u32, pages: u32) -> Result<Memory, NoMemory>
        ensures { IfOk result (λ memory. memory ≡ replicate pages (replicate page 0)) }
    {
        let mut sheets = Vec::with_capacity(alloc, pages as usize)?;
        for _ in 0..pages {
            sheets.push(Sheet::zeros(alloc, page)?)?;
        }
        Ok(Memory { pages: sheets })
    }

    /// Lends the bytes of page `p`.
    pub fn page(&self, p: u32) -> &[u8]
        requires { p < length self.now }
        ensures { result.now ≡ slice_index_or self.now p [] }
    {
        self.pages[p as usize].bytes()
    }

    /// Puts these bytes into page `p` at an offset.
    pub fn put(&mut self, p: u32, offset: u32, bytes: &[u8])
        requires page { p < length self.old }
        requires within { offset + length bytes.now ≤ length (slice_index_or self.old p []) }
        ensures { self.new ≡ slice_set self.old p (splice (slice_index_or self.old p []) offset bytes.now) }
    {
        self.pages[p as usize].put(offset, bytes);
    }

    /// Copies the bytes of page `p` from an offset on, as many as `into` takes.
    pub fn get(&self, p: u32, offset: u32, into: &mut [u8])
        requires page { p < length self.now }
        requires within { offset + length into.old ≤ length (slice_index_or self.now p []) }
        ensures { into.new ≡ take (length into.old) (drop offset (slice_index_or self.now p [])) }
    {
        let offset = offset as usize;
        into.copy_from_slice(&self.page(p)[offset..offset + into.len()]);
    }

    /// The pages by themselves, in their order.
    pub fn into_pages(self) -> Vec<Sheet>
        ensures { result.items ≡ self }
    {
        self.pages
    }
}
