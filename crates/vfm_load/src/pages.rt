//! The pages of a memory, as they come.

ghost use Rattle.std.specs.Prelude.{◌≡◌, ◌<◌, ◌≤◌, ℕ, List, Some, None, [], length, replicate, slice_index_or, IfOk, MatchResult};
ghost use Rattle.vfm_types.specs.declared.desc.Desc.{Desc};
ghost use Rattle.vfm_types.specs.Valid.{IsValid};
ghost use Rattle.vfm_record.specs.Record.{Record};
ghost use Rattle.vfm_streams.specs.Judged.{lacks};
ghost use Rattle.vfm_load.specs.Stored.{TakesPage, FitsPages, HoldsPages};
ghost use Rattle.vfm_load.specs.Parts.{loaded_pages};

use std::alloc::Global;
use std::marker::Model;
use std::mem;
use vfm_types::{Bytes, Desc, NoMemory, PageSet, Sheets};

/// The pages of a memory, at most 1,024, and which of them never came. Seen as the pages and the numbers of the latter.
///
/// Only `of` takes memory.
#[derive(Drop)]
pub struct PageStore {
    pages: Vec<Bytes>,
    missing: PageSet,
}

impl Model for PageStore {
    ghost use Rattle.vfm_load.specs.Stored.{StoredPages};

    ghost Value = { StoredPages };

    ghost view = { λ s. record { pages = s.pages.items; missing = s.missing } };
}

impl PageStore {
    /// The pages of a description, none of which came.
    pub fn of(alloc: Global, desc: &Desc) -> Result<PageStore, NoMemory>
        requires { IsValid desc.now }
        ensures fits { IfOk result (FitsPages desc.now) }
        ensures holds { IfOk result (HoldsPages desc.now []) }
    {
        Ok(PageStore {
            pages: zeros(alloc, desc.page, desc.pages)?,
            missing: PageSet::full(desc.pages),
        })
    }

    /// Puts the bytes of page `p` in, in place of those that were there.
    pub fn put(&mut self, p: u32, bytes: &[u8])
        requires number { p < 1024 }
        requires page { p < length self.old.pages }
        requires size { length bytes.now ≡ length (slice_index_or self.old.pages p []) }
        ensures { TakesPage p bytes.now self.old self.new }
    {
        let alloc = *self.pages.allocator();
        refill(alloc, &mut self.pages[p as usize], bytes);
        self.missing.remove(p);
    }

    /// The pages, where each came; else the least that never came.
    pub fn finish(self) -> Result<Sheets, u32>
        ensures exact { (D : Desc) (records : List Record) → FitsPages D self → HoldsPages D records self
            → MatchResult result (λ _. lacks D 0 records ≡ None) (λ least. lacks D 0 records ≡ Some least) }
        ensures loaded { IfOk result (λ sheets. (D : Desc) (records : List Record) → FitsPages D self → HoldsPages D records self
            → sheets ≡ loaded_pages D records) }
        ensures pages { IfOk result (λ sheets. sheets ≡ self.pages) }
    {
        match self.missing.least_from(0) {
            Some(least) => Err(least),
            None => Ok(Sheets::of(self.pages)),
        }
    }
}

// so many pages of so many zeros
fn zeros(alloc: Global, page: u32, pages: u32) -> Result<Vec<Bytes>, NoMemory>
    ensures { IfOk result (λ list. list.items ≡ replicate pages (replicate page 0)) }
{
    let mut list = Vec::with_capacity(alloc, pages as usize)?;
    for _ in 0..pages {
        list.push(Bytes::of(vec![in alloc; 0u8; page as usize]?))?;
    }
    Ok(list)
}

// puts other bytes in place of as many
fn refill(alloc: Global, page: &mut Bytes, bytes: &[u8])
    requires { length bytes.now ≡ length page.old }
    ensures { page.new ≡ bytes.now }
{
    let mut list = mem::replace(page, Bytes::of(Vec::new(alloc))).into_list();
    list.as_mut_slice().copy_from_slice(bytes);
    *page = Bytes::of(list);
}
