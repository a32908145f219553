//! The part of one page.

ghost use Rattle.std.specs.Prelude.{◌≡◌, ◌+◌, ◌≤◌, length, take, drop, replicate, IfOk};
ghost use Rattle.vfm_types.specs.Machine.{splice};

use std::alloc::Global;
use std::marker::Model;
use vfm_plain::Sheet;
use vfm_types::NoMemory;

/// The part of one page of memory: its bytes, whose number doesn't change. Seen as the list of them.
///
/// Only `of` and `holding` take memory.
#[derive(Drop)]
pub struct PagePart {
    sheet: Sheet,
}

impl Model for PagePart {
    ghost use Rattle.std.specs.Prelude.{ℕ, List};

    ghost Value = { List ℕ };

    ghost view = { λ p. p.sheet };
}

impl PagePart {
    /// So many zeros.
    pub fn of(alloc: Global, size: u32) -> Result<PagePart, NoMemory>
        ensures { IfOk result (λ page. page ≡ replicate size 0) }
    {
        let sheet = Sheet::zeros(alloc, size)?;
        Ok(PagePart { sheet })
    }

    /// These bytes, fewer than 2^32.
    pub fn holding(alloc: Global, bytes: &[u8]) -> Result<PagePart, NoMemory>
        requires { length bytes.now ≤ 4294967295 }
        ensures { IfOk result (λ page. page ≡ bytes.now) }
    {
        let mut page = PagePart::of(alloc, bytes.len() as u32)?;
        page.put(0, bytes);
        Ok(page)
    }

    /// Lends the bytes.
    pub fn bytes(&self) -> &[u8]
        ensures { result.now ≡ self.now }
    {
        self.sheet.bytes()
    }

    /// Puts these bytes at an offset.
    pub fn put(&mut self, offset: u32, bytes: &[u8])
        requires { offset + length bytes.now ≤ length self.old }
        ensures { self.new ≡ splice self.old offset bytes.now }
    {
        self.sheet.put(offset, bytes);
    }

    /// Copies the bytes from an offset on, as many as `into` takes.
    pub fn get(&self, offset: u32, into: &mut [u8])
        requires { offset + length into.old ≤ length self.now }
        ensures { into.new ≡ take (length into.old) (drop offset self.now) }
    {
        let offset = offset as usize;
        into.copy_from_slice(&self.bytes()[offset..offset + into.len()]);
    }
}
