//! The BAR bytes of one device, and which blocks of them are yet to be read, for the first time or again.

ghost use Rattle.std.specs.Prelude.{◌≡◌, ◌+◌, ◌*◌, ◌/◌, ◌%◌, ◌<◌, ◌≤◌, ◌&&◌, ◌||◌, not, [], length, take, drop, IfOk, IfSome};
ghost use Rattle.vfm_base.specs.PageSet.{IsPageList, contains_page, least_page_from, pages_where};
ghost use Rattle.vfm_space.specs.Blocks.{touches_block, new_blocks, after_put, unread_blocks, with_bytes_set, with_marks, with_written, rung_number, bytes_of_block, with_read};

use std::alloc::Global;
use std::marker::Model;
use vfm_plain::{Sheet, number_of};
use vfm_types::{NoMemory, PageSet};

/// The bytes of all BARs of a device, one after the other, at most 65,536, in blocks of 64. Seen as the bytes, the blocks
/// that were never read, and the blocks that were written since they were read.
///
/// Only `of` takes memory.
#[derive(Drop)]
pub struct Bar {
    bytes: Sheet,
    unread: PageSet,
    dirty: PageSet,
}

impl Model for Bar {
    ghost use Rattle.std.specs.Prelude.{◌≡◌, ◌≤◌, ◌%◌, length};
    ghost use Rattle.vfm_base.specs.PageSet.{IsPageList};
    ghost use Rattle.vfm_space.specs.Blocks.{Blocks};

    ghost Value = { Blocks };

    ghost view = { λ b. record { bytes = b.bytes; unread = b.unread; dirty = b.dirty } };

    ghost invariant = { λ b. (length b.bytes % 64 ≡ 0) × (length b.bytes ≤ 65536) × IsPageList b.unread × IsPageList b.dirty };
}

impl Bar {
    /// So many zeros, a multiple of 64 and at most 65,536, every block unread.
    pub fn of(alloc: Global, size: u32) -> Result<Bar, NoMemory>
        requires blocks { size % 64 ≡ 0 }
        requires most { size ≤ 65536 }
        ensures { IfOk result (λ bar. bar ≡ new_blocks size) }
    {
        Ok(Bar {
            bytes: Sheet::zeros(alloc, size)?,
            unread: PageSet::full(size / 64),
            dirty: PageSet::new(),
        })
    }

    /// These bytes, a multiple of 64 and at most 65,536 of them, every block unread.
    pub fn holding(alloc: Global, bytes: &[u8]) -> Result<Bar, NoMemory>
        requires blocks { length bytes.now % 64 ≡ 0 }
        requires most { length bytes.now ≤ 65536 }
        ensures { IfOk result (λ bar. bar ≡ unread_blocks bytes.now) }
    {
        let mut bar = Bar::of(alloc, bytes.len() as u32)?;
        bar.set(0, bytes);
        Ok(bar)
    }

    /// Lends the bytes.
    pub fn bytes(&self) -> &[u8]
        ensures { result.now ≡ self.now.bytes }
    {
        self.bytes.bytes()
    }

    /// Puts these bytes at an offset. Eight of them at offset 0 ring the doorbell: they change nothing, and the answer is
    /// the number that they are, little-endian. Others are written, and mark the blocks that they touch as written.
    pub fn put(&mut self, offset: u32, bytes: &[u8]) -> Option<u64>
        requires { offset + length bytes.now ≤ length self.old.bytes }
        ensures rung { result ≡ rung_number offset bytes.now }
        ensures put { self.new ≡ after_put offset bytes.now self.old }
    {
        if offset == 0 && bytes.len() == 8 {
            return Some(number_of(bytes));
        }
        self.write(offset, bytes);
        None
    }

    /// Writes these bytes at an offset and marks the blocks that they touch as written.
    pub fn write(&mut self, offset: u32, bytes: &[u8])
        requires { offset + length bytes.now ≤ length self.old.bytes }
        ensures { self.new ≡ with_written offset bytes.now self.old }
    {
        self.bytes.put(offset, bytes);
        self.mark(offset, bytes.len() as u32);
    }

    /// Writes these bytes at an offset and marks nothing.
    pub fn set(&mut self, offset: u32, bytes: &[u8])
        requires { offset + length bytes.now ≤ length self.old.bytes }
        ensures { self.new ≡ with_bytes_set offset bytes.now self.old }
    {
        self.bytes.put(offset, bytes);
    }

    /// Marks the blocks that the `len` bytes from an offset touch as written.
    pub fn mark(&mut self, offset: u32, len: u32)
        requires { offset + len ≤ length self.old.bytes }
        ensures { self.new ≡ with_marks offset len self.old }
    {
        mark_touched(&mut self.dirty, &self.unread, offset, len);
    }

    /// Copies the bytes from an offset on, as many as `into` takes.
    pub fn get(&self, offset: u32, into: &mut [u8])
        requires { offset + length into.old ≤ length self.now.bytes }
        ensures { into.new ≡ take (length into.old) (drop offset self.now.bytes) }
    {
        let offset = offset as usize;
        into.copy_from_slice(&self.bytes.bytes()[offset..offset + into.len()]);
    }

    /// The least block that was never read.
    pub fn unread(&self) -> Option<u32>
        ensures { result ≡ least_page_from self.now.unread 0 }
    {
        self.unread.least_from(0)
    }

    /// The least block that was written since it was read.
    pub fn dirty(&self) -> Option<u32>
        ensures { result ≡ least_page_from self.now.dirty 0 }
    {
        self.dirty.least_from(0)
    }

    /// How many blocks were never read.
    pub fn unread_count(&self) -> u32
        ensures value { result ≡ length self.now.unread }
        ensures most { result ≤ 1024 }
    {
        self.unread.len()
    }

    /// How many blocks were written since they were read.
    pub fn dirty_count(&self) -> u32
        ensures value { result ≡ length self.now.dirty }
        ensures most { result ≤ 1024 }
    {
        self.dirty.len()
    }

    /// Copies block `b` and takes its marks away.
    pub fn read_block(&mut self, b: u32, into: &mut [u8; 64])
        requires { 64 * (b + 1) ≤ length self.old.bytes }
        ensures given { into.new ≡ bytes_of_block b self.old }
        ensures read { self.new ≡ with_read b self.old }
    {
        into.copy_from_slice(self.block(b));
        self.unmark(b);
    }

    /// Lends the 64 bytes of block `b`.
    pub fn block(&self, b: u32) -> &[u8]
        requires { 64 * (b + 1) ≤ length self.now.bytes }
        ensures value { result.now ≡ bytes_of_block b self.now }
        ensures count { length result.now ≡ 64 }
    {
        let start = 64 * b as usize;
        &self.bytes.bytes()[start..start + 64]
    }

    /// Takes the marks of block `b` away, as it is read.
    pub fn unmark(&mut self, b: u32)
        requires { 64 * (b + 1) ≤ length self.old.bytes }
        ensures { self.new ≡ with_read b self.old }
    {
        self.unread.remove(b);
        self.dirty.remove(b);
    }

    /// Takes every mark away: nothing is unread and nothing is dirty.
    pub fn clear_marks(&mut self)
        ensures { self.new ≡ record self.old { unread = []; dirty = [] } }
    {
        self.unread.clear();
        self.dirty.clear();
    }
}

// Marks each block that the `len` bytes from an offset touch, unless it is yet to be read at all.
fn mark_touched(dirty: &mut PageSet, unread: &PageSet, offset: u32, len: u32)
    requires within { offset + len ≤ 65536 }
    requires set { IsPageList dirty.old }
    ensures value { dirty.new ≡ pages_where (λ b. contains_page dirty.old b
        || (touches_block offset len b && not (contains_page unread.now b))) }
    ensures set { IsPageList dirty.new }
{
    if len == 0 {
        return;
    }
    for b in offset / 64..(offset + len + 63) / 64 {
        if !unread.has(b) {
            dirty.add(b);
        }
    }
}
