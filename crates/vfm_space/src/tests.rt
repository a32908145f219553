//! What no clause says: that memory and BARs are made where there is enough memory, worked cases, and many calls beside a
//! plain array.

use crate::{Bar, Memory};
use std::test::Fail;

#[test]
fn memory_keeps_what_is_put(rt: HostRuntime) -> Result<(), Fail> {
    let mut memory = Memory::of(rt.alloc(), 16, 3)?;
    memory.put(2, 12, &[1, 2, 3, 4]);
    let mut into = [9; 3];
    memory.get(2, 11, &mut into);
    assert_eq!(rt; into, [0, 1, 2]);
    assert_eq!(rt; memory.page(1), [0u8; 16].as_slice());
    assert_eq!(rt; memory.into_pages().len(), 3);
    Ok(())
}

#[test]
fn a_write_over_the_middle_marks_two_blocks(rt: HostRuntime) -> Result<(), Fail> {
    let mut bar = Bar::of(rt.alloc(), 128)?;
    let mut block = [1; 64];
    assert_eq!(rt; (bar.unread_count(), bar.dirty_count()), (2, 0));
    // a write before the first reading leaves the block unread, not dirty
    assert_eq!(rt; bar.put(60, &[5; 8]), None);
    assert_eq!(rt; (bar.unread(), bar.dirty()), (Some(0), None));
    bar.read_block(0, &mut block);
    bar.read_block(1, &mut block);
    assert_eq!(rt; &block[..5], [5, 5, 5, 5, 0].as_slice());
    assert_eq!(rt; (bar.unread(), bar.dirty()), (None, None));
    assert_eq!(rt; bar.put(60, &[7; 8]), None);
    assert_eq!(rt;
        (bar.unread_count(), bar.dirty_count(), bar.dirty()),
        (0, 2, Some(0))
    );
    bar.read_block(0, &mut block);
    assert_eq!(rt; (bar.dirty_count(), bar.dirty()), (1, Some(1)));
    // a doorbell writes nothing and marks nothing
    assert_eq!(rt; bar.put(0, &[2, 1, 0, 0, 0, 0, 0, 0]), Some(258));
    assert_eq!(rt; bar.put(0, &[0; 7]), None);
    assert_eq!(rt; (bar.dirty_count(), bar.dirty()), (2, Some(0)));
    bar.clear_marks();
    assert_eq!(rt; (bar.unread(), bar.dirty()), (None, None));
    Ok(())
}

// BAR bytes as plain arrays: the bytes, and for each of eight blocks whether it is unread and whether it is dirty.
#[derive(Drop)]
struct Plain {
    bytes: [u8; 512],
    unread: [bool; 8],
    dirty: [bool; 8],
}

impl Plain {
    // Writes these bytes, a byte at a time.
    fn write(&mut self, offset: usize, bytes: &[u8]) {
        for (i, byte) in bytes.iter().enumerate() {
            let at = offset.wrapping_add(i) % 512;
            self.bytes[at] = *byte;
            if !self.unread[at / 64] {
                self.dirty[at / 64] = true;
            }
        }
    }

    // Whether the BAR has these bytes and these marks.
    fn is_of(&self, bar: &Bar) -> bool {
        bar.bytes() == self.bytes.as_slice()
            && bar.unread() == first(&self.unread)
            && bar.dirty() == first(&self.dirty)
            && bar.unread_count() == count(&self.unread)
            && bar.dirty_count() == count(&self.dirty)
    }
}

fn first(marks: &[bool; 8]) -> Option<u32> {
    (0..8u32).find(|b| marks[*b as usize])
}

fn count(marks: &[bool; 8]) -> u32 {
    (0..8u32).filter(|b| marks[*b as usize]).count() as u32
}

// One call that a random number picks: a reading of a block, or a write.
fn step(bar: &mut Bar, plain: &mut Plain, draw: u64) -> bool {
    let place = (draw / 8 % 512) as usize;
    let len = (draw / 4096 % 65) as usize;
    let bytes = [(draw / 512 % 256) as u8; 64];
    if bar.bytes().len() != 512 || place + len > 512 {
        return true;
    }
    if draw % 8 == 0 {
        let mut block = [0; 64];
        let b = place / 64;
        bar.read_block(b as u32, &mut block);
        plain.unread[b] = false;
        plain.dirty[b] = false;
        return block.as_slice() == &plain.bytes[64 * b..64 * b + 64];
    }
    let rung = bar.put(place as u32, &bytes[..len]);
    let is_bell = place == 0 && len == 8;
    if !is_bell {
        plain.write(place, &bytes[..len]);
    }
    rung.is_some() == is_bell
}

#[test]
fn a_bar_is_its_bytes_with_marks(rt: HostRuntime) -> Result<(), Fail> {
    let mut bar = Bar::of(rt.alloc(), 512)?;
    let mut plain = Plain {
        bytes: [0; 512],
        unread: [true; 8],
        dirty: [false; 8],
    };
    let mut seed = 7u64;
    for _ in 0..100_000u32 {
        seed = seed
            .wrapping_mul(6364136223846793005)
            .wrapping_add(1442695040888963407);
        assert!(rt; step(&mut bar, &mut plain, seed >> 29));
        assert!(rt; plain.is_of(&bar));
    }
    Ok(())
}
