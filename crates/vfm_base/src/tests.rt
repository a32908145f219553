//! What these values are, on values written by hand.

use crate::{Duplicate, Items, NoMemory, Numbered, PageSet, ShortBytes, u16_at, u32_at, u64_at};
use std::test::Fail;

#[test]
fn short_bytes_are_kept(rt: HostRuntime) -> Result<(), Fail> {
    let kept = ShortBytes::<4>::of(b"abc").ok_or("three bytes")?;
    assert_eq!(rt; kept.bytes(), b"abc".as_slice());
    assert_eq!(rt; kept.copy().len(), 3);
    assert!(rt; ShortBytes::<4>::of(b"abcd").is_some());
    assert!(rt; ShortBytes::<4>::of(b"abcde").is_none());
    assert_eq!(rt; ShortBytes::<4>::of(b"").ok_or("no byte")?.len(), 0);
    Ok(())
}

#[test]
fn lists_are_lent_and_copied(rt: HostRuntime) -> Result<(), Fail> {
    let alloc = rt.alloc();
    let items = Items::of(vec![in alloc; 3u8, 5]?);
    assert_eq!(rt; items.lent(), [3, 5].as_slice());
    assert_eq!(rt; items.into_list().as_slice(), [3, 5].as_slice());
    let numbered = Numbered::of(vec![in alloc; 7u32, 8, 9]?);
    let copy = numbered.copy()?;
    assert_eq!(rt; copy.as_slice(), [7, 8, 9].as_slice());
    assert_eq!(rt; copy.len(), 3);
    assert!(rt; 2 < copy.len());
    assert_eq!(rt; *copy.at(2), 9);
    assert!(rt; !copy.is_empty());
    let none: Vec<u32> = Vec::new(alloc);
    assert!(rt; Numbered::of(none).is_empty());
    let four: Result<u32, NoMemory> = 4u32.duplicate();
    assert_eq!(rt; four, Ok(4));
    Ok(())
}

#[test]
fn pages_are_added_and_removed(rt: HostRuntime) {
    let mut set = PageSet::new();
    set.add(3);
    set.add(64);
    set.add(1023);
    assert_eq!(rt; set.len(), 3);
    set.remove(64);
    set.remove(65);
    assert!(rt; !set.has(64));
    assert!(rt; set.has(3));
    assert_eq!(rt; set.least_from(4), Some(1023));
    let mut all = PageSet::full(70);
    all.remove(0);
    all.join(&set);
    assert_eq!(rt; all.len(), 70);
    assert_eq!(rt; all.least_from(0), Some(1));
    assert_eq!(rt; all.copy().least_from(70), Some(1023));
    all.clear();
    assert!(rt; all.is_empty());
}

#[test]
fn numbers_are_read_with_the_highest_byte_first(rt: HostRuntime) {
    let bytes = [0u8, 1, 2, 3, 4, 5, 6, 7, 8];
    assert_eq!(rt; u16_at(&bytes, 1), 0x0102);
    assert_eq!(rt; u32_at(&bytes, 0), 0x0001_0203);
    assert_eq!(rt; u64_at(&bytes, 1), 0x0102_0304_0506_0708);
}
