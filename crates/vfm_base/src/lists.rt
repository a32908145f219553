//! Lists that a contract compares as lists, whatever room their vectors have.

ghost use Rattle.std.specs.Prelude.{◌≡◌, ◌<◌, ◌^◌, ◌==◌, Some, IfOk, length, slice_get, slice_index_or, vec_len};

use crate::{Duplicate, NoMemory};
use std::alloc::Global;
use std::marker::Model;

/// A list of any length. Seen as the list of its items.
#[derive(Debug, Drop)]
pub struct Items<T> {
    list: Vec<T>,
}

impl<T> Model for Items<T> {
    ghost use Rattle.std.specs.Prelude.{List};

    ghost Value = { List T };

    ghost view = { λ items. items.list.items };
}

impl<T> Items<T> {
    /// These items. Takes no memory.
    pub fn of(list: Vec<T>) -> Items<T>
        ensures { result ≡ list.items }
    {
        Items { list }
    }

    /// Gives the vector back.
    pub fn into_list(self) -> Vec<T>
        ensures { result.items ≡ self }
    {
        self.list
    }

    /// Lends the list.
    pub fn lent(&self) -> &[T]
        ensures { result.now ≡ self.now }
    {
        self.list.as_slice()
    }
}

/// A list of fewer than 2^32 items, each found by its number, counted from 0. Seen as the list of its items.
#[derive(Debug, Drop)]
pub struct Numbered<T> {
    list: Vec<T>,
}

impl<T> Model for Numbered<T> {
    ghost use Rattle.std.specs.Prelude.{List, vec_len, ◌<◌, ◌^◌};

    ghost Value = { List T };

    ghost view = { λ items. items.list.items };

    ghost invariant = { λ items. vec_len items.list < 2 ^ 32 };
}

impl<T> Numbered<T> {
    /// These items. Takes no memory.
    pub fn of(list: Vec<T>) -> Numbered<T>
        requires { vec_len list < 2 ^ 32 }
        ensures { result ≡ list.items }
    {
        Numbered { list }
    }

    /// How many there are.
    pub fn len(&self) -> u32
        ensures { result ≡ length self.now }
    {
        self.list.len() as u32
    }

    /// Whether there are none.
    pub fn is_empty(&self) -> bool
        ensures { result ≡ (length self.now == 0) }
    {
        self.list.len() == 0
    }

    /// The one with number `i`.
    pub fn at(&self, i: u32) -> &T
        requires { i < length self.now }
        ensures item { slice_get self.now i ≡ Some result.now }
        ensures value { (d : T) → result.now ≡ slice_index_or self.now i d }
    {
        &self.list[i as usize]
    }

    /// Lends all of them.
    pub fn as_slice(&self) -> &[T]
        ensures value { result.now ≡ self.now }
        ensures few { length self.now < 2 ^ 32 }
    {
        self.list.as_slice()
    }
}

impl<T: Duplicate + Drop> Numbered<T> {
    /// An equal list, on the same allocator.
    pub fn copy(&self) -> Result<Numbered<T>, NoMemory>
        ensures { IfOk result (λ copy. copy ≡ self.now) }
    {
        let alloc = *self.list.allocator();
        let list = duplicates(alloc, self.list.as_slice())?;
        Ok(Numbered { list })
    }
}

// an equal copy of each item
fn duplicates<T: Duplicate + Drop>(alloc: Global, items: &[T]) -> Result<Vec<T>, NoMemory>
    ensures { IfOk result (λ copy. copy.items ≡ items.now) }
{
    let mut copy = Vec::with_capacity(alloc, items.len())?;
    for item in items {
        copy.push(item.duplicate()?)?;
    }
    Ok(copy)
}
