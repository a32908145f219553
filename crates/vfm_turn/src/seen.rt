//! What a seat knows, as plain data that contracts alone see. Of these types only `Busy` has values when a program runs.

use std::collections::LinkedList;
use std::snapshot::Snapshot;
use vfm_types::{Desc, Entry};

/// The seat that was found in a cell.
#[derive(Clone, Copy, Debug, PartialEq, Eq)]
pub struct Busy {
    pub cell: u32,
    /// The number of the seat that held the cell, counted from 0.
    pub holder: u32,
}

/// A cell and a state of it.
pub struct Stand<Z> {
    pub cell: u32,
    pub state: Z,
}

/// A cell that an entry touches, with its state before and after the entry.
pub struct Touch<Z> {
    pub cell: u32,
    pub before: Z,
    pub after: Z,
}

/// The record of one drawn entry.
pub struct Drawn<Z> {
    /// The number of the seat that drew it.
    pub by: u32,
    /// Its place among all entries, counted from 0.
    pub stamp: u64,
    pub entry: Entry,
    /// The cells that it touches, and no others.
    pub touches: LinkedList<Touch<Z>>,
}

/// What a seat noted when it read how many stamps are drawn.
pub struct Note<Z> {
    pub answer: u64,
    /// The cells that the seat held, each with its settled state.
    pub stands: LinkedList<Stand<Z>>,
}

/// What a seat drew and noted, newest first.
pub struct Past<Z> {
    pub number: u32,
    pub records: LinkedList<Drawn<Z>>,
    pub notes: LinkedList<Note<Z>>,
}

/// What a seat knows. It changes only at a step on a word of the board.
pub struct View<Z> {
    /// Whether the seat is still there; it isn't once another has taken it in.
    pub live: bool,
    pub number: u32,
    /// Whether no seat was made after it. The newest seat makes the next one.
    pub newest: bool,
    pub seats: u32,
    /// The description that the board was started with.
    pub desc: Option<Snapshot<Desc>>,
    /// The cells that the seat holds, each with its settled state, in the order in which it entered them.
    pub holds: LinkedList<Stand<Z>>,
    /// Newest first, as the notes and the meetings are.
    pub records: LinkedList<Drawn<Z>>,
    pub notes: LinkedList<Note<Z>>,
    pub meetings: LinkedList<Busy>,
    /// What the seats drew that this one has taken in.
    pub pasts: LinkedList<Past<Z>>,
}

/// What a board was started with.
pub struct Key<T> {
    pub desc: Snapshot<Desc>,
    pub cells: Snapshot<Vec<T>>,
    pub seats: u32,
}

impl<T> Drop for Key<T> {
    fn drop(self) {
        let Key {
            desc: _,
            cells: _,
            seats: _,
        } = self;
    }
}

// A held cell, and the value that it was shown to have.
pub(crate) struct Held<T> {
    pub(crate) cell: u32,
    pub(crate) shown: Snapshot<T>,
}

impl<T> Drop for Held<T> {
    fn drop(self) {
        let Held { cell: _, shown: _ } = self;
    }
}
