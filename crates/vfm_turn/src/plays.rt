//! What each step on a word tells the seat that makes it. These types are for the proofs alone.

ghost use Rattle.std.specs.Prelude.{[], ℕ, List};
ghost use Rattle.vfm_types.specs.declared.entry.Entry.{Entry};
ghost use Rattle.vfm_types.specs.declared.entry.Entry.TheVariants.{Begin};
ghost use Rattle.vfm_turn.specs.declared.seen.Touch.{Touch};
ghost use Rattle.vfm_turn.specs.Rule.{Ruled, first_view};
ghost use Rattle.vfm_turn.specs.Steps.{entering, drawing, noting, leaving, has_made, new_view, taken_in, spent_view};

use crate::kept::Kept;
use crate::seen::{Key, View};
use atomic_table::{Join, Play, Split, TableRule};
use std::marker::{Brand, PhantomData};

// The rule of the board's words, cells and seats.
pub struct Turns<T> {
    marker: PhantomData<T>,
}

impl<T: Kept> TableRule<Option<T>, View<T::State>, Key<T>> for Turns<T> {
    ghost holds = { λ key. Ruled T.state T.fits key };

    ghost first = { λ key. first_view key.seats key.desc };
}

// A seat enters a cell, or finds another in it.
pub(crate) struct Enter;

impl<T: Kept> Play<Option<T>, View<T::State>> for Enter {
    ghost then = { entering T.state T.fits };
}

// The entry that a call draws, and the cells that it touches. Each call picks it.
pub(crate) trait Drawing<Z> {
    ghost entry: { Entry };

    ghost touches: { List (Touch Z) };
}

impl<Z> Drawing<Z> for Brand {
    ghost entry = { Begin };

    ghost touches = { [] };
}

// A seat draws the next stamp.
pub(crate) struct Draw<J> {
    marker: PhantomData<J>,
}

impl<T, Z, J: Drawing<Z>> Play<Option<T>, View<Z>> for Draw<J> {
    ghost then = { drawing J.entry J.touches };
}

// A seat reads how many stamps are drawn.
pub(crate) struct Now;

impl<T, Z> Play<Option<T>, View<Z>> for Now {
    ghost then = { noting };
}

// A seat leaves a cell.
pub(crate) struct Leave;

impl<T, Z> Play<Option<T>, View<Z>> for Leave {
    ghost then = { leaving };
}

// The newest seat makes another.
pub(crate) struct Seats;

impl<Z> Split<View<Z>> for Seats {
    ghost left = { has_made };

    ghost right = { new_view };
}

impl<Z> Join<View<Z>> for Seats {
    ghost both = { taken_in };

    ghost spent = { spent_view };
}
