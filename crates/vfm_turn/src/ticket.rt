//! A seat's ticket, with which a thread enters cells and draws entries.

ghost use Rattle.std.specs.Prelude.{◌≡◌, ◌≤◌, true, [], map, vec_capacity};
ghost use Rattle.vfm_turn.specs.Order.{empty_slot, held_cell, stand_cell, are_once, are_below};

use crate::kept::Kept;
use crate::seen::{Held, View};
use atomic_table::Seat;

/// The right to enter the cells of one board and to draw entries on it.
#[derive(Drop)]
pub struct Ticket<T: Kept> {
    pub(crate) number: u32,
    pub(crate) seat: Seat<Option<T>, View<T::State>>,
    // the cells that it holds, in the order in which it entered them
    pub(crate) order: Vec<Held<T>>,
    // the emptied list in which the values came to `start`; the first ticket keeps it, and `close` gives them back in it
    pub(crate) room: Vec<T>,
    pub ghost live: { seat.me.0.live ≡ true },
    pub ghost numbered: { seat.me.0.number ≡ number },
    pub ghost alone: { seat.me.0.pasts ≡ [] },
    pub ghost out: { seat.me.1 ≡ map empty_slot order.items },
    pub ghost in_order: { map stand_cell seat.me.0.holds ≡ map held_cell order.items },
    pub ghost once: { are_once (map held_cell order.items) ≡ true },
    pub ghost inside: { are_below seat.table_id.slots (map held_cell order.items) ≡ true },
    pub ghost reach: { seat.table_id.slots ≤ vec_capacity order },
    pub ghost bare: { room.items ≡ [] },
    pub ghost spare: { number ≡ 0 → seat.table_id.slots ≤ vec_capacity room },
}

impl<T: Kept> Ticket<T> {
    ghost use Rattle.vfm_turn.specs.Words.{number_of};

    /// The number of its seat, counted from 0.
    pub fn number(&self) -> u32
        ensures { result ≡ number_of self.now }
    {
        self.number
    }
}
