//! What a closed board gives back.

ghost use Rattle.std.specs.Prelude.{◌≡◌, ◌+◌, ◌<◌, ◌≤◌, ◌++◌, true, [], ◌∷◌, map, All, vec_len, vec_capacity};
ghost use Rattle.std.specs.Slots.{slots_items, slots_len, IsFull};
ghost use Rattle.vfm_turn.specs.Order.{has, values_in, AreAllHome};
ghost use Rattle.vfm_turn.specs.Steps.{past_of};
ghost use Rattle.vfm_turn.specs.Words.{IsSeatOf, number_of, holds_of, past_told};

use crate::kept::Kept;
use crate::plays::{Seats, Turns};
use crate::seen::{Key, View};
use crate::ticket::Ticket;
use atomic_table::{Closed, Seat, Shared};
use std::alloc::Global;

// Takes all seats into one, and finds the room for the values among what the tickets keep.
pub(crate) fn gather<T: Kept + Drop>(
    top: &Shared<Option<T>, View<T::State>, Key<T>, Turns<T>>,
    mut tickets: Vec<Ticket<T>>,
) -> (Seat<Option<T>, View<T::State>>, Vec<T>)
    requires words { 0 < top.now.table_id.words }
    requires tickets { All (λ t. IsSeatOf top.now t × (holds_of t ≡ [])) tickets.items }
    requires first { has 0 (map number_of tickets.items) ≡ true }
    ensures table { result.0.table_id ≡ top.now.table_id }
    ensures live { (result.0.me.0.live ≡ true) × (result.0.me.0.holds ≡ []) }
    ensures told { result.0.me.0.pasts ++ past_of result.0.me.0 ∷ [] ≡ map past_told tickets.items }
    ensures room { (result.1.items ≡ []) × (top.now.table_id.slots ≤ vec_capacity result.1) }
{
    let Some(last) = tickets.pop() else {
        unreachable!()
    };
    let Ticket {
        number: _,
        mut seat,
        order: _,
        mut room,
    } = last;
    while let Some(ticket) = tickets.pop() {
        let Ticket {
            number: _,
            seat: other,
            order: _,
            room: more,
        } = ticket;
        top.join_seat::<Seats>(&mut seat, other);
        room = larger(room, more);
    }
    (seat, room)
}

// the one of two empty lists that has more room
fn larger<T: Drop>(a: Vec<T>, b: Vec<T>) -> Vec<T>
    requires { (a.items ≡ []) × (b.items ≡ []) }
    ensures empty { result.items ≡ [] }
    ensures room { (vec_capacity a ≤ vec_capacity result) × (vec_capacity b ≤ vec_capacity result) }
{
    if a.capacity() < b.capacity() { b } else { a }
}

// Takes the value out of each slot, in order.
pub(crate) fn hand_back<T: Drop>(mut closed: Closed<Option<T>, Global>, mut room: Vec<T>) -> Vec<T>
    requires full { IsFull closed.slots × AreAllHome (slots_items closed.slots) }
    requires room { (room.items ≡ []) × (slots_len closed.slots ≤ vec_capacity room) }
    ensures { result.items ≡ values_in (slots_items closed.slots) }
{
    for i in 0..closed.slot_count() {
        let Some(value) = closed.take(i) else {
            unreachable!()
        };
        room.push_reserved(value);
    }
    closed.free();
    room
}
