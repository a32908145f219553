//! The memory of a board, and its seats at the start.

ghost use Rattle.std.specs.Prelude.{◌≡◌, ◌+◌, ◌-◌, ◌<◌, ◌≤◌, ◌++◌, ℕ, true, [], ◌∷◌, map, reverse, replicate, length, Some, All, IfOk, vec_len, vec_capacity};
ghost use Rattle.std.specs.List.{range_with_len};
ghost use Rattle.vfm_turn.specs.Order.{AreRooms, AreAllHome, values_in};
ghost use Rattle.vfm_turn.specs.Rule.{fresh_view, IsFreshSeat};
ghost use Rattle.vfm_turn.specs.Seen.{nothing_seen};
ghost use Rattle.vfm_turn.specs.Words.{IsSeatOf, number_of, seen_of};

use crate::kept::Kept;
use crate::plays::{Seats, Turns};
use crate::seen::{Held, Key, View};
use crate::ticket::Ticket;
use atomic_table::{Seat, Shared};
use std::alloc::Global;
use vfm_types::NoMemory;

// Room for the words, the slots and what the tickets hold.
pub(crate) struct Rooms<T: Kept> {
    pub(crate) words: Vec<u64>,
    pub(crate) slots: Vec<Option<T>>,
    pub(crate) orders: Vec<Vec<Held<T>>>,
    pub(crate) tickets: Vec<Ticket<T>>,
}

// Takes the memory of a board.
pub(crate) fn take_memory<T: Kept + Drop>(
    alloc: Global,
    cells: usize,
    seats: usize,
) -> Result<Rooms<T>, NoMemory>
    requires { cells ≤ 1100 }
    ensures words { IfOk result (λ r. r.words.items ≡ replicate (cells + 1) 0) }
    ensures slots { IfOk result (λ r. (r.slots.items ≡ []) × (cells ≤ vec_capacity r.slots)) }
    ensures tickets { IfOk result (λ r. (r.tickets.items ≡ []) × (seats ≤ vec_capacity r.tickets)) }
    ensures orders { IfOk result (λ r. (length r.orders.items ≡ seats) × AreRooms cells r.orders.items) }
{
    let words = vec![in alloc; 0u64; cells + 1]?;
    let slots = Vec::with_capacity(alloc, cells)?;
    let tickets = Vec::with_capacity(alloc, seats)?;
    let mut orders = Vec::with_capacity(alloc, seats)?;
    for _i in 0..seats {
        orders.push_reserved(Vec::with_capacity(alloc, cells)?);
    }
    Ok(Rooms {
        words,
        slots,
        orders,
        tickets,
    })
}

// Moves the values into slots, in order.
pub(crate) fn moved<T: Drop>(cells: &mut Vec<T>, slots: &mut Vec<Option<T>>)
    requires { (slots.old.items ≡ []) × (vec_len cells.old ≤ vec_capacity slots.old) }
    ensures slots { slots.new.items ≡ map Some cells.old.items }
    ensures cells { (cells.new.items ≡ []) × (vec_capacity cells.new ≡ vec_capacity cells.old) }
{
    while let Some(value) = cells.pop() {
        slots.push_reserved(Some(value));
    }
    slots.reverse();
}

// Moves them back.
pub(crate) fn moved_back<T: Drop>(mut slots: Vec<Option<T>>, cells: &mut Vec<T>)
    requires slots { AreAllHome slots.items }
    requires cells { (cells.old.items ≡ []) × (vec_len slots ≤ vec_capacity cells.old) }
    ensures { cells.new.items ≡ values_in slots.items }
{
    while let Some(slot) = slots.pop() {
        let Some(value) = slot else { unreachable!() };
        cells.push_reserved(value);
    }
    cells.reverse();
}

// Deals a ticket to each seat, of which each makes the next. The first keeps the emptied list.
pub(crate) fn deal<T: Kept + Drop>(
    alloc: Global,
    top: &Shared<Option<T>, View<T::State>, Key<T>, Turns<T>>,
    mut seat: Seat<Option<T>, View<T::State>>,
    mut room: Vec<T>,
    rooms: (Vec<Vec<Held<T>>>, Vec<Ticket<T>>),
) -> Vec<Ticket<T>>
    requires words { 0 < top.now.table_id.words }
    requires table { seat.table_id ≡ top.now.table_id }
    requires seat { seat.me ≡ (fresh_view 0 top.now.key.seats top.now.key.desc, []) }
    requires seats { (0 < top.now.key.seats) × (top.now.key.seats ≤ 64) × (vec_len rooms.0 ≡ top.now.key.seats) }
    requires reach { top.now.key.seats ≤ vec_capacity rooms.1 }
    requires room { (room.items ≡ []) × (top.now.table_id.slots ≤ vec_capacity room) }
    requires rooms { AreRooms top.now.table_id.slots rooms.0.items × (rooms.1.items ≡ []) }
    ensures numbers { map number_of result.items ≡ range_with_len 0 top.now.key.seats }
    ensures tickets { All (λ t. IsSeatOf top.now t × (seen_of t ≡ nothing_seen)) result.items }
{
    let (mut orders, mut tickets) = rooms;
    for number in 0..(orders.len() - 1) as u32 {
        let next = top.split_seat::<Seats>(&mut seat);
        let Some(order) = orders.pop() else {
            unreachable!()
        };
        tickets.push_reserved(ticket(number, seat, order, room));
        seat = next;
        room = Vec::new(alloc);
    }
    let number = tickets.len() as u32;
    let Some(order) = orders.pop() else {
        unreachable!()
    };
    tickets.push_reserved(ticket(number, seat, order, room));
    tickets
}

// the ticket of a seat that knows nothing yet
fn ticket<T: Kept>(
    number: u32,
    seat: Seat<Option<T>, View<T::State>>,
    order: Vec<Held<T>>,
    room: Vec<T>,
) -> Ticket<T>
    requires seat { IsFreshSeat number seat.me }
    requires order { (order.items ≡ []) × (seat.table_id.slots ≤ vec_capacity order) }
    requires room { (room.items ≡ []) × (number ≡ 0 → seat.table_id.slots ≤ vec_capacity room) }
    ensures { (result.number ≡ number) × (result.seat ≡ seat) × (seen_of result ≡ nothing_seen) }
{
    Ticket {
        number,
        seat,
        order,
        room,
    }
}
