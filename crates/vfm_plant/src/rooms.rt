//! The memory of a plant and its seats.

ghost use Rattle.std.specs.Prelude.{◌≡◌, ◌≤◌, ◌<◌, [], length, map, All, IfOk, vec_len, vec_capacity};
ghost use Rattle.vfm_types.specs.Desc.{device_count};
ghost use Rattle.vfm_turn.specs.Seen.{nothing_seen};
ghost use Rattle.vfm_turn.specs.Words.{IsTicketOf, number_of, seats_of, seen_of};
ghost use Rattle.vfm_plant.specs.Rooms.{IsRoom};
ghost use Rattle.vfm_plant.specs.Seat.{IsSeatOf, count_of, seat_number};

use crate::hand::Hand;
use crate::seat::Made;
use crate::{Plant, PlantSeat};
use std::alloc::Global;
use vfm_cell_steps::Part;
use vfm_device_part::DevPart;
use vfm_turn::Ticket;
use vfm_types::NoMemory;

// What a seat has room for.
#[derive(Drop)]
pub(crate) struct Room {
    pub(crate) made: Vec<Made>,
    pub(crate) hands: Vec<Hand>,
    pub(crate) devices: Vec<DevPart>,
    pub(crate) tickets: Vec<Ticket<Part>>,
    pub(crate) lists: Vec<Vec<Made>>,
}

// Room for the cells, for the list of the seats, and for each seat.
pub(crate) struct Rooms {
    pub(crate) cells: Vec<Part>,
    pub(crate) seats: Vec<PlantSeat>,
    pub(crate) each: Vec<Room>,
}

// the room of one seat
fn take_room(alloc: Global, devices: usize, seats: usize) -> Result<Room, NoMemory>
    requires { devices ≤ 8 }
    ensures { IfOk result (IsRoom devices seats) }
{
    Ok(Room {
        made: Vec::with_capacity(alloc, 64)?,
        hands: Vec::with_capacity(alloc, devices + 2)?,
        devices: Vec::with_capacity(alloc, devices)?,
        tickets: Vec::with_capacity(alloc, seats)?,
        lists: Vec::with_capacity(alloc, seats)?,
    })
}

// Takes the memory for so many cells, devices and seats.
pub(crate) fn take_rooms(
    alloc: Global,
    cells: usize,
    devices: usize,
    seats: usize,
) -> Result<Rooms, NoMemory>
    requires { devices ≤ 8 }
    ensures cells { IfOk result (λ r. (r.cells.items ≡ []) × (cells ≤ vec_capacity r.cells)) }
    ensures seats { IfOk result (λ r. (r.seats.items ≡ []) × (seats ≤ vec_capacity r.seats)) }
    ensures each { IfOk result (λ r. (length r.each.items ≡ seats) × All (IsRoom devices seats) r.each.items) }
{
    let list = Vec::with_capacity(alloc, cells)?;
    let people = Vec::with_capacity(alloc, seats)?;
    let mut each = Vec::with_capacity(alloc, seats)?;
    for _i in 0..seats {
        each.push_reserved(take_room(alloc, devices, seats)?);
    }
    Ok(Rooms {
        cells: list,
        seats: people,
        each,
    })
}

// Gives each ticket its room; the seats stand in the order of their tickets.
pub(crate) fn deal(
    plant: &Plant,
    mut tickets: Vec<Ticket<Part>>,
    mut each: Vec<Room>,
    mut seats: Vec<PlantSeat>,
) -> Vec<PlantSeat>
    requires tickets { All (λ t. IsTicketOf plant.now.board t × (seen_of t ≡ nothing_seen)) tickets.items }
    requires each { All (IsRoom (device_count plant.now.desc) (seats_of plant.now.board)) each.items }
    requires enough { vec_len tickets ≤ vec_len each }
    requires seats { (seats.items ≡ []) × (vec_len tickets ≤ vec_capacity seats) }
    ensures seats { All (λ s. IsSeatOf plant.now s × (count_of s ≡ 0)) result.items }
    ensures numbers { map seat_number result.items ≡ map number_of tickets.items }
{
    tickets.reverse();
    while let Some(ticket) = tickets.pop() {
        let Some(room) = each.pop() else {
            unreachable!()
        };
        let Room {
            made,
            hands,
            devices,
            tickets: others,
            lists,
        } = room;
        seats.push_reserved(PlantSeat {
            ticket,
            made,
            hands,
            devices,
            tickets: others,
            lists,
        });
    }
    seats
}
