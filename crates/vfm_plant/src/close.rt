//! A plant's close.

ghost use Rattle.std.specs.Prelude.{◌≡◌, ◌+◌, ◌<◌, ◌≤◌, ◌++◌, ℕ, List, [], true, length, map, All, vec_len, vec_capacity};
ghost use Rattle.vfm_turn.specs.Order.{has};
ghost use Rattle.vfm_turn.specs.Words.{seats_of};
ghost use Rattle.vfm_types.specs.declared.entry.Entry.{Entry};
ghost use Rattle.vfm_plant.specs.Closed.{AreAtPlaces, IsClosed, find_at, find_in, items_of};
ghost use Rattle.vfm_plant.specs.Seat.{IsSeatOf, seat_number};
ghost use Rattle.vfm_plant.specs.Started.{IsPlant};

use crate::cells::collect;
use crate::hand::again;
use crate::seat::Made;
use crate::{Plant, PlantSeat};
use vfm_cell_steps::Part;
use vfm_core::{Core, Split};
use vfm_journal::Journal;
use vfm_turn::Ticket;
use vfm_types::Entry;

// the tickets of the seats and the entries that they made, in the order of the seats
fn gather_seats(mut seats: Vec<PlantSeat>) -> (Vec<Ticket<Part>>, Vec<Vec<Made>>)
    requires some { 0 < vec_len seats }
    requires tickets { All (λ s. (s.tickets.items ≡ []) × (vec_len seats ≤ vec_capacity s.tickets)) seats.items }
    requires lists { All (λ s. (s.lists.items ≡ []) × (vec_len seats ≤ vec_capacity s.lists)) seats.items }
    ensures tickets { result.0.items ≡ map (λ s. s.ticket) seats.items }
    ensures lists { result.1.items ≡ map (λ s. s.made) seats.items }
{
    seats.reverse();
    let Some(first) = seats.pop() else {
        unreachable!()
    };
    let PlantSeat {
        ticket,
        made,
        hands: _,
        devices: _,
        mut tickets,
        mut lists,
    } = first;
    tickets.push_reserved(ticket);
    lists.push_reserved(made);
    while let Some(seat) = seats.pop() {
        let PlantSeat {
            ticket,
            made,
            hands: _,
            devices: _,
            tickets: _,
            lists: _,
        } = seat;
        tickets.push_reserved(ticket);
        lists.push_reserved(made);
    }
    (tickets, lists)
}

// the entry at this place, if it is among these
fn entry_in(list: &Vec<Made>, place: u64) -> Option<Entry>
    ensures { result ≡ find_in place list.now.items }
{
    for made in list.iter() {
        if made.place == place {
            return Some(again(&made.entry));
        }
    }
    None
}

// the entry at this place, if it is in one of the lists
fn entry_at(lists: &Vec<Vec<Made>>, place: u64) -> Option<Entry>
    ensures { result ≡ find_at place (map items_of lists.now.items) }
{
    for list in lists.iter() {
        if let Some(entry) = entry_in(list, place) {
            return Some(entry);
        }
    }
    None
}

// adds the entries of the lists to the journal, each at its place
fn write_down(journal: &mut Journal, lists: &Vec<Vec<Made>>)
    requires told { (log : List Entry) × AreAtPlaces (length journal.old.entries) (map items_of lists.now.items) log
        × (length journal.old.entries + length log ≤ journal.old.room) }
    ensures written { (log : List Entry) → AreAtPlaces (length journal.old.entries) (map items_of lists.now.items) log
        → journal.new.entries ≡ journal.old.entries ++ log }
    ensures room { journal.new.room ≡ journal.old.room }
{
    while let Some(entry) = entry_at(lists, journal.len()) {
        journal.push(entry);
    }
}

impl Plant {
    /// The core after all that its seats made, each entry at its place. All seats come back with it. Takes no memory.
    pub fn close(self, seats: Vec<PlantSeat>) -> Core
        requires plant { IsPlant self }
        requires seats { All (λ s. IsSeatOf self s) seats.items }
        requires all { (k : ℕ) → k < seats_of self.board → has k (map seat_number seats.items) ≡ true }
        requires few { vec_len seats ≤ seats_of self.board }
        ensures { IsClosed self seats.items result }
    {
        let Plant {
            board,
            desc,
            mut journal,
            began: _,
            mut devices,
            mut pages,
        } = self;
        let (tickets, lists) = gather_seats(seats);
        let cells = board.close(tickets);
        write_down(&mut journal, &lists);
        let lead = collect(&desc, cells, &mut devices, &mut pages);
        Split {
            desc,
            journal,
            lead,
            devices,
            pages,
        }
        .join()
    }
}
