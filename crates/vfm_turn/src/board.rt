//! The board, and its calls.

ghost use Rattle.std.specs.Prelude.{◌≡◌, ◌<◌, ◌≤◌, ◌+◌, length};

use crate::close::{gather, hand_back};
use crate::kept::Kept;
use crate::plays::{Draw, Drawing, Enter, Leave, Now, Turns};
use crate::seen::{Busy, Held, Key, View};
use crate::start::{Rooms, deal, moved, moved_back, take_memory};
use crate::ticket::Ticket;
use atomic_table::{Refused, Seat, Table};
use std::alloc::Global;
use std::marker::Brand;
use std::snapshot::Snapshot;
use vfm_types::{Desc, Entry, NoMemory};

/// Cells that seats enter one at a time, and the count of all stamps.
#[derive(Drop)]
pub struct Board<T: Kept> {
    table: Table<Option<T>, View<T::State>, Key<T>, Turns<T>, Global>,
    pub ghost words: { table.shared.table_id.words ≡ table.shared.table_id.slots + 1 },
    pub ghost cells: { length table.shared.key.cells.value.items ≡ table.shared.table_id.slots },
    pub ghost few: { (0 < table.shared.table_id.slots) × (table.shared.table_id.slots ≤ 1100) },
    pub ghost seats: { (0 < table.shared.key.seats) × (table.shared.key.seats ≤ 64) },
}

impl<T: Kept + Drop> Board<T> {
    ghost use Rattle.std.specs.Prelude.{ℕ, true, map, slice_get, Some, IfOk, IfErr, All};
    ghost use Rattle.std.specs.List.{range_with_len};
    ghost use Rattle.vfm_turn.specs.Order.{has};
    ghost use Rattle.vfm_turn.specs.Seen.{nothing_seen};
    ghost use Rattle.vfm_turn.specs.Words.{IsTicketOf, cells_of, seats_of, desc_of, started_of, number_of, seen_of};

    /// A board over a description, with these values in its cells, 1 to 1,100, and a ticket for each of its seats, 1 to
    /// 64, in the order of their numbers. Each value fits the description in its cell. All memory that the board and its
    /// tickets ever need is taken here; where there is too little, the values come back.
    pub fn start(
        alloc: Global,
        desc: &Desc,
        mut cells: Vec<T>,
        seats: u32,
    ) -> Result<(Board<T>, Vec<Ticket<T>>), (Vec<T>, NoMemory)>
        requires cells { (0 < length cells.items) × (length cells.items ≤ 1100) }
        requires seats { (0 < seats) × (seats ≤ 64) }
        requires fits { (c : ℕ) (x : T) → slice_get cells.items c ≡ Some x → T.fits desc.now c x }
        ensures refused { IfErr result (λ r. r.0.items ≡ cells.items) }
        ensures sizes { IfOk result (λ r. (cells_of r.0 ≡ length cells.items) × (seats_of r.0 ≡ seats)) }
        ensures desc { IfOk result (λ r. desc_of r.0 ≡ desc.now) }
        ensures started { IfOk result (λ r. started_of T.state r.0 ≡ map T.state cells.items) }
        ensures numbers { IfOk result (λ r. map number_of r.1.items ≡ range_with_len 0 seats) }
        ensures all { IfOk result (λ r. (k : ℕ) → k < seats → has k (map number_of r.1.items) ≡ true) }
        ensures tickets { IfOk result (λ r. All (λ t. IsTicketOf r.0 t × (seen_of t ≡ nothing_seen)) r.1.items) }
    {
        let rooms = match take_memory(alloc, cells.len(), seats as usize) {
            Ok(rooms) => rooms,
            Err(no_memory) => return Err((cells, no_memory)),
        };
        let Rooms {
            words,
            mut slots,
            orders,
            tickets,
        } = rooms;
        let key = Key {
            desc: Snapshot::of(desc),
            cells: Snapshot::of(&cells),
            seats,
        };
        moved(&mut cells, &mut slots);
        match Table::new(alloc, words.as_slice(), slots, &key) {
            Ok((table, seat)) => {
                let tickets = deal(alloc, &table.shared, seat, cells, (orders, tickets));
                Ok((Board { table }, tickets))
            }
            Err(Refused { slots }) => {
                moved_back(slots, &mut cells);
                Err((cells, NoMemory))
            }
        }
    }
}

impl<T: Kept + Drop> Board<T> {
    ghost use Rattle.std.specs.Prelude.{◌≢◌, ◌^◌, ℕ, true, false, IfOk, IfErr, IsTrue, All};
    ghost use Rattle.vfm_turn.specs.Seen.{is_held, are_held, are_rising, IsSettled, entered, met, shown, drew, noted, left, touches_in};
    ghost use Rattle.vfm_turn.specs.Words.{IsTicketOf, cells_of, seats_of, desc_of, number_of, seen_of, holds_of, records_of, notes_of, drawn_of};

    /// Enters a cell and is lent its value, whose state is then the cell's settled and shown one; or finds another seat
    /// in the cell, whose number the answer carries. The ticket keeps the list of such meetings.
    pub fn enter(&self, t: &mut Ticket<T>, cell: u32) -> Result<T, Busy>
        requires ticket { IsTicketOf self.now t.old }
        requires cell { cell < cells_of self.now }
        requires free { is_held cell (holds_of t.old) ≡ false }
        ensures ticket { IsTicketOf self.now t.new × (number_of t.new ≡ number_of t.old) }
        ensures fits { IfOk result (λ value. T.fits (desc_of self.now) cell value) }
        ensures ok { IfOk result (λ value. seen_of t.new ≡ entered cell (T.state value) (seen_of t.old)) }
        ensures busy { IfErr result (λ busy. seen_of t.new ≡ met busy (seen_of t.old)) }
        ensures cell { IfErr result (λ busy. busy.cell ≡ cell) }
        ensures holder { IfErr result (λ busy. busy.holder < seats_of self.now) }
        ensures other { IfErr result (λ busy. busy.holder ≢ number_of t.old) }
    {
        let number = u64::from(t.number) + 1;
        let found = self
            .table
            .shared
            .compare_exchange::<Enter>(&mut t.seat, cell as usize + 1, 0, number);
        if found != 0 {
            return Err(Busy {
                cell,
                holder: (found - 1) as u32,
            });
        }
        let Some(value) = self.table.shared.exchange(&mut t.seat, cell as usize, None) else {
            unreachable!()
        };
        t.seat.turn();
        t.order.push_reserved(Held {
            cell,
            shown: Snapshot::of(&value),
        });
        Ok(value)
    }

    /// Shows a held cell in the state of `value`: the state after the next entry that touches it. No step on a word.
    pub fn show(&self, t: &mut Ticket<T>, cell: u32, value: &T)
        requires ticket { IsTicketOf self.now t.old }
        requires held { is_held cell (holds_of t.old) ≡ true }
        ensures ticket { IsTicketOf self.now t.new × (number_of t.new ≡ number_of t.old) }
        ensures seen { seen_of t.new ≡ shown cell (T.state value.now) (seen_of t.old) }
    {
        let i = place_of(&t.order, cell);
        t.order[i] = Held {
            cell,
            shown: Snapshot::of(value),
        };
    }

    /// Draws the next stamp for an entry that touches these held cells and no others, and answers it: counted from 0
    /// over all seats, below 2^39, and above each stamp that this seat drew. The cells are in rising order. The ticket keeps the
    /// record: each cell's settled state is the one before, and its shown state is the one after, which is then settled.
    pub fn draw(&self, t: &mut Ticket<T>, e: Entry, cells: &[u32]) -> u64
        requires ticket { IsTicketOf self.now t.old }
        requires some { 0 < length cells.now }
        requires rising { are_rising cells.now ≡ true }
        requires held { are_held cells.now (holds_of t.old) ≡ true }
        requires few { length (records_of t.old) < 2 ^ 32 }
        ensures ticket { IsTicketOf self.now t.new × (number_of t.new ≡ number_of t.old) }
        ensures seen { seen_of t.new ≡ drew (drawn_of t.old result e cells.now) (seen_of t.old) }
        ensures later { All (λ r. r.stamp < result) (records_of t.old) }
        ensures bounded { result < 2 ^ 39 }
    {
        self.draw_as::<Brand>(t, e, cells)
    }

    // the same, where J says in advance what is drawn
    fn draw_as<J: Drawing<T::State>>(&self, t: &mut Ticket<T>, _e: Entry, _cells: &[u32]) -> u64
        requires ticket { IsTicketOf self.now t.old }
        requires few { length (records_of t.old) < 2 ^ 32 }
        requires said { (J.entry ≡ _e) × (J.touches ≡ touches_in _cells.now (holds_of t.old)) }
        ensures ticket { IsTicketOf self.now t.new × (number_of t.new ≡ number_of t.old) }
        ensures seen { seen_of t.new ≡ drew (drawn_of t.old result _e _cells.now) (seen_of t.old) }
        ensures later { All (λ r. r.stamp < result) (records_of t.old) }
        ensures bounded { result < 2 ^ 39 }
    {
        self.table.shared.fetch_add::<Draw<J>>(&mut t.seat, 0, 1)
    }

    /// How many stamps are drawn so far: above each stamp that this seat drew, and no less than it was answered before.
    /// The ticket keeps a note of it, with each cell that the seat holds and the cell's settled state.
    pub fn now(&self, t: &mut Ticket<T>) -> u64
        requires ticket { IsTicketOf self.now t.old }
        ensures ticket { IsTicketOf self.now t.new × (number_of t.new ≡ number_of t.old) }
        ensures seen { seen_of t.new ≡ noted result (seen_of t.old) }
        ensures later { All (λ r. r.stamp < result) (records_of t.old) }
        ensures no_less { All (λ n. n.answer ≤ result) (notes_of t.old) }
        ensures bounded { result < 2 ^ 39 }
    {
        self.table.shared.load::<Now>(&mut t.seat, 0)
    }

    /// Leaves a held cell, with a value whose state is the settled one.
    pub fn leave(&self, t: &mut Ticket<T>, cell: u32, value: T)
        requires ticket { IsTicketOf self.now t.old }
        requires held { is_held cell (holds_of t.old) ≡ true }
        requires settled { IsSettled cell (T.state value) (holds_of t.old) }
        requires fits { T.fits (desc_of self.now) cell value }
        ensures ticket { IsTicketOf self.now t.new × (number_of t.new ≡ number_of t.old) }
        ensures seen { seen_of t.new ≡ left cell (seen_of t.old) }
    {
        let i = place_of(&t.order, cell);
        turn_by(&mut t.seat, i);
        self.table
            .shared
            .exchange(&mut t.seat, cell as usize, Some(value));
        self.table
            .shared
            .store::<Leave>(&mut t.seat, cell as usize + 1, 0);
        turn_by(&mut t.seat, t.order.len() - i - 1);
        t.order.remove(i);
    }
}

impl<T: Kept + Drop> Board<T> {
    ghost use Rattle.std.specs.Prelude.{◌≢◌, ◌^◌, ℕ, true, false, IfOk, IfErr, IsTrue, All};
    ghost use Rattle.std.specs.Prelude.{[], map, slice_get, Some};
    ghost use Rattle.vfm_turn.specs.Order.{has};
    ghost use Rattle.vfm_turn.specs.Words.{IsTicketOf, cells_of, seats_of, desc_of, started_of, number_of, holds_of, closing_of};
    ghost use Rattle.vfm_turn.specs.History.{IsHistory};

    /// Closes the board with all its tickets, none of which holds a cell, and gives the values back in the order of
    /// their cells. Takes no memory.
    pub fn close(self, tickets: Vec<Ticket<T>>) -> Vec<T>
        requires tickets { All (λ t. IsTicketOf self t × (holds_of t ≡ [])) tickets.items }
        requires all { (k : ℕ) → k < seats_of self → has k (map number_of tickets.items) ≡ true }
        ensures count { length result.items ≡ cells_of self }
        ensures fits { (c : ℕ) (x : T) → slice_get result.items c ≡ Some x → T.fits (desc_of self) c x }
        ensures history { IsHistory (closing_of T.state self tickets.items result.items) }
    {
        let Board { table } = self;
        let (seat, room) = gather(&table.shared, tickets);
        hand_back(table.close_with(seat), room)
    }
}

ghost use Rattle.std.specs.Prelude.{true, ◌++◌, take, drop, map, vec_len};
ghost use Rattle.vfm_turn.specs.Order.{has, held_cell};
ghost use Rattle.vfm_turn.specs.Place.{place_in};

// the place of a held cell
fn place_of<T>(order: &Vec<Held<T>>, cell: u32) -> usize
    requires { has cell (map held_cell order.now.items) ≡ true }
    ensures place { result ≡ place_in cell (map held_cell order.now.items) }
    ensures inside { result < vec_len order.now }
{
    for (i, held) in order.iter().enumerate() {
        if held.cell == cell {
            return i;
        }
    }
    unreachable!()
}

// brings the slot at this place to the front, by so many turns
fn turn_by<S, V>(seat: &mut Seat<S, V>, times: usize)
    requires { times ≤ length seat.old.me.1 }
    ensures same { (seat.new.table_id ≡ seat.old.table_id) × (seat.new.id ≡ seat.old.id) }
    ensures turned { seat.new.me ≡ (seat.old.me.0, drop times seat.old.me.1 ++ take times seat.old.me.1) }
{
    for _i in 0..times {
        seat.turn();
    }
}
