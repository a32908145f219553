//! The seats of a plant, and the step that a seat makes.

ghost use Rattle.std.specs.Prelude.{◌≡◌, ◌<◌, ◌≤◌, ◌+◌, ◌∷◌, ◌++◌, ◌^◌, [], length, max, vec_capacity};
ghost use Rattle.vfm_types.specs.Desc.{device_count};
ghost use Rattle.vfm_turn.specs.Words.{IsTicketOf, holds_of, number_of, records_of};
ghost use Rattle.vfm_plant.specs.Outcome.{IsOutcome, attempted};
ghost use Rattle.vfm_plant.specs.Seat.{IsSeatOf, IsWishOf, count_of, kept_of, seat_number};
ghost use Rattle.vfm_plant.specs.Started.{IsPlant};

use crate::hand::{Hand, again};
use crate::{Plant, Stepped, Wish};
use vfm_cell_steps::Part;
use vfm_device_part::DevPart;
use vfm_turn::Ticket;
use vfm_types::Entry;

// An entry that a seat made, and its place in the journal.
#[derive(Drop)]
pub(crate) struct Made {
    pub(crate) place: u64,
    pub(crate) entry: Entry,
}

/// A seat of a plant, with which one thread at a time makes steps. It is good for 64 entries.
#[derive(Drop)]
pub struct PlantSeat {
    pub(crate) ticket: Ticket<Part>,
    // the entries that it made, oldest first
    pub(crate) made: Vec<Made>,
    // room for the cells that it holds during a call
    pub(crate) hands: Vec<Hand>,
    pub(crate) devices: Vec<DevPart>,
    // room for all tickets, and for all lists of entries, when the plant is closed
    pub(crate) tickets: Vec<Ticket<Part>>,
    pub(crate) lists: Vec<Vec<Made>>,
}

impl PlantSeat {
    /// How many entries it has made, of the 64 that it is good for.
    pub fn count(&self) -> usize
        ensures { result ≡ count_of self.now }
    {
        self.made.len()
    }
}

// keeps the entry, where one was made
fn keep(made: &mut Vec<Made>, stepped: &Stepped)
    requires { length made.old.items < vec_capacity made.old }
    ensures made { made.new.items ≡ made.old.items ++ kept_of stepped.now }
    ensures capacity { vec_capacity made.new ≡ vec_capacity made.old }
{
    if let Stepped::Did { place, entry } = stepped {
        made.push_reserved(Made {
            place: *place,
            entry: again(entry),
        });
    }
}

impl Plant {
    // makes what is wished for
    fn try_wish(
        &self,
        t: &mut Ticket<Part>,
        hands: &mut Vec<Hand>,
        devices: &mut Vec<DevPart>,
        wish: Wish,
        into: &mut Vec<u8>,
    ) -> Stepped
        requires plant { IsPlant self.now }
        requires ticket { IsTicketOf self.now.board t.old }
        requires rest { holds_of t.old ≡ [] }
        requires few { length (records_of t.old) < 2 ^ 32 }
        requires hands { (hands.old.items ≡ []) × (device_count self.now.desc + 2 ≤ vec_capacity hands.old) }
        requires devices { (devices.old.items ≡ []) × (device_count self.now.desc ≤ vec_capacity devices.old) }
        requires wish { IsWishOf self.now.desc wish }
        requires into { (into.old.items ≡ []) × (max self.now.desc.page 64 ≤ vec_capacity into.old) }
        ensures ticket { IsTicketOf self.now.board t.new × (number_of t.new ≡ number_of t.old) }
        ensures hands { (hands.new.items ≡ []) × (vec_capacity hands.new ≡ vec_capacity hands.old) }
        ensures devices { (devices.new.items ≡ []) × (vec_capacity devices.new ≡ vec_capacity devices.old) }
        ensures outcome { IsOutcome (record (attempted self.now wish t.old t.new) { bytes = into.new.items }) result }
    {
        match wish {
            Wish::Device { d, pick } => self.try_device(t, hands, d, pick),
            Wish::Coordinator { abort_after } => {
                self.try_coordinator(t, hands, devices, abort_after, into)
            }
        }
    }

    /// Makes what a seat wishes for, or says why not. Waits for nobody, holds no cell afterwards, and takes no memory.
    ///
    /// A device's wish touches the device's cell and that of the step's target; one of the coordinator touches its cell, each
    /// device's and that of a page that is copied. At a Copy or a Block, `into` then has the bytes of the page or the block
    /// as they stand at that entry, and else it is empty. `Did` carries the entry's place in the journal that `close` gives.
    /// `Nothing` comes where, in its look, the device has no step, or what the order wants of the coordinator is to wait, to be
    /// done or Abort, or breaks a rule; the look is that of the machine after the first `at` entries of that journal. `Busy`
    /// comes where this call found another seat in a cell that the wish touches.
    pub fn try_step(&self, seat: &mut PlantSeat, wish: Wish, into: &mut Vec<u8>) -> Stepped
        requires plant { IsPlant self.now }
        requires seat { IsSeatOf self.now seat.old }
        requires left { count_of seat.old < 64 }
        requires wish { IsWishOf self.now.desc wish }
        requires into { max self.now.desc.page 64 ≤ vec_capacity into.old }
        ensures seat { IsSeatOf self.now seat.new }
        ensures number { seat_number seat.new ≡ seat_number seat.old }
        ensures count { count_of seat.new ≤ count_of seat.old + 1 }
        ensures outcome { IsOutcome (record (attempted self.now wish seat.old.ticket seat.new.ticket) { bytes = into.new.items }) result }
    {
        into.clear();
        let stepped = self.try_wish(
            &mut seat.ticket,
            &mut seat.hands,
            &mut seat.devices,
            wish,
            into,
        );
        keep(&mut seat.made, &stepped);
        stepped
    }
}
