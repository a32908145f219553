//! What a seat makes of a device's wish: it enters the device's cell, and where the step is a delivery, its target's.

ghost use Rattle.std.specs.Prelude.{◌≡◌, ◌<◌, ◌≤◌, ◌∷◌, ◌^◌, ◌==◌, [], false, None, Some, true, length, vec_capacity};
ghost use Rattle.vfm_types.specs.declared.entry.Entry.TheVariants.{Deliver};
ghost use Rattle.vfm_types.specs.Desc.{device_count};
ghost use Rattle.vfm_turn.specs.Seen.{hold};
ghost use Rattle.vfm_turn.specs.Words.{IsTicketOf, cells_of, holds_of, number_of, records_of, seats_of, seen_of};
ghost use Rattle.vfm_cells.specs.Cells.{dev_number, dev_or_none, region_number};
ghost use Rattle.vfm_cells.specs.CellFits.{CellFits};
ghost use Rattle.vfm_device_part.specs.DeviceSteps.{IsTarget, is_own_of, own_fault, target_in};
ghost use Rattle.vfm_device_part.specs.Pick.{enabled_steps, picked};
ghost use Rattle.vfm_plant.specs.declared.stepped.Wish.TheVariants as wish;
ghost use Rattle.vfm_plant.specs.Outcome.{IsOutcome, attempted};
ghost use Rattle.vfm_plant.specs.Started.{IsPlant, base_of};

use crate::hand::{Hand, again, draw_one, draw_two};
use crate::{Look, Plant, Stepped};
use vfm_cell_steps::{Part, step_across};
use vfm_turn::Ticket;
use vfm_types::{DeviceId, Entry, Region};

impl Plant {
    // how many entries the journal had at the start
    pub(crate) fn base(&self) -> u64
        requires { IsPlant self.now }
        ensures value { result ≡ base_of self.now }
        ensures few { result < 2 ^ 63 }
    {
        self.journal.len()
    }

    // the cell of a region
    fn cell_of(&self, region: &Region, d: DeviceId) -> u32
        requires plant { IsPlant self.now }
        requires device { d < device_count self.now.desc }
        requires there { IsTarget self.now.desc d region.now }
        ensures value { result ≡ region_number self.now.desc region.now }
        ensures inside { result < cells_of self.now.board }
        ensures other { (dev_number d == result) ≡ false }
    {
        match *region {
            Region::Page(p) => p + self.desc.devices.len() + 1,
            Region::Bar(t) => u32::from(t.0) + 1,
        }
    }

    // What a seat makes of the wish for the step of device d that a number picks.
    pub(crate) fn try_device(
        &self,
        t: &mut Ticket<Part>,
        hands: &mut Vec<Hand>,
        d: DeviceId,
        pick: u32,
    ) -> Stepped
        requires plant { IsPlant self.now }
        requires ticket { IsTicketOf self.now.board t.old }
        requires rest { holds_of t.old ≡ [] }
        requires few { length (records_of t.old) < 2 ^ 32 }
        requires hands { (hands.old.items ≡ []) × (2 ≤ vec_capacity hands.old) }
        requires device { d < device_count self.now.desc }
        ensures ticket { IsTicketOf self.now.board t.new × (number_of t.new ≡ number_of t.old) }
        ensures hands { (hands.new.items ≡ []) × (vec_capacity hands.new ≡ vec_capacity hands.old) }
        ensures outcome { IsOutcome (attempted self.now (wish.Device d pick) t.old t.new) result }
    {
        match self.board.enter(t, own_cell(d)) {
            Ok(own) => self.try_entered(t, hands, d, pick, own),
            Err(busy) => Stepped::Busy {
                cell: busy.cell,
                holder: busy.holder,
            },
        }
    }

    // the same, once the device's cell is entered, in which this part lies
    fn try_entered(
        &self,
        t: &mut Ticket<Part>,
        hands: &mut Vec<Hand>,
        d: DeviceId,
        pick: u32,
        own: Part,
    ) -> Stepped
        requires plant { IsPlant self.now }
        requires ticket { IsTicketOf self.now.board t.old }
        requires held { holds_of t.old ≡ hold (dev_number d) own own ∷ [] }
        requires fits { CellFits self.now.desc (dev_number d) own }
        requires few { length (records_of t.old) < 2 ^ 32 }
        requires hands { (hands.old.items ≡ []) × (2 ≤ vec_capacity hands.old) }
        requires device { d < device_count self.now.desc }
        ensures ticket { IsTicketOf self.now.board t.new × (number_of t.new ≡ number_of t.old) }
        ensures hands { (hands.new.items ≡ []) × (vec_capacity hands.new ≡ vec_capacity hands.old) }
        ensures outcome { IsOutcome (attempted self.now (wish.Device d pick) t.old t.new) result }
    {
        let Some(e) = own.pick(&self.desc, d, pick) else {
            return self.see_nothing(t, d, pick, own);
        };
        match e {
            Entry::Deliver { d: _, n } => self.try_delivery(t, hands, d, pick, n, own),
            _ => self.make_own(t, hands, d, pick, own, &e),
        }
    }

    // notes that the device has no step, and leaves its cell
    fn see_nothing(&self, t: &mut Ticket<Part>, d: DeviceId, pick: u32, own: Part) -> Stepped
        requires plant { IsPlant self.now }
        requires ticket { IsTicketOf self.now.board t.old }
        requires held { holds_of t.old ≡ hold (dev_number d) own own ∷ [] }
        requires fits { CellFits self.now.desc (dev_number d) own }
        requires device { d < device_count self.now.desc }
        requires none { picked (enabled_steps self.now.desc d (dev_or_none own)) pick ≡ None }
        ensures ticket { IsTicketOf self.now.board t.new × (number_of t.new ≡ number_of t.old) }
        ensures outcome { IsOutcome (attempted self.now (wish.Device d pick) t.old t.new) result }
    {
        let look = own.look(&self.desc, d);
        let answer = self.board.now(t);
        self.board.leave(t, own_cell(d), own);
        Stepped::Nothing {
            at: self.base() + answer,
            look: Look::Device(look),
        }
    }

    // makes the picked Issue or Complete
    fn make_own(
        &self,
        t: &mut Ticket<Part>,
        hands: &mut Vec<Hand>,
        d: DeviceId,
        pick: u32,
        own: Part,
        e: &Entry,
    ) -> Stepped
        requires plant { IsPlant self.now }
        requires ticket { IsTicketOf self.now.board t.old }
        requires held { holds_of t.old ≡ hold (dev_number d) own own ∷ [] }
        requires fits { CellFits self.now.desc (dev_number d) own }
        requires few { length (records_of t.old) < 2 ^ 32 }
        requires hands { (hands.old.items ≡ []) × (2 ≤ vec_capacity hands.old) }
        requires device { d < device_count self.now.desc }
        requires entry { is_own_of d e.now ≡ true }
        requires fine { own_fault self.now.desc e.now (dev_or_none own) ≡ None }
        requires named { picked (enabled_steps self.now.desc d (dev_or_none own)) pick ≡ Some e.now }
        ensures ticket { IsTicketOf self.now.board t.new × (number_of t.new ≡ number_of t.old) }
        ensures hands { (hands.new.items ≡ []) × (vec_capacity hands.new ≡ vec_capacity hands.old) }
        ensures outcome { IsOutcome (attempted self.now (wish.Device d pick) t.old t.new) result }
    {
        let cell = own_cell(d);
        let mut part = own;
        match part.step_own(&self.desc, d, *e) {
            Ok(()) => {
                let stamp = draw_one(&self.board, t, hands, Hand { cell, part }, e);
                Stepped::Did {
                    place: self.base() + stamp,
                    entry: again(e),
                }
            }
            Err(_) => unreachable!(),
        }
    }

    // enters the cell at which the picked delivery is aimed
    fn try_delivery(
        &self,
        t: &mut Ticket<Part>,
        hands: &mut Vec<Hand>,
        d: DeviceId,
        pick: u32,
        n: u32,
        own: Part,
    ) -> Stepped
        requires plant { IsPlant self.now }
        requires ticket { IsTicketOf self.now.board t.old }
        requires held { holds_of t.old ≡ hold (dev_number d) own own ∷ [] }
        requires fits { CellFits self.now.desc (dev_number d) own }
        requires few { length (records_of t.old) < 2 ^ 32 }
        requires hands { (hands.old.items ≡ []) × (2 ≤ vec_capacity hands.old) }
        requires device { d < device_count self.now.desc }
        requires fine { own_fault self.now.desc (Deliver d n) (dev_or_none own) ≡ None }
        requires named { picked (enabled_steps self.now.desc d (dev_or_none own)) pick ≡ Some (Deliver d n) }
        ensures ticket { IsTicketOf self.now.board t.new × (number_of t.new ≡ number_of t.old) }
        ensures hands { (hands.new.items ≡ []) × (vec_capacity hands.new ≡ vec_capacity hands.old) }
        ensures outcome { IsOutcome (attempted self.now (wish.Device d pick) t.old t.new) result }
    {
        let Some(region) = own.target(&self.desc, d, n) else {
            unreachable!()
        };
        let cell = self.cell_of(&region, d);
        match self.board.enter(t, cell) {
            Ok(target) => {
                let pair = Pair {
                    own,
                    region,
                    cell,
                    target,
                };
                self.make_delivery(t, hands, d, pick, n, pair)
            }
            Err(busy) => {
                self.board.now(t);
                self.board.leave(t, own_cell(d), own);
                Stepped::Busy {
                    cell: busy.cell,
                    holder: busy.holder,
                }
            }
        }
    }

    // makes the picked delivery
    fn make_delivery(
        &self,
        t: &mut Ticket<Part>,
        hands: &mut Vec<Hand>,
        d: DeviceId,
        pick: u32,
        n: u32,
        pair: Pair,
    ) -> Stepped
        requires plant { IsPlant self.now }
        requires ticket { IsTicketOf self.now.board t.old }
        requires held { holds_of t.old ≡ hold (dev_number d) pair.own pair.own ∷ hold pair.cell pair.target pair.target ∷ [] }
        requires fits { CellFits self.now.desc (dev_number d) pair.own }
        requires target_fits { CellFits self.now.desc pair.cell pair.target }
        requires few { length (records_of t.old) < 2 ^ 32 }
        requires hands { (hands.old.items ≡ []) × (2 ≤ vec_capacity hands.old) }
        requires device { d < device_count self.now.desc }
        requires there { IsTarget self.now.desc d pair.region }
        requires aimed { target_in self.now.desc d n (dev_or_none pair.own) ≡ Some pair.region }
        requires cell { pair.cell ≡ region_number self.now.desc pair.region }
        requires other { (dev_number d == pair.cell) ≡ false }
        requires named { picked (enabled_steps self.now.desc d (dev_or_none pair.own)) pick ≡ Some (Deliver d n) }
        ensures ticket { IsTicketOf self.now.board t.new × (number_of t.new ≡ number_of t.old) }
        ensures hands { (hands.new.items ≡ []) × (vec_capacity hands.new ≡ vec_capacity hands.old) }
        ensures outcome { IsOutcome (attempted self.now (wish.Device d pick) t.old t.new) result }
    {
        let Pair {
            mut own,
            region,
            cell,
            mut target,
        } = pair;
        step_across(&self.desc, d, n, &mut own, region, &mut target);
        let own = Hand {
            cell: own_cell(d),
            part: own,
        };
        let target = Hand { cell, part: target };
        let stamp = draw_two(&self.board, t, hands, own, target, Entry::Deliver { d, n });
        Stepped::Did {
            place: self.base() + stamp,
            entry: Entry::Deliver { d, n },
        }
    }
}

// the cell of device d
fn own_cell(d: DeviceId) -> u32
    ensures { result ≡ dev_number d }
{
    u32::from(d.0) + 1
}

// The device's part and its target's, and where the target lies.
struct Pair {
    own: Part,
    region: Region,
    cell: u32,
    target: Part,
}
