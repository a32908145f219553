//! The cells of the coordinator and the devices, entered together, and what the coordinator's entries are drawn on.

ghost use Rattle.std.specs.Prelude.{◌≡◌, ◌≢◌, ◌<◌, ◌≤◌, ◌+◌, ◌∷◌, ◌++◌, ◌^◌, [], true, IfErr, IfOk, length, vec_capacity, vec_len};
ghost use Rattle.vfm_types.specs.Desc.{device_count};
ghost use Rattle.vfm_parts.specs.Parts.{Parts, World, parts_in};
ghost use Rattle.vfm_turn.specs.Order.{are_once};
ghost use Rattle.vfm_turn.specs.Seen.{met};
ghost use Rattle.vfm_turn.specs.Words.{IsTicketOf, desc_of, holds_of, number_of, records_of, seats_of, seen_of};
ghost use Rattle.vfm_cells.specs.Cells.{cell_at};
ghost use Rattle.vfm_cells.specs.Touched.{touched, up_from};
ghost use Rattle.vfm_lead.specs.LeadSteps.{AreSound, is_of_lead};
ghost use Rattle.vfm_order.specs.Coordinator.{is_coordinators};
ghost use Rattle.vfm_plant.specs.Group.{IsGroupTurn, group_hands, group_holds};
ghost use Rattle.vfm_plant.specs.Hands.{AreFitting, at_rest, cells_held, touches_by, turned, with_holds};
ghost use Rattle.vfm_plant.specs.Started.{IsPlant};

use crate::Plant;
use crate::hand::{Hand, leave_all, turn};
use vfm_cell_steps::Part;
use vfm_device_part::DevPart;
use vfm_lead::LeadPart;
use vfm_turn::{Busy, Ticket};
use vfm_types::{DeviceId, Entry};

// Moves the coordinator's part and the devices', in their order, into the hands.
pub(crate) fn gather(lead: LeadPart, devices: &mut Vec<DevPart>, hands: &mut Vec<Hand>)
    requires hands { (hands.old.items ≡ []) × (vec_len devices.old + 1 ≤ vec_capacity hands.old) }
    requires few { vec_len devices.old ≤ 8 }
    ensures hands { hands.new.items ≡ group_hands lead devices.old.items }
    ensures devices { (devices.new.items ≡ []) × (vec_capacity devices.new ≡ vec_capacity devices.old) }
    ensures capacity { vec_capacity hands.new ≡ vec_capacity hands.old }
{
    hands.push_reserved(Hand {
        cell: 0,
        part: Part::of_lead(lead),
    });
    devices.reverse();
    let mut cell = 1;
    while let Some(device) = devices.pop() {
        hands.push_reserved(Hand {
            cell,
            part: Part::of_device(device),
        });
        cell += 1;
    }
}

impl Plant {
    // Enters the coordinator's cell and each device's, in rising order; or leaves what it has entered.
    pub(crate) fn enter_group(
        &self,
        t: &mut Ticket<Part>,
        hands: &mut Vec<Hand>,
        devices: &mut Vec<DevPart>,
    ) -> Result<LeadPart, Busy>
        requires plant { IsPlant self.now }
        requires ticket { IsTicketOf self.now.board t.old }
        requires rest { holds_of t.old ≡ [] }
        requires hands { (hands.old.items ≡ []) × (device_count self.now.desc + 2 ≤ vec_capacity hands.old) }
        requires devices { (devices.old.items ≡ []) × (device_count self.now.desc ≤ vec_capacity devices.old) }
        ensures ticket { IsTicketOf self.now.board t.new × (number_of t.new ≡ number_of t.old) }
        ensures hands { (hands.new.items ≡ []) × (vec_capacity hands.new ≡ vec_capacity hands.old) }
        ensures capacity { vec_capacity devices.new ≡ vec_capacity devices.old }
        ensures entered { IfOk result (λ lead. seen_of t.new ≡ with_holds (group_holds lead devices.new.items) (seen_of t.old)) }
        ensures sound { IfOk result (λ lead. AreSound self.now.desc lead devices.new.items) }
        ensures left { IfErr result (λ busy. devices.new.items ≡ []) }
        ensures busy { IfErr result (λ busy. seen_of t.new ≡ met busy (seen_of t.old)) }
        ensures cell { IfErr result (λ busy. busy.cell ≤ device_count self.now.desc) }
        ensures holder { IfErr result (λ busy. busy.holder < seats_of self.now.board) }
        ensures other { IfErr result (λ busy. busy.holder ≢ number_of t.old) }
    {
        let lead = self.board.enter(t, 0)?.into_lead(&self.desc);
        for d in 0..self.desc.devices.len() {
            match self.board.enter(t, d + 1) {
                Ok(part) => devices.push_reserved(part.into_device(&self.desc, DeviceId(d as u8))),
                Err(busy) => {
                    gather(lead, devices, hands);
                    leave_all(&self.board, t, hands);
                    return Err(busy);
                }
            }
        }
        Ok(lead)
    }

    // Draws an entry of the coordinator on the cells that it touches, all held, and leaves each held cell.
    pub(crate) fn turn_group(&self, t: &mut Ticket<Part>, hands: &mut Vec<Hand>, e: &Entry) -> u64
        requires plant { IsPlant self.now }
        requires ticket { IsTicketOf self.now.board t.old }
        requires entry { is_coordinators e.now ≡ true }
        requires once { are_once (cells_held hands.old.items) ≡ true }
        requires fits { AreFitting self.now.desc hands.old.items }
        requires few { length (records_of t.old) < 2 ^ 32 }
        requires turn { (w v : World) × IsGroupTurn self.now.desc e.now (holds_of t.old) hands.old.items w v }
        ensures ticket { IsTicketOf self.now.board t.new × (number_of t.new ≡ number_of t.old) }
        ensures turned { (w v : World) → IsGroupTurn self.now.desc e.now (holds_of t.old) hands.old.items w v
            → seen_of t.new ≡ turned (number_of t.old) result e.now
            (touches_by (cell_at self.now.desc w) (cell_at self.now.desc v) (touched self.now.desc (parts_in w) e.now)) (seen_of t.old) }
        ensures bounded { result < 2 ^ 39 }
        ensures hands { (hands.new.items ≡ []) × (vec_capacity hands.new ≡ vec_capacity hands.old) }
    {
        match *e {
            Entry::Report { d } => self.turn_with(t, hands, u32::from(d.0) + 1, e),
            Entry::Block { d, b: _ } => self.turn_with(t, hands, u32::from(d.0) + 1, e),
            Entry::Dry { d } => self.turn_with(t, hands, u32::from(d.0) + 1, e),
            Entry::Copy { p } => self.turn_with(t, hands, p + self.desc.devices.len() + 1, e),
            _ => self.turn_all(t, hands, e),
        }
    }

    // the same, on the coordinator's cell and one more
    fn turn_with(&self, t: &mut Ticket<Part>, hands: &mut Vec<Hand>, cell: u32, e: &Entry) -> u64
        requires plant { IsPlant self.now }
        requires ticket { IsTicketOf self.now.board t.old }
        requires some { 0 < cell }
        requires touched { (parts : Parts) → touched self.now.desc parts e.now ≡ 0 ∷ cell ∷ [] }
        requires once { are_once (cells_held hands.old.items) ≡ true }
        requires fits { AreFitting self.now.desc hands.old.items }
        requires few { length (records_of t.old) < 2 ^ 32 }
        requires turn { (w v : World) × IsGroupTurn self.now.desc e.now (holds_of t.old) hands.old.items w v }
        ensures ticket { IsTicketOf self.now.board t.new × (number_of t.new ≡ number_of t.old) }
        ensures turned { (w v : World) → IsGroupTurn self.now.desc e.now (holds_of t.old) hands.old.items w v
            → seen_of t.new ≡ turned (number_of t.old) result e.now
            (touches_by (cell_at self.now.desc w) (cell_at self.now.desc v) (touched self.now.desc (parts_in w) e.now)) (seen_of t.old) }
        ensures bounded { result < 2 ^ 39 }
        ensures hands { (hands.new.items ≡ []) × (vec_capacity hands.new ≡ vec_capacity hands.old) }
    {
        let cells = [0, cell];
        turn(&self.board, t, hands, &cells, e)
    }

    // the same, on the coordinator's cell and each device's
    fn turn_all(&self, t: &mut Ticket<Part>, hands: &mut Vec<Hand>, e: &Entry) -> u64
        requires plant { IsPlant self.now }
        requires ticket { IsTicketOf self.now.board t.old }
        requires touched { (parts : Parts) → touched self.now.desc parts e.now ≡ up_from 0 (device_count self.now.desc + 1) }
        requires once { are_once (cells_held hands.old.items) ≡ true }
        requires fits { AreFitting self.now.desc hands.old.items }
        requires few { length (records_of t.old) < 2 ^ 32 }
        requires turn { (w v : World) × IsGroupTurn self.now.desc e.now (holds_of t.old) hands.old.items w v }
        ensures ticket { IsTicketOf self.now.board t.new × (number_of t.new ≡ number_of t.old) }
        ensures turned { (w v : World) → IsGroupTurn self.now.desc e.now (holds_of t.old) hands.old.items w v
            → seen_of t.new ≡ turned (number_of t.old) result e.now
            (touches_by (cell_at self.now.desc w) (cell_at self.now.desc v) (touched self.now.desc (parts_in w) e.now)) (seen_of t.old) }
        ensures bounded { result < 2 ^ 39 }
        ensures hands { (hands.new.items ≡ []) × (vec_capacity hands.new ≡ vec_capacity hands.old) }
    {
        let numbers = [0, 1, 2, 3, 4, 5, 6, 7, 8];
        let count = self.desc.devices.len() as usize + 1;
        let cells = &numbers[..count];
        turn(&self.board, t, hands, cells, e)
    }
}
