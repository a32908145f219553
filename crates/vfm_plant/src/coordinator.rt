//! What a seat makes of the coordinator's wish: it enters the coordinator's cell and each device's, and where a page is to be
//! copied, that page's.

ghost use Rattle.std.specs.Prelude.{◌≡◌, ◌≢◌, ◌<◌, ◌≤◌, ◌+◌, ◌^◌, ◌∷◌, ◌++◌, ◌&&◌, not, ℕ, [], List, None, Some, true, IsTrue, MatchResult, OnErr, OnOk, length, map, max, vec_capacity};
ghost use Rattle.vfm_types.specs.declared.desc.Desc.{Desc as Description};
ghost use Rattle.vfm_types.specs.declared.entry.Entry.TheVariants.{Abort, Copy};
ghost use Rattle.vfm_parts.specs.Parts.{Lead};
ghost use Rattle.vfm_types.specs.Desc.{device_count};
ghost use Rattle.vfm_plain.specs.Legal.{is_entry_of};
ghost use Rattle.vfm_quiet.specs.declared.want.Want.TheVariants.{Do};
ghost use Rattle.vfm_quiet.specs.Order.{next_want};
ghost use Rattle.vfm_turn.specs.Seen.{hold, settled_of};
ghost use Rattle.vfm_turn.specs.Words.{IsTicketOf, desc_of, holds_of, number_of, records_of, seen_of};
ghost use Rattle.vfm_cells.specs.Cells.{page_cell, page_number};
ghost use Rattle.vfm_parts.specs.Fits.{PageFits};
ghost use Rattle.vfm_cells.specs.CellFits.{CellFits};
ghost use Rattle.vfm_order.specs.Coordinator.{is_coordinators};
ghost use Rattle.vfm_lead.specs.LeadSteps.{AreSound, is_of_lead, lead_fault, parts_of};
ghost use Rattle.vfm_lead.specs.Shown.{Shows};
ghost use Rattle.vfm_cell_steps.specs.Made.{IsStepTo, group};
ghost use Rattle.vfm_plant.specs.declared.stepped.Wish.TheVariants as wish;
ghost use Rattle.vfm_plant.specs.declared.stepped.Look.TheVariants as looks;
ghost use Rattle.vfm_plant.specs.Group.{group_holds, is_made_by_seats};
ghost use Rattle.vfm_plant.specs.Hands.{IsHolding};
ghost use Rattle.vfm_plant.specs.Outcome.{IsOutcome, IsSeen, WantsNothing, attempted, bytes_in_group, bytes_of_answer};
ghost use Rattle.vfm_plant.specs.Started.{IsPlant};

use crate::group::gather;
use crate::hand::{Hand, again, leave_all};
use crate::{Look, Plant, Stepped};
use vfm_cell_steps::{Part, has_entry, step_copied, step_group};
use vfm_device_part::{DevPart, Guard, PagePart};
use vfm_lead::{LeadPart, device, look_of};
use vfm_quiet::{MoveLook, Want, next};
use vfm_turn::Ticket;
use vfm_types::{Desc, Entry};

// What a seat has for the coordinator: the coordinator's part, what is seen of the move, and after which pass it is to give up.
#[derive(Drop)]
pub(crate) struct Chair {
    pub(crate) part: LeadPart,
    pub(crate) look: MoveLook,
    pub(crate) abort_after: u32,
}

// whether a seat makes the entry where the order wants it
fn is_made_by_seats(e: &Entry) -> bool
    ensures { result ≡ is_made_by_seats e.now }
{
    match *e {
        Entry::Issue { .. } => false,
        Entry::Deliver { .. } => false,
        Entry::Complete { .. } => false,
        Entry::Abort => false,
        _ => true,
    }
}

// Fills an empty list with these bytes.
fn fill(into: &mut Vec<u8>, bytes: &[u8])
    requires { (into.old.items ≡ []) × (length bytes.now ≤ vec_capacity into.old) }
    ensures { into.new.items ≡ bytes.now }
{
    for byte in bytes.iter() {
        into.push_reserved(*byte);
    }
}

// makes an entry of the coordinator on its part and on the devices' parts
fn step_all(
    desc: &Desc,
    lead: &mut LeadPart,
    devices: &mut Vec<DevPart>,
    e: Entry,
) -> Result<(), Guard>
    requires sound { AreSound desc.now lead.old devices.old.items }
    requires entry { IsTrue (is_entry_of desc.now e) }
    requires kind { is_of_lead e ≡ true }
    ensures guard { MatchResult result (λ _. lead_fault desc.now lead.old devices.old.items e ≡ None)
        (λ guard. lead_fault desc.now lead.old devices.old.items e ≡ Some guard.0) }
    ensures step { (bytes : List ℕ) → OnOk result
        (IsStepTo desc.now e (group desc.now lead.old devices.old.items bytes) (group desc.now lead.new devices.new.items bytes)) }
    ensures sound { AreSound desc.now lead.new devices.new.items }
    ensures same { OnErr result ((lead.new ≡ lead.old) × (devices.new.items ≡ devices.old.items)) }
    ensures capacity { vec_capacity devices.new ≡ vec_capacity devices.old }
{
    step_group(desc, lead, devices.as_mut_slice(), e)
}

impl Plant {
    // notes what is held, in which there is nothing to be made, and leaves it
    fn see_rests(
        &self,
        t: &mut Ticket<Part>,
        hands: &mut Vec<Hand>,
        look: MoveLook,
        _abort_after: u32,
    ) -> Stepped
        requires plant { IsPlant self.now }
        requires ticket { IsTicketOf self.now.board t.old }
        requires held { IsHolding (desc_of self.now.board) (holds_of t.old) hands.old.items }
        requires seen { IsSeen self.now.desc (wish.Coordinator _abort_after) (map settled_of (holds_of t.old)) (looks.Coordinator look) }
        ensures ticket { IsTicketOf self.now.board t.new × (number_of t.new ≡ number_of t.old) }
        ensures hands { (hands.new.items ≡ []) × (vec_capacity hands.new ≡ vec_capacity hands.old) }
        ensures outcome { IsOutcome (attempted self.now (wish.Coordinator _abort_after) t.old t.new) result }
        ensures nothing { (bytes : List ℕ) → bytes_of_answer result bytes ≡ [] }
    {
        let answer = self.board.now(t);
        leave_all(&self.board, t, hands);
        Stepped::Nothing {
            at: self.base() + answer,
            look: Look::Coordinator(look),
        }
    }

    // the same of the coordinator's cell and each device's
    fn rests(
        &self,
        t: &mut Ticket<Part>,
        hands: &mut Vec<Hand>,
        devices: &mut Vec<DevPart>,
        chair: Chair,
    ) -> Stepped
        requires plant { IsPlant self.now }
        requires ticket { IsTicketOf self.now.board t.old }
        requires held { holds_of t.old ≡ group_holds chair.part devices.old.items }
        requires sound { AreSound self.now.desc chair.part devices.old.items }
        requires shows { Shows self.now.desc (parts_of chair.part devices.old.items) chair.look }
        requires none { WantsNothing self.now.desc (group self.now.desc chair.part devices.old.items []) chair.look chair.abort_after }
        requires hands { (hands.old.items ≡ []) × (device_count self.now.desc + 2 ≤ vec_capacity hands.old) }
        ensures ticket { IsTicketOf self.now.board t.new × (number_of t.new ≡ number_of t.old) }
        ensures hands { (hands.new.items ≡ []) × (vec_capacity hands.new ≡ vec_capacity hands.old) }
        ensures devices { (devices.new.items ≡ []) × (vec_capacity devices.new ≡ vec_capacity devices.old) }
        ensures outcome { IsOutcome (attempted self.now (wish.Coordinator chair.abort_after) t.old t.new) result }
        ensures nothing { (bytes : List ℕ) → bytes_of_answer result bytes ≡ [] }
    {
        let Chair {
            part,
            look,
            abort_after,
        } = chair;
        gather(part, devices, hands);
        self.see_rests(t, hands, look, abort_after)
    }

    // makes an entry that the order wants and that copies no page, on what is held; or sees that it breaks a rule
    fn make_group(
        &self,
        t: &mut Ticket<Part>,
        hands: &mut Vec<Hand>,
        devices: &mut Vec<DevPart>,
        chair: Chair,
        e: &Entry,
    ) -> Stepped
        requires plant { IsPlant self.now }
        requires ticket { IsTicketOf self.now.board t.old }
        requires held { holds_of t.old ≡ group_holds chair.part devices.old.items }
        requires sound { AreSound self.now.desc chair.part devices.old.items }
        requires shows { Shows self.now.desc (parts_of chair.part devices.old.items) chair.look }
        requires few { length (records_of t.old) < 2 ^ 32 }
        requires wanted { next_want self.now.desc chair.look chair.abort_after ≡ Do e.now }
        requires made { is_made_by_seats e.now ≡ true }
        requires kind { is_of_lead e.now ≡ true }
        requires named { IsTrue (is_entry_of self.now.desc e.now) }
        requires hands { (hands.old.items ≡ []) × (device_count self.now.desc + 2 ≤ vec_capacity hands.old) }
        ensures ticket { IsTicketOf self.now.board t.new × (number_of t.new ≡ number_of t.old) }
        ensures hands { (hands.new.items ≡ []) × (vec_capacity hands.new ≡ vec_capacity hands.old) }
        ensures devices { (devices.new.items ≡ []) × (vec_capacity devices.new ≡ vec_capacity devices.old) }
        ensures outcome { IsOutcome (record (attempted self.now (wish.Coordinator chair.abort_after) t.old t.new)
            { bytes = bytes_of_answer result (bytes_in_group chair.part devices.old.items e.now) }) result }
    {
        let Chair {
            mut part,
            look,
            abort_after,
        } = chair;
        match step_all(&self.desc, &mut part, devices, again(e)) {
            Ok(()) => {
                gather(part, devices, hands);
                let stamp = self.turn_group(t, hands, e);
                Stepped::Did {
                    place: self.base() + stamp,
                    entry: again(e),
                }
            }
            Err(_) => {
                let chair = Chair {
                    part,
                    look,
                    abort_after,
                };
                self.rests(t, hands, devices, chair)
            }
        }
    }

    // makes the Copy that the order wants, of page p, whose cell is held besides; or sees that it breaks a rule
    fn make_copy(
        &self,
        t: &mut Ticket<Part>,
        hands: &mut Vec<Hand>,
        devices: &mut Vec<DevPart>,
        chair: Chair,
        sheet: Sheet,
    ) -> Stepped
        requires plant { IsPlant self.now }
        requires ticket { IsTicketOf self.now.board t.old }
        requires held { holds_of t.old ≡ group_holds chair.part devices.old.items
            ++ hold sheet.cell (page_cell sheet.page) (page_cell sheet.page) ∷ [] }
        requires sound { AreSound self.now.desc chair.part devices.old.items }
        requires shows { Shows self.now.desc (parts_of chair.part devices.old.items) chair.look }
        requires few { length (records_of t.old) < 2 ^ 32 }
        requires wanted { next_want self.now.desc chair.look chair.abort_after ≡ Do (Copy sheet.p) }
        requires page { sheet.p < self.now.desc.pages }
        requires cell { sheet.cell ≡ page_number self.now.desc sheet.p }
        requires fits { PageFits self.now.desc sheet.page }
        requires hands { (hands.old.items ≡ []) × (device_count self.now.desc + 2 ≤ vec_capacity hands.old) }
        ensures ticket { IsTicketOf self.now.board t.new × (number_of t.new ≡ number_of t.old) }
        ensures hands { (hands.new.items ≡ []) × (vec_capacity hands.new ≡ vec_capacity hands.old) }
        ensures devices { (devices.new.items ≡ []) × (vec_capacity devices.new ≡ vec_capacity devices.old) }
        ensures outcome { IsOutcome (record (attempted self.now (wish.Coordinator chair.abort_after) t.old t.new)
            { bytes = bytes_of_answer result sheet.page }) result }
    {
        let Chair {
            mut part,
            look,
            abort_after,
        } = chair;
        let Sheet { p, cell, page } = sheet;
        let e = Entry::Copy { p };
        let made = step_copied(&self.desc, &mut part, devices.as_slice(), &page, again(&e));
        gather(part, devices, hands);
        hands.push_reserved(Hand {
            cell,
            part: Part::of_page(page),
        });
        match made {
            Ok(()) => {
                let stamp = self.turn_group(t, hands, &e);
                Stepped::Did {
                    place: self.base() + stamp,
                    entry: again(&e),
                }
            }
            Err(_) => self.see_rests(t, hands, look, abort_after),
        }
    }

    // enters the cell of the page that the order wants copied
    fn try_copy(
        &self,
        t: &mut Ticket<Part>,
        hands: &mut Vec<Hand>,
        devices: &mut Vec<DevPart>,
        chair: Chair,
        p: u32,
        into: &mut Vec<u8>,
    ) -> Stepped
        requires plant { IsPlant self.now }
        requires ticket { IsTicketOf self.now.board t.old }
        requires held { holds_of t.old ≡ group_holds chair.part devices.old.items }
        requires sound { AreSound self.now.desc chair.part devices.old.items }
        requires shows { Shows self.now.desc (parts_of chair.part devices.old.items) chair.look }
        requires few { length (records_of t.old) < 2 ^ 32 }
        requires wanted { next_want self.now.desc chair.look chair.abort_after ≡ Do (Copy p) }
        requires page { p < self.now.desc.pages }
        requires hands { (hands.old.items ≡ []) × (device_count self.now.desc + 2 ≤ vec_capacity hands.old) }
        requires into { (into.old.items ≡ []) × (self.now.desc.page ≤ vec_capacity into.old) }
        ensures ticket { IsTicketOf self.now.board t.new × (number_of t.new ≡ number_of t.old) }
        ensures hands { (hands.new.items ≡ []) × (vec_capacity hands.new ≡ vec_capacity hands.old) }
        ensures devices { (devices.new.items ≡ []) × (vec_capacity devices.new ≡ vec_capacity devices.old) }
        ensures outcome { IsOutcome (record (attempted self.now (wish.Coordinator chair.abort_after) t.old t.new) { bytes = into.new.items }) result }
    {
        let cell = p + self.desc.devices.len() + 1;
        match self.board.enter(t, cell) {
            Ok(part) => {
                let page = part.into_page(&self.desc, p);
                fill(into, page.bytes());
                let stepped = self.make_copy(t, hands, devices, chair, Sheet { p, cell, page });
                keep_if_made(into, &stepped);
                stepped
            }
            Err(busy) => {
                gather(chair.part, devices, hands);
                self.board.now(t);
                leave_all(&self.board, t, hands);
                Stepped::Busy {
                    cell: busy.cell,
                    holder: busy.holder,
                }
            }
        }
    }

    // makes what the order wants, where a seat makes it, once the cells are entered
    fn try_group(
        &self,
        t: &mut Ticket<Part>,
        hands: &mut Vec<Hand>,
        devices: &mut Vec<DevPart>,
        chair: Chair,
        into: &mut Vec<u8>,
    ) -> Stepped
        requires plant { IsPlant self.now }
        requires ticket { IsTicketOf self.now.board t.old }
        requires held { holds_of t.old ≡ group_holds chair.part devices.old.items }
        requires sound { AreSound self.now.desc chair.part devices.old.items }
        requires shows { Shows self.now.desc (parts_of chair.part devices.old.items) chair.look }
        requires few { length (records_of t.old) < 2 ^ 32 }
        requires hands { (hands.old.items ≡ []) × (device_count self.now.desc + 2 ≤ vec_capacity hands.old) }
        requires into { (into.old.items ≡ []) × (max self.now.desc.page 64 ≤ vec_capacity into.old) }
        ensures ticket { IsTicketOf self.now.board t.new × (number_of t.new ≡ number_of t.old) }
        ensures hands { (hands.new.items ≡ []) × (vec_capacity hands.new ≡ vec_capacity hands.old) }
        ensures devices { (devices.new.items ≡ []) × (vec_capacity devices.new ≡ vec_capacity devices.old) }
        ensures outcome { IsOutcome (record (attempted self.now (wish.Coordinator chair.abort_after) t.old t.new) { bytes = into.new.items }) result }
    {
        let Want::Do(e) = next(&self.desc, &chair.look, chair.abort_after) else {
            return self.rests(t, hands, devices, chair);
        };
        if !is_made_by_seats(&e) || !has_entry(&self.desc, &e) {
            return self.rests(t, hands, devices, chair);
        }
        if let Entry::Copy { p } = e {
            return self.try_copy(t, hands, devices, chair, p, into);
        }
        read_block(devices, &e, into);
        let stepped = self.make_group(t, hands, devices, chair, &e);
        keep_if_made(into, &stepped);
        stepped
    }

    // What a seat makes of the wish for a step of the coordinator.
    pub(crate) fn try_coordinator(
        &self,
        t: &mut Ticket<Part>,
        hands: &mut Vec<Hand>,
        devices: &mut Vec<DevPart>,
        abort_after: u32,
        into: &mut Vec<u8>,
    ) -> Stepped
        requires plant { IsPlant self.now }
        requires ticket { IsTicketOf self.now.board t.old }
        requires rest { holds_of t.old ≡ [] }
        requires few { length (records_of t.old) < 2 ^ 32 }
        requires hands { (hands.old.items ≡ []) × (device_count self.now.desc + 2 ≤ vec_capacity hands.old) }
        requires devices { (devices.old.items ≡ []) × (device_count self.now.desc ≤ vec_capacity devices.old) }
        requires into { (into.old.items ≡ []) × (max self.now.desc.page 64 ≤ vec_capacity into.old) }
        ensures ticket { IsTicketOf self.now.board t.new × (number_of t.new ≡ number_of t.old) }
        ensures hands { (hands.new.items ≡ []) × (vec_capacity hands.new ≡ vec_capacity hands.old) }
        ensures devices { (devices.new.items ≡ []) × (vec_capacity devices.new ≡ vec_capacity devices.old) }
        ensures outcome { IsOutcome (record (attempted self.now (wish.Coordinator abort_after) t.old t.new) { bytes = into.new.items }) result }
    {
        match self.enter_group(t, hands, devices) {
            Ok(part) => {
                let look = look_of(&self.desc, &part, devices.as_slice());
                let chair = Chair {
                    part,
                    look,
                    abort_after,
                };
                self.try_group(t, hands, devices, chair, into)
            }
            Err(busy) => Stepped::Busy {
                cell: busy.cell,
                holder: busy.holder,
            },
        }
    }
}

// Leaves the bytes where an entry was made, and else none.
fn keep_if_made(into: &mut Vec<u8>, stepped: &Stepped)
    ensures { into.new.items ≡ bytes_of_answer stepped.now into.old.items }
{
    match stepped {
        Stepped::Did { .. } => (),
        _ => into.clear(),
    }
}

// Fills an empty list with the bytes that an entry reads which copies no page.
fn read_block(devices: &Vec<DevPart>, e: &Entry, into: &mut Vec<u8>)
    requires into { (into.old.items ≡ []) × (64 ≤ vec_capacity into.old) }
    requires named { (D : Description) × ((lead : Lead) × AreSound D lead devices.now.items) × IsTrue (is_entry_of D e.now) }
    requires kind { is_of_lead e.now ≡ true }
    ensures { (lead : Lead) → into.new.items ≡ bytes_in_group lead devices.now.items e.now }
{
    if let Entry::Block { d, b } = *e {
        fill(into, device(devices.as_slice(), d).block(b));
    }
}

// A page that is to be copied, and its cell.
#[derive(Drop)]
pub(crate) struct Sheet {
    pub(crate) p: u32,
    pub(crate) cell: u32,
    pub(crate) page: PagePart,
}
