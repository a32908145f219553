//! What lies in a cell: the coordinator's part, a device's or a page's.

ghost use Rattle.std.specs.Prelude.{◌≡◌, ◌<◌, [], ◌∷◌, None, Some, true, IfSome, MatchResult, OnErr, OnOk};
ghost use Rattle.vfm_types.specs.Desc.{device_count};
ghost use Rattle.vfm_types.specs.Valid.{IsValid};
ghost use Rattle.vfm_parts.specs.Fits.{DevFits, LeadFits, PageFits};
ghost use Rattle.vfm_parts_laws.specs.LooksIn.{look_in};
ghost use Rattle.vfm_cells.specs.Cells.{dev_number, dev_or_none, device_cell, lead_cell, page_cell, page_number};
ghost use Rattle.vfm_cells.specs.CellFits.{CellFits};
ghost use Rattle.vfm_cells.specs.CellSteps.{step_of};
ghost use Rattle.vfm_device_part.specs.DeviceSteps.{IsTarget, is_own_of, own_fault, target_in};
ghost use Rattle.vfm_device_part.specs.Pick.{enabled_steps, picked};

use std::marker::Model;
use vfm_device_part::{DevPart, Guard, PagePart, step_own};
use vfm_lead::LeadPart;
use vfm_turn::Kept;
use vfm_types::{Desc, DevLook, DeviceId, Entry, Region};

// which part it is
#[derive(Drop)]
pub(crate) enum Kind {
    Lead(LeadPart),
    Device(DevPart),
    Page(PagePart),
}

/// The part of the machine that lies in one cell. Seen as what lies in the cell.
#[derive(Drop)]
pub struct Part {
    pub(crate) kind: Kind,
}

impl Model for Part {
    ghost use Rattle.vfm_cells.specs.Cells.{Cell};
    ghost use Rattle.vfm_cell_steps.specs.PartOf.{cell_of};

    ghost Value = { Cell };

    ghost view = { λ p. cell_of p.kind };
}

impl Kept for Part {
    ghost use Rattle.vfm_cells.specs.CellFits.{CellFits};

    type State = Part;

    ghost state = { λ part. part };

    ghost fits = { CellFits };
}

impl Part {
    /// The part of the coordinator.
    pub fn of_lead(lead: LeadPart) -> Part
        ensures { result ≡ lead_cell lead }
    {
        Part {
            kind: Kind::Lead(lead),
        }
    }

    /// The part of a device.
    pub fn of_device(device: DevPart) -> Part
        ensures { result ≡ device_cell device }
    {
        Part {
            kind: Kind::Device(device),
        }
    }

    /// The part of a page.
    pub fn of_page(page: PagePart) -> Part
        ensures { result ≡ page_cell page }
    {
        Part {
            kind: Kind::Page(page),
        }
    }

    /// The step of device `d`, whose cell this part lies in, that `pick` names; `None` exactly where none is allowed.
    pub fn pick(&self, desc: &Desc, d: DeviceId, pick: u32) -> Option<Entry>
        requires valid { IsValid desc.now }
        requires device { d < device_count desc.now }
        requires fits { CellFits desc.now (dev_number d) self.now }
        ensures { result ≡ picked (enabled_steps desc.now d (dev_or_none self.now)) pick }
    {
        match &self.kind {
            Kind::Device(own) => own.pick(desc, d, pick),
            _ => unreachable!(),
        }
    }

    /// The coordinator's part, which lies in cell 0.
    pub fn into_lead(self, desc: &Desc) -> LeadPart
        requires { CellFits desc.now 0 self }
        ensures lead { self ≡ lead_cell result }
        ensures fits { LeadFits desc.now result }
    {
        let Part { kind } = self;
        match kind {
            Kind::Lead(lead) => lead,
            _ => unreachable!(),
        }
    }

    /// The part of device `d`, in whose cell this part lies.
    pub fn into_device(self, desc: &Desc, d: DeviceId) -> DevPart
        requires device { d < device_count desc.now }
        requires fits { CellFits desc.now (dev_number d) self }
        ensures device { self ≡ device_cell result }
        ensures fits { DevFits desc.now d result }
    {
        match self.kind {
            Kind::Device(own) => own,
            _ => unreachable!(),
        }
    }

    /// The part of page `p`, in whose cell this part lies.
    pub fn into_page(self, desc: &Desc, p: u32) -> PagePart
        requires { CellFits desc.now (page_number desc.now p) self }
        ensures page { self ≡ page_cell result }
        ensures fits { PageFits desc.now result }
    {
        match self.kind {
            Kind::Page(page) => page,
            _ => unreachable!(),
        }
    }

    /// What can be seen of device `d`, in whose cell this part lies.
    pub fn look(&self, desc: &Desc, d: DeviceId) -> DevLook
        requires valid { IsValid desc.now }
        requires device { d < device_count desc.now }
        requires fits { CellFits desc.now (dev_number d) self.now }
        ensures { result ≡ look_in desc.now d (dev_or_none self.now) }
    {
        match &self.kind {
            Kind::Device(own) => own.look(desc, d),
            _ => unreachable!(),
        }
    }

    /// Where request `n` of device `d`, in whose cell this part lies, is aimed; `None` exactly where it doesn't wait for its
    /// delivery.
    pub fn target(&self, desc: &Desc, d: DeviceId, n: u32) -> Option<Region>
        requires valid { IsValid desc.now }
        requires device { d < device_count desc.now }
        requires fits { CellFits desc.now (dev_number d) self.now }
        ensures value { result ≡ target_in desc.now d n (dev_or_none self.now) }
        ensures there { IfSome result (IsTarget desc.now d) }
    {
        match &self.kind {
            Kind::Device(own) => own.target(desc, d, n),
            _ => unreachable!(),
        }
    }

    #[tactic(auto, using(crate::proofs::Own::own_made))]
    /// Makes an Issue or a Complete of device `d`, in whose cell this part lies: what the entry makes of that cell.
    ///
    /// `Guard` exactly where the entry breaks a rule, with the first one; then the part is as before. Takes no memory.
    pub fn step_own(&mut self, desc: &Desc, d: DeviceId, e: Entry) -> Result<(), Guard>
        requires valid { IsValid desc.now }
        requires device { d < device_count desc.now }
        requires fits { CellFits desc.now (dev_number d) self.old }
        requires entry { is_own_of d e ≡ true }
        ensures guard { MatchResult result (λ _. own_fault desc.now e (dev_or_none self.old) ≡ None)
            (λ guard. own_fault desc.now e (dev_or_none self.old) ≡ Some guard.0) }
        ensures step { OnOk result (step_of desc.now e (dev_number d ∷ []) (self.old ∷ []) ≡ Some (self.new ∷ [])) }
        ensures same { OnErr result (self.new ≡ self.old) }
        ensures fits { CellFits desc.now (dev_number d) self.new }
    {
        match &mut self.kind {
            Kind::Device(own) => step_own(desc, d, own, e),
            _ => unreachable!(),
        }
    }
}
