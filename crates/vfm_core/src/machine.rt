//! The core.

ghost use Rattle.std.specs.Prelude.{◌≡◌, ◌*◌, ◌<◌, ◌∷◌, ◌++◌, false, drop, is_none, length, take, [], List, None, Some, IfOk, IsTrue, MatchResult, OnErr, OnOk};
ghost use Rattle.vfm_types.specs.declared.entry.Entry.{Entry as Item};
ghost use Rattle.vfm_types.specs.Desc.{block_count, device_count, shape_at};
ghost use Rattle.vfm_types.specs.Valid.{IsValid};
ghost use Rattle.vfm_plain.specs.Legal.{is_entry_of};
ghost use Rattle.vfm_plain.specs.Rules.{fault_of};
ghost use Rattle.vfm_parts.specs.Parts.{dev_at, page_at, parts_in};
ghost use Rattle.vfm_parts.specs.Steps.{after_on, fault_on};
ghost use Rattle.vfm_order.specs.Alike.{IsAlike};
ghost use Rattle.vfm_order.specs.LookAfter.{look_after, staged_look_after};
ghost use Rattle.vfm_device_part.specs.Pick.{enabled_steps, picked};
ghost use Rattle.vfm_lead.specs.Shown.{Shows};
ghost use Rattle.vfm_core.specs.CoreState.{FitsDesc, IsAfter, IsStagedOn, first_core, with_entry};

use crate::described::{described_devices, room_of_run, zero_pages};
use crate::step::step_parts;
use std::alloc::Global;
use std::marker::Model;
use vfm_device_part::{DevPart, Guard, PagePart};
use vfm_journal::Journal;
use vfm_lead::{LeadPart, device, look_of};
use vfm_quiet::MoveLook;
use vfm_types::{Desc, DeviceId, Entry, NoMemory};

/// The machine with its devices, their migration states and marks, how far the move has come, and the journal. Seen as
/// the description, the entries made, oldest first, and the world of the parts.
///
/// Only `of` and `staged` take memory: there is room for every entry that a run may still make.
#[derive(Drop)]
pub struct Core {
    pub(crate) desc: Desc,
    pub(crate) journal: Journal,
    pub(crate) lead: LeadPart,
    pub(crate) devices: Vec<DevPart>,
    pub(crate) pages: Vec<PagePart>,
}

impl Model for Core {
    ghost use Rattle.vfm_core.specs.CoreState.{CoreState, IsKept, world_with};

    ghost Value = { CoreState };

    ghost view = { λ c. record {
      desc = c.desc;
      entries = c.journal.entries;
      world = world_with c.lead c.devices.items c.pages.items;
    } };

    ghost invariant = { λ c. IsKept c.desc c.journal.entries c.journal.room (world_with c.lead c.devices.items c.pages.items) };
}

impl Core {
    /// The machine as described: every device `RUNNING`, nothing moved yet, the journal empty. Takes room for every entry
    /// of a run.
    pub fn of(alloc: Global, desc: Desc) -> Result<Core, NoMemory>
        requires { IsValid desc }
        ensures core { IfOk result (λ core. core ≡ first_core desc) }
        ensures begins { IfOk result (λ core. IsAfter core.desc [] core.world) }
    {
        let devices = described_devices(alloc, &desc)?;
        let pages = zero_pages(alloc, desc.pages, desc.page)?;
        let journal = Journal::with_room(alloc, room_of_run(&desc))?;
        Ok(Core {
            lead: LeadPart::new(&desc),
            desc,
            journal,
            devices,
            pages,
        })
    }

    /// Makes an entry: its effect, and the entry behind the others. `Guard` exactly where a condition of the entry is
    /// false, with the first rule that is broken; the core is then as before.
    ///
    /// The entry names a device, a page and a block that the machine has. Takes no memory.
    ///
    /// Where the parts are those of a legal list, newest first, the entry is judged as the list judges it, and the list
    /// with the entry is legal, its parts those of the core. A core that was staged after a legal list goes on so too, but
    /// that the rule which a refused Pass breaks may be another.
    pub fn step(&mut self, e: Entry) -> Result<(), Guard>
        requires { IsTrue (is_entry_of self.old.desc e) }
        ensures guard { MatchResult result (λ _. fault_on self.old.desc self.old.world e ≡ None)
            (λ guard. fault_on self.old.desc self.old.world e ≡ Some guard.0) }
        ensures done { OnOk result (self.new ≡ with_entry e (after_on self.old.desc self.old.world e) self.old) }
        ensures same { OnErr result (self.new ≡ self.old) }
        ensures rule { (past : List Item) → IsAfter self.old.desc past self.old.world
            → MatchResult result (λ _. fault_of self.old.desc past e ≡ None) (λ guard. fault_of self.old.desc past e ≡ Some guard.0) }
        ensures follows { (past : List Item) → IsAfter self.old.desc past self.old.world
            → OnOk result (IsAfter self.new.desc (e ∷ past) self.new.world) }
        ensures staged_rule { (before mine : List Item) → IsStagedOn self.old.desc before mine self.old.world
            → MatchResult result (λ _. fault_of self.old.desc (mine ++ before) e ≡ None)
            (λ _. is_none (fault_of self.old.desc (mine ++ before) e) ≡ false) }
        ensures staged { (before mine : List Item) → IsStagedOn self.old.desc before mine self.old.world
            → OnOk result (IsStagedOn self.new.desc before (e ∷ mine) self.new.world) }
    {
        self.make(e)
    }

    // makes an entry, or refuses it
    fn make(&mut self, e: Entry) -> Result<(), Guard>
        requires { IsTrue (is_entry_of self.old.desc e) }
        ensures guard { MatchResult result (λ _. fault_on self.old.desc self.old.world e ≡ None)
            (λ guard. fault_on self.old.desc self.old.world e ≡ Some guard.0) }
        ensures done { OnOk result (self.new ≡ with_entry e (after_on self.old.desc self.old.world e) self.old) }
        ensures same { OnErr result (self.new ≡ self.old) }
        ensures valid { IsValid self.old.desc }
    {
        step_parts(
            &self.desc,
            &mut self.lead,
            self.devices.as_mut_slice(),
            self.pages.as_mut_slice(),
            &e,
        )?;
        self.journal.push(e);
        Ok(())
    }

    /// The entries that were made, oldest first.
    pub fn journal(&self) -> &Journal
        ensures { result.now.entries ≡ self.now.entries }
    {
        &self.journal
    }

    /// The description, which the parts fit.
    pub fn desc(&self) -> &Desc
        ensures value { result.now ≡ self.now.desc }
        ensures fits { FitsDesc self.now.desc self.now.world }
    {
        &self.desc
    }

    /// Lends the bytes of page `p`.
    pub fn page(&self, p: u32) -> &[u8]
        requires { p < self.now.desc.pages }
        ensures value { result.now ≡ page_at self.now.world p }
        ensures count { length result.now ≡ self.now.desc.page }
    {
        let page = &self.pages[p as usize];
        page.bytes()
    }

    /// Lends the 64 bytes of block `b` of the BARs of device `d`.
    pub fn block(&self, d: DeviceId, b: u32) -> &[u8]
        requires device { d < device_count self.now.desc }
        requires block { b < block_count (shape_at self.now.desc d) }
        ensures value { result.now ≡ take 64 (drop (64 * b) (dev_at self.now.world d).plain.bar) }
        ensures count { length result.now ≡ 64 }
    {
        device(self.devices.as_slice(), d).block(b)
    }

    /// What can be seen of the move and of its devices.
    ///
    /// Where the parts are those of a legal list, the look shows what the look after the list does. In a core that was staged
    /// after a list it shows what the look of a machine staged so does, with the entries made since.
    pub fn look(&self) -> MoveLook
        ensures shows { Shows self.now.desc (parts_in self.now.world) result }
        ensures follows { (past : List Item) → IsAfter self.now.desc past self.now.world
            → IsAlike result (look_after self.now.desc past) }
        ensures staged { (before mine : List Item) → IsStagedOn self.now.desc before mine self.now.world
            → IsAlike result (staged_look_after self.now.desc before mine) }
    {
        look_of(&self.desc, &self.lead, self.devices.as_slice())
    }

    /// The step of device `d` that `pick` names: of those that it may make, in the order completions, deliveries (both in
    /// the order of issue), issue, the one with number `pick mod count`. `None` exactly where there is none.
    pub fn pick(&self, d: DeviceId, pick: u32) -> Option<Entry>
        requires { d < device_count self.now.desc }
        ensures { result ≡ picked (enabled_steps self.now.desc d (dev_at self.now.world d)) pick }
    {
        device(self.devices.as_slice(), d).pick(&self.desc, d, pick)
    }
}
