//! A core taken apart, so that each part can be stepped by itself, and put together again.

ghost use Rattle.std.specs.Prelude.{◌≡◌};
ghost use Rattle.vfm_core.specs.Split.{IsKeptApart, state_apart};

use crate::Core;
use vfm_device_part::{DevPart, PagePart};
use vfm_journal::Journal;
use vfm_lead::LeadPart;
use vfm_types::Desc;

/// The parts of a core.
#[derive(Drop)]
pub struct Split {
    pub desc: Desc,
    pub journal: Journal,
    pub lead: LeadPart,
    pub devices: Vec<DevPart>,
    pub pages: Vec<PagePart>,
}

impl Core {
    /// Takes the core apart. Takes no memory.
    pub fn split(self) -> Split
        ensures state { state_apart result ≡ self }
        ensures kept { IsKeptApart result }
    {
        Split {
            desc: self.desc,
            journal: self.journal,
            lead: self.lead,
            devices: self.devices,
            pages: self.pages,
        }
    }
}

impl Split {
    /// The core of these parts. They are kept, as those of a split core are, and as each step that breaks no rule leaves
    /// them where its entry is added to the journal. Takes no memory.
    pub fn join(self) -> Core
        requires { IsKeptApart self }
        ensures { result ≡ state_apart self }
    {
        Core {
            desc: self.desc,
            journal: self.journal,
            lead: self.lead,
            devices: self.devices,
            pages: self.pages,
        }
    }
}
