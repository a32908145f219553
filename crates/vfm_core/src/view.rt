//! The machine in a core as what a text is written of, and its digest.

ghost use Rattle.std.specs.Prelude.{◌≡◌, ◌<◌, length};
ghost use Rattle.vfm_types.specs.Machine.{device_of};
ghost use Rattle.vfm_plain.specs.StateText.{state_digest};
ghost use Rattle.vfm_core.specs.Machines.{machine_in};

use crate::Core;
use vfm_device_part::DevPart;
use vfm_lead::device;
use vfm_text::{MachineView, state_digest};
use vfm_types::DeviceId;

impl MachineView for Core {
    ghost use Rattle.vfm_core.specs.Machines.{machine_in};

    ghost machine = { λ core. machine_in core.world };

    fn page(&self, p: u32) -> &[u8] {
        let page = &self.pages[p as usize];
        page.bytes()
    }

    fn bar(&self, d: DeviceId) -> &[u8] {
        self.device_part(d).bar()
    }

    fn buf(&self, d: DeviceId) -> &[u8; 64] {
        self.device_part(d).buf()
    }

    fn counts(&self, d: DeviceId) -> (u32, u32, u32) {
        self.device_part(d).counts()
    }

    fn pending(&self, d: DeviceId) -> &[(u32, u32)] {
        self.device_part(d).pending()
    }
}

impl Core {
    /// The digest of the machine: SHA-256 (FIPS 180-4) of its text. Takes no memory.
    pub fn digest(&self) -> [u8; 32]
        ensures { result ≡ state_digest self.now.desc (machine_in self.now.world) }
    {
        state_digest(self, &self.desc)
    }

    // the part of device d
    fn device_part(&self, d: DeviceId) -> &DevPart
        requires { d < length (machine_in self.now.world).devices }
        ensures { result.now.plain ≡ device_of (machine_in self.now.world) d }
    {
        device(self.devices.as_slice(), d)
    }
}
