//! A state as a report has it. Unlike a plain machine's, its counts and its pending requests may be any.

ghost use Rattle.std.specs.Prelude.{◌≡◌};

use std::marker::Model;
use vfm_plain::Sheet;

/// A device as a report has it. Seen as a device's state.
#[derive(Drop)]
pub struct PrintedDevice {
    pub(crate) bar: Vec<u8>,
    pub(crate) pending: Vec<(u32, u32)>,
    pub(crate) buf: Vec<u8>,
    pub(crate) accepted: u32,
    pub(crate) done: u32,
    pub(crate) lost: u32,
}

impl Model for PrintedDevice {
    ghost use Rattle.vfm_types.specs.Machine.{DeviceState};

    ghost Value = { DeviceState };

    ghost view = { λ d. record {
      bar = d.bar.items;
      pending = d.pending.items;
      buf = d.buf.items;
      accepted = d.accepted;
      done = d.done;
      lost = d.lost;
    } };
}

/// A state as a report has it. Seen as a machine.
#[derive(Drop)]
pub struct PrintedState {
    pub(crate) pages: Vec<Sheet>,
    pub(crate) devices: Vec<PrintedDevice>,
}

impl Model for PrintedState {
    ghost use Rattle.vfm_types.specs.Machine.{Machine};

    ghost Value = { Machine };

    ghost view = { λ p. record { pages = p.pages.items; devices = p.devices.items } };
}

impl PrintedDevice {
    /// The bytes of its BARs, one after the other.
    pub fn bar(&self) -> &[u8]
        ensures { result.now ≡ self.now.bar }
    {
        self.bar.as_slice()
    }

    /// The buffer.
    pub fn buf(&self) -> &[u8]
        ensures { result.now ≡ self.now.buf }
    {
        self.buf.as_slice()
    }

    /// The pending requests in the order of their lines, each with its number and the number of its job.
    pub fn pending(&self) -> &[(u32, u32)]
        ensures { result.now ≡ self.now.pending }
    {
        self.pending.as_slice()
    }

    /// How many requests it accepted, did and lost.
    pub fn counts(&self) -> (u32, u32, u32)
        ensures accepted { result.0 ≡ self.now.accepted }
        ensures done { result.1 ≡ self.now.done }
        ensures lost { result.2 ≡ self.now.lost }
    {
        (self.accepted, self.done, self.lost)
    }
}

impl PrintedState {
    /// The pages.
    pub fn pages(&self) -> &[Sheet]
        ensures { result.now ≡ self.now.pages }
    {
        self.pages.as_slice()
    }

    /// The devices.
    pub fn devices(&self) -> &[PrintedDevice]
        ensures { result.now ≡ self.now.devices }
    {
        self.devices.as_slice()
    }
}
