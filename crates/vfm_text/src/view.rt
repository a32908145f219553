//! What the text of a machine is written of: a plain machine, or whatever else holds one.

ghost use Rattle.std.specs.Prelude.{◌≡◌, ◌<◌, [], length, slice_index_or};
ghost use Rattle.vfm_types.specs.Machine.{Machine, device_of};

use vfm_plain::Plain;
use vfm_types::DeviceId;

/// What shows a machine: the bytes of its pages, and of each device the bytes and numbers.
pub trait MachineView {
    /// The machine that is shown.
    ghost machine: { Self → Machine };

    /// Lends the bytes of page `p`.
    fn page(&self, p: u32) -> &[u8]
        requires { p < length (machine self.now).pages }
        ensures { result.now ≡ slice_index_or (machine self.now).pages p [] };

    /// Lends the bytes of the BARs of device `d`, one BAR after the other.
    fn bar(&self, d: DeviceId) -> &[u8]
        requires { d < length (machine self.now).devices }
        ensures { result.now ≡ (device_of (machine self.now) d).bar };

    /// Lends the buffer of device `d`.
    fn buf(&self, d: DeviceId) -> &[u8; 64]
        requires { d < length (machine self.now).devices }
        ensures { result.now ≡ (device_of (machine self.now) d).buf };

    /// How many requests device `d` accepted, did and lost.
    fn counts(&self, d: DeviceId) -> (u32, u32, u32)
        requires { d < length (machine self.now).devices }
        ensures accepted { result.0 ≡ (device_of (machine self.now) d).accepted }
        ensures done { result.1 ≡ (device_of (machine self.now) d).done }
        ensures lost { result.2 ≡ (device_of (machine self.now) d).lost };

    /// Lends the pending requests of device `d`, each with its number and the number of its job, in order.
    fn pending(&self, d: DeviceId) -> &[(u32, u32)]
        requires { d < length (machine self.now).devices }
        ensures { result.now ≡ (device_of (machine self.now) d).pending };
}

impl MachineView for Plain {
    ghost machine = { λ m. m };

    fn page(&self, p: u32) -> &[u8] {
        self.page(p)
    }

    fn bar(&self, d: DeviceId) -> &[u8] {
        self.bar(d)
    }

    fn buf(&self, d: DeviceId) -> &[u8; 64] {
        self.buf(d)
    }

    fn counts(&self, d: DeviceId) -> (u32, u32, u32) {
        self.counts(d)
    }

    fn pending(&self, d: DeviceId) -> &[(u32, u32)] {
        self.pending(d)
    }
}
