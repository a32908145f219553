//! Setting a machine part by part, as where its state came from elsewhere.

ghost use Rattle.std.specs.Prelude.{◌≡◌, ◌+◌, ◌<◌, ◌≤◌, [], ◌∷◌, ◌++◌, length, slice_index_or, slice_set};
ghost use Rattle.vfm_types.specs.Machine.{device_of, with_device};

use crate::plain::Plain;
use vfm_types::DeviceId;

impl Plain {
    /// Puts other bytes into a page, as many as it has.
    pub fn set_page(&mut self, p: u32, bytes: &[u8])
        requires page { p < length self.old.pages }
        requires size { length bytes.now ≡ length (slice_index_or self.old.pages p []) }
        ensures { self.new ≡ record self.old { pages = slice_set self.old.pages p bytes.now } }
    {
        let sheet = &mut self.pages[p as usize];
        sheet.put(0, bytes);
    }

    /// Puts other bytes into a device's BARs, as many as they have.
    pub fn set_bar(&mut self, d: DeviceId, bytes: &[u8])
        requires device { d < length self.old.devices }
        requires size { length bytes.now ≡ length (device_of self.old d).bar }
        ensures { self.new ≡ with_device self.old d (record (device_of self.old d) { bar = bytes.now }) }
    {
        let device = &mut self.devices[d.0 as usize];
        device.put_bar(0, bytes);
    }

    /// Puts 64 other bytes into a device's buffer.
    pub fn set_buf(&mut self, d: DeviceId, bytes: &[u8])
        requires device { d < length self.old.devices }
        requires size { length bytes.now ≡ length (device_of self.old d).buf }
        requires few { length bytes.now ≡ 64 }
        ensures { self.new ≡ with_device self.old d (record (device_of self.old d) { buf = bytes.now }) }
    {
        let device = &mut self.devices[d.0 as usize];
        device.put_front(bytes);
    }

    /// Starts a device anew with so many requests done and so many lost, and none pending.
    pub fn restart(&mut self, d: DeviceId, done: u32, lost: u32)
        requires device { d < length self.old.devices }
        requires few { done ≤ 50000 }
        ensures { self.new ≡ with_device self.old d
            (record (device_of self.old d) { pending = []; accepted = done; done = done; lost = lost }) }
    {
        let device = &mut self.devices[d.0 as usize];
        device.restart(done, lost);
    }

    /// Adds a request after a device's pending ones.
    pub fn add_pending(&mut self, d: DeviceId, number: u32, job: u32)
        requires device { d < length self.old.devices }
        requires few { (device_of self.old d).accepted < 50000 }
        ensures { self.new ≡ with_device self.old d (record (device_of self.old d) {
          pending = (device_of self.old d).pending ++ (number, job) ∷ [];
          accepted = (device_of self.old d).accepted + 1;
        }) }
    {
        let device = &mut self.devices[d.0 as usize];
        device.add_pending(number, job);
    }
}
