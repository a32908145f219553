//! What the coordinator sees of a move.

ghost use Rattle.std.specs.Prelude.{◌≡◌, ◌<◌};
ghost use Rattle.vfm_quiet.specs.Seen.{seen, sees_ready, sees_reported};

use vfm_types::{DevLook, DeviceId, PageSet};

/// What can be seen of a move and its devices, of which there are at most eight. The places of devices that aren't
/// there may show anything.
#[derive(Debug, Drop)]
pub struct MoveLook {
    pub begun: bool,
    pub joint: bool,
    pub aborted: bool,
    pub resumed: bool,
    /// An arc failed, and the source hasn't given up since.
    pub failed: bool,
    /// How many passes have begun.
    pub passes: u32,
    /// The newest pass has ended; so it is before the first one.
    pub ended: bool,
    /// The last pass has begun.
    pub last: bool,
    /// The pages of the newest pass.
    pub set: PageSet,
    /// The page that is to be copied next. `None` where the move was given up or taken over.
    pub next_copy: Option<u32>,
    /// The device whose blocks are due. `None` where the move was given up or taken over.
    pub part: Option<DeviceId>,
    /// The block that this device is to read next. `None` where the move was given up or taken over.
    pub next_block: Option<u32>,
    /// By device: it has reported since the newest pass began.
    pub reported: [bool; 8],
    pub devices: [DevLook; 8],
    /// By device: everything is quiet enough for its next arc.
    pub ready: [bool; 8],
    /// How many devices there are.
    pub count: u8,
}

impl MoveLook {
    /// What is seen of device `d`, which is below 8.
    pub fn device(&self, d: u8) -> &DevLook
        requires { d < 8 }
        ensures { result.now ≡ seen self.now d }
    {
        &self.devices[usize::from(d)]
    }

    /// Whether everything is quiet enough for the next arc of device `d`, which is below 8.
    pub fn is_ready(&self, d: u8) -> bool
        requires { d < 8 }
        ensures { result ≡ sees_ready self.now d }
    {
        self.ready[usize::from(d)]
    }

    /// Whether device `d`, which is below 8, has reported since the newest pass began.
    pub fn has_reported(&self, d: u8) -> bool
        requires { d < 8 }
        ensures { result ≡ sees_reported self.now d }
    {
        self.reported[usize::from(d)]
    }
}
