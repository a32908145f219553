//! Device states, support flags and device numbers, as `linux/vfio.h` numbers them.

ghost use Rattle.std.specs.Prelude.{◌≡◌, ℕ, ◌<◌, ◌≤◌, ◌↔◌, IsTrue, IsSome, IfSome, Some, None};
ghost use Rattle.vfm_types.specs.State.{state_number, state_of_number, is_flags, has_p2p, has_pre_copy};

use std::marker::Model;

/// The state of a device in the VFIO migration protocol, version 2 (`enum vfio_device_mig_state`).
#[derive(Clone, Copy, Debug, PartialEq, Eq)]
pub enum MigState {
    /// The device is broken. It can't be asked for.
    Error,
    /// No DMA, and the state doesn't change.
    Stop,
    /// Runs.
    Running,
    /// As `Stop`, and the state can be read.
    StopCopy,
    /// Takes a state in.
    Resuming,
    /// Runs, but starts no new peer-to-peer DMA.
    RunningP2p,
    /// Runs, and a first part of the state can be read.
    PreCopy,
    /// As `PreCopy`, but starts no new peer-to-peer DMA.
    PreCopyP2p,
}

impl MigState {
    /// The number of the state in `linux/vfio.h`, 0 to 7.
    pub fn number(self) -> u32
        ensures { result ≡ state_number self }
    {
        match self {
            MigState::Error => 0,
            MigState::Stop => 1,
            MigState::Running => 2,
            MigState::StopCopy => 3,
            MigState::Resuming => 4,
            MigState::RunningP2p => 5,
            MigState::PreCopy => 6,
            MigState::PreCopyP2p => 7,
        }
    }

    /// The state with this number, or `None` exactly where the number is above 7.
    pub fn of_number(n: u32) -> Option<MigState>
        ensures value { result ≡ state_of_number n }
        ensures known { IsSome result ↔ (n ≤ 7) }
        ensures inverse { IfSome result (λ state. state_number state ≡ n) }
    {
        match n {
            0 => Some(MigState::Error),
            1 => Some(MigState::Stop),
            2 => Some(MigState::Running),
            3 => Some(MigState::StopCopy),
            4 => Some(MigState::Resuming),
            5 => Some(MigState::RunningP2p),
            6 => Some(MigState::PreCopy),
            7 => Some(MigState::PreCopyP2p),
            _ => None,
        }
    }
}

/// Which parts of the migration protocol a device supports: bit 0 `STOP_COPY`, bit 1 `P2P`, bit 2 `PRE_COPY`.
/// Bit 0 is always set, so the bits are 1, 3, 5 or 7.
#[derive(Clone, Copy, Debug, PartialEq, Eq)]
pub struct Flags {
    bits: u8,
}

impl Model for Flags {
    ghost Value = { ℕ };

    ghost view = { λ f. f.bits };

    ghost invariant = { λ f. IsTrue (is_flags f.bits) };

    ghost inverse = { λ n. record { bits = n } };
}

impl Flags {
    /// The flags with these bits, or `None` exactly where the bits aren't 1, 3, 5 or 7.
    pub fn of(bits: u8) -> Option<Flags>
        ensures known { IsSome result ↔ IsTrue (is_flags bits) }
        ensures value { IfSome result (λ flags. flags ≡ bits) }
    {
        if bits == 1 || bits == 3 || bits == 5 || bits == 7 {
            Some(Flags { bits })
        } else {
            None
        }
    }

    /// The bits.
    pub fn bits(self) -> u8
        ensures value { result ≡ self }
        ensures known { IsTrue (is_flags self) }
    {
        self.bits
    }

    /// Whether the device has the peer-to-peer states (bit 1).
    pub fn has_p2p(self) -> bool
        ensures { result ≡ has_p2p self }
    {
        self.bits / 2 % 2 == 1
    }

    /// Whether the device has the pre-copy states (bit 2).
    pub fn has_pre_copy(self) -> bool
        ensures { result ≡ has_pre_copy self }
    {
        self.bits / 4 % 2 == 1
    }
}

/// The number of a device in its machine, from 0.
#[derive(Clone, Copy, Debug, PartialEq, Eq)]
pub struct DeviceId(pub u8);

impl Model for DeviceId {
    ghost Value = { ℕ };

    ghost view = { λ d. d.0 };

    ghost inverse = { λ n. record { 0 = n } };
}

/// Why there is no path from one state to another.
#[derive(Clone, Copy, Debug, PartialEq, Eq)]
pub enum PathFault {
    /// The state needs a flag that the device doesn't have.
    Unsupported(MigState),
    /// The protocol refuses the arc: `ERROR` can't be asked for, nor pre-copy out of `STOP_COPY`.
    Forbidden { from: MigState, to: MigState },
    /// No way leads out of `ERROR`.
    FromError,
}
