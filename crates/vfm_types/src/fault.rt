//! Causes that more than one crate names: faults of a description, refusals of a destination, places of a link.

/// A member of a description.
#[derive(Clone, Copy, Debug, PartialEq, Eq)]
pub enum FieldName {
    Session,
    Page,
    Pages,
    Channels,
    Version,
    Begin,
    Rounds,
    Threshold,
    Devices,
    Name,
    Flags,
    Bar,
    Window,
    Tells,
    Budget,
    Fails,
    Jobs,
    Queue,
    Kind,
    At,
    Hex,
    Len,
    Value,
}

/// Where a member stands: its device and job, each `u32::MAX` where there is none.
#[derive(Clone, Copy, Debug, PartialEq, Eq)]
pub struct Field {
    pub device: u32,
    pub job: u32,
    pub name: FieldName,
}

/// What is wrong with a description. The first fault counts, in the order that the description format states.
#[derive(Clone, Copy, Debug, PartialEq, Eq)]
pub enum DescFault {
    /// The bytes aren't JSON.
    NotJson,
    /// The member isn't there.
    Missing(Field),
    /// The member's value is of another JSON kind.
    Kind(Field),
    /// The member's value is outside its range.
    Range(Field),
    /// This device has the name of an earlier one.
    NameTwice { device: u32 },
    /// The job's range doesn't lie in one page or one BAR.
    Crosses { device: u32, job: u32 },
    /// The job is aimed at its own device's BARs.
    OwnBar { device: u32, job: u32 },
    /// The job touches a doorbell otherwise than by a write or store of all its 8 bytes.
    BellKind { device: u32, job: u32 },
    /// There are several devices, and this one lacks the peer-to-peer states.
    NeedsP2p { device: u32 },
    /// There are more than 16,777,216 bytes.
    TooLong,
    /// A form that isn't built yet.
    NotYet(Field),
    /// Memory ran out.
    NoMemory,
}

/// Why a destination refuses what it was sent: a code, and two numbers that the code gives a meaning.
#[derive(Clone, Copy, Debug, PartialEq, Eq)]
pub struct Refusal {
    pub code: u32,
    pub a: u64,
    pub b: u64,
}

/// Which link failed.
#[derive(Clone, Copy, Debug, PartialEq, Eq)]
pub enum LinkPlace {
    /// The links couldn't be made.
    Connect,
    /// The source's end of this channel.
    Source(u32),
    /// The destination's end of this channel.
    Destination(u32),
    /// A control link.
    Control,
}

/// A link failed while something was sent over it or its sending side was closed.
#[derive(Clone, Copy, Debug, PartialEq, Eq)]
pub struct LinkFault;
