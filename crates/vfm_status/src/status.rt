//! How a run can end.

ghost use Rattle.std.specs.Prelude.{◌≡◌, ℕ};
ghost use Rattle.vfm_status.specs.Number.{status_number};

use vfm_audit::Section;
use vfm_types::{DescFault, DeviceId, Heard44, LinkPlace, MigState, PathFault, Refusal, Rule};

/// Why it isn't known whether the destination took the machine over. Neither end runs then.
#[derive(Debug, Drop)]
pub enum Doubt {
    /// The source's control link failed while Go was sent.
    Send,
    /// The destination's control link failed while Go was read.
    Read,
    /// The control link ended, or gave what is no Go of the session.
    NoGo(Heard44),
    /// Go had another digest than the staged one.
    Other { ours: [u8; 32], theirs: [u8; 32] },
}

/// How a run ended.
#[derive(Debug, Drop)]
pub enum Status {
    /// The machine was moved, and ran to its end at the destination.
    Moved,
    /// What was asked for was printed.
    Printed,
    /// The words are none of the forms.
    BadWords,
    /// The description is faulty.
    BadDescription(DescFault),
    /// A source that was to be read failed.
    ReadFault,
    /// The sink failed; what was written is a prefix of another status's text.
    WriteFault,
    /// A link failed before Go was begun; the source went on.
    LinkFault(LinkPlace),
    /// The destination refused; the source went on.
    Refused(Refusal),
    /// The destination staged a state with another digest; the source went on.
    Unconfirmed { ours: [u8; 32], theirs: [u8; 32] },
    /// It isn't known whether the destination took over; neither end runs.
    InDoubt(Doubt),
    /// The digests agree and the states differ; the source went on.
    Differs,
    /// The pass after which the source was to give up has ended; the source went on.
    Aborted { pass: u32 },
    /// The description's failing arc was asked for; the source went on.
    ArcFailed { d: DeviceId, to: MigState },
    /// The control link ended or gave no answer; the source went on.
    NoControl(Heard44),
    /// Memory ran out.
    NoMemory,
    /// There is no path between the states.
    PathRefused(PathFault),
    /// The entry of the report at this place, counted from 0 over both journals, is the first that breaks a rule.
    Broken { place: u64, rule: Rule },
    /// Up to this line, counted from 1, no report begins so. 0: the report has more than 134,217,728 bytes.
    BadReport { line: u64 },
    /// A state that the report prints isn't the audited one.
    StateDiffers(Section),
}

/// The number that the program ends with.
pub fn number(s: &Status) -> u8
    ensures { result ≡ status_number s.now }
{
    match s {
        Status::Moved => 0,
        Status::Printed => 0,
        Status::BadWords => 1,
        Status::BadDescription(_) => 2,
        Status::ReadFault => 3,
        Status::WriteFault => 4,
        Status::LinkFault(_) => 5,
        Status::Refused(_) => 6,
        Status::Unconfirmed { .. } => 7,
        Status::InDoubt(_) => 8,
        Status::Differs => 9,
        Status::Aborted { .. } => 10,
        Status::ArcFailed { .. } => 11,
        Status::NoControl(_) => 12,
        Status::NoMemory => 13,
        Status::PathRefused(_) => 14,
        Status::Broken { .. } => 15,
        Status::BadReport { .. } => 16,
        Status::StateDiffers(_) => 17,
    }
}
