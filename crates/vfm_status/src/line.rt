//! The line of each status.

ghost use Rattle.std.specs.Prelude.{◌≡◌, ℕ, ◌≤◌, ◌+◌, List, [], ◌∷◌, ◌++◌, codes, length, decimal};
ghost use Rattle.vfm_plain.specs.Text.{line};
ghost use Rattle.vfm_text.specs.Writers.{Writes};
ghost use Rattle.hex.specs.Hex.{encode_lower};
ghost use Rattle.vfm_status.specs.StatusText.{device_word, job_word, field_word, fault_words, link_words, heard_word, doubt_words, section_word, status_line};
ghost use Rattle.vfm_status.specs.StatusText as spec;

use crate::{Doubt, Status};
use itoa::Buffer;
use vfm_audit::Section;
use vfm_desc::member_name;
use vfm_outside::Failed;
use vfm_text::{TextBuffer, TextWriter, put_line, state_name};
use vfm_types::{DescFault, Field, Heard44, LinkPlace};

/// How many bytes are turned into digits at a time: the longest that a status has.
const MOST_DIGITS: usize = 88;

/// Adds the digits of a number to a word.
fn add_number(word: &mut TextBuffer, number: u32)
    requires { length word.old ≤ 1000 }
    ensures value { word.new ≡ word.old ++ decimal number }
    ensures short { length word.new ≤ length word.old + 40 }
{
    let mut digits = Buffer::new();
    word.add(digits.format(number).as_bytes());
}

/// The decimal digits of a number, without a sign or a leading zero.
pub fn number_text(number: u64) -> TextBuffer
    ensures { result ≡ decimal number }
{
    let mut digits = Buffer::new();
    let mut word = TextBuffer::new();
    word.add(digits.format(number).as_bytes());
    word
}

/// Bytes as digits.
fn digits_text(bytes: &[u8]) -> TextBuffer
    requires { length bytes.now ≤ 44 }
    ensures { result ≡ encode_lower bytes.now }
{
    let mut digits = [0u8; MOST_DIGITS];
    let text = &mut digits[..2 * bytes.len()];
    if hex::encode_to_slice(bytes, text).is_err() {
        unreachable!();
    }
    let mut word = TextBuffer::new();
    word.add(text);
    word
}

/// What came in place of a frame, as digits, or a dash where nothing came.
fn heard_text(heard: &Heard44) -> TextBuffer
    ensures { result ≡ heard_word heard.now }
{
    if heard.bytes().is_empty() {
        let mut word = TextBuffer::new();
        word.add(b"-");
        return word;
    }
    digits_text(heard.bytes())
}

/// A device, as a fault names it.
fn device_text(d: u32) -> TextBuffer
    ensures value { result ≡ device_word d }
    ensures short { length result ≤ 48 }
{
    let mut word = TextBuffer::new();
    word.add(b"devices.");
    add_number(&mut word, d);
    word
}

/// A job of a device, as a fault names it.
fn job_text(d: u32, j: u32) -> TextBuffer
    ensures value { result ≡ job_word d j }
    ensures short { length result ≤ 94 }
{
    let mut word = device_text(d);
    word.add(b".jobs.");
    add_number(&mut word, j);
    word
}

/// A member with what stands before it, as a fault names it.
fn field_text(field: &Field) -> TextBuffer
    ensures { result ≡ field_word field.now }
{
    let name = member_name(field.name).as_bytes();
    if field.device == u32::MAX {
        let mut word = TextBuffer::new();
        word.add(name);
        return word;
    }
    let mut word = if field.job == u32::MAX {
        device_text(field.device)
    } else {
        job_text(field.device, field.job)
    };
    word.add(b".");
    word.add(name);
    word
}

/// What is wrong with a description.
fn cause(fault: &DescFault) -> &'static [u8]
    ensures { result.now ≡ spec.cause_word fault.now }
{
    match fault {
        DescFault::NotJson => b"not-json",
        DescFault::Missing(_) => b"missing",
        DescFault::Kind(_) => b"kind",
        DescFault::Range(_) => b"range",
        DescFault::NameTwice { .. } => b"name-twice",
        DescFault::Crosses { .. } => b"crosses",
        DescFault::OwnBar { .. } => b"own-bar",
        DescFault::BellKind { .. } => b"bell-kind",
        DescFault::NeedsP2p { .. } => b"needs-p2p",
        DescFault::TooLong => b"too-long",
        DescFault::NotYet(_) => b"not-yet",
        DescFault::NoMemory => b"",
    }
}

/// Where it stands.
fn place(fault: &DescFault) -> Option<TextBuffer>
    ensures { result ≡ spec.place_word fault.now }
{
    match fault {
        DescFault::NotJson => None,
        DescFault::Missing(field) => Some(field_text(field)),
        DescFault::Kind(field) => Some(field_text(field)),
        DescFault::Range(field) => Some(field_text(field)),
        DescFault::NameTwice { device } => Some(device_text(*device)),
        DescFault::Crosses { device, job } => Some(job_text(*device, *job)),
        DescFault::OwnBar { device, job } => Some(job_text(*device, *job)),
        DescFault::BellKind { device, job } => Some(job_text(*device, *job)),
        DescFault::NeedsP2p { device } => Some(device_text(*device)),
        DescFault::TooLong => None,
        DescFault::NotYet(field) => Some(field_text(field)),
        DescFault::NoMemory => None,
    }
}

/// Writes the line of a faulty description.
fn put_fault<P: TextWriter>(writer: &mut P, fault: &DescFault) -> Result<(), Failed>
    ensures { Writes P.takes P.stops writer.old writer.new (line (codes "status") (fault_words fault.now)) result }
{
    match place(fault) {
        Some(place) => put_line(
            writer,
            b"status",
            &[b"bad-description", cause(fault), place.as_slice()],
        ),
        None => put_line(writer, b"status", &[b"bad-description", cause(fault)]),
    }
}

/// Writes the line of a failed link.
fn put_link_fault<P: TextWriter>(writer: &mut P, link: &LinkPlace) -> Result<(), Failed>
    ensures { Writes P.takes P.stops writer.old writer.new (line (codes "status") (link_words link.now)) result }
{
    match link {
        LinkPlace::Connect => put_line(writer, b"status", &[b"link-fault", b"connect"]),
        LinkPlace::Source(k) => put_line(
            writer,
            b"status",
            &[
                b"link-fault",
                b"source",
                number_text(u64::from(*k)).as_slice(),
            ],
        ),
        LinkPlace::Destination(k) => put_line(
            writer,
            b"status",
            &[
                b"link-fault",
                b"destination",
                number_text(u64::from(*k)).as_slice(),
            ],
        ),
        LinkPlace::Control => put_line(writer, b"status", &[b"link-fault", b"control"]),
    }
}

/// Writes the line of a run of which it isn't known who has the machine.
fn put_doubt<P: TextWriter>(writer: &mut P, doubt: &Doubt) -> Result<(), Failed>
    ensures { Writes P.takes P.stops writer.old writer.new (line (codes "status") (doubt_words doubt.now)) result }
{
    match doubt {
        Doubt::Send => put_line(writer, b"status", &[b"in-doubt", b"send"]),
        Doubt::Read => put_line(writer, b"status", &[b"in-doubt", b"read"]),
        Doubt::NoGo(heard) => put_line(
            writer,
            b"status",
            &[b"in-doubt", b"no-go", heard_text(heard).as_slice()],
        ),
        Doubt::Other { ours, theirs } => put_line(
            writer,
            b"status",
            &[
                b"in-doubt",
                b"other",
                digits_text(ours).as_slice(),
                digits_text(theirs).as_slice(),
            ],
        ),
    }
}

/// Which printed state isn't the audited one.
fn section(section: Section) -> &'static [u8]
    ensures { result.now ≡ section_word section }
{
    match section {
        Section::Joint => b"joint",
        Section::Last => b"final",
    }
}

/// Writes the line of a status. Nothing is written for three: what `paths` prints has lines of its own, and after a failed
/// write there is none.
pub fn put_status<P: TextWriter>(writer: &mut P, status: &Status) -> Result<(), Failed>
    ensures { Writes P.takes P.stops writer.old writer.new (status_line status.now) result }
{
    match status {
        Status::Moved => put_line(writer, b"status", &[b"moved"]),
        Status::Printed => Ok(()),
        Status::BadWords => put_line(writer, b"status", &[b"bad-words"]),
        Status::BadDescription(fault) => put_fault(writer, fault),
        Status::ReadFault => put_line(writer, b"status", &[b"read-fault"]),
        Status::WriteFault => Ok(()),
        Status::LinkFault(link) => put_link_fault(writer, link),
        Status::Refused(why) => put_line(
            writer,
            b"status",
            &[
                b"refused",
                number_text(u64::from(why.code)).as_slice(),
                number_text(why.a).as_slice(),
                number_text(why.b).as_slice(),
            ],
        ),
        Status::Unconfirmed { ours, theirs } => put_line(
            writer,
            b"status",
            &[
                b"unconfirmed",
                digits_text(ours).as_slice(),
                digits_text(theirs).as_slice(),
            ],
        ),
        Status::InDoubt(doubt) => put_doubt(writer, doubt),
        Status::Differs => put_line(writer, b"status", &[b"differs"]),
        Status::Aborted { pass } => put_line(
            writer,
            b"status",
            &[b"aborted", number_text(u64::from(*pass)).as_slice()],
        ),
        Status::ArcFailed { d, to } => put_line(
            writer,
            b"status",
            &[
                b"arc-failed",
                number_text(u64::from(d.0)).as_slice(),
                state_name(*to),
            ],
        ),
        Status::NoControl(heard) => {
            put_line(
                writer,
                b"status",
                &[b"no-control", heard_text(heard).as_slice()],
            )
        }
        Status::NoMemory => put_line(writer, b"status", &[b"no-memory"]),
        Status::PathRefused(_) => Ok(()),
        Status::Broken { place, rule } => put_line(
            writer,
            b"status",
            &[
                b"broken",
                number_text(*place).as_slice(),
                number_text(u64::from(rule.number())).as_slice(),
            ],
        ),
        Status::BadReport { line } => {
            put_line(
                writer,
                b"status",
                &[b"bad-report", number_text(*line).as_slice()],
            )
        }
        Status::StateDiffers(which) => {
            put_line(writer, b"status", &[b"state-differs", section(*which)])
        }
    }
}
