//! The status lines that may begin a report.

ghost use Rattle.std.specs.Prelude.{◌≡◌, [], ◌∷◌};
ghost use Rattle.vfm_report.specs.Numbers.{number_of};
ghost use Rattle.vfm_report.specs.WordList.{words_left};
ghost use Rattle.vfm_report.specs.StatusLine as spec;

use crate::digits::is_hex;
use crate::number::{long_number, number};
use crate::state_name::state;
use crate::words::{Words, is_word};
use vfm_types::Desc;

/// Whether a word is a member of the top of a description.
fn is_top_member(word: &[u8]) -> bool
    ensures { result ≡ spec.is_one_of spec.top_members word.now }
{
    is_word(word, b"session")
        || is_word(word, b"page")
        || is_word(word, b"pages")
        || is_word(word, b"channels")
        || is_word(word, b"version")
        || is_word(word, b"begin")
        || is_word(word, b"rounds")
        || is_word(word, b"threshold")
        || is_word(word, b"devices")
}

/// Whether a word is a member of a device.
fn is_device_member(word: &[u8]) -> bool
    ensures { result ≡ spec.is_one_of spec.device_members word.now }
{
    is_word(word, b"name")
        || is_word(word, b"flags")
        || is_word(word, b"bar")
        || is_word(word, b"window")
        || is_word(word, b"tells")
        || is_word(word, b"budget")
        || is_word(word, b"fails")
        || is_word(word, b"jobs")
        || is_word(word, b"queue")
}

/// Whether a word is a member of a job.
fn is_job_member(word: &[u8]) -> bool
    ensures { result ≡ spec.is_one_of spec.job_members word.now }
{
    is_word(word, b"kind")
        || is_word(word, b"at")
        || is_word(word, b"hex")
        || is_word(word, b"len")
        || is_word(word, b"value")
}

/// Whether a word is the number of a device.
fn is_device(desc: &Desc, word: &[u8]) -> bool
    ensures { result ≡ spec.is_device desc.now word.now }
{
    match number(word) {
        Some(d) => d < desc.devices.len(),
        None => false,
    }
}

/// Whether a word is the number of a job of that device.
fn is_job(desc: &Desc, device: &[u8], word: &[u8]) -> bool
    ensures { result ≡ spec.is_job desc.now (number_of device.now) word.now }
{
    let d = match number(device) {
        Some(d) => d,
        None => return false,
    };
    if d >= desc.devices.len() {
        return false;
    }
    match number(word) {
        Some(j) => j < desc.devices.at(d).jobs.len(),
        None => false,
    }
}

/// Whether these parts name a device.
fn is_device_name(desc: &Desc, a: &[u8], d: &[u8]) -> bool
    ensures { result ≡ spec.names_device desc.now (a.now ∷ d.now ∷ []) }
{
    is_word(a, b"devices") && is_device(desc, d)
}

/// Whether these parts name a job.
fn is_job_name(desc: &Desc, a: &[u8], d: &[u8], b: &[u8], j: &[u8]) -> bool
    ensures { result ≡ spec.names_job desc.now (a.now ∷ d.now ∷ b.now ∷ j.now ∷ []) }
{
    is_word(a, b"devices") && is_word(b, b"jobs") && is_job(desc, d, j)
}

/// Whether the parts of a word name a device.
fn names_device(desc: &Desc, parts: Words) -> bool
    ensures { result ≡ spec.names_device desc.now (words_left parts.entry) }
{
    match parts.two() {
        Some((a, d)) => is_device_name(desc, a, d),
        None => false,
    }
}

/// Whether the parts of a word name a job.
fn names_job(desc: &Desc, parts: Words) -> bool
    ensures { result ≡ spec.names_job desc.now (words_left parts.entry) }
{
    let mut parts = parts;
    let Some(a) = parts.next() else {
        return false;
    };
    let Some(d) = parts.next() else {
        return false;
    };
    match parts.two() {
        Some((b, j)) => is_job_name(desc, a, d, b, j),
        None => false,
    }
}

/// Whether the parts of a word name a member.
fn names_member(desc: &Desc, parts: Words) -> bool
    ensures { result ≡ spec.names_member desc.now (words_left parts.entry) }
{
    let mut parts = parts;
    let Some(a) = parts.next() else {
        return false;
    };
    let Some(d) = parts.next() else {
        return is_top_member(a);
    };
    let Some(b) = parts.next() else {
        return false;
    };
    let Some(j) = parts.next() else {
        return is_device_name(desc, a, d) && is_device_member(b);
    };
    match parts.one() {
        Some(m) => is_job_name(desc, a, d, b, j) && is_job_member(m),
        None => false,
    }
}

/// Whether a word is 1 to 44 bytes as digits, or a dash.
fn is_heard(word: &[u8]) -> bool
    ensures { result ≡ spec.is_heard word.now }
{
    let size = word.len() / 2;
    is_word(word, b"-") || (1 <= size && size <= 44 && is_hex(size, word))
}

/// Whether a word is a status of nothing more.
fn one_word(desc: &Desc, a: &[u8]) -> bool
    ensures { result ≡ spec.one_word_status desc.now a.now }
{
    is_word(a, b"moved")
        || is_word(a, b"bad-words")
        || is_word(a, b"read-fault")
        || is_word(a, b"differs")
        || is_word(a, b"no-memory")
}

/// Whether these are a status of two words.
fn two_words(desc: &Desc, a: &[u8], b: &[u8]) -> bool
    ensures { result ≡ spec.two_words_status desc.now a.now b.now }
{
    if is_word(a, b"bad-description") {
        return is_word(b, b"not-json") || is_word(b, b"too-long");
    }
    if is_word(a, b"link-fault") {
        return is_word(b, b"connect") || is_word(b, b"control");
    }
    if is_word(a, b"in-doubt") {
        return is_word(b, b"send") || is_word(b, b"read");
    }
    if is_word(a, b"aborted") {
        return number(b).is_some();
    }
    if is_word(a, b"no-control") {
        return is_heard(b);
    }
    false
}

/// Whether a fault is one that has a place.
fn has_member(b: &[u8]) -> bool
    ensures { result ≡ spec.is_one_of spec.member_faults b.now }
{
    is_word(b, b"missing") || is_word(b, b"kind") || is_word(b, b"range") || is_word(b, b"not-yet")
}

/// Whether it is one that has a device.
fn has_device(b: &[u8]) -> bool
    ensures { result ≡ spec.is_one_of spec.device_faults b.now }
{
    is_word(b, b"name-twice") || is_word(b, b"needs-p2p")
}

/// Whether it is one that has a job.
fn has_job(b: &[u8]) -> bool
    ensures { result ≡ spec.is_one_of spec.job_faults b.now }
{
    is_word(b, b"crosses") || is_word(b, b"own-bar") || is_word(b, b"bell-kind")
}

/// Whether this may be wrong with a description, and there.
fn is_fault_at(desc: &Desc, b: &[u8], c: &[u8]) -> bool
    ensures { result ≡ spec.is_fault_at desc.now b.now c.now }
{
    if has_member(b) {
        return names_member(desc, Words::dotted(c));
    }
    if has_device(b) {
        return names_device(desc, Words::dotted(c));
    }
    if has_job(b) {
        return names_job(desc, Words::dotted(c));
    }
    false
}

/// Whether a word is an end of a channel.
fn is_end(b: &[u8]) -> bool
    ensures { result ≡ spec.is_one_of spec.ends b.now }
{
    is_word(b, b"source") || is_word(b, b"destination")
}

/// Whether these are a status of three words.
fn three_words(desc: &Desc, a: &[u8], b: &[u8], c: &[u8]) -> bool
    ensures { result ≡ spec.three_words_status desc.now a.now b.now c.now }
{
    if is_word(a, b"bad-description") {
        return is_fault_at(desc, b, c);
    }
    if is_word(a, b"link-fault") {
        return is_end(b) && number(c).is_some();
    }
    if is_word(a, b"unconfirmed") {
        return is_hex(32, b) && is_hex(32, c);
    }
    if is_word(a, b"in-doubt") {
        return is_word(b, b"no-go") && is_heard(c);
    }
    if is_word(a, b"arc-failed") {
        return is_device(desc, b) && state(c).is_some();
    }
    false
}

/// Whether these are a status of four words.
fn four_words(desc: &Desc, a: &[u8], b: &[u8], c: &[u8], e: &[u8]) -> bool
    ensures { result ≡ spec.four_words_status desc.now a.now b.now c.now e.now }
{
    if is_word(a, b"refused") {
        return number(b).is_some() && long_number(c).is_some() && long_number(e).is_some();
    }
    if is_word(a, b"in-doubt") {
        return is_word(b, b"other") && is_hex(32, c) && is_hex(32, e);
    }
    false
}

/// Whether these words may stand after `status`.
fn is_status(desc: &Desc, words: Words) -> bool
    ensures { result ≡ spec.is_status desc.now (words_left words.entry) }
{
    let mut words = words;
    let Some(a) = words.next() else {
        return false;
    };
    let Some(b) = words.next() else {
        return one_word(desc, a);
    };
    let Some(c) = words.next() else {
        return two_words(desc, a, b);
    };
    let Some(e) = words.next() else {
        return three_words(desc, a, b, c);
    };
    if words.next().is_some() {
        return false;
    }
    four_words(desc, a, b, c, e)
}

/// Whether the line is a status line that may begin a report.
pub(crate) fn is_status_line(desc: &Desc, line: &[u8]) -> bool
    ensures { result ≡ spec.is_status_line desc.now line.now }
{
    let mut words = Words::of(line);
    match words.next() {
        Some(word) => is_word(word, b"status") && is_status(desc, words),
        None => false,
    }
}
