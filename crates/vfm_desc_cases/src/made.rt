//! Descriptions that no line of text can hold, and such at a limit and past it.

use crate::line::answer;
use std::alloc::{AllocError, Global};
use std::io;
use std::io::Print;

/// Bytes that are no text in UTF-8, or that no line has.
const BYTES: [(&str, &[u8]); 12] = [
    ("no bytes", b""),
    ("a byte order mark", b"\xEF\xBB\xBF{}"),
    ("a lone byte FF", b"{\"a\":\"\xFF\"}"),
    ("half a letter", b"{\"a\":\"\xC3\"}"),
    ("a whole letter", b"{\"a\":\"\xC3\xA9\"}"),
    ("half a surrogate pair", b"{\"a\":\"\xED\xA0\x80\"}"),
    ("a tab in a text", b"{\"a\":\"\t\"}"),
    ("a line end in a text", b"{\"a\":\"\n\"}"),
    ("byte 1F in a text", b"{\"a\":\"\x1F\"}"),
    ("byte 7F in a text", b"{\"a\":\"\x7F\"}"),
    ("a zero after it", b"{}\x00"),
    ("blanks round it", b" \t\r\n{ } \r\n\t "),
];

/// Tries these bytes.
pub(crate) fn bytes(rt: &impl Print, alloc: Global) -> io::Result<()> {
    for (name, bytes) in &BYTES {
        let found = answer(alloc, *bytes)?;
        println!(rt; "{name}: {found}")?;
    }
    Ok(())
}

/// Lists in lists.
pub(crate) fn depths(rt: &impl Print, alloc: Global) -> io::Result<()> {
    for depth in [126usize, 127, 128, 100_000] {
        let mut text = vec![in alloc; b'['; depth]?;
        text.extend_from_slice(&vec![in alloc; b']'; depth]?)?;
        println!(rt; "{depth} deep: {}", answer(alloc, &text)?)?;
    }
    Ok(())
}

/// A number of many digits in a member that is ignored.
pub(crate) fn digits(rt: &impl Print, alloc: Global) -> io::Result<()> {
    for count in [20usize, 308, 309, 310, 400] {
        let mut text = Vec::from_slice(alloc, b"{\"color\":")?;
        text.extend_from_slice(&vec![in alloc; b'1'; count]?)?;
        text.push(b'}')?;
        println!(rt; "{count} digits: {}", answer(alloc, &text)?)?;
    }
    Ok(())
}

/// Every prefix of a description: none is a description.
pub(crate) fn prefixes(rt: &impl Print, alloc: Global, base: &str) -> io::Result<()> {
    let text = base.as_bytes();
    let mut refused = 0u64;
    for end in 0..text.len() {
        if answer(alloc, &text[..end])?.as_str() == "not-json" {
            refused = refused.saturating_add(1);
        }
    }
    println!(rt; "{} bytes, {refused} prefixes are not-json", text.len())
}

// the text and blanks after it, so many bytes in all
fn padded(alloc: Global, text: &[u8], len: usize) -> Result<Vec<u8>, AllocError> {
    let mut bytes = Vec::from_slice(alloc, text)?;
    let blanks = len.saturating_sub(text.len());
    bytes.extend_from_slice(&vec![in alloc; b' '; blanks]?)?;
    Ok(bytes)
}

/// The longest text, and one byte more.
pub(crate) fn lengths(rt: &impl Print, alloc: Global, base: &str) -> io::Result<()> {
    for len in [16_777_215usize, 16_777_216, 16_777_217] {
        let text = padded(alloc, base.as_bytes(), len)?;
        println!(rt; "{len} bytes: {}", answer(alloc, &text)?)?;
        let other = padded(alloc, b"}", len)?;
        println!(rt; "{len} bytes that are no JSON: {}", answer(alloc, &other)?)?;
    }
    Ok(())
}

// the base with the part so many times where it has it once, with commas between
fn repeated(alloc: Global, base: &str, part: &str, count: u32) -> Result<String, AllocError> {
    let Some((before, after)) = base.split_once(part) else {
        return format!(in alloc; "no {part} in the base");
    };
    let mut text = String::from_str(alloc, before)?;
    text.push_str(part)?;
    for _ in 1..count {
        text.push_str(",")?;
        text.push_str(part)?;
    }
    text.push_str(after)?;
    Ok(text)
}

/// The most jobs, and one more.
pub(crate) fn jobs(rt: &impl Print, alloc: Global, base: &str) -> io::Result<()> {
    let job = "{\"kind\":\"write\",\"at\":18,\"hex\":\"01020304\"}";
    for count in [2u32, 4096, 4097] {
        let text = repeated(alloc, base, job, count)?;
        println!(rt; "{count} jobs: {}", answer(alloc, text.as_bytes())?)?;
    }
    Ok(())
}

// the base with another budget and queue
fn with_queue(alloc: Global, base: &str, count: u32) -> Result<String, AllocError> {
    let queued = repeated(alloc, "0]", "0", count)?;
    let Some((before, rest)) = base.split_once("\"budget\":1") else {
        return format!(in alloc; "no budget in the base");
    };
    let Some((between, after)) = rest.split_once("\"queue\":[0]") else {
        return format!(in alloc; "no queue in the base");
    };
    format!(in alloc; "{before}\"budget\":50000{between}\"queue\":[{queued}{after}")
}

/// The longest queue, and one longer.
pub(crate) fn queues(rt: &impl Print, alloc: Global, base: &str) -> io::Result<()> {
    for count in [2u32, 50_000, 50_001] {
        let text = with_queue(alloc, base, count)?;
        println!(rt; "{count} in the queue: {}", answer(alloc, text.as_bytes())?)?;
    }
    Ok(())
}
