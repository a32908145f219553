//! The digest of a loaded machine: the SHA-256 of its state text.

use crate::Trouble;
use sha2::{Digest, Sha256};
use std::alloc::Global;
use vfm_plain::Part;
use vfm_types::{Bytes, Desc, PendingList, Sheets};

/// The digest of the machine that these parts are, as hex digits.
pub fn digest_of(alloc: Global, desc: &Desc, parts: &[Part]) -> Result<String, Trouble> {
    let mut hasher = Sha256::new();
    let mut d = 0u32;
    for part in parts {
        match part {
            Part::Pages(sheets) => put_pages(alloc, &mut hasher, sheets)?,
            Part::Device {
                bar,
                buf,
                counts: (accepted, done, lost),
                pending,
            } => {
                if d >= desc.devices.len() {
                    return Err(Trouble::Form);
                }
                let shape = desc.devices.at(d);
                put(&mut hasher, &format!(in alloc; "device {d} ")?);
                hasher.update(shape.name.bytes());
                put(
                    &mut hasher,
                    &format!(in alloc; " accepted {accepted} done {done} lost {lost}\n")?,
                );
                put(&mut hasher, &format!(in alloc; "buf {d} ")?);
                put_hex_line(alloc, &mut hasher, buf)?;
                put_bars(alloc, &mut hasher, d, shape.bars.as_slice(), bar)?;
                put_pending(alloc, &mut hasher, d, pending)?;
                d += 1;
            }
        }
    }
    Ok(hex::encode(alloc, hasher.finalize())?)
}

fn put(hasher: &mut Sha256, text: &String) {
    hasher.update(text.as_bytes());
}

// The hex digits of some bytes, and the end of the line.
fn put_hex_line(alloc: Global, hasher: &mut Sha256, bytes: &[u8]) -> Result<(), Trouble> {
    put(hasher, &hex::encode(alloc, bytes)?);
    hasher.update(b"\n");
    Ok(())
}

// A line for each page.
fn put_pages(alloc: Global, hasher: &mut Sha256, sheets: &Sheets) -> Result<(), Trouble> {
    for (p, sheet) in sheets.lent().iter().enumerate() {
        put(hasher, &format!(in alloc; "page {p} ")?);
        put_hex_line(alloc, hasher, sheet.lent())?;
    }
    Ok(())
}

// A line for each BAR of device d; it has a number of its own where the device has several.
fn put_bars(
    alloc: Global,
    hasher: &mut Sha256,
    d: u32,
    sizes: &[u32],
    bar: &Bytes,
) -> Result<(), Trouble> {
    let mut rest = bar.lent();
    for (k, size) in sizes.iter().enumerate() {
        if sizes.len() == 1 {
            put(hasher, &format!(in alloc; "bar {d} ")?);
        } else {
            put(hasher, &format!(in alloc; "bar {d} {k} ")?);
        }
        let (bytes, behind) = rest.split_at((*size as usize).min(rest.len()));
        put_hex_line(alloc, hasher, bytes)?;
        rest = behind;
    }
    Ok(())
}

// A line for each pending request of device d.
fn put_pending(
    alloc: Global,
    hasher: &mut Sha256,
    d: u32,
    pending: &PendingList,
) -> Result<(), Trouble> {
    for (number, job) in pending.lent() {
        put(hasher, &format!(in alloc; "pend {d} {number} {job}\n")?);
    }
    Ok(())
}
