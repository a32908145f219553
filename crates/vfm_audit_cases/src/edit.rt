//! Edits of a report: one line is another, is gone, stands twice, has another before it, or changes places with the next.

use anyhow::{Result, bail};
use std::alloc::{AllocError, Global};

/// What is done to a line.
#[derive(Clone, Copy, PartialEq, Eq)]
pub enum Kind {
    Replace,
    Drop,
    Double,
    Insert,
    Swap,
}

/// An edit: what is done to which line, counted from 1, and the text of a new line.
#[derive(Drop)]
pub struct Edit<'a> {
    kind: Kind,
    at: usize,
    text: &'a str,
}

impl<'a> Edit<'a> {
    /// The edit that does nothing.
    pub fn none() -> Edit<'static> {
        Edit {
            kind: Kind::Drop,
            at: 0,
            text: "",
        }
    }

    /// The edit that a line describes.
    pub fn of(line: &'a str) -> Result<Edit<'a>> {
        let Some((kind, rest)) = line.split_once(' ') else {
            bail!("no kind in {line}");
        };
        let (at, text) = rest.split_once(' ').unwrap_or((rest, ""));
        let kind = match kind.as_bytes() {
            b"replace" => Kind::Replace,
            b"drop" => Kind::Drop,
            b"double" => Kind::Double,
            b"insert" => Kind::Insert,
            b"swap" => Kind::Swap,
            _ => bail!("no such kind: {line}"),
        };
        let at = at.parse::<usize>()?;
        Ok(Edit { kind, at, text })
    }
}

// puts a line after a text
fn add_line(text: &mut Vec<u8>, line: &str) -> Result<(), AllocError> {
    text.extend_from_slice(line.as_bytes())?;
    text.push(10)?;
    Ok(())
}

/// The lines after an edit, as a text.
pub fn edited(alloc: Global, lines: &[String], edit: &Edit) -> Result<Vec<u8>, AllocError> {
    let mut text = Vec::new(alloc);
    for i in 0..lines.len() {
        if i + 1 == edit.at {
            add_edited(&mut text, lines[i].as_str(), edit)?;
        } else {
            add_line(&mut text, lines[i].as_str())?;
        }
        if i > 0 && i == edit.at && edit.kind == Kind::Swap {
            add_line(&mut text, lines[i - 1].as_str())?;
        }
    }
    Ok(text)
}

// puts what an edit makes of its line after a text
fn add_edited(text: &mut Vec<u8>, line: &str, edit: &Edit) -> Result<(), AllocError> {
    match edit.kind {
        Kind::Drop | Kind::Swap => Ok(()),
        Kind::Replace => add_line(text, edit.text),
        Kind::Double => {
            add_line(text, line)?;
            add_line(text, line)
        }
        Kind::Insert => {
            add_line(text, edit.text)?;
            add_line(text, line)
        }
    }
}
