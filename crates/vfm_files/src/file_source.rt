//! A source over a file.

ghost use Rattle.std.specs.Prelude.{◌≡◌, ◌≤◌, ℕ, None, length, IfSome};

use std::fs;
use std::io::Read;
use std::rt::Files;
use vfm_outside::{Failed, Source};

/// Gives the bytes of a file, which is opened at the first read. A file that can't be opened is a failed read. What a
/// file holds, no clause says.
#[derive(Drop)]
pub struct FileSource<'a, R: Files> {
    rt: &'a R,
    name: &'a str,
    file: Option<R::File>,
    faults: u64,
}

impl<'a, R: Files> FileSource<'a, R> {
    /// The file of this name, not opened yet.
    pub fn of(rt: &'a R, name: &'a str) -> FileSource<'a, R>
        ensures faults { result.faults ≡ 0 }
        ensures name { result.name.now ≡ name.now }
    {
        FileSource {
            rt,
            name,
            file: None,
            faults: 0,
        }
    }

    /// Opens the file where that wasn't done, and reads.
    fn read_some(&mut self, buf: &mut [u8]) -> Option<usize>
        ensures faults { self.new.faults ≡ self.old.faults }
        ensures bound { IfSome result (λ n. n ≤ length buf.new) }
    {
        if self.file.is_none() {
            self.file = Some(fs::open(self.rt, self.name).ok()?);
        }
        match &mut self.file {
            Some(file) => file.read(buf).ok(),
            None => None,
        }
    }
}

impl<R: Files> Source for FileSource<'_, R> {
    ghost faults = { λ s. s.faults };

    ghost left = { λ _. None };

    fn read(&mut self, buf: &mut [u8]) -> Result<usize, Failed> {
        if buf.is_empty() {
            return Ok(0);
        }
        match self.read_some(buf) {
            Some(n) => Ok(n),
            None => {
                self.faults = self.faults.saturating_add(1);
                Err(Failed)
            }
        }
    }
}
