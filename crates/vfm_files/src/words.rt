//! The words of the command line.

use std::alloc::{AllocError, Global};
use std::rt::Env;
use std::{env, io};

/// The words of the command line, without the program's name. Where one of them isn't UTF-8 they have no form, and no
/// words are given. Which words the system gives, no clause says.
pub fn given_words<R: Env + Alloc<A = Global>>(rt: &R) -> Result<Vec<String>, AllocError> {
    let mut words = Vec::new(rt.alloc());
    match env::args(rt) {
        Ok(args) => {
            for word in args.skip(1) {
                words.push(word)?;
            }
            Ok(words)
        }
        Err(error) => match error.kind() {
            io::ErrorKind::InvalidData => Ok(words),
            _ => Err(AllocError),
        },
    }
}
