//! The words that a program was started with.
use bl_words::WordsFault;
use std::alloc::AllocError;
use std::rt::Env;
use std::{env, io};

/// The words after the program's name. `Refused` where one of them is no text, and `Memory` where
/// there is no memory for them.
pub fn given_words<R: Env + AllocGlobal>(rt: &R) -> Result<Vec<String>, WordsFault> {
    let args = match env::args(rt) {
        Ok(args) => args,
        Err(error) => return Err(fault(&error)),
    };
    match args.skip(1).collect(rt.alloc()) {
        Ok(words) => Ok(words),
        Err(AllocError) => Err(WordsFault::Memory),
    }
}

// Want of memory, or that a word is no text.
fn fault(error: &io::Error) -> WordsFault {
    if error.kind() == io::ErrorKind::OutOfMemory {
        WordsFault::Memory
    } else {
        WordsFault::Refused
    }
}
