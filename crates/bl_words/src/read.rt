//! The words, read.
ghost use Rattle.std.specs.Prelude.{◌≡◌, IfOk, Err, map, string_bytes, ◌≢◌, ◌∷◌, []};
ghost use Rattle.std.specs.List.{list_any};
ghost use Rattle.std.specs.Str.{bytes_eq};
ghost use Rattle.bl_words.specs.Wishes.{IsWithinRanges, Means, MeansNothing};
ghost use Rattle.clap.specs.Words.{kind_of};

use crate::command::command;
use crate::wish::{Wish, asked};
use clap::error::ErrorKind;
use std::alloc::Global;
use thiserror::Error;

/// Why words are not read.
#[derive(Clone, Copy, Debug, PartialEq, Eq, Error)]
pub enum WordsFault {
    /// They mean nothing.
    #[error("Refused")]
    Refused,
    /// There was no memory.
    #[error("Memory")]
    Memory,
}

// Whether the word `--` stands among the words.
fn has_stop(words: &[String]) -> bool
    ensures { result ≡ list_any (λ w. bytes_eq w (45 ∷ 45 ∷ [])) (map string_bytes words.now) }
{
    for word in words {
        if word.as_str() == "--" {
            return true;
        }
    }
    false
}

// Want of memory, or that the words are refused.
fn fault(error: &clap::Error) -> WordsFault
    ensures memory { kind_of error.now ≡ ErrorKind.OutOfMemory → result ≡ WordsFault.Memory }
    ensures refused { result ≡ WordsFault.Refused → kind_of error.now ≢ ErrorKind.OutOfMemory }
{
    if error.kind() == ErrorKind::OutOfMemory {
        WordsFault::Memory
    } else {
        WordsFault::Refused
    }
}

/// What the words after a program's name ask for; `one` is true for the program without workers.
/// `Refused` exactly where they mean nothing; `Memory` where there is no memory.
pub fn read_words(alloc: Global, words: &[String], one: bool) -> Result<Wish, WordsFault>
    ensures meant { IfOk result (λ wish. Means one (map string_bytes words.now) wish) }
    ensures ranges { IfOk result IsWithinRanges }
    ensures refused { result ≡ Err WordsFault.Refused
        → MeansNothing one (map string_bytes words.now) }
{
    if has_stop(words) {
        return Err(WordsFault::Refused);
    }
    let Ok(command) = command(alloc, one) else {
        return Err(WordsFault::Memory);
    };
    match command.try_get_matches_from(words) {
        Ok(matches) => {
            let write = matches.get_flag("write");
            let log = matches.get_flag("log");
            match asked(&matches, write, log) {
                Some(wish) => Ok(wish),
                None => Err(WordsFault::Refused),
            }
        }
        Err(error) => Err(fault(&error)),
    }
}
