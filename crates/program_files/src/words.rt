ghost use Rattle.std.specs.Prelude.{◌≡◌, option_copied};
ghost use Rattle.program_files.specs.Words.{word_in};

use std::{env, io};
use sub_base::{NoMemory, Words};
use thiserror::Error;

/// Why the words of the command line were not read.
#[derive(Debug, Drop, Error)]
pub enum WordsFault {
    /// No memory was found.
    #[error("out of memory")]
    Memory,
    /// A word is no text in UTF-8.
    #[error("a word is not in UTF-8")]
    NotText,
}

impl From<NoMemory> for WordsFault {
    fn from(_error: NoMemory) -> WordsFault {
        WordsFault::Memory
    }
}

impl From<io::Error> for WordsFault {
    fn from(error: io::Error) -> WordsFault {
        match error.kind() {
            io::ErrorKind::OutOfMemory => WordsFault::Memory,
            _ => WordsFault::NotText,
        }
    }
}

/// The words of the command line, without the program's name.
pub fn words_of(rt: &HostRuntime) -> Result<Words, WordsFault> {
    let mut words = Words::make(rt.alloc());
    for word in env::args(rt)?.skip(1) {
        words.push(word.as_str())?;
    }
    Ok(words)
}

/// The word at that place, counted from 0, where there is one.
pub fn word_at(words: &Words, place: Option<usize>) -> Option<&str>
    ensures { option_copied result ≡ word_in words.now place }
{
    let place = place?;
    if place < words.count() {
        Some(words.word(place))
    } else {
        None
    }
}
