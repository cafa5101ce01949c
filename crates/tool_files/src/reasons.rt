//! Why a tool was not done, in a sentence on standard error.

use command_words::InputPlaces;
use program_files::word_at;
use refusal_text::{FileFault, file_refusal};
use std::fmt::Display;
use std::io::Write;
use sub_base::{ToolStatus, Which, Words};

/// The names of a tool's files: the words of the command line, and which of them they are.
#[derive(Clone, Copy)]
pub(crate) struct FileNames<'a> {
    pub words: &'a Words,
    pub places: InputPlaces,
}

impl<'a> FileNames<'a> {
    /// The name of that file, where a word names it.
    pub(crate) fn of(self, which: Which) -> Option<&'a str> {
        let place = match which {
            Which::First => self.places.first,
            Which::Second => self.places.second,
            Which::Out => self.places.out,
            Which::Notes => None,
        };
        word_at(self.words, place)
    }
}

/// Writes a sentence to standard error that says why the tool refused what it read, or which of its
/// files could not be read or written. Without memory for a sentence there is none.
pub(crate) fn explain<F: Display + Copy>(
    rt: &HostRuntime,
    names: FileNames<'_>,
    status: ToolStatus<F>,
    out_is_input: bool,
) {
    match status {
        ToolStatus::Refused(fault) => {
            let _ = eprintln!(rt; "{fault}");
        }
        ToolStatus::ReadFault(which) => explain_file(rt, names, which, FileFault::Unread),
        ToolStatus::InputTooLong(which) => explain_file(rt, names, which, long_fault(names.words)),
        ToolStatus::WriteFault(which) if out_is_input => {
            explain_file(rt, names, which, FileFault::IsInput);
        }
        ToolStatus::WriteFault(which) => explain_file(rt, names, which, FileFault::Unwritten),
        ToolStatus::Done | ToolStatus::Usage | ToolStatus::Memory => {}
    }
}

/// The same of a file, which is quoted by its name; nothing where no word names it.
fn explain_file(rt: &HostRuntime, names: FileNames<'_>, which: Which, fault: FileFault) {
    let Some(name) = names.of(which) else {
        return;
    };
    if let Ok(text) = file_refusal(rt.alloc(), name, fault) {
        let mut error = rt.stderr();
        let _ = error.write_all(text.as_bytes());
        let _ = error.write_all(b"\n");
    }
}

/// Which limit an input has passed: scripts and fonts have another one than streams.
fn long_fault(words: &Words) -> FileFault {
    match word_at(words, Some(0)) {
        Some("pair") | Some("live") => FileFault::LongText,
        _ => FileFault::LongStream,
    }
}
