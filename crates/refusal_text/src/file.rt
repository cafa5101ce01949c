use sentence_text::{Part, Text};
use std::alloc::Global;
use sub_base::NoMemory;

/// What has become of a file.
#[derive(Clone, Copy, Debug, PartialEq, Eq)]
pub enum FileFault {
    /// It could not be opened or read.
    Unread,
    /// It is a script or a font, and too long.
    LongText,
    /// It is a stream, and too long.
    LongStream,
    /// It could not be made, written, flushed or renamed.
    Unwritten,
    /// It is to be written, and is an input of the same command.
    IsInput,
}

/// The sentence on a file that a command could not read or write.
pub fn file_refusal(alloc: Global, name: &str, fault: FileFault) -> Result<Text, NoMemory> {
    let mut told = Text::new(alloc);
    told.say(&[Part::Quoted(name.as_bytes())])?;
    match fault {
        FileFault::Unread => told.put_words(": it could not be opened or read")?,
        FileFault::LongText => {
            told.put_words(": a script and a font have at most 67108864 bytes each")?;
        }
        FileFault::LongStream => {
            told.put_words(": a stream has at most 1099511627776 bytes")?;
        }
        FileFault::Unwritten => told.put_words(
            ": it could not be made, written, flushed to the disk or put in place of what was there",
        )?,
        FileFault::IsInput => {
            told.put_words(": it is an input of the command, and no input is overwritten")?;
        }
    }
    Ok(told)
}
