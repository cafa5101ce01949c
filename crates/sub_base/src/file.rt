ghost use Rattle.std.specs.Prelude.{◌≡◌, None, ◌<◌};

use crate::faults::{ReadFailed, WriteFailed};
use crate::transfer::{Sink, Source};
use std::io::{Read, Write};

/// A file or stream as a source. It tells nothing of what is in it.
#[derive(Drop)]
pub struct FileSource<R: Read + Drop> {
    // None where the file could not be opened. The first read says so, in the command's own order
    // of its sources.
    inner: Option<R>,
    given: u64,
    faults: u64,
}

impl<R: Read + Drop> FileSource<R> {
    /// The source over a reader, or, where the file could not be opened, one whose calls fail.
    pub fn make(inner: Option<R>) -> FileSource<R>
        ensures given { result.given ≡ 0 }
        ensures faults { result.faults ≡ 0 }
    {
        FileSource {
            inner,
            given: 0,
            faults: 0,
        }
    }
}

impl<R: Read + Drop> Source for FileSource<R> {
    ghost supplied = { λ s. record { left = None; given = s.given; faults = s.faults } };

    fn read(&mut self, buf: &mut [u8]) -> Result<usize, ReadFailed> {
        let outcome = match &mut self.inner {
            Some(reader) => reader.read(buf).ok(),
            None => None,
        };
        match outcome {
            Some(count) => {
                self.given = self.given.saturating_add(count as u64);
                Ok(count)
            }
            None => {
                self.faults = self.faults.saturating_add(1);
                Err(ReadFailed)
            }
        }
    }
}

/// A file or stream as a sink. It tells nothing of what was written.
#[derive(Drop)]
pub struct FileSink<W: Write + Drop> {
    // None where the file could not be made. The first write says so: a command that is refused
    // before it writes ends as if it could.
    inner: Option<W>,
    faults: u64,
}

impl<W: Write + Drop> FileSink<W> {
    /// The sink over a writer, or, where the file could not be opened, one whose calls fail.
    pub fn make(inner: Option<W>) -> FileSink<W>
        ensures faults { result.faults ≡ 0 }
    {
        FileSink { inner, faults: 0 }
    }
}

impl<W: Write + Drop> Sink for FileSink<W> {
    ghost received = { λ s. record { written = None; faults = s.faults } };

    fn write(&mut self, piece: &[u8]) -> Result<usize, WriteFailed> {
        let outcome = match &mut self.inner {
            Some(writer) => writer.write(piece).ok(),
            None => None,
        };
        match outcome {
            // A writer that takes nothing of a piece has failed: a loop over what is left would not
            // end.
            Some(count) if count > 0 || piece.is_empty() => Ok(count),
            _ => {
                self.faults = self.faults.saturating_add(1);
                Err(WriteFailed)
            }
        }
    }
}
