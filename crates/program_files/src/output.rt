ghost use Rattle.std.specs.Prelude.{◌≡◌, ◌||◌, ◌↔◌, None, true, false, is_ok, nat_lt, IsErr, IsTrue, IfOk, IfSome};
ghost use Rattle.std.specs.Io.{WritesAtMost};
ghost use Rattle.program_files.specs.Identity.{has_numbers as is_file_of};
ghost use Rattle.program_files.specs.declared.output.Place.TheVariants.{Nowhere, StandardOutput};

use crate::identity::{FileNumbers, has_numbers, is_input, numbers_in};
use crate::new_file::NewFile;
use std::fs::{self, File};
use std::io::{self, ErrorKind, Write};

/// The file of a command's output. It is made only as the first bytes are written or as the command
/// has ended, so that a command that is refused touches nothing.
///
/// Where the output is missing or a regular file, what is written goes to a new file beside it,
/// which is flushed and renamed at the end: whatever ends the program before, what was there stays
/// whole. A pipe, a device and standard output are written as it comes.
#[derive(Drop)]
pub struct Output<'a> {
    rt: &'a HostRuntime,
    place: Place<'a>,
    opened: Option<Opened>,
    has_written: bool,
    // Whether `finish` put what was written in its place: what is said of a status depends on it.
    is_finished: bool,
}

/// Where an output goes.
#[derive(Clone, Copy)]
enum Place<'a> {
    /// Nowhere: it is an input, or has no name.
    Nowhere,
    /// To standard output.
    StandardOutput,
    /// Straight to what has that name.
    Straight(&'a str),
    /// To a new file beside what has that name.
    Beside(&'a str),
}

#[derive(Drop)]
enum Opened {
    Straight(File),
    Beside(NewFile),
}

impl<'a> Output<'a> {
    /// An output that takes the place of what was there when its command has ended. Every write
    /// fails where it is one of the two inputs, under whatever name.
    pub fn whole(
        rt: &'a HostRuntime,
        name: Option<&'a str>,
        first: Option<FileNumbers>,
        second: Option<FileNumbers>,
    ) -> Output<'a> {
        let place = match place_of(rt, name, first, second) {
            Place::Straight(name) if may_be_replaced(rt, name) => Place::Beside(name),
            place => place,
        };
        Output::at(rt, place)
    }

    /// An output that is written as it comes, for a program whose reader waits for it. Every write
    /// fails where it is one of the two inputs, under whatever name.
    pub fn as_it_comes(
        rt: &'a HostRuntime,
        name: Option<&'a str>,
        first: Option<FileNumbers>,
        second: Option<FileNumbers>,
    ) -> Output<'a> {
        Output::at(rt, place_of(rt, name, first, second))
    }

    fn at(rt: &'a HostRuntime, place: Place<'a>) -> Output<'a> {
        Output {
            rt,
            place,
            opened: None,
            has_written: false,
            is_finished: false,
        }
    }

    /// Whether standard output itself has the output: then it can have no line besides.
    pub fn is_standard_output(&self) -> bool
        ensures { IsTrue result ↔ (self.now.place ≡ StandardOutput) }
    {
        matches!(self.place, Place::StandardOutput)
    }

    /// Whether it has nowhere to go: it is an input, or has no name.
    pub fn is_refused(&self) -> bool
        ensures { IsTrue result ↔ (self.now.place ≡ Nowhere) }
    {
        matches!(self.place, Place::Nowhere)
    }

    /// Whether something was written.
    pub fn has_written(&self) -> bool
        ensures { result ≡ self.now.has_written }
    {
        self.has_written
    }

    /// The output is to be kept, even where nothing was written: it takes the place of what was
    /// there.
    pub fn finish(&mut self) -> io::Result<()>
        ensures { self.new.is_finished ≡ is_ok result }
    {
        let finished = self.put_in_place();
        self.is_finished = finished.is_ok();
        finished
    }

    fn put_in_place(&mut self) -> io::Result<()> {
        self.make()?;
        match self.opened.take() {
            Some(Opened::Beside(new)) => new.put_in_place(self.rt),
            _ => Ok(()),
        }
    }

    /// The output is not to be kept: what was there stays as it was.
    pub fn abandon(&mut self)
        ensures unfinished { self.new.is_finished ≡ self.old.is_finished }
    {
        if let Some(Opened::Beside(new)) = self.opened.take() {
            new.remove(self.rt);
        }
    }

    /// Writes to what was opened, and where nothing was to standard output.
    fn put(&mut self, piece: &[u8]) -> io::Result<usize>
        ensures bound { WritesAtMost result piece.now }
        ensures written { self.new.has_written ≡ self.old.has_written }
    {
        match &mut self.opened {
            Some(Opened::Straight(file)) => file.write(piece),
            Some(Opened::Beside(new)) => new.write(piece),
            None => io::writer(self.rt).write(piece),
        }
    }

    /// Opens what is written to, where that was not done.
    fn make(&mut self) -> io::Result<()>
        ensures nowhere { self.old.place ≡ Nowhere → self.old.opened ≡ None → IsErr result }
        ensures written { self.new.has_written ≡ self.old.has_written }
    {
        if self.opened.is_some() {
            return Ok(());
        }
        match self.place {
            Place::Nowhere => return Err(io::Error::from(ErrorKind::NotFound)),
            Place::StandardOutput => {}
            Place::Straight(name) => {
                self.opened = Some(Opened::Straight(File::create(self.rt, name)?));
            }
            Place::Beside(name) => {
                self.opened = Some(Opened::Beside(NewFile::make(self.rt, name)?));
            }
        }
        Ok(())
    }

    /// Writes to what is open or is opened for it, and notes that something was written.
    fn write_on(&mut self, piece: &[u8]) -> io::Result<usize>
        ensures bound { WritesAtMost result piece.now }
        ensures nowhere { self.old.place ≡ Nowhere → self.old.opened ≡ None → IsErr result }
        ensures noted { IfOk result
            (λ count. self.new.has_written ≡ (self.old.has_written || nat_lt 0 count)) }
    {
        self.make()?;
        let count = self.put(piece)?;
        self.has_written = self.has_written || count > 0;
        Ok(count)
    }
}

impl Write for Output<'_> {
    fn write(&mut self, piece: &[u8]) -> io::Result<usize> {
        self.write_on(piece)
    }

    fn flush(&mut self) -> io::Result<()> {
        Ok(())
    }
}

/// Where the output of that name goes, as it comes.
fn place_of<'a>(
    rt: &HostRuntime,
    name: Option<&'a str>,
    first: Option<FileNumbers>,
    second: Option<FileNumbers>,
) -> Place<'a> {
    let Some(name) = name else {
        return Place::Nowhere;
    };
    let standard = numbers_at(rt, STANDARD_OUTPUT);
    place_by(name, numbers_at(rt, name), standard, first, second)
}

/// The same, by the numbers of what has that name, of standard output and of the inputs.
fn place_by<'a>(
    name: &'a str,
    numbers: Option<FileNumbers>,
    standard: Option<FileNumbers>,
    first: Option<FileNumbers>,
    second: Option<FileNumbers>,
) -> Place<'a>
    // No input is written to, whatever it is called.
    ensures input { IfSome numbers (λ there.
        (is_file_of there first || is_file_of there second) ≡ true → result ≡ Nowhere) }
    ensures standard { IfSome numbers (λ there.
        (is_file_of there first || is_file_of there second) ≡ false
        → is_file_of there standard ≡ true → result ≡ StandardOutput) }
{
    match numbers {
        Some(there) if is_input(there, first, second) => Place::Nowhere,
        Some(there) if has_numbers(there, standard) => Place::StandardOutput,
        _ => Place::Straight(name),
    }
}

/// The name under which the system shows standard output.
const STANDARD_OUTPUT: &str = "/dev/stdout";

fn numbers_at(rt: &HostRuntime, name: &str) -> Option<FileNumbers> {
    fs::metadata(rt, name).ok().map(|there| numbers_in(&there))
}

/// Whether the file of that name is missing or a regular one.
fn may_be_replaced(rt: &HostRuntime, name: &str) -> bool {
    match fs::metadata(rt, name) {
        Ok(there) => there.is_file(),
        Err(_) => true,
    }
}
