ghost use Rattle.std.specs.Prelude.{◌≡◌, ◌||◌, option_copied};
ghost use Rattle.program_files.specs.Identity.{has_numbers as is_file_of, is_same_name as is_name_of, name_without};

use std::fs::{File, Metadata};
use std::os::unix::fs::MetadataExt;

/// What the system knows a file by, whatever its names are.
#[derive(Clone, Copy, Debug, PartialEq, Eq)]
pub struct FileNumbers {
    /// The number of the device that it lies on.
    pub device: u64,
    /// Its number on that device.
    pub inode: u64,
}

/// The file of that name, where it can be opened.
pub fn opened(rt: &HostRuntime, name: Option<&str>) -> Option<File> {
    File::open(rt, name?).ok()
}

/// The numbers of a file that was opened.
pub fn numbers_of(file: &Option<File>) -> Option<FileNumbers> {
    match file {
        Some(file) => file.metadata().ok().map(|there| numbers_in(&there)),
        None => None,
    }
}

pub(crate) fn numbers_in(there: &Metadata) -> FileNumbers {
    FileNumbers {
        device: there.dev(),
        inode: there.ino(),
    }
}

/// Whether the file of these numbers is one of the two inputs.
pub fn is_input(
    numbers: FileNumbers,
    first: Option<FileNumbers>,
    second: Option<FileNumbers>,
) -> bool
    ensures { result ≡ (is_file_of numbers first || is_file_of numbers second) }
{
    has_numbers(numbers, first) || has_numbers(numbers, second)
}

/// Whether that file is there and has these numbers.
pub(crate) fn has_numbers(numbers: FileNumbers, file: Option<FileNumbers>) -> bool
    ensures { result ≡ is_file_of numbers file }
{
    match file {
        Some(file) => numbers.device == file.device && numbers.inode == file.inode,
        None => false,
    }
}

/// The name of the output's file. There is none where an input has it, so that no input is
/// overwritten.
pub fn output_name<'a>(
    name: Option<&'a str>,
    first: Option<&str>,
    second: Option<&str>,
) -> Option<&'a str>
    ensures { option_copied result ≡ name_without
        (option_copied first.entry) (option_copied second.entry) (option_copied name.entry) }
{
    let name = name?;
    if is_name(name, first) || is_name(name, second) {
        None
    } else {
        Some(name)
    }
}

fn is_name(name: &str, other: Option<&str>) -> bool
    ensures { result ≡ is_name_of name.now (option_copied other.entry) }
{
    match other {
        Some(other) => name == other,
        None => false,
    }
}
