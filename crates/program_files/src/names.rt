ghost use Rattle.std.specs.Prelude.{◌≡◌, IfOk, string_bytes};
ghost use Rattle.std.specs.Path.{path_buf_bytes};
ghost use Rattle.program_files.specs.Names.{behind_link as path_behind_link, new_path as new_path_of, part_name as part_name_of};

use itoa::Buffer;
use std::alloc::{AllocError, Global};
use std::path::{Path, PathBuf};

/// The path of a new file beside another one: in the same folder, so that it can be renamed to it.
pub(crate) fn new_path(alloc: Global, path: &str, number: u64) -> Result<PathBuf, AllocError>
    ensures { IfOk result (λ new. path_buf_bytes new ≡ new_path_of path.now number) }
{
    let name = part_name(alloc, number)?;
    Path::new(path).with_file_name(alloc, name.as_str())
}

/// The name of a new file of that number. It is short whatever the output is called, so that it
/// fits where the output's name does, and begins with a dot, so that it is not listed.
fn part_name(alloc: Global, number: u64) -> Result<String, AllocError>
    ensures { IfOk result (λ name. string_bytes name ≡ part_name_of number) }
{
    let mut digits = Buffer::new();
    let mut name = String::from_str(alloc, ".dvbsub-")?;
    name.push_str(digits.format(number))?;
    name.push_str(".part")?;
    Ok(name)
}

/// The path that a symbolic link at that path leads to.
pub(crate) fn behind_link(alloc: Global, path: &str, link: &str) -> Result<PathBuf, AllocError>
    ensures { IfOk result
        (λ behind. path_buf_bytes behind ≡ path_behind_link path.now link.now) }
{
    let folder = match Path::new(path).parent() {
        Some(folder) => folder,
        None => Path::new(""),
    };
    folder.join(alloc, link)
}
