ghost use Rattle.std.specs.Io.{WritesAtMost};

use crate::identity::{has_numbers, numbers_in};
use crate::names::{behind_link, new_path};
use std::fs::{self, File, Metadata, OpenOptions};
use std::io::{self, ErrorKind, Write};
use std::os::unix::fs::{MetadataExt, OpenOptionsExt, chown};
use std::path::{Path, PathBuf};
use std::time::Clock;

/// How many links one after the other are followed, as Linux does.
const MOST_LINKS: u32 = 40;

/// How many names of new files are tried.
const MOST_NAMES: u64 = 1_000;

/// A new file that is to take the place of another one, or of none.
#[derive(Drop)]
pub(crate) struct NewFile {
    file: File,
    path: PathBuf,
    target: PathBuf,
}

impl NewFile {
    /// A new file beside the one of that name, behind all links, with its permissions where it is
    /// there.
    pub(crate) fn make(rt: &HostRuntime, name: &str) -> io::Result<NewFile> {
        let target = followed(rt, name)?;
        let there = replaceable(rt, target.as_str())?;
        if !is_same(&there, &replaceable(rt, name)?) {
            // The links lead elsewhere by now, or through a file that has no name any more.
            return Err(io::Error::from(ErrorKind::NotFound));
        }
        let (path, file) = created(rt, target.as_str(), &there)?;
        let new = NewFile { file, path, target };
        match new.take_over(rt, there) {
            Ok(()) => Ok(new),
            Err(error) => {
                new.remove(rt);
                Err(error)
            }
        }
    }

    pub(crate) fn write(&mut self, piece: &[u8]) -> io::Result<usize>
        ensures bound { WritesAtMost result piece.now }
    {
        self.file.write(piece)
    }

    /// Flushes the new file to the disk, and lets it take the place of the other one.
    pub(crate) fn put_in_place(self, rt: &HostRuntime) -> io::Result<()> {
        match self.flush_and_rename(rt) {
            Ok(()) => Ok(()),
            Err(error) => {
                self.remove(rt);
                Err(error)
            }
        }
    }

    pub(crate) fn remove(self, rt: &HostRuntime) {
        // What cannot be removed stays: the command tells another fault, or none.
        let _ = fs::remove_file(rt, self.path.as_str());
    }

    fn flush_and_rename(&self, rt: &HostRuntime) -> io::Result<()> {
        self.file.sync_all()?;
        fs::rename(rt, self.path.as_str(), self.target.as_str())?;
        flush_folder(rt, self.target.as_str());
        Ok(())
    }

    /// Takes over the permissions of the file that is there, and its owner where that may be.
    fn take_over(&self, rt: &HostRuntime, there: Option<Metadata>) -> io::Result<()> {
        let Some(there) = there else {
            return Ok(());
        };
        let owner = self.file.metadata()?;
        if owner.uid() != there.uid() || owner.gid() != there.gid() {
            let _ = chown(rt, self.path.as_str(), Some(there.uid()), Some(there.gid()));
        }
        self.file.set_permissions(there.permissions())
    }
}

/// The path behind all symbolic links that stand at the end of the name.
fn followed(rt: &HostRuntime, name: &str) -> io::Result<PathBuf> {
    let mut path = PathBuf::from_str(rt.alloc(), name)?;
    for _ in 0..MOST_LINKS {
        if !is_link(rt, path.as_str())? {
            return Ok(path);
        }
        let link = fs::read_link(rt, path.as_str())?;
        path = behind_link(rt.alloc(), path.as_str(), link.as_str())?;
    }
    Err(io::Error::from(ErrorKind::InvalidInput))
}

fn is_link(rt: &HostRuntime, path: &str) -> io::Result<bool> {
    match fs::symlink_metadata(rt, path) {
        Ok(there) => Ok(there.is_symlink()),
        Err(error) if error.kind() == ErrorKind::NotFound => Ok(false),
        Err(error) => Err(error),
    }
}

/// What is known of the file at that path, if there is one. It has to be a regular file that may be
/// written: a new file beside it could take its place though it may not.
fn replaceable(rt: &HostRuntime, path: &str) -> io::Result<Option<Metadata>> {
    let there = match fs::metadata(rt, path) {
        Ok(there) => there,
        Err(error) if error.kind() == ErrorKind::NotFound => return Ok(None),
        Err(error) => return Err(error),
    };
    if !there.is_file() {
        return Err(io::Error::from(ErrorKind::InvalidInput));
    }
    OpenOptions::new().write(true).open(rt, path)?;
    Ok(Some(there))
}

fn is_same(one: &Option<Metadata>, other: &Option<Metadata>) -> bool {
    match (one, other) {
        (Some(one), Some(other)) => has_numbers(numbers_in(one), Some(numbers_in(other))),
        (None, None) => true,
        _ => false,
    }
}

/// A file that was not there before: the system makes it for one run alone. The first name that is
/// tried comes from the clock.
fn created(
    rt: &HostRuntime,
    target: &str,
    there: &Option<Metadata>,
) -> io::Result<(PathBuf, File)> {
    let mut options = OpenOptions::new();
    options.write(true).create_new(true);
    if let Some(there) = there {
        // At no time may more be allowed than the file that is there allows.
        options.mode(there.mode() % 0o1000);
    }
    let first = moment(rt);
    for tried in 0..MOST_NAMES {
        let path = new_path(rt.alloc(), target, first.wrapping_add(tried))?;
        match options.open(rt, path.as_str()) {
            Ok(file) => return Ok((path, file)),
            Err(error) if error.kind() == ErrorKind::AlreadyExists => {}
            Err(error) => return Err(error),
        }
    }
    Err(io::Error::from(ErrorKind::AlreadyExists))
}

/// A number that differs from run to run, mostly: nanoseconds of the clock.
fn moment(rt: &HostRuntime) -> u64 {
    match rt.since_1970() {
        Ok(time) => time
            .as_secs()
            .wrapping_mul(1_000_000_000)
            .wrapping_add(u64::from(time.subsec_nanos())),
        Err(_) => 0,
    }
}

/// Flushes the folder of that path, so that the new name is on the disk as well. What cannot be
/// flushed is renamed all the same.
fn flush_folder(rt: &HostRuntime, path: &str) {
    let folder = match Path::new(path).parent() {
        Some(folder) if !folder.as_str().is_empty() => folder.as_str(),
        _ => ".",
    };
    if let Ok(folder) = File::open(rt, folder) {
        let _ = folder.sync_all();
    }
}
