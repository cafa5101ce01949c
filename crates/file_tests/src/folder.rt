//! Folders of a test's own. What the system refuses ends the test.

use std::fs;
use std::os::unix::fs::symlink;
use std::panic::Expect;
use std::process::Abort;
use std::time::Clock;

/// A folder that no other test has.
#[derive(Drop)]
pub(crate) struct Folder<'a, R: Abort> {
    files: &'a HostRuntime,
    rt: &'a R,
    path: String,
}

impl<'a, R: Abort> Folder<'a, R> {
    pub fn make(files: &'a HostRuntime, rt: &'a R, name: &str) -> Folder<'a, R> {
        let time = files.since_1970().expect(rt, "the time");
        let temporary = std::env::temp_dir(files).expect(rt, "the folder of temporary files");
        let path = format!(in files.alloc();
            "{}/file_tests-{name}-{}-{}",
            temporary.as_str(),
            time.as_secs(),
            time.subsec_nanos()
        )
        .expect(rt, "memory");
        fs::create_dir(files, path.as_str()).expect(rt, "a new folder");
        Folder { files, rt, path }
    }

    pub fn path(&self) -> &str {
        self.path.as_str()
    }

    /// The path of what has that name in it.
    pub fn path_of(&self, name: &str) -> String {
        format!(in self.files.alloc(); "{}/{name}", self.path()).expect(self.rt, "memory")
    }

    pub fn write(&self, name: &str, bytes: &[u8]) {
        let path = self.path_of(name);
        fs::write(self.files, path.as_str(), bytes).expect(self.rt, "a new file");
    }

    pub fn text_of(&self, name: &str) -> String {
        let path = self.path_of(name);
        fs::read_to_string(self.files, path.as_str()).expect(self.rt, "a file")
    }

    /// Makes a symbolic link with that name, and gives its path.
    pub fn link(&self, name: &str, target: &str) -> String {
        let path = self.path_of(name);
        symlink(self.files, target, path.as_str()).expect(self.rt, "a new link");
        path
    }

    /// Removes the folder with all that is in it.
    pub fn remove(self) {
        fs::remove_dir_all(self.files, self.path()).expect(self.rt, "the folder");
    }
}
