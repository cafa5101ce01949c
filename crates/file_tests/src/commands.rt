use crate::folder::Folder;
use crate::same::same;
use command_files::{carry_out, told};
use dvbsub_cmd::{Status, Which};
use std::alloc::Global;
use std::panic::Expect;
use std::process::Abort;
use std::thread::Threads;
use sub_base::{MemSink, Words};

const SCRIPT: &str = "origin,0\ndisplay,720,576\nrefresh,5\nepoch,90000\nregion,0,0,0,64,32,4,0\n\
                      cue,90000,180000,0,0,0,7,8,A\n";

const FONT: &str = "STARTFONT 2.1\nFONTBOUNDINGBOX 3 4 0 -1\nSTARTCHAR A\nENCODING 65\nDWIDTH 3 0\n\
                    BBX 2 3 0 0\nBITMAP\n40\nC0\n40\nENDCHAR\nENDFONT\n";

/// The code that the program ends with over the words of a line, in which `@` is the folder.
fn code_of_line<T: Threads + Sync + Abort>(
    files: &HostRuntime,
    rt: &T,
    folder: &str,
    line: &str,
) -> u8 {
    let mut words = Words::make(files.alloc());
    for word in line.split(' ') {
        match word.strip_prefix('@') {
            Some(name) => push_path(rt, files.alloc(), folder, name, &mut words),
            None => words.push(word).expect(rt, "memory"),
        }
    }
    carry_out(files, rt, &words)
}

fn push_path<R: Abort>(rt: &R, alloc: Global, folder: &str, name: &str, words: &mut Words) {
    let path = format!(in alloc; "{folder}{name}").expect(rt, "memory");
    words.push(path.as_str()).expect(rt, "memory");
}

/// A folder with a script, its font, and an old output.
fn folder_of<'a, R: Abort>(files: &'a HostRuntime, rt: &'a R, name: &str) -> Folder<'a, R> {
    let folder = Folder::make(files, rt, name);
    for (file, text) in [("s", SCRIPT), ("f", FONT), ("old", "old")] {
        folder.write(file, text.as_bytes());
    }
    folder
}

/// Words, and the code that the program ends with.
#[test]
fn codes_of_commands_that_fail(rt: HostRuntime) {
    let missing = "list 256 no_such_stream.ts no_such_folder/list.txt";
    let no_folder = "list 256 /dev/null no_such_folder/list.txt";
    let overwriting = "list 256 /dev/null /dev/null";
    let long_script = "compile sd 256 1 /dev/zero none no_such_folder/out";
    let cases = [
        ("list 31 a b", 2),
        (missing, 5),
        (no_folder, 6),
        (overwriting, 6),
        (long_script, 8),
    ];
    for (line, code) in cases {
        same(&rt, code_of_line(&rt, &rt, "", line), code);
    }
}

/// A wrong command line brings the table of commands, on standard error and there alone; no other
/// status does.
#[test]
fn the_table_of_commands_is_told(rt: HostRuntime) {
    let alloc = rt.alloc();
    let cases = [
        (
            Status::Usage,
            2,
            "compile PROFILE PID PAGE SCRIPT FONT OUT\nlist PID STREAM OUT\n\
            dump PROFILE PID PAGE BANDS STREAM OUT TICK...\n\
            check PROFILE ORIGIN PID PAGE STREAM OUT\nexpect SCRIPT FONT OUT TICK...\n\
            gen N PROFILE OUT\n",
            "usage\n",
        ),
        (Status::Memory, 7, "", "memory\n"),
        (Status::InputTooLong(Which::First), 8, "", "long first\n"),
    ];
    for (status, code, table, line) in cases {
        let mut errors = MemSink::make(alloc, 1000, Vec::new(alloc));
        let mut out = MemSink::make(alloc, 1000, Vec::new(alloc));
        same(&rt, told(status, &mut errors, &mut out), code);
        same(&rt, errors.written(), table.as_bytes());
        same(&rt, out.written(), line.as_bytes());
    }
}

/// The font is read from the file that is named for it, and from no other.
#[test]
fn the_font_is_its_own_file(rt: HostRuntime) {
    let folder = folder_of(&rt, &rt, "font");
    let cases = [
        ("compile sd 256 1 @/s @/f @/out", 0),
        ("compile sd 256 1 @/s @/none @/out", 5),
        ("compile sd 256 1 @/s /dev/zero @/out", 8),
        ("compile sd 256 1 @/s @/s @/out", 3),
    ];
    for (line, code) in cases {
        same(&rt, code_of_line(&rt, &rt, folder.path(), line), code);
    }
    folder.remove();
}

/// A refused command leaves what was there, and no input is overwritten, under any name.
#[test]
fn nothing_is_overwritten(rt: HostRuntime) {
    let folder = folder_of(&rt, &rt, "kept");
    let cases = [
        ("compile sd 256 1 @/s none @/old", 3),
        ("compile sd 256 1 @/f @/f @/old", 3),
        ("compile sd 256 1 @/s @/none @/old", 5),
        ("list 256 @/missing @/old", 5),
        ("compile sd 256 1 @/s @/f @/s", 6),
        ("compile sd 256 1 @/s @/f @/f", 6),
        ("compile sd 256 1 @/s @/f @/./s", 6),
        ("compile sd 256 1 @/s @/f @/./f", 6),
    ];
    for (line, code) in cases {
        same(&rt, code_of_line(&rt, &rt, folder.path(), line), code);
        same(&rt, folder.text_of("s").as_str(), SCRIPT);
        same(&rt, folder.text_of("f").as_str(), FONT);
        same(&rt, folder.text_of("old").as_str(), "old");
    }
    folder.remove();
}

/// What was told of a stream before the packet at which it is refused takes the place of what was
/// there.
#[test]
fn what_was_told_is_kept(rt: HostRuntime) {
    let folder = folder_of(&rt, &rt, "told");
    folder.write("stream", &[0; 188]);
    let line = "list 256 @/stream @/old";
    same(&rt, code_of_line(&rt, &rt, folder.path(), line), 4);
    same(&rt, folder.text_of("old").as_str(), "");
    folder.remove();
}
