use crate::running::{Wanted, done, ends_as, reading, run, sound};
use crate::same::same;
use samples::first_run::{CLEAR_PICTURES, COMPILE, EXPECT, SCRIPT};
use std::alloc::Global;
use std::panic::Expect;
use std::process::Abort;
use std::thread::Threads;

/// The first run's script in pieces. Where it ends with any character of a piece it is answered
/// with this line; where the line is empty it is valid, and compiled to so many bytes.
const PIECES: [(&str, &str, usize); 29] = [
    ("origi", "script 1 Unknown\n", 0),
    ("n", "script 1 Count\n", 0),
    (",", "script 1 Number\n", 0),
    ("0\n", "script 2 Order\n", 0),
    ("displa", "script 2 Unknown\n", 0),
    ("y,4", "script 2 Count\n", 0),
    (",", "script 2 Number\n", 0),
    ("2\n", "script 3 Order\n", 0),
    ("refres", "script 3 Unknown\n", 0),
    ("h", "script 3 Count\n", 0),
    (",", "script 3 Number\n", 0),
    ("5\n", "script 4 Order\n", 0),
    ("epoc", "script 4 Unknown\n", 0),
    ("h", "script 4 Count\n", 0),
    (",", "script 4 Number\n", 0),
    // An epoch at 9 has a set of 42 bytes, which is done at 42.
    ("9", "schedule Late 4 42 9\n", 0),
    ("0000\n", "", 188),
    ("regio", "script 5 Unknown\n", 0),
    ("n,0,0,0,4,2,8", "script 5 Count\n", 0),
    (",", "script 5 Number\n", 0),
    ("0\n", "", 188),
    ("pictur", "script 6 Unknown\n", 0),
    // Too few cells, and then too few codes.
    ("e,a,8,4,2,010202020303030", "script 6 Count\n", 0),
    ("3\n", "", 188),
    ("plac", "script 7 Unknown\n", 0),
    ("e,90000,180000,0,0,0,soli", "script 7 Count\n", 0),
    ("d", "script 7 Count\n", 0),
    (",", "script 7 NoPicture\n", 0),
    ("a", "", 376),
];

/// A script that ends so, by its line and its size.
fn is_compiled<R: Threads + Sync + Abort>(
    rt: &R,
    alloc: Global,
    script: &str,
    line: &str,
    size: usize,
) {
    let ended = run(
        rt,
        alloc,
        &reading(COMPILE, script.as_bytes()),
        sound(1_000),
    );
    let (code, note) = if line.is_empty() {
        (0, "done\n")
    } else {
        (3, line)
    };
    same(rt, ended.notes.written(), note.as_bytes());
    same(rt, ended.code, code);
    same(rt, ended.out.written().len(), size);
}

/// The same script, shown: without its last record there are no cues.
fn is_shown<R: Threads + Sync + Abort>(rt: &R, alloc: Global, script: &str, line: &str) {
    let asked = reading(EXPECT, script.as_bytes());
    let wanted = if line.starts_with("script") {
        Wanted {
            code: 3,
            note: line,
            out: &[],
        }
    } else {
        done(CLEAR_PICTURES.as_bytes())
    };
    ends_as(rt, alloc, &asked, sound(1_000), wanted)
}

#[test]
fn prefixes_of_a_script_are_compiled(rt: HostRuntime) {
    let alloc = rt.alloc();
    let mut script = String::new(alloc);
    is_compiled(&rt, alloc, "", "script 1 Order\n", 0);
    for (piece, line, size) in PIECES {
        for character in piece.chars() {
            script.push(character).expect(&rt, "memory");
            is_compiled(&rt, alloc, script.as_str(), line, size);
        }
    }
    script.push_str("\n").expect(&rt, "memory");
    same(&rt, script.as_str(), SCRIPT);
}

#[test]
fn prefixes_of_a_script_are_shown(rt: HostRuntime) {
    let alloc = rt.alloc();
    let mut script = String::new(alloc);
    is_shown(&rt, alloc, "", "script 1 Order\n");
    for (piece, line, size) in PIECES {
        if size < 376 {
            for character in piece.chars() {
                script.push(character).expect(&rt, "memory");
                is_shown(&rt, alloc, script.as_str(), line);
            }
        }
    }
    script.push_str("a\n").expect(&rt, "memory");
    same(&rt, script.as_str(), SCRIPT);
}
