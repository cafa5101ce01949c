use crate::running::{Wanted, ends_as, reading, sound};
use samples::first_run::*;
use std::alloc::Global;
use std::panic::Expect;
use std::process::Abort;
use std::thread::Threads;
use sub_base::NoMemory;

/// The line of a command that is done with so many bytes behind the last packet.
fn done_line(alloc: Global, cut: usize) -> Result<String, NoMemory> {
    if cut == 0 {
        return Ok(String::from_str(alloc, "done\n")?);
    }
    Ok(format!(in alloc; "done cut {cut}\n")?)
}

/// The first so many bytes of the first run's stream: the command is done with the packets that are
/// whole, of which it puts out these texts.
fn prefix_is_told<R: Threads + Sync + Abort>(
    rt: &R,
    alloc: Global,
    line: &str,
    prefix: &[u8],
    texts: [&str; 2],
) {
    let [none, first] = texts;
    let note = done_line(alloc, prefix.len() % 188).expect(rt, "memory");
    let text = if prefix.len() < 188 { none } else { first };
    let wanted = Wanted {
        code: 0,
        note: note.as_str(),
        out: text.as_bytes(),
    };
    ends_as(rt, alloc, &reading(line, prefix), sound(100_000), wanted)
}

fn prefixes_are_told<R: Threads + Sync + Abort>(
    rt: &R,
    alloc: Global,
    line: &str,
    texts: [&str; 2],
) {
    let stream = stream(alloc).expect(rt, "memory");
    for size in 0..stream.len() {
        let prefix = stream.as_slice().get(..size).unwrap_or(&[]);
        prefix_is_told(rt, alloc, line, prefix, texts);
    }
}

#[test]
fn prefixes_of_a_stream_are_listed(rt: HostRuntime) {
    prefixes_are_told(&rt, rt.alloc(), LIST, ["", FIRST_LINES])
}

/// From the first packet on the picture is there, and it stays: the second set is not.
#[test]
fn prefixes_of_a_stream_are_shown(rt: HostRuntime) {
    let line = "dump sd 256 1 2 in.ts out.txt 90000";
    prefixes_are_told(&rt, rt.alloc(), line, ["picture 90000 clear\n", PICTURE])
}

#[test]
fn prefixes_of_a_stream_are_checked(rt: HostRuntime) {
    prefixes_are_told(
        &rt,
        rt.alloc(),
        CHECK,
        ["peak 0\nbreach none\n", FIRST_CHECKED],
    )
}
