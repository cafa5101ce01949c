use crate::running::{reading, run, sound};
use crate::same::same;
use samples::first_run::{CHECK, DUMP, LIST, stream};
use std::alloc::Global;
use std::panic::Expect;
use std::process::Abort;
use std::thread::Threads;
use sub_base::NoMemory;

/// What the text of a command looks like.
#[derive(Clone, Copy)]
struct Looks<'a> {
    /// With which words its lines begin.
    words: &'a [&'a str],
    /// With which word the lines begin that stand in each whole output, and how many there are.
    last: &'a str,
    count: usize,
}

const LISTED: Looks<'static> = Looks {
    words: &[
        "unit ", "segment ", "fault ", "pes ", "gap ", "error ", "short ", "long ",
    ],
    last: "none",
    count: 0,
};

const SHOWN: Looks<'static> = Looks {
    words: &["picture ", "1", "2", "3", "4", "5", "6", "7", "8", "9"],
    last: "picture ",
    count: 2,
};

const CHECKED: Looks<'static> = Looks {
    words: &["set ", "peak ", "breach "],
    last: "breach ",
    count: 1,
};

/// Why the packet is refused, for a receiver of PID 256; none where it is taken.
fn fault_of(packet: &[u8; 188]) -> Option<&'static str> {
    let is_of_pid = packet[1] % 32 == 1 && packet[2] == 0;
    let is_damaged = packet[1] >= 128;
    let most = match packet[3] / 16 % 4 {
        0 => None,
        1 => Some(255),
        2 => Some(183),
        _ => Some(182),
    };
    if packet[0] != 0x47 {
        return Some("NoSync");
    }
    if !is_of_pid || is_damaged {
        return None;
    }
    if packet[3] >= 64 {
        return Some("Scrambled");
    }
    match most {
        None => Some("ReservedControl"),
        Some(most) if packet[4] > most => Some("BadAdaptation"),
        Some(_) => None,
    }
}

/// The line and the code of a command that reads these packets.
fn line_of(alloc: Global, stream: &[u8]) -> Result<(u8, String), NoMemory> {
    let (packets, _) = stream.as_chunks::<188>();
    for (number, packet) in packets.iter().enumerate() {
        if let Some(name) = fault_of(packet) {
            return Ok((4, format!(in alloc; "stream {number} {name}\n")?));
        }
    }
    Ok((0, String::from_str(alloc, "done\n")?))
}

fn begins_with_one(line: &str, words: &[&str]) -> bool {
    for word in words {
        if line.starts_with(*word) {
            return true;
        }
    }
    false
}

/// Whether a text is of whole lines that look so.
fn is_of_lines(text: &str, words: &[&str]) -> bool {
    for line in text.lines() {
        if !begins_with_one(line, words) {
            return false;
        }
    }
    text.is_empty() || text.ends_with("\n")
}

fn count_of(text: &str, word: &str) -> usize {
    let mut count = 0usize;
    for line in text.lines() {
        if line.starts_with(word) {
            count = count.saturating_add(1);
        }
    }
    count
}

/// The command is done, or refuses the first packet that cannot be taken; its text is whole, or
/// ends behind a whole part.
fn is_answered<R: Threads + Sync + Abort>(
    rt: &R,
    alloc: Global,
    line: &str,
    looks: Looks<'_>,
    stream: &[u8],
) {
    let (code, note) = line_of(alloc, stream).expect(rt, "memory");
    let ended = run(rt, alloc, &reading(line, stream), sound(100_000));
    same(rt, ended.notes.written(), note.as_bytes());
    same(rt, ended.code, code);
    let text = match std::str::from_utf8(ended.out.written()) {
        Ok(text) => text,
        Err(_) => "no text",
    };
    assert!(rt; is_of_lines(text, looks.words));
    if code == 0 {
        same(rt, count_of(text, looks.last), looks.count);
    }
}

/// The bytes with another one at a place.
fn changed(alloc: Global, bytes: &[u8], place: usize, value: u8) -> Result<Vec<u8>, NoMemory> {
    let mut copy = Vec::from_slice(alloc, bytes)?;
    if let Some(byte) = copy.as_mut_slice().get_mut(place) {
        *byte = value;
    }
    Ok(copy)
}

/// Each byte of the first run's stream is set to 0, to FF and to its complement.
fn changes_are_answered<R: Threads + Sync + Abort>(
    rt: &R,
    alloc: Global,
    line: &str,
    looks: Looks<'_>,
) {
    let stream = stream(alloc).expect(rt, "memory");
    for (place, byte) in stream.iter().enumerate() {
        for value in [0x00, 0xFF, 0xFF - *byte] {
            let other = changed(alloc, stream.as_slice(), place, value).expect(rt, "memory");
            is_answered(rt, alloc, line, looks, other.as_slice());
        }
    }
}

#[test]
fn streams_with_another_byte_are_listed(rt: HostRuntime) {
    changes_are_answered(&rt, rt.alloc(), LIST, LISTED)
}

#[test]
fn streams_with_another_byte_are_shown(rt: HostRuntime) {
    changes_are_answered(&rt, rt.alloc(), DUMP, SHOWN)
}

#[test]
fn streams_with_another_byte_are_checked(rt: HostRuntime) {
    changes_are_answered(&rt, rt.alloc(), CHECK, CHECKED)
}
