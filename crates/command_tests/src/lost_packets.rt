//! A compiled script of which packets are lost: from the next whole page on the pictures are the
//! authored ones.

use crate::compiled_scripts::{COMPILE, run};
use crate::compiled_sets::{seventeen_cues, start_of};
use crate::same::same;
use crate::shown_pictures::run_over;
use std::alloc::Global;
use std::panic::Expect;
use std::process::Abort;
use std::thread::Threads;
use sub_base::{NoGate, NoMemory};

/// The sets of seventeen cues, one after another: one for each cue's start, and one for the end of
/// the last. Each is one packet.
const SETS: usize = 18;

/// The packets of a stream without its null packets.
fn sent_packets(alloc: Global, stream: &[u8]) -> Result<Vec<u8>, NoMemory> {
    let mut sent = Vec::new(alloc);
    let (packets, _) = stream.as_chunks::<188>();
    for packet in packets {
        if packet[1] != 0x1F {
            sent.extend_from_slice(packet)?;
        }
    }
    Ok(sent)
}

/// Whether the authored picture is shown from a set on up to the next one, where the packets from
/// one number on and before another are lost: the set is before the loss, or the whole page at each
/// fifth cue that is the last up to the set is behind the loss.
fn is_good(set: usize, first: usize, behind: usize) -> bool {
    let page = if set < 15 { set - set % 5 } else { 15 };
    set < first || behind <= page
}

/// The authored picture of a set as text.
fn picture_text(alloc: Global, set: usize) -> Result<String, NoMemory> {
    let tick = start_of(set as u64);
    Ok(if set < 17 {
        format!(in alloc; "picture {tick} 4 2\n1*51F05AC0 3*912236C0\n4*D29210C0\n")?
    } else {
        format!(in alloc; "picture {tick} clear\n")?
    })
}

/// What `dump` shows of the packets but the lost ones, at the good ticks.
fn are_shown_again<R: Threads + Sync + Abort>(
    rt: &R,
    alloc: Global,
    packets: &[u8],
    first: usize,
    behind: usize,
) {
    let mut line = String::from_str(alloc, "dump sd 256 1 1 in.ts out.txt").expect(rt, "memory");
    let mut text = String::new(alloc);
    for set in 0..SETS {
        if is_good(set, first, behind) {
            let word = format!(in alloc; " {}", start_of(set as u64)).expect(rt, "memory");
            line.push_str(&word).expect(rt, "memory");
            let picture = picture_text(alloc, set).expect(rt, "memory");
            text.push_str(&picture).expect(rt, "memory");
        }
    }
    if text.is_empty() {
        return;
    }
    let (packets, _) = packets.as_chunks::<188>();
    let mut stream = Vec::new(alloc);
    for (number, packet) in packets.iter().enumerate() {
        if number < first || behind <= number {
            stream.extend_from_slice(packet).expect(rt, "memory");
        }
    }
    let told = run_over(
        rt,
        alloc,
        line.as_str(),
        stream.as_slice(),
        65_536,
        [0, 0],
        &NoGate,
    );
    assert_eq!(rt;
        told.out.written(),
        text.as_bytes(),
        "from {first} to {behind}"
    );
}

/// Packets in a row are lost from each place on, and each number of them from one to fourteen.
#[test]
fn one_to_fourteen_packets_are_lost(rt: HostRuntime) {
    let alloc = rt.alloc();
    let script = seventeen_cues(alloc).expect(&rt, "memory");
    let compiled = run(&rt, alloc, COMPILE, script.as_str(), "");
    let packets = sent_packets(alloc, compiled.out.written()).expect(&rt, "memory");
    assert_eq!(rt; packets.len(), 188 * SETS);
    for first in 0..SETS {
        let lost = 1 + first * 5 % 14;
        are_shown_again(&rt, alloc, packets.as_slice(), first, first + lost);
    }
}

/// Nothing is lost, and what is shown is what is authored.
#[test]
fn nothing_is_lost(rt: HostRuntime) {
    let alloc = rt.alloc();
    let script = seventeen_cues(alloc).expect(&rt, "memory");
    let compiled = run(&rt, alloc, COMPILE, script.as_str(), "");
    are_shown_again(&rt, alloc, compiled.out.written(), 0, 0);
    let mut line = String::from_str(alloc, "expect script.csv none out.txt").expect(&rt, "memory");
    let mut text = String::new(alloc);
    for set in 0..SETS {
        let word = format!(in alloc; " {}", start_of(set as u64)).expect(&rt, "memory");
        line.push_str(&word).expect(&rt, "memory");
        let picture = picture_text(alloc, set).expect(&rt, "memory");
        text.push_str(&picture).expect(&rt, "memory");
    }
    let shown = run(&rt, alloc, line.as_str(), script.as_str(), "");
    same(&rt, shown.out.written(), text.as_bytes());
}
