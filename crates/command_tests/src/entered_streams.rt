use crate::compiled_scripts::{FORTY_SECONDS, TWO_EPOCHS, run};
use dvbsub_cmd::top;
use itoa::Buffer;
use samples::words_of;
use std::alloc::Global;
use std::panic::Expect;
use std::process::Abort;
use std::thread::Threads;
use sub_base::{MemSink, MemSource, NoGate};

/// The ticks of 90 kHz from packet to packet in the profile `sd`.
const STEP: u64 = 705;

/// What `check` writes of a stream that begins at that tick.
fn checked<R: Threads + Sync + Abort>(
    rt: &R,
    alloc: Global,
    stream: &[u8],
    origin: u64,
) -> MemSink {
    let mut words = words_of(alloc, "check sd").expect(rt, "memory");
    words
        .push(Buffer::new().format(origin))
        .expect(rt, "memory");
    for word in ["256", "1", "in.ts", "out.txt"] {
        words.push(word).expect(rt, "memory");
    }
    let bytes = Vec::from_slice(alloc, stream).expect(rt, "memory");
    let mut first = MemSource::make(alloc, bytes, 65_536, Vec::new(alloc));
    let mut second = MemSource::make(alloc, Vec::new(alloc), 1, Vec::new(alloc));
    let mut out = MemSink::make(alloc, 65_536, Vec::new(alloc));
    let mut notes = MemSink::make(alloc, 64, Vec::new(alloc));
    top(
        rt,
        alloc,
        &words,
        &mut first,
        &mut second,
        &mut out,
        &mut notes,
        &NoGate,
    );
    out
}

/// A compiled script has no breach in a receiver that enters behind any number of its first
/// packets, which get their slots all the same. Behind a null packet, and before another one,
/// nothing else is asked than before both.
fn is_without_breach<R: Threads + Sync + Abort>(rt: &R, alloc: Global, script: &str) {
    let compiled = run(rt, alloc, "compile sd 256 1 s.csv none out.ts", script, "");
    let stream = compiled.out.written();
    let (packets, _) = stream.as_chunks::<188>();
    let mut origin = 0u64;
    let mut is_behind = true;
    for (number, packet) in packets.iter().enumerate() {
        let is_sent = packet[1] != 0x1F;
        if is_sent || is_behind {
            let rest = stream.get(number * 188..).unwrap_or(&[]);
            let told = checked(rt, alloc, rest, origin);
            assert!(rt; told.written().ends_with(b"\nbreach none\n"));
        }
        is_behind = is_sent;
        origin = origin.saturating_add(STEP);
    }
}

#[test]
fn two_epochs_entered_at_any_packet(rt: HostRuntime) {
    is_without_breach(&rt, rt.alloc(), TWO_EPOCHS)
}

#[test]
fn forty_seconds_entered_at_any_packet(rt: HostRuntime) {
    is_without_breach(&rt, rt.alloc(), FORTY_SECONDS)
}
