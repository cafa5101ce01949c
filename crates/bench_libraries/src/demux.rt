//! How fast packets are fed: the units of PID 256 in a stream, counted on standard output, and the
//! time on standard error. The stream is the file that is named behind the benchmark's name, or
//! else a short one made here, in which one packet in eight is of the PID.

use anyhow::Result;
use std::alloc::Global;
use std::time::Instant;
use std::{env, fs};
use ts_packets::{Demux, Event, Packetiser, null_packet};

/// The packets of the stream that is made here.
const PACKETS: u32 = 4_000;

const PID: u16 = 256;

/// What came out of a stream.
#[derive(Clone, Copy)]
struct Outcome {
    units: u64,
    bytes: u64,
    losses: u64,
}

/// Feeds the stream once.
pub fn run(rt: &HostRuntime) -> Result<()> {
    let fed = feed_stream(rt)?;
    println!(rt;
        "packets {} units {} bytes {} losses {}",
        fed.packets, fed.outcome.units, fed.outcome.bytes, fed.outcome.losses
    )?;
    eprintln!(rt; "seconds {}", fed.seconds)?;
    Ok(())
}

/// How many packets were fed, what came out of them, and how long that took.
#[derive(Clone, Copy)]
struct Fed {
    packets: usize,
    outcome: Outcome,
    seconds: f64,
}

/// Feeds the packets of the stream.
fn feed_stream(rt: &HostRuntime) -> Result<Fed> {
    let stream = match env::args(rt)?.nth(2) {
        Some(path) => fs::read(rt, path.as_str())?,
        None => made_stream(rt.alloc())?,
    };
    let (packets, _) = stream.as_chunks::<188>();
    let start = Instant::now(rt)?;
    let outcome = feed_all(rt.alloc(), packets)?;
    let seconds = start.elapsed(rt)?.as_secs_f64();
    Ok(Fed {
        packets: packets.len(),
        outcome,
        seconds,
    })
}

/// Feeds the packets one by one.
fn feed_all(alloc: Global, packets: &[[u8; 188]]) -> Result<Outcome> {
    let mut demux = Demux::make(alloc, PID, 24_576)?;
    let mut outcome = Outcome {
        units: 0,
        bytes: 0,
        losses: 0,
    };
    for packet in packets {
        let fed = demux.feed(packet)?;
        if matches!(
            fed.event,
            Event::Gap { .. } | Event::ErrorFlag | Event::Short { .. } | Event::TooLong { .. }
        ) {
            outcome.losses = outcome.losses.wrapping_add(1);
        }
        if let Some(unit) = fed.unit {
            outcome.units = outcome.units.wrapping_add(1);
            outcome.bytes = outcome.bytes.wrapping_add(unit.len() as u64);
        }
    }
    Ok(outcome)
}

/// A stream of units of one packet each, with seven null packets behind each.
fn made_stream(alloc: Global) -> Result<Vec<u8>> {
    let mut stream = Vec::new(alloc);
    let mut packetiser = Packetiser::make(PID);
    let mut packet = [0; 188];
    let mut unit = [0; 184];
    unit[2] = 1;
    unit[3] = 0xBD;
    unit[5] = 178;
    for place in 0..PACKETS {
        if place % 8 == 0 {
            packetiser.packet(&unit, true, &mut packet);
        } else {
            null_packet(&mut packet);
        }
        stream.extend_from_slice(&packet)?;
    }
    Ok(stream)
}
