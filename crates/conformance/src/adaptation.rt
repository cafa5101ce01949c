use crate::running::{Wanted, done, ends_as, reading, sound};
use samples::first_run::{CHECK, LIST};
use samples::streams::{ENCODER_LINES, ENCODER_UNIT, packet_of, piece_packet};
use std::alloc::Global;
use std::panic::Expect;
use std::process::Abort;
use std::thread::Threads;
use sub_base::NoMemory;

/// The encoder's unit behind an adaptation field of that length, with what the packet has no room
/// for in a second one.
fn stream_of(alloc: Global, field: u8) -> Result<Vec<u8>, NoMemory> {
    let room = 183usize.saturating_sub(field as usize);
    let mut payload = [0xFF; 183];
    for (byte, given) in payload.iter_mut().zip(&ENCODER_UNIT) {
        *byte = *given;
    }
    let head = [0x47, 0x41, 0x00, 0x30, field, 0x00];
    let first = packet_of(&head, payload.get(..room).unwrap_or(&[]));
    let mut stream = Vec::from_slice(alloc, &first)?;
    if let Some(rest) = ENCODER_UNIT.get(room..) {
        if !rest.is_empty() {
            stream.extend_from_slice(&piece_packet(false, 1, rest))?;
        }
    }
    Ok(stream)
}

/// The lines of the unit, which ends with the packet of that number.
fn lines_of(alloc: Global, number: usize) -> Result<String, NoMemory> {
    let mut text = format!(in alloc; "unit {number} pts 90000 length 84\n")?;
    text.push_str(ENCODER_LINES)?;
    Ok(text)
}

/// The set of the unit is done 85 ticks behind its last packet. Of a packet that has the whole unit
/// all bytes arrive, those behind the unit as well.
fn checked_of(alloc: Global, number: usize, room: usize) -> Result<String, NoMemory> {
    let done = number.saturating_mul(705).saturating_add(85);
    let peak = room.max(84);
    Ok(format!(in alloc; "set 90000 shown 84 {done}\npeak {peak}\nbreach none\n")?)
}

fn is_taken<R: Threads + Sync + Abort>(rt: &R, alloc: Global, field: u8) {
    let room = 183usize.saturating_sub(field as usize);
    let number = if room < 84 { 1 } else { 0 };
    let stream = stream_of(alloc, field).expect(rt, "memory");
    let stream = stream.as_slice();
    let lines = lines_of(alloc, number).expect(rt, "memory");
    let checked = checked_of(alloc, number, room).expect(rt, "memory");
    ends_as(
        rt,
        alloc,
        &reading(LIST, stream),
        sound(10_000),
        done(lines.as_bytes()),
    );
    ends_as(
        rt,
        alloc,
        &reading(CHECK, stream),
        sound(10_000),
        done(checked.as_bytes()),
    )
}

#[test]
fn each_length_before_a_payload(rt: HostRuntime) {
    for field in 0..=182 {
        is_taken(&rt, rt.alloc(), field);
    }
}

/// A packet that begins with this head is the only one: it has no line, or is refused.
fn is_listed<R: Threads + Sync + Abort>(rt: &R, alloc: Global, head: [u8; 5], is_refused: bool) {
    let (code, note) = if is_refused {
        (4, "stream 0 BadAdaptation\n")
    } else {
        (0, "done\n")
    };
    let packet = packet_of(&head, &[]);
    let wanted = Wanted {
        code,
        note,
        out: &[],
    };
    ends_as(rt, alloc, &reading(LIST, &packet), sound(10_000), wanted)
}

/// Longer fields than a packet has room for, before a payload and without one.
#[test]
fn lengths_that_are_too_great(rt: HostRuntime) {
    for field in 183..=255 {
        is_listed(&rt, rt.alloc(), [0x47, 0x41, 0x00, 0x30, field], true);
        is_listed(&rt, rt.alloc(), [0x47, 0x01, 0x00, 0x30, field], true);
    }
    for field in 184..=255 {
        is_listed(&rt, rt.alloc(), [0x47, 0x01, 0x00, 0x20, field], true);
    }
}

#[test]
fn each_length_without_a_payload(rt: HostRuntime) {
    for field in 0..=183 {
        is_listed(&rt, rt.alloc(), [0x47, 0x01, 0x00, 0x20, field], false);
    }
}
