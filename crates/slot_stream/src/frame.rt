//! The packets of many slots at once: those of pieces at their slots, and null packets between.

ghost use Rattle.std.specs.Prelude.{◌≡◌, ◌+◌, ◌%◌, ◌<◌, ◌≤◌, ◌^◌, length, map, vec_len, All, IfOk, OnOk, OnErr};
ghost use Rattle.std.specs.List.{range_with_len};
ghost use Rattle.std.specs.List.Sorted.{IsStrictlyIncreasing};
ghost use Rattle.sub_base.specs.Endpoints.{HasWriteFault, Wrote, WrotePrefix};
ghost use Rattle.slot_stream.specs.SlotStream.{IsPiece, packet_of, packets_before, slot_packet};
ghost use Rattle.slot_stream.specs.Private.Frames.{AreNull, AreNullElsewhere, packets_at};
ghost use Rattle.slot_stream.specs.SlotWalk.{IsNextPlace};

use crate::kept::first_from;
use crate::piece::Piece;
use std::alloc::{AllocError, Global};
use stream_syntax::PACKET_LENGTH;
use sub_base::{Sink, WriteFailed, write_whole};
use ts_packets::{Packetiser, null_packet};

/// How many packets are written at once, at most. Their bytes are 235 whole pages of a file: given
/// many pages at once, the system spends a quarter less on each.
const FRAME: u64 = 5_120;

/// Null packets for so many slots, or for as many as are written at once.
pub(crate) fn room_for(alloc: Global, count: u64) -> Result<Vec<[u8; PACKET_LENGTH]>, AllocError>
    ensures some { IfOk result (λ room. 1 ≤ vec_len room) }
    ensures null { IfOk result (λ room. AreNull room.items) }
{
    let mut null = [0u8; PACKET_LENGTH];
    null_packet(&mut null);
    let most = count.clamp(1, FRAME) as usize;
    let mut room = Vec::with_capacity(alloc, most)?;
    for _ in 0..most {
        room.push(null)?;
    }
    Ok(room)
}

/// Writes the packets at so many slots, from 0 on, as many at once as there is room for, where null
/// packets stand.
pub(crate) fn write_slots<K: Sink>(
    sink: &mut K,
    packetiser: Packetiser,
    pieces: &[Piece<'_>],
    slots: &[u64],
    count: u64,
    room: &mut [[u8; PACKET_LENGTH]],
) -> Result<(), WriteFailed>
    requires each { All IsPiece pieces.now }
    requires pairs { length slots.now ≡ length pieces.now }
    requires rising { IsStrictlyIncreasing slots.now }
    requires counter { packetiser.counter ≡ 0 }
    requires room { 1 ≤ length room.old }
    requires null { AreNull room.old }
    ensures all { OnOk result (Wrote (K.received sink.old) (K.received sink.new)
        (packets_before packetiser.pid pieces.now slots.now count)) }
    ensures front { OnErr result (WrotePrefix (K.received sink.old) (K.received sink.new)
        (packets_before packetiser.pid pieces.now slots.now count)) }
    ensures kept { (K.received sink.old).faults ≤ (K.received sink.new).faults }
    ensures cause { OnErr result (HasWriteFault (K.received sink.old) (K.received sink.new)) }
{
    let mut packetiser = packetiser;
    let mut next = 0;
    let mut slot = 0;
    while slot < count {
        let many = (count - slot).min(room.len() as u64) as usize;
        let frame = &mut room[..many];
        next = write_frame(sink, &mut packetiser, pieces, slots, next, slot, frame)?;
        slot += many as u64;
    }
    Ok(())
}

/// Writes the packets of a frame of slots, from one on. Answers how many pieces were sent up to
/// them. There are null packets in the frame before, and again behind a write that did not fail:
/// most packets of a stream are null packets, which need not be made anew.
fn write_frame<K: Sink>(
    sink: &mut K,
    packetiser: &mut Packetiser,
    pieces: &[Piece<'_>],
    slots: &[u64],
    next: usize,
    from: u64,
    frame: &mut [[u8; PACKET_LENGTH]],
) -> Result<usize, WriteFailed>
    requires each { All IsPiece pieces.now }
    requires pairs { length slots.now ≡ length pieces.now }
    requires rising { IsStrictlyIncreasing slots.now }
    requires next { IsNextPlace slots.now next from }
    requires counter { packetiser.old.counter ≡ next % 16 }
    requires short { from + length frame.old < 2 ^ 64 }
    requires null { AreNull frame.old }
    ensures all { OnOk result (Wrote (K.received sink.old) (K.received sink.new)
        (packets_at packetiser.old.pid pieces.now slots.now from (length frame.old))) }
    ensures front { OnErr result (WrotePrefix (K.received sink.old) (K.received sink.new)
        (packets_at packetiser.old.pid pieces.now slots.now from (length frame.old))) }
    ensures kept { (K.received sink.old).faults ≤ (K.received sink.new).faults }
    ensures cause { OnErr result (HasWriteFault (K.received sink.old) (K.received sink.new)) }
    ensures pid { packetiser.new.pid ≡ packetiser.old.pid }
    ensures counter { IfOk result (λ sent. packetiser.new.counter ≡ sent % 16) }
    ensures next { IfOk result (λ sent. IsNextPlace slots.now sent (from + length frame.old)) }
    ensures length { length frame.new ≡ length frame.old }
    ensures null { OnOk result (AreNull frame.new) }
{
    let end = first_from(slots, from + frame.len() as u64);
    fill(packetiser, pieces, slots, next, end, from, frame);
    write_whole(sink, frame.as_flattened())?;
    clear(slots, next, end, from, frame);
    Ok(end)
}

/// Puts the packets of pieces, from one up to another, at their slots in a frame of null packets.
fn fill(
    packetiser: &mut Packetiser,
    pieces: &[Piece<'_>],
    slots: &[u64],
    next: usize,
    end: usize,
    from: u64,
    frame: &mut [[u8; PACKET_LENGTH]],
)
    requires each { All IsPiece pieces.now }
    requires pairs { length slots.now ≡ length pieces.now }
    requires rising { IsStrictlyIncreasing slots.now }
    requires next { IsNextPlace slots.now next from }
    requires end { IsNextPlace slots.now end (from + length frame.old) }
    requires counter { packetiser.old.counter ≡ next % 16 }
    requires null { AreNull frame.old }
    ensures packets { frame.new ≡ map (slot_packet packetiser.old.pid pieces.now slots.now)
        (range_with_len from (length frame.old)) }
    ensures pid { packetiser.new.pid ≡ packetiser.old.pid }
    ensures counter { packetiser.new.counter ≡ end % 16 }
{
    for number in next..end {
        let place = (slots[number] - from) as usize;
        send(packetiser, &pieces[number], number, &mut frame[place]);
    }
}

/// Puts null packets at the slots of pieces, from one up to another, into a frame.
fn clear(slots: &[u64], next: usize, end: usize, from: u64, frame: &mut [[u8; PACKET_LENGTH]])
    requires next { IsNextPlace slots.now next from }
    requires end { IsNextPlace slots.now end (from + length frame.old) }
    requires elsewhere { AreNullElsewhere slots.now from frame.old }
    ensures length { length frame.new ≡ length frame.old }
    ensures null { AreNull frame.new }
{
    for number in next..end {
        let place = (slots[number] - from) as usize;
        null_packet(&mut frame[place]);
    }
}

/// Makes the packet of a piece, the one of that number among all pieces.
fn send(
    packetiser: &mut Packetiser,
    piece: &Piece<'_>,
    number: usize,
    packet: &mut [u8; PACKET_LENGTH],
)
    requires piece { IsPiece piece.now }
    requires counter { packetiser.old.counter ≡ number % 16 }
    ensures packet { packet.new ≡ packet_of packetiser.old.pid number piece.now }
    ensures pid { packetiser.new.pid ≡ packetiser.old.pid }
    ensures counter { packetiser.new.counter ≡ (number + 1) % 16 }
{
    packetiser.packet(piece.bytes, piece.starts, packet);
}
