ghost use Rattle.std.specs.Prelude.{◌≡◌, ◌+◌, ◌-◌, ◌<◌, ◌≤◌, [], length, All, IfErr, IfOk, OnOk, false};
ghost use Rattle.std.specs.Io.KnownBytes.{Appends};
ghost use Rattle.std.specs.List.Sorted.{IsStrictlyIncreasing};
ghost use Rattle.command_text.specs.Putting.{PutsOut};
ghost use Rattle.sub_base.specs.Counts.{HasRisen};
ghost use Rattle.sub_base.specs.Endpoints.{AppendsPrefix};
ghost use Rattle.stream_syntax.specs.TransportPackets.{null_packet as null_bytes};
ghost use Rattle.slot_stream.specs.KeptPackets.{kept_packet, numbered, packets_from};
ghost use Rattle.slot_stream.specs.SlotStream.{IsPiece};
ghost use Rattle.slot_stream.specs.SlotWalk.{IsNextPlace};

use crate::piece::Piece;
use command_text::{TextBuffer, flush, put};
use std::alloc::Global;
use std::marker::Model;
use stream_syntax::PACKET_LENGTH;
use sub_base::{NoMemory, Sink, WriteFailed};
use ts_packets::{Packetiser, null_packet};

/// Packets that are kept until they are written, each with its slot. Null packets are not kept.
#[derive(Drop)]
pub struct KeptPackets {
    slots: Vec<u64>,
    packets: Vec<[u8; PACKET_LENGTH]>,
}

impl Model for KeptPackets {
    ghost use Rattle.slot_stream.specs.KeptPackets.{HaveRisingSlots, SlottedPackets};

    ghost Value = { SlottedPackets };

    ghost view = { λ k. record { slots = k.slots.items; packets = k.packets.items } };

    ghost invariant = { λ k. HaveRisingSlots (record { slots = k.slots.items; packets = k.packets.items }) };
}

impl KeptPackets {
    /// No packets.
    pub fn make(alloc: Global) -> KeptPackets
        ensures { result ≡ record { slots = []; packets = [] } }
    {
        KeptPackets {
            slots: Vec::new(alloc),
            packets: Vec::new(alloc),
        }
    }

    /// The packets of pieces at these slots, where the first of the pieces has that number in its
    /// stream.
    pub fn of_pieces(
        alloc: Global,
        pid: u16,
        number: u64,
        pieces: &[Piece<'_>],
        slots: &[u64],
    ) -> Result<KeptPackets, NoMemory>
        requires pid { pid < 8192 }
        requires each { All IsPiece pieces.now }
        requires pairs { length slots.now ≡ length pieces.now }
        requires rising { IsStrictlyIncreasing slots.now }
        ensures { IfOk result (λ kept. kept
            ≡ record { slots = slots.now; packets = numbered pid number pieces.now }) }
    {
        let packets = packets_of(alloc, pid, number, pieces)?;
        Ok(KeptPackets {
            slots: Vec::from_slice(alloc, slots)?,
            packets,
        })
    }

    /// Writes the packets at the slots from one up to another: those that are kept, and null
    /// packets between. Takes no memory: the buffer, which is empty, is that of the caller.
    pub fn write<K: Sink>(
        &self,
        sink: &mut K,
        buffer: &mut TextBuffer,
        from: u64,
        until: u64,
    ) -> Result<(), WriteFailed>
        requires empty { buffer.old ≡ record { waits = []; failed = false } }
        requires order { from ≤ until }
        ensures all { OnOk result
            (Appends (K.received sink.old).written (K.received sink.new).written
            (packets_from self.now from (until - from))) }
        ensures front { IfErr result (λ _. AppendsPrefix (K.received sink.old).written
            (K.received sink.new).written (packets_from self.now from (until - from))) }
        ensures kept { (K.received sink.old).faults ≤ (K.received sink.new).faults }
        ensures cause { IfErr result (λ _.
            HasRisen (K.received sink.old).faults (K.received sink.new).faults) }
        ensures empty { OnOk result (buffer.new ≡ record { waits = []; failed = false }) }
    {
        let mut null = [0u8; PACKET_LENGTH];
        null_packet(&mut null);
        let mut next = first_from(self.slots.as_slice(), from);
        for slot in from..until {
            next = self.put_slot(sink, buffer, &null, next, slot);
            if buffer.has_failed() {
                return Err(WriteFailed);
            }
        }
        flush(sink, buffer);
        if buffer.has_failed() {
            return Err(WriteFailed);
        }
        Ok(())
    }

    /// Puts out the packet of a slot: the next one that is kept, where this is its slot, and else
    /// the null packet. Answers how many of those that are kept lie up to this slot.
    fn put_slot<K: Sink>(
        &self,
        sink: &mut K,
        buffer: &mut TextBuffer,
        null: &[u8; PACKET_LENGTH],
        next: usize,
        slot: u64,
    ) -> usize
        requires null { null.now ≡ null_bytes }
        requires next { IsNextPlace self.now.slots next slot }
        ensures puts { PutsOut (K.received sink.old) (K.received sink.new)
            buffer.old buffer.new (kept_packet self.now slot) }
        ensures next { IsNextPlace self.now.slots result (slot + 1) }
    {
        let slots = self.slots.as_slice();
        if next < slots.len() && slots[next] == slot {
            put_packet(sink, buffer, &self.packets.as_slice()[next]);
            next + 1
        } else {
            put_packet(sink, buffer, null);
            next
        }
    }
}

/// Puts out a packet.
fn put_packet<K: Sink>(sink: &mut K, buffer: &mut TextBuffer, packet: &[u8; PACKET_LENGTH])
    ensures { PutsOut (K.received sink.old) (K.received sink.new)
        buffer.old buffer.new packet.now }
{
    put(sink, buffer, packet);
}

/// How many of rising slots lie before one.
pub fn first_from(slots: &[u64], from: u64) -> usize
    requires rising { IsStrictlyIncreasing slots.now }
    ensures next { IsNextPlace slots.now result from }
{
    slots.partition_point(|slot| *slot < from)
}

/// The packets of pieces, the first of which has that number.
fn packets_of(
    alloc: Global,
    pid: u16,
    number: u64,
    pieces: &[Piece<'_>],
) -> Result<Vec<[u8; PACKET_LENGTH]>, NoMemory>
    requires pid { pid < 8192 }
    requires each { All IsPiece pieces.now }
    ensures { IfOk result (λ packets. packets.items ≡ numbered pid number pieces.now) }
{
    let mut packetiser = Packetiser::from_counter(pid, (number % 16) as u8);
    let mut packets = Vec::new(alloc);
    let mut packet = [0u8; PACKET_LENGTH];
    for piece in pieces {
        packetiser.packet(piece.bytes, piece.starts, &mut packet);
        packets.push(packet)?;
    }
    Ok(packets)
}
