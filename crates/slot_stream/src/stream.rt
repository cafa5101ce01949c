ghost use Rattle.std.specs.Prelude.{◌≡◌, ◌<◌, ◌≤◌, length, OnOk, IfErr, All, ◌^◌};
ghost use Rattle.std.specs.List.Sorted.{IsStrictlyIncreasing};
ghost use Rattle.std.specs.Io.KnownBytes.{Appends, Keeps};
ghost use Rattle.sub_base.specs.Counts.{HasRisen};
ghost use Rattle.sub_base.specs.Endpoints.{AppendsPrefix};
ghost use Rattle.slot_stream.specs.SlotStream.{IsPiece, slot_count as slot_count_of, stream_of};

use crate::frame::{room_for, write_slots};
use crate::piece::Piece;
use std::alloc::Global;
use sub_base::{Sink, WriteFailed};
use thiserror::Error;
use ts_packets::Packetiser;

/// Why packets were not all written.
#[derive(Debug, Drop, Error)]
pub enum StreamFault {
    /// No memory was found; nothing was written.
    #[error("out of memory")]
    Memory,
    /// The sink could not be written.
    #[error("the sink could not be written")]
    Write,
}

/// Writes the packets of all slots from 0 up to the last used one: at the slots of the list the
/// packets of the pieces, in order, and null packets between. Memory is taken before the first byte
/// is written.
pub fn write_stream<K: Sink>(
    alloc: Global,
    sink: &mut K,
    pid: u16,
    pieces: &[Piece<'_>],
    slots: &[u64],
) -> Result<(), StreamFault>
    requires pid { pid < 8192 }
    requires each { All IsPiece pieces.now }
    requires pairs { length slots.now ≡ length pieces.now }
    requires rising { IsStrictlyIncreasing slots.now }
    requires short { slot_count_of slots.now < 2 ^ 64 }
    ensures all { OnOk result (Appends (K.received sink.old).written (K.received sink.new).written
        (stream_of pid pieces.now slots.now)) }
    ensures front { IfErr result (λ fault. fault ≡ StreamFault.Write
        → AppendsPrefix (K.received sink.old).written (K.received sink.new).written
        (stream_of pid pieces.now slots.now)) }
    ensures nothing { IfErr result (λ fault. fault ≡ StreamFault.Memory
        → Keeps (K.received sink.old).written (K.received sink.new).written) }
    ensures kept { (K.received sink.old).faults ≤ (K.received sink.new).faults }
    ensures cause { IfErr result (λ fault. fault ≡ StreamFault.Write
        → HasRisen (K.received sink.old).faults (K.received sink.new).faults) }
{
    let count = slot_count(slots);
    let Ok(mut room) = room_for(alloc, count) else {
        return Err(StreamFault::Memory);
    };
    let packetiser = Packetiser::make(pid);
    match write_slots(sink, packetiser, pieces, slots, count, room.as_mut_slice()) {
        Ok(()) => Ok(()),
        Err(WriteFailed) => Err(StreamFault::Write),
    }
}

/// How many slots there are up to the last one of the list.
pub fn slot_count(slots: &[u64]) -> u64
    requires { slot_count_of slots.now < 2 ^ 64 }
    ensures { result ≡ slot_count_of slots.now }
{
    match slots {
        [] => 0,
        [.., last] => *last + 1,
    }
}
