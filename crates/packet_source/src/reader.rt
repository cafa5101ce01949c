ghost use Rattle.std.specs.Prelude.{◌≡◌, ◌<◌, ◌≤◌, ◌↔◌, ℕ, [], List, length, take, drop, IsTrue, IfOk, OnOk, IfErr, OnErr, IsErrOf};
ghost use Rattle.sub_base.specs.Endpoints.{Supplied, HasReadFault};
ghost use Rattle.std.specs.Io.{ReadsAtMost};
ghost use Rattle.std.specs.Io.KnownBytes.{ReadConsumes};
ghost use Rattle.sub_base.specs.Counts.{CountsOnOk, HasRisenPast};
ghost use Rattle.packet_source.specs.Private.Filling.{HasRead, HasReadNothing, given_up};
ghost use Rattle.packet_source.specs.InHand.{nothing_read, read_count, whole_packets};
ghost use Rattle.packet_source.specs.Packets.{GivesMore, HasMore, IsStreamEnd, HasGivenInHand};
ghost use Rattle.packet_source.specs.declared.limits.TheConstants.{STREAM_LIMIT};
ghost use Rattle.stream_syntax.specs.declared.wire.TheConstants.{PACKET_LENGTH};
ghost use Rattle.packet_source.specs.declared.stream_end.StreamEnd.TheVariants.{TooLong};

use crate::limits::STREAM_LIMIT;
use crate::stream_end::StreamEnd;
use std::alloc::Global;
use std::marker::Model;
use stream_syntax::PACKET_LENGTH;
use sub_base::{NoMemory, ReadFailed, Source, zeros};

/// Where each read goes. The bytes of a packet that the last one cut are moved to the place before
/// it. Memory of this size begins 16 bytes behind a page, so that reads fill whole cache lines,
/// which the system copies a tenth faster.
const FRONT: usize = 240;

/// How many bytes there are: those before a read, and a large read, so that few calls reach the
/// system.
const ROOM: usize = FRONT + (1 << 18);

/// The whole packets of a stream, a read of its source at a time, in memory of a fixed size.
///
/// Contracts see the bytes in hand: those of the last read, with those before them that are part of
/// a packet that it goes on with.
#[derive(Drop)]
pub struct PacketSource {
    first: u64,
    room: Vec<u8>,
    start: usize,
    filled: usize,
}

impl Model for PacketSource {
    ghost use Rattle.std.specs.Prelude.{◌≡◌, ◌+◌, ◌-◌, ◌*◌, ◌≤◌, take, drop, vec_len};
    ghost use Rattle.packet_source.specs.InHand.{InHand};

    ghost Value = { InHand };

    ghost view = { λ s. record {
      first = s.first;
      bytes = take (s.filled - s.start) (drop s.start s.room.items);
    } };

    ghost use Rattle.stream_syntax.specs.declared.wire.TheConstants.{PACKET_LENGTH};
    ghost use Rattle.packet_source.specs.declared.limits.TheConstants.{STREAM_LIMIT};
    ghost use Rattle.packet_source.specs.declared.reader.TheConstants.{FRONT, ROOM};

    ghost invariant = { λ s. (s.filled ≤ ROOM) × (vec_len s.room ≡ ROOM)
        × (s.start ≤ FRONT) × (s.start ≤ s.filled)
        × (PACKET_LENGTH * s.first + (s.filled - s.start) ≤ STREAM_LIMIT + ROOM) };
}

impl PacketSource {
    /// A reader that has read nothing yet. All its memory is taken here.
    pub fn make(alloc: Global) -> Result<PacketSource, NoMemory>
        ensures nothing { IfOk result (λ packets. packets ≡ nothing_read) }
        ensures stands { IfOk result
            (λ packets. (now : Supplied) → HasGivenInHand now now packets []) }
    {
        Ok(PacketSource {
            first: 0,
            room: zeros(alloc, ROOM)?,
            start: FRONT,
            filled: FRONT,
        })
    }

    /// The whole packets in hand, in order.
    pub fn packets(&self) -> &[[u8; 188]]
        ensures { result.now ≡ whole_packets self.now.bytes }
    {
        let (packets, _) = self.room[self.start..self.filled].as_chunks::<188>();
        packets
    }

    /// The number of the first packet in hand, counted from 0 over the whole stream.
    pub fn first(&self) -> u64
        ensures { result ≡ self.now.first }
    {
        self.first
    }

    /// Drops the packets in hand, keeps the bytes behind them, and reads on, by one read. There may
    /// be no whole packet in hand then, where the read was short. Whatever the answer is, nothing
    /// that was read is lost.
    pub fn fill<A: Source>(&mut self, source: &mut A) -> Result<(), StreamEnd>
        // Whichever packets the reader stood for, it stands for these and those that it had in
        // hand.
        ensures stands { GivesMore (A.supplied source.old) (A.supplied source.new) self.old
            self.new }
        ensures more { OnOk result (HasMore self.old self.new) }
        ensures end { IfErr result (λ end.
            IsStreamEnd (A.supplied source.old) (A.supplied source.new) self.new end) }

        // That the limit was passed is answered only where the source gave more, whenever the
        // stream began.
        ensures long { IsErrOf result TooLong → (before : Supplied) (packets : List (List ℕ))
            → HasGivenInHand before (A.supplied source.old) self.old packets
            → HasRisenPast STREAM_LIMIT before.given (A.supplied source.new).given }
        ensures kept { (A.supplied source.old).faults ≤ (A.supplied source.new).faults }
    {
        self.give_up();
        if self.is_too_long() {
            return Err(StreamEnd::TooLong);
        }
        let count = self.read_on(source)?;
        // There was room for more, so that no bytes are the end.
        if count == 0 {
            return Err(StreamEnd::Whole {
                cut: self.count() as u64,
            });
        }
        if self.is_too_long() {
            return Err(StreamEnd::TooLong);
        }
        Ok(())
    }

    /// How many bytes are in hand.
    fn count(&self) -> usize
        ensures { result ≡ length self.now.bytes }
    {
        self.filled - self.start
    }

    /// Drops the packets in hand: the bytes behind them move to the place before the next read.
    fn give_up(&mut self)
        ensures { self.new ≡ given_up self.old }
    {
        // A source gives its bytes once: those of a packet that the read cut are moved, and the
        // next read goes on behind them.
        let count = (self.filled - self.start) / PACKET_LENGTH;
        let rest = self.start + count * PACKET_LENGTH;
        let start = FRONT - (self.filled - rest);
        self.room.copy_within(rest..self.filled, start);
        self.first += count as u64;
        self.start = start;
        self.filled = FRONT;
    }

    /// Whether the stream has more bytes than its limit, as far as it was read.
    fn is_too_long(&self) -> bool
        ensures { IsTrue result ↔ (STREAM_LIMIT < read_count self.now) }
    {
        let read_count = PACKET_LENGTH as u64 * self.first + self.count() as u64;
        read_count > STREAM_LIMIT
    }

    /// Reads behind the bytes in hand, and answers how many bytes there were.
    fn read_on<A: Source>(&mut self, source: &mut A) -> Result<usize, ReadFailed>
        requires short { length self.old.bytes < PACKET_LENGTH }
        requires within { read_count self.old ≤ STREAM_LIMIT }
        ensures read { IfOk result (λ count.
            HasRead (A.supplied source.old) (A.supplied source.new) self.old self.new count) }
        ensures nothing { OnErr result (
            HasReadNothing (A.supplied source.old) (A.supplied source.new) self.old self.new) }
        ensures kept { (A.supplied source.old).faults ≤ (A.supplied source.new).faults }
        ensures cause { OnErr result
            (HasReadFault (A.supplied source.old) (A.supplied source.new)) }
    {
        let count = read_behind(source, self.room.as_mut_slice(), self.filled)?;
        self.filled += count;
        Ok(count)
    }
}

/// Reads into the room behind so many bytes at its beginning, which are kept.
fn read_behind<A: Source>(source: &mut A, room: &mut [u8], kept: usize) -> Result<usize, ReadFailed>
    requires { kept < length room.old }
    ensures bound { ReadsAtMost result (drop kept room.new) }
    ensures bytes { ReadConsumes (A.supplied source.old).left (A.supplied source.new).left
        result (drop kept room.new) }
    ensures front { take kept room.new ≡ take kept room.old }
    ensures room { length room.new ≡ length room.old }
    ensures given { CountsOnOk (A.supplied source.old).given (A.supplied source.new).given result }
    ensures kept { (A.supplied source.old).faults ≤ (A.supplied source.new).faults }
    ensures cause { OnErr result (HasReadFault (A.supplied source.old) (A.supplied source.new)) }
{
    source.read(&mut room[kept..])
}
