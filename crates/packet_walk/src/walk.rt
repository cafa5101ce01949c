ghost use Rattle.std.specs.Prelude.{◌≡◌, ◌+◌, ◌<◌, ◌≤◌, ℕ, false, [], length, take};
ghost use Rattle.std.specs.Prelude.{slice_index_or, Some, IfErr, OnOk};
ghost use Rattle.packet_source.specs.InHand.{nothing_read};
ghost use Rattle.packet_source.specs.Packets.{HasGivenInHand};
ghost use Rattle.packet_source.specs.declared.limits.TheConstants.{STREAM_LIMIT};
ghost use Rattle.stream_syntax.specs.TransportPackets.{packet_fault};
ghost use Rattle.sub_base.specs.Endpoints.{Supplied};
ghost use Rattle.packet_walk.specs.Told.{HasTaken, Tells};
ghost use Rattle.packet_walk.specs.Walking.{IsEnd};

use crate::teller::PacketTeller;
use command_text::TextBuffer;
use packet_source::{PacketSource, StreamEnd};
use stream_syntax::PacketFault;
use sub_base::{Sink, Source};

/// The first packet of a stream that cannot be taken: its place, counted from 0, and why.
#[derive(Clone, Copy, Debug, Drop)]
pub struct Refused {
    /// The number of the packet in the stream.
    pub packet: u64,
    /// The first test that it fails.
    pub fault: PacketFault,
}

/// How a walk over a stream ended.
#[derive(Clone, Copy, Debug, Drop)]
pub enum WalkEnd {
    /// The source gives no packet more.
    Stream(StreamEnd),
    /// A packet cannot be taken.
    Refused(Refused),
    /// The output could not be written.
    Unwritten,
}

/// Takes the packets of a stream, those of one read after the other, up to its end or to what stops
/// the walk. Text may wait in the buffer then.
pub fn walk_packets<T: PacketTeller, A: Source, K: Sink>(
    stream: &mut A,
    out: &mut K,
    buffer: &mut TextBuffer,
    teller: &mut T,
    packets: &mut PacketSource,
) -> WalkEnd
    requires buffer { buffer.old ≡ record { waits = []; failed = false } }
    requires stands { T.stands teller.old [] [] }
    requires nothing { packets.old ≡ nothing_read }
    requires source { (now : Supplied) → HasGivenInHand now now packets.old [] }
    ensures pid { T.pid teller.new ≡ T.pid teller.old }
    ensures same { T.kept teller.new ≡ T.kept teller.old }
    ensures end { IsEnd (T.stands teller.new) (T.pid teller.old)
        (A.supplied stream.old)
        (A.supplied stream.new)
        (K.received out.old)
        (K.received out.new)
        buffer.new result }
{
    loop {
        if let Err(end) = packets.fill(stream) {
            return WalkEnd::Stream(end);
        }
        let first = packets.first();
        if let Err(refused) = take_packets(out, buffer, teller, first, packets.packets()) {
            return WalkEnd::Refused(refused);
        }
        if buffer.has_failed() {
            return WalkEnd::Unwritten;
        }
    }
}

/// Takes packets, the first of that place, up to one that cannot be taken.
pub fn take_packets<T: PacketTeller, K: Sink>(
    out: &mut K,
    buffer: &mut TextBuffer,
    teller: &mut T,
    first: u64,
    packets: &[[u8; 188]],
) -> Result<(), Refused>
    requires within { first + length packets.now ≤ STREAM_LIMIT }
    requires taken { HasTaken T.stands teller.old first }
    ensures pid { T.pid teller.new ≡ T.pid teller.old }
    ensures same { T.kept teller.new ≡ T.kept teller.old }
    ensures tells { OnOk result (Tells T.stands (T.pid teller.old)
        (K.received out.old)
        (K.received out.new)
        teller.old teller.new buffer.old buffer.new first packets.now) }
    ensures refused { IfErr result (λ refused.
        (k : ℕ) × (k < length packets.now) × (refused.packet ≡ first + k)
        × (packet_fault (T.pid teller.old) (slice_index_or packets.now k [])
        ≡ Some refused.fault)
        × Tells T.stands (T.pid teller.old)
        (K.received out.old)
        (K.received out.new)
        teller.old teller.new buffer.old buffer.new first (take k packets.now)) }
{
    let mut place = first;
    for packet in packets {
        if let Err(fault) = teller.take_packet(out, buffer, place, packet) {
            return Err(Refused {
                packet: place,
                fault,
            });
        }
        place += 1;
    }
    Ok(())
}
