ghost use Rattle.list_text.specs.Listing.{lists};
ghost use Rattle.dvbsub_cmd.specs.StreamOutcome.{IsStreamCause};

use crate::closing::close;
use crate::status::Status;
use command_text::TextBuffer;
use list_text::Lister;
use packet_source::PacketSource;
use packet_walk::walk_packets;
use std::alloc::Global;
use sub_base::{Sink, Source};

/// Lists the losses, units and segments of a PID in a stream. All memory is taken before the first
/// byte is read.
pub fn list<A: Source, K: Sink>(alloc: Global, pid: u16, stream: &mut A, out: &mut K) -> Status
    ensures { IsStreamCause (lists pid) pid
        (A.supplied stream.old)
        (A.supplied stream.new)
        (K.received out.old)
        (K.received out.new)
        result }
{
    let Ok(mut buffer) = TextBuffer::make(alloc) else {
        return Status::Memory;
    };
    let Ok(mut packets) = PacketSource::make(alloc) else {
        return Status::Memory;
    };
    let Ok(mut lister) = Lister::make(alloc, pid) else {
        return Status::Memory;
    };
    let end = walk_packets(stream, out, &mut buffer, &mut lister, &mut packets);
    close(out, &mut buffer, end)
}
