ghost use Rattle.std.specs.Prelude.{◌≡◌};
ghost use Rattle.dvbsub_cmd.specs.Private.Closing.{ClosesEnd};
ghost use Rattle.dvbsub_cmd.specs.StreamOutcome.{status_of_end as status_of};

use crate::status::Status;
use command_text::TextBuffer;
pub(crate) use packet_walk::is_whole;
use packet_walk::{Refused, ToldEnd, WalkEnd, close_walk};
use sub_base::{Sink, Which};

/// Writes the text that waits, and answers how the command ended, by how its walk over the stream
/// did.
pub fn close<K: Sink>(out: &mut K, buffer: &mut TextBuffer, end: WalkEnd) -> Status
    ensures { ClosesEnd
        (K.received out.old)
        (K.received out.new)
        buffer.old end result }
{
    status_of_end(close_walk(out, buffer, end))
}

/// The status of a command whose telling of a stream ended so.
pub fn status_of_end(end: ToldEnd) -> Status
    ensures { result ≡ status_of end }
{
    match end {
        ToldEnd::Done { cut } => Status::Done { cut },
        ToldEnd::Refused(Refused { packet, fault }) => Status::StreamRefused { packet, fault },
        ToldEnd::Unread => Status::ReadFault(Which::First),
        ToldEnd::TooLong => Status::InputTooLong(Which::First),
        ToldEnd::Unwritten => Status::WriteFault(Which::Out),
        ToldEnd::Memory => Status::Memory,
    }
}
