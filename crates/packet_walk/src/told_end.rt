ghost use Rattle.std.specs.Prelude.{◌≡◌};
ghost use Rattle.packet_walk.specs.Closing.{ClosesWalk, ClosesEnd, is_whole_end};
ghost use Rattle.packet_walk.specs.declared.walk.WalkEnd.TheVariants.{Stream};

use crate::walk::{Refused, WalkEnd};
use command_text::{TextBuffer, flush};
use packet_source::StreamEnd;
use sub_base::Sink;

/// How the telling of a stream ended, in whatever program.
#[derive(Clone, Copy, Debug, Drop)]
pub enum ToldEnd {
    /// The stream was read to its end, and all of the text was written. `cut` bytes were left after
    /// the last whole packet.
    Done { cut: u64 },
    /// The packet is the first that cannot be taken; the text of those before it was written.
    Refused(Refused),
    /// The source could not be read.
    Unread,
    /// The source gave more bytes than a stream may have.
    TooLong,
    /// The sink could not be written.
    Unwritten,
    /// No memory was found; nothing was read or written.
    Memory,
}

/// Writes the text that waits, and answers how the telling of a stream ended, by how its walk over
/// the stream did.
pub fn close_walk<K: Sink>(out: &mut K, buffer: &mut TextBuffer, end: WalkEnd) -> ToldEnd
    ensures { ClosesEnd
        (K.received out.old)
        (K.received out.new)
        buffer.old end result }
{
    match end {
        WalkEnd::Stream(end) => close_stream(out, buffer, end),
        WalkEnd::Refused(refused) => write_rest(out, buffer, ToldEnd::Refused(refused)),
        WalkEnd::Unwritten => ToldEnd::Unwritten,
    }
}

/// The same where the source gives no packet more.
fn close_stream<K: Sink>(out: &mut K, buffer: &mut TextBuffer, end: StreamEnd) -> ToldEnd
    ensures { ClosesEnd
        (K.received out.old)
        (K.received out.new)
        buffer.old (Stream end) result }
{
    match end {
        StreamEnd::Whole { cut } => write_rest(out, buffer, ToldEnd::Done { cut }),
        StreamEnd::Unread => write_rest(out, buffer, ToldEnd::Unread),
        StreamEnd::TooLong => ToldEnd::TooLong,
    }
}

/// Writes the text that waits, and answers this end, or that the output could not be written.
fn write_rest<K: Sink>(out: &mut K, buffer: &mut TextBuffer, end: ToldEnd) -> ToldEnd
    ensures { ClosesWalk
        (K.received out.old)
        (K.received out.new)
        buffer.old end result }
{
    flush(out, buffer);
    if buffer.has_failed() {
        ToldEnd::Unwritten
    } else {
        end
    }
}

/// Whether the walk ended with the stream, read whole.
pub fn is_whole(end: WalkEnd) -> bool
    ensures { result ≡ is_whole_end end }
{
    match end {
        WalkEnd::Stream(StreamEnd::Whole { .. }) => true,
        WalkEnd::Stream(StreamEnd::Unread) => false,
        WalkEnd::Stream(StreamEnd::TooLong) => false,
        WalkEnd::Refused(_) => false,
        WalkEnd::Unwritten => false,
    }
}
