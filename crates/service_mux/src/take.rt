ghost use Rattle.std.specs.Prelude.{◌≡◌};
ghost use Rattle.sub_base.specs.ToolOutcome.{HasToolCause, IsToolCause, IsToolRun, IsToolWhole};
ghost use Rattle.service_mux.specs.StreamReads.{seen_of_one};
ghost use Rattle.service_mux.specs.TakeOutcome.{take_causes, take_fault_name};
ghost use Rattle.service_mux.specs.TakeWords.{take_words as take_words_of};
ghost use Rattle.service_mux.specs.Private.Closing.{ClosesTake, status_at as status_at_end, status_of_refused as status_of_refused_at};

use crate::take_fault::TakeFault;
use crate::take_words::take_words;
use crate::taker::Taker;
use command_text::{TextBuffer, close_tool, tell_tool};
use packet_source::{PacketSource, StreamEnd};
use packet_walk::{Refused, WalkEnd, walk_packets};
use std::alloc::Global;
use stream_syntax::PacketFault;
use sub_base::{Sink, Source, ToolStatus, Which, Words};

/// Carries out `take SERVICE STREAM OUT`: the packets of the service's subtitles are taken out of
/// the stream, `first`, and written to `out`. How it ended is told by the answer and by one line to
/// `notes`.
pub fn take_top<A: Source, K: Sink, N: Sink>(
    alloc: Global,
    words: &Words,
    first: &mut A,
    out: &mut K,
    notes: &mut N,
) -> ToolStatus<TakeFault>
    ensures cause { HasToolCause take_fault_name take_causes (take_words_of words.now)
        (seen_of_one (A.supplied first.old) (K.received out.old))
        (seen_of_one (A.supplied first.new) (K.received out.new))
        (N.received notes.old) (N.received notes.new) result }

    // Where the words are a command and nothing gives a cause of refusal, all is taken, or memory
    // is wanting.
    ensures complete { IsToolWhole take_causes (take_words_of words.now)
        (seen_of_one (A.supplied first.old) (K.received out.old))
        (seen_of_one (A.supplied first.new) (K.received out.new))
        (N.received notes.old) (N.received notes.new) result }
{
    let status = run(alloc, words, first, out);
    tell_tool(status, notes)
}

/// Carries out the command that the words are, if they are one, without telling how it ended.
fn run<A: Source, K: Sink>(
    alloc: Global,
    words: &Words,
    first: &mut A,
    out: &mut K,
) -> ToolStatus<TakeFault>
    ensures { IsToolRun take_causes (take_words_of words.now)
        (seen_of_one (A.supplied first.old) (K.received out.old))
        (seen_of_one (A.supplied first.new) (K.received out.new))
        result }
{
    match take_words(words) {
        Some(service) => take(alloc, service, first, out),
        None => ToolStatus::Usage,
    }
}

/// Takes the subtitles of a service out of a stream. All memory is taken before the first byte is
/// read.
fn take<A: Source, K: Sink>(
    alloc: Global,
    service: u16,
    stream: &mut A,
    out: &mut K,
) -> ToolStatus<TakeFault>
    ensures { let before = seen_of_one (A.supplied stream.old) (K.received out.old) in
        let now = seen_of_one (A.supplied stream.new) (K.received out.new) in
        IsToolCause (take_causes service before now) before now result }
{
    let Ok(mut taker) = Taker::make(alloc, service) else {
        return ToolStatus::Memory;
    };
    let Ok(mut buffer) = TextBuffer::make(alloc) else {
        return ToolStatus::Memory;
    };
    let Ok(mut packets) = PacketSource::make(alloc) else {
        return ToolStatus::Memory;
    };
    let end = walk_packets(stream, out, &mut buffer, &mut taker, &mut packets);
    close(out, &mut buffer, service, taker.has_found(), end)
}

/// Writes the packets that wait, and answers how the command ended, by how its walk over the stream
/// did and whether the subtitles were found.
fn close<K: Sink>(
    out: &mut K,
    buffer: &mut TextBuffer,
    service: u16,
    found: bool,
    end: WalkEnd,
) -> ToolStatus<TakeFault>
    ensures { ClosesTake
        (K.received out.old)
        (K.received out.new)
        buffer.old service found end result }
{
    match end {
        WalkEnd::Stream(end) => close_tool(out, buffer, status_at(service, found, end)),
        WalkEnd::Refused(refused) => close_tool(out, buffer, status_of_refused(refused)),
        WalkEnd::Unwritten => ToolStatus::WriteFault(Which::Out),
    }
}

/// How the command ends where the source gives no packet more and the output is written.
fn status_at(service: u16, found: bool, end: StreamEnd) -> ToolStatus<TakeFault>
    ensures { result ≡ status_at_end service found end }
{
    match end {
        StreamEnd::Whole { .. } if found => ToolStatus::Done,
        StreamEnd::Whole { .. } => ToolStatus::Refused(TakeFault::NoService { number: service }),
        StreamEnd::Unread => ToolStatus::ReadFault(Which::First),
        StreamEnd::TooLong => ToolStatus::InputTooLong(Which::First),
    }
}

/// How the command ends at a packet that cannot be taken, where the output is written.
fn status_of_refused(refused: Refused) -> ToolStatus<TakeFault>
    ensures { result ≡ status_of_refused_at refused }
{
    match refused.fault {
        PacketFault::NoSync => ToolStatus::Refused(TakeFault::NoSync {
            packet: refused.packet,
        }),
        // Packets of the taker's PID alone are refused for these, and no packet has it. The walk
        // tells of packets as lists of numbers, of which this cannot be known.
        PacketFault::Scrambled | PacketFault::ReservedControl | PacketFault::BadAdaptation => {
            ToolStatus::Memory
        }
    }
}
