ghost use Rattle.std.specs.Prelude.{◌<◌};
ghost use Rattle.check_text.specs.Checking.{HasChecked};
ghost use Rattle.shown_stream.specs.Compiled.{IsCompiledFor};
ghost use Rattle.dvbsub_cmd.specs.Checks.{check_tells, checks};
ghost use Rattle.dvbsub_cmd.specs.Private.Closing.{FinishesTold};
ghost use Rattle.dvbsub_cmd.specs.StreamOutcome.{IsStreamCause};
ghost use Rattle.stream_syntax.specs.declared.wire.TheConstants.{TIME_ROUND};

use crate::closing::{close, is_whole};
use crate::status::Status;
use check_text::Check;
use command_text::TextBuffer;
use decoder_model::Pages;
use packet_source::PacketSource;
use packet_walk::{WalkEnd, walk_packets};
use std::alloc::Global;
use sub_base::{Profile, ProfileName, Sink, Source};

/// Writes what becomes of each display set of a stream, when it is done, and the greatest level of
/// the coded data buffer with the first breach. All memory is taken before the first byte is read.
pub fn check<A: Source, K: Sink>(
    alloc: Global,
    profile: ProfileName,
    origin: u64,
    pid: u16,
    page: u16,
    stream: &mut A,
    out: &mut K,
) -> Status
    requires profile { IsCompiledFor profile }
    requires origin { origin < TIME_ROUND }
    ensures { IsStreamCause (checks profile origin pid page) pid
        (A.supplied stream.old)
        (A.supplied stream.new)
        (K.received out.old)
        (K.received out.new)
        result }
{
    let profile = Profile::of(profile);
    let Ok(mut buffer) = TextBuffer::make(alloc) else {
        return Status::Memory;
    };
    let Ok(mut packets) = PacketSource::make(alloc) else {
        return Status::Memory;
    };
    let Ok(mut check) = Check::make(alloc, &profile, origin, pid, Pages::only(page)) else {
        return Status::Memory;
    };
    let end = walk_packets(stream, out, &mut buffer, &mut check, &mut packets);
    finish(&mut check, out, &mut buffer, end);
    close(out, &mut buffer, end)
}

/// Puts out what is told of a stream that has ended, where it was read to its end.
fn finish<K: Sink>(check: &mut Check, out: &mut K, buffer: &mut TextBuffer, end: WalkEnd)
    ensures { FinishesTold (HasChecked check.old) (check_tells check.old)
        (K.received out.old)
        (K.received out.new)
        buffer.old buffer.new end }
{
    if is_whole(end) {
        check.finish(out, buffer);
    }
}
