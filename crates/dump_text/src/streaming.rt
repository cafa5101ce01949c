ghost use Rattle.std.specs.Prelude.{◌<◌, ◌^◌};
ghost use Rattle.packet_walk.specs.Closing.{FinishesTold};
ghost use Rattle.packet_walk.specs.ToldEnds.{IsToldEnd};
ghost use Rattle.dump_text.specs.DumpText.{IsDumpText, anchor_of, asked_for};
ghost use Rattle.dump_text.specs.Dumping.{AreAsked, HasDumped, dump_tells};

use crate::dump::Dump;
use command_text::TextBuffer;
use decoder_model::Pages;
use packet_source::PacketSource;
use packet_walk::{ToldEnd, WalkEnd, close_walk, is_whole};
use std::alloc::Global;
use std::thread::Threads;
use sub_base::{BandGate, Profile, Sink, Source};

/// Writes the texts of the pictures that a receiver of a profile shows of a stream at ticks, which
/// rise, for a PID and these pages: each as soon as no set can change it. The receiver draws in so
/// many bands, 1 to 64. All memory is taken before the first byte is read.
pub fn dump_stream<R: Threads + Sync, A: Source, K: Sink, G: BandGate + Sync>(
    rt: &R,
    alloc: Global,
    profile: &Profile,
    pid: u16,
    pages: Pages,
    bands: u32,
    ticks: &[u64],
    stream: &mut A,
    out: &mut K,
    gate: &G,
) -> ToldEnd
    requires asked { AreAsked bands ticks.now }
    requires coded { profile.now.coded < 2 ^ 32 }
    requires nodes { profile.now.nodes < 2 ^ 31 }
    requires anchor { anchor_of ticks.now < 2 ^ 34 }
    ensures { IsToldEnd (IsDumpText (asked_for profile.now pid pages ticks.now) ticks.now) pid
        (A.supplied stream.old)
        (A.supplied stream.new)
        (K.received out.old)
        (K.received out.new)
        result }
{
    let Ok(mut dump) = Dump::make(alloc, bands, profile, pid, pages, ticks) else {
        return ToldEnd::Memory;
    };
    let Ok(mut buffer) = TextBuffer::make(alloc) else {
        return ToldEnd::Memory;
    };
    let Ok(mut packets) = PacketSource::make(alloc) else {
        return ToldEnd::Memory;
    };
    let end = dump.walk(rt, gate, stream, out, &mut buffer, &mut packets);
    finish(rt, gate, &mut dump, out, &mut buffer, end);
    close_walk(out, &mut buffer, end)
}

/// Puts out the texts of all ticks that were not told, where the stream was read to its end.
fn finish<R: Threads + Sync, K: Sink, G: BandGate + Sync>(
    rt: &R,
    gate: &G,
    dump: &mut Dump<'_>,
    out: &mut K,
    buffer: &mut TextBuffer,
    end: WalkEnd,
)
    ensures { FinishesTold (HasDumped dump.old) (dump_tells dump.old)
        (K.received out.old)
        (K.received out.new)
        buffer.old buffer.new end }
{
    if is_whole(end) {
        dump.finish(rt, gate, out, buffer);
    }
}
