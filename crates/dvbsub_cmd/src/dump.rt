ghost use Rattle.std.specs.Prelude.{◌≡◌, ◌≤◌, None, drop, true};
ghost use Rattle.command_words.specs.Ticks.{are_rising as are_ticks_rising, asked_ticks};
ghost use Rattle.dvbsub_cmd.specs.Dumps.{dumps};
ghost use Rattle.dvbsub_cmd.specs.StreamOutcome.{IsStreamCause};

use crate::closing::status_of_end;
use crate::status::Status;
use command_words::ticks_of;
use decoder_model::Pages;
use dump_text::dump_stream;
use dvbsub_words::WORDS_OF_DUMP;
use std::alloc::Global;
use std::thread::Threads;
use sub_base::{BandGate, Profile, ProfileName, Sink, Source, Words};

/// Writes the pictures that a receiver shows of a stream at the ticks that are asked for, each as
/// soon as no set can change it. All memory is taken before the first byte is read.
pub fn dump<R: Threads + Sync, A: Source, K: Sink, G: BandGate + Sync>(
    rt: &R,
    alloc: Global,
    words: &Words,
    profile: ProfileName,
    pid: u16,
    page: u16,
    bands: u32,
    stream: &mut A,
    out: &mut K,
    gate: &G,
) -> Status
    requires some { 1 ≤ bands }
    requires few { bands ≤ 64 }
    requires rising { are_ticks_rising None (drop 7 words.now) ≡ true }
    ensures { IsStreamCause (dumps profile pid page (asked_ticks 7 words.now)) pid
        (A.supplied stream.old)
        (A.supplied stream.new)
        (K.received out.old)
        (K.received out.new)
        result }
{
    let Ok(ticks) = ticks_of(alloc, words, WORDS_OF_DUMP) else {
        return Status::Memory;
    };
    let profile = Profile::of(profile);
    status_of_end(dump_stream(
        rt,
        alloc,
        &profile,
        pid,
        Pages::only(page),
        bands,
        ticks.as_slice(),
        stream,
        out,
        gate,
    ))
}
