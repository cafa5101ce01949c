ghost use Rattle.std.specs.Prelude.{◌≡◌, true, IfOk};
ghost use Rattle.decoder_model.specs.Frames.{only};
ghost use Rattle.check_text.specs.CheckText.{IsPeak};
ghost use Rattle.shown_stream.specs.Compiled.{IsCompiledFor};
ghost use Rattle.dvbsub_cmd.specs.Dumps.{dumps};
ghost use Rattle.dvbsub_cmd.specs.ExpectOutcome.{expect_text};
ghost use Rattle.dvbsub_cmd.specs.GenText.{generated_page, generated_pid, generated_reception};
ghost use Rattle.dvbsub_cmd.specs.Private.Generating.{AreShown, AreTakable, AreTold};

use crate::expect::{plane_of, put_pictures};
use crate::generated::{PAGE, PID};
use check_text::Check;
use command_text::{TextBuffer, flush};
use cue_list::Script;
use decoder_model::Pages;
use dump_text::Dump;
use packet_walk::take_packets;
use std::alloc::Global;
use std::thread::Threads;
use sub_base::{BandGate, MemSink, NoMemory, Profile, ProfileName};

/// Whether a receiver of the profile that gets these packets shows the authored pictures of the
/// script at these ticks, which rise. It always does.
pub fn shows_authored<R: Threads + Sync, G: BandGate + Sync>(
    rt: &R,
    alloc: Global,
    profile: ProfileName,
    script: &Script,
    packets: &[[u8; 188]],
    ticks: &[u64],
    gate: &G,
) -> Result<bool, NoMemory>
    requires packets { AreTakable packets.now }
    requires ticks { AreTold ticks.now }
    requires shown { AreShown profile script.now packets.now ticks.now }
    ensures { IfOk result (λ same. same ≡ true) }
{
    let shown = shown_texts(rt, alloc, profile, packets, ticks, gate)?;
    let authored = authored_texts(alloc, script, ticks)?;
    Ok(is_same(shown.written(), authored.written()))
}

/// Whether two texts are the same.
fn is_same(shown: &[u8], authored: &[u8]) -> bool
    ensures same { shown.now ≡ authored.now → result ≡ true }
    ensures only_same { result ≡ true → shown.now ≡ authored.now }
{
    shown == authored
}

/// The texts of the pictures that a receiver of the profile shows of these packets at these ticks.
fn shown_texts<R: Threads + Sync, G: BandGate + Sync>(
    rt: &R,
    alloc: Global,
    profile: ProfileName,
    packets: &[[u8; 188]],
    ticks: &[u64],
    gate: &G,
) -> Result<MemSink, NoMemory>
    requires packets { AreTakable packets.now }
    requires ticks { AreTold ticks.now }
    ensures { IfOk result (λ texts. dumps profile generated_pid generated_page
        ticks.now true packets.now texts.written) }
{
    let profile = Profile::of(profile);
    let mut buffer = TextBuffer::make(alloc)?;
    let mut texts = MemSink::make(alloc, usize::MAX, Vec::new(alloc));
    let mut dump = Dump::make(alloc, 1, &profile, PID, Pages::only(PAGE), ticks)?;
    // A receiver takes all of them.
    if let Err(_) = dump.take_packets(rt, gate, &mut texts, &mut buffer, 0, packets) {
        unreachable!()
    }
    dump.finish(rt, gate, &mut texts, &mut buffer);
    flush(&mut texts, &mut buffer);
    if buffer.has_failed() {
        return Err(NoMemory);
    }
    Ok(texts)
}

/// The texts of the authored pictures of the script at these ticks.
fn authored_texts(alloc: Global, script: &Script, ticks: &[u64]) -> Result<MemSink, NoMemory>
    ensures { IfOk result (λ texts. texts.written ≡ expect_text script.now ticks.now) }
{
    let mut plane = plane_of(alloc, script)?;
    let mut buffer = TextBuffer::make(alloc)?;
    let mut texts = MemSink::make(alloc, usize::MAX, Vec::new(alloc));
    put_pictures(&mut texts, &mut buffer, script, ticks, plane.as_mut_slice());
    flush(&mut texts, &mut buffer);
    if buffer.has_failed() {
        return Err(NoMemory);
    }
    Ok(texts)
}

/// The greatest level of the coded data buffer of a receiver of the profile that gets these
/// packets.
pub fn peak_of(alloc: Global, profile: ProfileName, packets: &[[u8; 188]]) -> Result<u64, NoMemory>
    requires profile { IsCompiledFor profile }
    requires packets { AreTakable packets.now }
    ensures { IfOk result
        (IsPeak (generated_reception profile) packets.now) }
{
    let profile = Profile::of(profile);
    let mut buffer = TextBuffer::make(alloc)?;
    // The lines of the sets, which nobody asks for.
    let mut lines = MemSink::make(alloc, usize::MAX, Vec::new(alloc));
    let mut check = Check::make(alloc, &profile, 0, PID, Pages::only(PAGE))?;
    // A receiver takes all of them.
    if let Err(_) = take_packets(&mut lines, &mut buffer, &mut check, 0, packets) {
        unreachable!()
    }
    Ok(check.peak())
}
