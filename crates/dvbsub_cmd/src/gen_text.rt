ghost use Rattle.std.specs.Prelude.{◌≡◌, ◌≤◌, IfOk, drop, length, map, slice_get};
ghost use Rattle.command_text.specs.Putting.{PutsOut};
ghost use Rattle.packet_source.specs.InHand.{whole_packets};
ghost use Rattle.page_epoch.specs.declared.planned_set.PlannedSet.{PlannedSet};
ghost use Rattle.shown_stream.specs.Compiled.{IsCompiledFor};
ghost use Rattle.dvbsub_cmd.specs.GenOutcome.{IsGenCause};
ghost use Rattle.dvbsub_cmd.specs.GenText.{IsGenText, entry_line as entry_line_of};
ghost use Rattle.dvbsub_words.specs.Command.{IsGeneratedFor};
ghost use Rattle.dvbsub_cmd.specs.Private.Generating.{AreOf, AreToldAs, entry_behind, told_lines};

use crate::compare::{peak_of, shows_authored};
use crate::entries::entry_of;
use crate::gen_lines::{entry_line, number_line};
use crate::generated::{Generated, compiled};
use crate::status::Status;
use command_text::{TextBuffer, flush, put};
use page_epoch::PlannedSet;
use std::alloc::{AllocError, Global};
use std::thread::Threads;
use sub_base::{BandGate, NoMemory, ProfileName, Sink, Which};

/// What is told of a generated stream.
#[derive(Clone, Copy)]
pub struct Told {
    sets: u64,
    packets: u64,
    peak: u64,
    /// The entries at its beginning, behind a third, and behind two thirds of its packets.
    whole: Entry,
    third: Entry,
    two_thirds: Entry,
}

/// How many packets a receiver misses, and the time of its entry set.
#[derive(Clone, Copy)]
pub struct Entry {
    missed: u64,
    time: Option<u64>,
}

/// Generates the script of so many cues, compiles it for a profile, receives its packets, and
/// writes how many sets and packets there are, the greatest level of the coded data buffer, and the
/// entry sets of three receivers. All memory is taken before the first byte is written.
pub fn write_gen_text<R: Threads + Sync, K: Sink, G: BandGate + Sync>(
    rt: &R,
    alloc: Global,
    number: u64,
    profile: ProfileName,
    out: &mut K,
    gate: &G,
) -> Status
    requires some { 1 ≤ number }
    requires few { number ≤ 500 }
    requires profile { IsGeneratedFor profile }
    ensures { IsGenCause number profile (K.received out.old) (K.received out.new) result }
{
    let Ok(told) = tell(rt, alloc, number, profile, gate) else {
        return Status::Memory;
    };
    let Ok(mut buffer) = TextBuffer::make(alloc) else {
        return Status::Memory;
    };
    put_told(out, &mut buffer, told);
    flush(out, &mut buffer);
    if buffer.has_failed() {
        Status::WriteFault(Which::Out)
    } else {
        Status::Done { cut: 0 }
    }
}

/// What is told of the packets of a script of so many cues.
fn tell<R: Threads + Sync, G: BandGate + Sync>(
    rt: &R,
    alloc: Global,
    number: u64,
    profile: ProfileName,
    gate: &G,
) -> Result<Told, NoMemory>
    requires some { 1 ≤ number }
    requires few { number ≤ 500 }
    requires profile { IsGeneratedFor profile }
    ensures { IfOk result (λ told. IsGenText number profile (told_lines told)) }
{
    let generated = compiled(alloc, number, profile)?;
    let packets = packets_of(generated.stream.written());
    let times = times_of(alloc, generated.sent.sets())?;
    tell_packets(
        rt,
        alloc,
        profile,
        &generated,
        packets,
        times.as_slice(),
        gate,
    )
}

/// The same of these packets, and the times of the script's sets.
fn tell_packets<R: Threads + Sync, G: BandGate + Sync>(
    rt: &R,
    alloc: Global,
    profile: ProfileName,
    generated: &Generated,
    packets: &[[u8; 188]],
    times: &[u64],
    gate: &G,
) -> Result<Told, NoMemory>
    requires profile { IsCompiledFor profile }
    requires of { AreOf profile generated.now packets.now times.now }
    ensures { IfOk result (AreToldAs profile generated.now packets.now) }
{
    let count = packets.len();
    let peak = peak_of(alloc, profile, packets)?;
    let whole = enter(rt, alloc, profile, generated, packets, times, 0, gate)?;
    let third = enter(
        rt,
        alloc,
        profile,
        generated,
        packets,
        times,
        count / 3,
        gate,
    )?;
    let two_thirds = enter(
        rt,
        alloc,
        profile,
        generated,
        packets,
        times,
        2 * count / 3,
        gate,
    )?;
    Ok(Told {
        sets: times.len() as u64,
        packets: count as u64,
        peak,
        whole,
        third,
        two_thirds,
    })
}

/// The packets that stand in bytes.
fn packets_of(bytes: &[u8]) -> &[[u8; 188]]
    ensures { result.now ≡ whole_packets bytes.now }
{
    let (packets, _) = bytes.as_chunks::<188>();
    packets
}

/// Receives the packets behind so many, and compares the pictures that are shown with the authored
/// ones from the entry set on.
fn enter<R: Threads + Sync, G: BandGate + Sync>(
    rt: &R,
    alloc: Global,
    profile: ProfileName,
    generated: &Generated,
    packets: &[[u8; 188]],
    times: &[u64],
    missed: usize,
    gate: &G,
) -> Result<Entry, NoMemory>
    requires of { AreOf profile generated.now packets.now times.now }
    requires within { missed ≤ length packets.now }
    ensures { IfOk result (λ entry. entry ≡ entry_behind generated.now missed) }
{
    let sent = &generated.sent;
    let Some(first) = entry_of(sent.sets(), sent.schedule(), missed as u64) else {
        return Ok(Entry {
            missed: missed as u64,
            time: None,
        });
    };
    let ticks = times_from(times, first);
    let same = shows_authored(
        rt,
        alloc,
        profile,
        &generated.script,
        packets_behind(packets, missed),
        ticks,
        gate,
    )?;
    // It is proved that they are the same.
    if !same {
        unreachable!()
    }
    Ok(Entry {
        missed: missed as u64,
        time: first_time(ticks),
    })
}

/// The packets behind so many.
fn packets_behind(packets: &[[u8; 188]], missed: usize) -> &[[u8; 188]]
    requires { missed ≤ length packets.now }
    ensures { result.now ≡ drop missed packets.now }
{
    &packets[missed..]
}

/// The times from a place on.
fn times_from(times: &[u64], first: usize) -> &[u64]
    requires { first ≤ length times.now }
    ensures { result.now ≡ drop first times.now }
{
    &times[first..]
}

/// The first of the times.
fn first_time(times: &[u64]) -> Option<u64>
    ensures { result ≡ slice_get times.now 0 }
{
    match times {
        [] => None,
        [first, ..] => Some(*first),
    }
}

/// The times of the sets.
fn times_of(alloc: Global, sets: &[PlannedSet]) -> Result<Vec<u64>, AllocError>
    ensures { IfOk result
        (λ times. times.items ≡ map (λ (set : PlannedSet). set.pts) sets.now) }
{
    let mut times = Vec::new(alloc);
    for set in sets {
        times.push(set.pts)?;
    }
    Ok(times)
}

/// Puts out what is told, in lines.
fn put_told<K: Sink>(out: &mut K, buffer: &mut TextBuffer, told: Told)
    ensures { PutsOut
        (K.received out.old)
        (K.received out.new)
        buffer.old buffer.new (told_lines told) }
{
    put(out, buffer, number_line("sets", told.sets).as_bytes());
    put(out, buffer, number_line("packets", told.packets).as_bytes());
    put(out, buffer, number_line("peak", told.peak).as_bytes());
    put_entry(out, buffer, told.whole);
    put_entry(out, buffer, told.third);
    put_entry(out, buffer, told.two_thirds);
}

/// Puts out the line of an entry.
fn put_entry<K: Sink>(out: &mut K, buffer: &mut TextBuffer, entry: Entry)
    ensures { PutsOut
        (K.received out.old)
        (K.received out.new)
        buffer.old buffer.new (entry_line_of entry.missed entry.time) }
{
    put(out, buffer, entry_line(entry.missed, entry.time).as_bytes());
}
