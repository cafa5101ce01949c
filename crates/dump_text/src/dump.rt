//! What tells of the pictures of a stream.

ghost use Rattle.std.specs.Prelude.{◌≡◌, ◌≤◌, IsSome, [], length};
ghost use Rattle.std.specs.List.Sorted.{IsStrictlyIncreasing};
ghost use Rattle.display_sets.specs.Gathered.{first_ready, ready_sets, sets_behind};
ghost use Rattle.dump_text.specs.DumpText.{anchor_of};
ghost use Rattle.receiver.specs.Asking.{AllTaken, HasNext, IsSame, KeepsSets};
ghost use Rattle.dump_text.specs.Dumping.{DumpsOn, Settles};

use crate::pictures::{put_before, put_rest};
use command_text::TextBuffer;
use decoder_model::Pages;
use packet_source::PacketSource;
use packet_walk::{Refused, WalkEnd};
use receiver::AskedReceiver;
use std::alloc::Global;
use std::marker::Model;
use std::thread::Threads;
use stream_syntax::{HALF_ROUND, PacketFault};
use sub_base::{BandGate, NoMemory, Profile, Sink, Source};

/// A receiver, and the ticks at which it is to be told what it shows. The text of a tick is put out
/// as soon as a set with a later time is there, and those of the others at the end of the stream.
/// So the page memory has what is shown at a tick that is told, and a picture is drawn for a tick
/// that is asked for.
#[derive(Drop)]
pub struct Dump<'a> {
    bands: u32,
    receiver: AskedReceiver,
    /// The asked ticks, which rise, and how many of them were told.
    ticks: &'a [u64],
    told: usize,
}

impl<'a> Model for Dump<'a> {
    ghost use Rattle.dump_text.specs.Dumping.{Dumping, IsDumping};

    ghost Value = { Dumping };

    ghost view = { λ d. record {
      receiving = d.receiver;
      bands = d.bands;
      ticks = d.ticks.now;
      told = d.told;
    } };

    ghost invariant = { λ d. IsDumping (record {
      receiving = d.receiver;
      bands = d.bands;
      ticks = d.ticks.now;
      told = d.told;
    }) };
}

impl<'a> Dump<'a> {
    ghost use Rattle.std.specs.Prelude.{◌≡◌, ◌+◌, ◌<◌, ◌≤◌, ◌^◌, ◌++◌, ℕ, Bool, true, false};
    ghost use Rattle.std.specs.Prelude.{List, [], length, slice_index_or, take};
    ghost use Rattle.std.specs.Prelude.{IfErr, IfOk, MatchResult, None, OnErr, OnOk, Some};
    ghost use Rattle.command_text.specs.Putting.{PutsOut};
    ghost use Rattle.packet_source.specs.InHand.{nothing_read};
    ghost use Rattle.packet_source.specs.Packets.{HasGivenInHand};
    ghost use Rattle.packet_source.specs.declared.limits.TheConstants.{STREAM_LIMIT};
    ghost use Rattle.packet_walk.specs.Told.{StaysTold, Tells, TellsOne};
    ghost use Rattle.packet_walk.specs.Walking.{IsEnd};
    ghost use Rattle.stream_syntax.specs.TransportPackets.{packet_fault};
    ghost use Rattle.sub_base.specs.Endpoints.{Supplied};
    ghost use Rattle.receiver.specs.Asking.{reception};
    ghost use Rattle.dump_text.specs.DumpText.{IsDumpText, asked_for};
    ghost use Rattle.dump_text.specs.Dumping.{AreAsked, HasDumped, IsSameDump};

    /// A receiver of a profile for a PID and these pages, which draws in so many bands, 1 to 64.
    /// Its lifted times begin at the first of the ticks, which rise, less 2^32. All memory is taken
    /// here.
    pub fn make(
        alloc: Global,
        bands: u32,
        profile: &Profile,
        pid: u16,
        pages: Pages,
        ticks: &'a [u64],
    ) -> Result<Dump<'a>, NoMemory>
        requires asked { AreAsked bands ticks.now }
        requires coded { profile.now.coded < 2 ^ 32 }
        requires nodes { profile.now.nodes < 2 ^ 31 }
        requires anchor { anchor_of ticks.now < 2 ^ 34 }
        ensures made { IfOk result (λ dump. reception dump.receiving
            ≡ asked_for profile.now pid pages ticks.now) }
        ensures ticks { IfOk result (λ dump. dump.ticks ≡ ticks.now) }
        ensures nothing { IfOk result (λ dump. HasDumped dump [] []) }
    {
        Ok(Dump {
            bands,
            receiver: AskedReceiver::make(alloc, profile, pid, pages, anchor(ticks))?,
            ticks,
            told: 0,
        })
    }

    /// Takes the packets of a stream, those of one read after the other, up to its end or to what
    /// stops the walk. Text may wait in the buffer then.
    pub fn walk<R, G, A, K>(
        &mut self,
        rt: &R,
        gate: &G,
        stream: &mut A,
        out: &mut K,
        buffer: &mut TextBuffer,
        packets: &mut PacketSource,
    ) -> WalkEnd
    where
        R: Threads + Sync,
        G: BandGate + Sync,
        A: Source,
        K: Sink,
        requires buffer { buffer.old ≡ record { waits = []; failed = false } }
        requires stands { HasDumped self.old [] [] }
        requires nothing { packets.old ≡ nothing_read }
        requires source { (now : Supplied) → HasGivenInHand now now packets.old [] }
        ensures same { IsSameDump self.old self.new }
        ensures end { IsEnd (HasDumped self.new) (reception self.old.receiving).pid
            (A.supplied stream.old)
            (A.supplied stream.new)
            (K.received out.old)
            (K.received out.new)
            buffer.new result }
    {
        loop {
            if let Err(end) = packets.fill(stream) {
                return WalkEnd::Stream(end);
            }
            let first = packets.first();
            if let Err(refused) = self.take_packets(
                rt,
                gate,
                out,
                buffer,
                first,
                packets.packets(),
            ) {
                return WalkEnd::Refused(refused);
            }
            if buffer.has_failed() {
                return WalkEnd::Unwritten;
            }
        }
    }

    /// Takes packets, the first of that place, up to one that cannot be taken.
    pub fn take_packets<R: Threads + Sync, G: BandGate + Sync, K: Sink>(
        &mut self,
        rt: &R,
        gate: &G,
        out: &mut K,
        buffer: &mut TextBuffer,
        first: u64,
        packets: &[[u8; 188]],
    ) -> Result<(), Refused>
        requires within { first + length packets.now ≤ STREAM_LIMIT }
        ensures same { IsSameDump self.old self.new }
        ensures tells { OnOk result (Tells HasDumped (reception self.old.receiving).pid
            (K.received out.old)
            (K.received out.new)
            self.old self.new buffer.old buffer.new first packets.now) }
        ensures refused { IfErr result (λ refused.
            (k : ℕ) × (k < length packets.now) × (refused.packet ≡ first + k)
            × (packet_fault (reception self.old.receiving).pid (slice_index_or packets.now k [])
            ≡ Some refused.fault)
            × Tells HasDumped (reception self.old.receiving).pid
            (K.received out.old)
            (K.received out.new)
            self.old self.new buffer.old buffer.new first (take k packets.now)) }
    {
        let mut place = first;
        for packet in packets {
            if let Err(fault) = self.take_packet(rt, gate, out, buffer, packet) {
                return Err(Refused {
                    packet: place,
                    fault,
                });
            }
            place += 1;
        }
        Ok(())
    }

    /// Takes the next packet, and puts out the texts of the ticks that are settled with it. A
    /// packet that cannot be taken changes nothing.
    fn take_packet<R: Threads + Sync, G: BandGate + Sync, K: Sink>(
        &mut self,
        rt: &R,
        gate: &G,
        out: &mut K,
        buffer: &mut TextBuffer,
        packet: &[u8; 188],
    ) -> Result<(), PacketFault>
        ensures fault { MatchResult result
            (λ _. packet_fault (reception self.old.receiving).pid packet.now ≡ None)
            (λ fault. packet_fault (reception self.old.receiving).pid packet.now ≡ Some fault) }
        ensures same { IsSameDump self.old self.new }
        ensures told { OnOk result ((place : ℕ) → TellsOne HasDumped
            (K.received out.old)
            (K.received out.new)
            self.old self.new buffer.old buffer.new place packet.now) }
        ensures kept { OnErr result (StaysTold HasDumped
            (K.received out.old)
            (K.received out.new)
            self.old self.new buffer.old buffer.new) }
    {
        self.receiver.feed(rt, self.bands, gate, packet)?;
        self.told = take_ready(
            rt,
            gate,
            self.bands,
            out,
            buffer,
            &mut self.receiver,
            self.ticks,
            self.told,
        );
        Ok(())
    }

    /// The stream has ended: puts out the texts of all ticks that were not told.
    pub fn finish<R: Threads + Sync, G: BandGate + Sync, K: Sink>(
        &mut self,
        rt: &R,
        gate: &G,
        out: &mut K,
        buffer: &mut TextBuffer,
    )
        ensures { (packets : List (List ℕ)) (text : List ℕ) → HasDumped self.old packets text
            → (more : List ℕ)
            × IsDumpText (reception self.old.receiving) self.old.ticks true packets
            (text ++ more)
            × PutsOut (K.received out.old) (K.received out.new) buffer.old buffer.new more }
    {
        self.receiver.finish();
        self.told = take_ready(
            rt,
            gate,
            self.bands,
            out,
            buffer,
            &mut self.receiver,
            self.ticks,
            self.told,
        );
        put_rest(
            rt,
            gate,
            self.bands,
            out,
            buffer,
            &mut self.receiver,
            self.ticks,
            self.told,
        );
    }
}

/// Where lifted times begin: at the first tick less 2^32, or at 0.
fn anchor(ticks: &[u64]) -> u64
    ensures { result ≡ anchor_of ticks.now }
{
    match ticks.first() {
        None => 0,
        Some(tick) => tick.saturating_sub(HALF_ROUND),
    }
}

/// Takes the sets that are ready, one after the other. Before each, puts out the texts of the ticks
/// from a place on that it settles. Answers how many ticks were told.
fn take_ready<R: Threads + Sync, G: BandGate + Sync, K: Sink>(
    rt: &R,
    gate: &G,
    bands: u32,
    out: &mut K,
    buffer: &mut TextBuffer,
    receiver: &mut AskedReceiver,
    ticks: &[u64],
    told: usize,
) -> usize
    requires some { 1 ≤ bands }
    requires few { bands ≤ 64 }
    requires rising { IsStrictlyIncreasing ticks.now }
    requires within { told ≤ length ticks.now }
    ensures dumps { DumpsOn (K.received out.old) (K.received out.new) receiver.old receiver.new
        ticks.now told result buffer.old buffer.new }
    ensures none { ready_sets receiver.new.sets ≡ [] }
    ensures all { AllTaken receiver.new }
    ensures within { result ≤ length ticks.now }
    ensures same { IsSame receiver.old receiver.new }
{
    let mut told = told;
    while let Some(_) = receiver.ready() {
        told = take_next(rt, gate, bands, out, buffer, receiver, ticks, told);
    }
    told
}

/// The same of one set.
fn take_next<R: Threads + Sync, G: BandGate + Sync, K: Sink>(
    rt: &R,
    gate: &G,
    bands: u32,
    out: &mut K,
    buffer: &mut TextBuffer,
    receiver: &mut AskedReceiver,
    ticks: &[u64],
    told: usize,
) -> usize
    requires some { 1 ≤ bands }
    requires few { bands ≤ 64 }
    requires ready { IsSome (first_ready (ready_sets receiver.old.sets)) }
    requires next { HasNext receiver.old }
    requires rising { IsStrictlyIncreasing ticks.now }
    requires within { told ≤ length ticks.now }
    ensures dumps { DumpsOn (K.received out.old) (K.received out.new) receiver.old receiver.new
        ticks.now told result buffer.old buffer.new }
    ensures left { ready_sets receiver.new.sets ≡ sets_behind (ready_sets receiver.old.sets) }
    ensures within { result ≤ length ticks.now }
    ensures same { IsSame receiver.old receiver.new }
{
    let time = receiver.ready_at();
    let told = put_settled(rt, gate, bands, out, buffer, receiver, ticks, told, time);
    receiver.take();
    told
}

/// Puts out the texts of the ticks from a place on that a set with that lifted time settles: those
/// before it, since what is shown then does not change with the set. Answers how many ticks were
/// told.
fn put_settled<R: Threads + Sync, G: BandGate + Sync, K: Sink>(
    rt: &R,
    gate: &G,
    bands: u32,
    out: &mut K,
    buffer: &mut TextBuffer,
    receiver: &mut AskedReceiver,
    ticks: &[u64],
    told: usize,
    time: Option<u64>,
) -> usize
    requires some { 1 ≤ bands }
    requires few { bands ≤ 64 }
    requires rising { IsStrictlyIncreasing ticks.now }
    requires within { told ≤ length ticks.now }
    ensures settles { Settles receiver.old
        (K.received out.old)
        (K.received out.new)
        buffer.old buffer.new ticks.now told result time }
    ensures within { result ≤ length ticks.now }
    ensures keeps { KeepsSets receiver.old receiver.new }
{
    match time {
        None => told,
        Some(time) => put_before(rt, gate, bands, out, buffer, receiver, ticks, told, time),
    }
}
