//! What tells of the pictures of all sets.

ghost use Rattle.std.specs.Prelude.{◌≡◌, ◌≤◌, IsSome, Some, [], true};
ghost use Rattle.decoder_model.specs.declared.set_end.SetEnd.TheVariants.{Shown};
ghost use Rattle.display_sets.specs.Gathered.{first_ready, ready_sets, sets_behind};
ghost use Rattle.receiver.specs.Receiving.{IsSame};
ghost use Rattle.receiver.specs.Taking.{AllTaken, HasNext};
ghost use Rattle.stream_report.specs.PicturesText.{alone, end_before};
ghost use Rattle.stream_report.specs.Private.Picturing.{IsUntilIn, IsUntilWith, PicturesOn, PutsTicks};

use command_text::TextBuffer;
use decoder_model::{Pages, SetEnd};
use dump_text::put_shown;
use packet_source::PacketSource;
use packet_walk::{Refused, WalkEnd};
use page_core::Core;
use receiver::Receiver;
use std::alloc::Global;
use std::marker::Model;
use std::thread::Threads;
use stream_syntax::PacketFault;
use sub_base::{BandGate, NoMemory, Profile, Sink, Source};

/// A receiver, and when what its last kept set shows is timed out. The text of a set's own time is
/// put out as the set is taken, and that of the end of its time-out once a later set is there, or
/// the stream has ended.
#[derive(Drop)]
pub(crate) struct Pictures {
    bands: u32,
    receiver: Receiver,
    until: Option<u64>,
}

impl Model for Pictures {
    ghost use Rattle.stream_report.specs.Private.Picturing.{IsPicturing, Picturing};

    ghost Value = { Picturing };

    ghost view = { λ p. record { receiving = p.receiver; bands = p.bands; until = p.until } };

    ghost invariant = { λ p. IsPicturing (record {
      receiving = p.receiver;
      bands = p.bands;
      until = p.until;
    }) };
}

impl Pictures {
    ghost use Rattle.std.specs.Prelude.{◌≡◌, ◌+◌, ◌<◌, ◌≤◌, ◌^◌, ◌++◌, ℕ, true, false};
    ghost use Rattle.std.specs.Prelude.{List, [], length, slice_index_or, take};
    ghost use Rattle.std.specs.Prelude.{IfErr, IfOk, MatchResult, None, OnErr, OnOk, Some};
    ghost use Rattle.command_text.specs.Putting.{PutsOut};
    ghost use Rattle.packet_source.specs.InHand.{nothing_read};
    ghost use Rattle.packet_source.specs.Packets.{HasGivenInHand};
    ghost use Rattle.packet_source.specs.declared.limits.TheConstants.{STREAM_LIMIT};
    ghost use Rattle.packet_walk.specs.Told.{StaysTold, Tells, TellsOne};
    ghost use Rattle.packet_walk.specs.Walking.{IsEnd};
    ghost use Rattle.receiver.specs.Receiving.{IsSame, reception};
    ghost use Rattle.stream_report.specs.Private.Picturing.{HasPictured, pictures_tell};
    ghost use Rattle.stream_syntax.specs.TransportPackets.{packet_fault};
    ghost use Rattle.sub_base.specs.Endpoints.{Supplied};

    /// A receiver of a profile for a PID and these pages, which draws in so many bands, 1 to 64.
    /// Its lifted times begin at 0. All memory is taken here.
    pub(crate) fn make(
        alloc: Global,
        bands: u32,
        profile: &Profile,
        pid: u16,
        pages: Pages,
    ) -> Result<Pictures, NoMemory>
        requires some { 1 ≤ bands }
        requires few { bands ≤ 64 }
        requires coded { profile.now.coded < 2 ^ 32 }
        requires nodes { profile.now.nodes < 2 ^ 31 }
        ensures made { IfOk result (λ pictures. reception pictures.receiving
            ≡ record { profile = profile.now; pid = pid; pages = pages; anchor = 0 }) }
        ensures nothing { IfOk result (λ pictures. HasPictured pictures [] []) }
    {
        Ok(Pictures {
            bands,
            receiver: Receiver::of_pages(alloc, profile, pid, pages, 0)?,
            until: None,
        })
    }

    /// Takes the packets of a stream, those of one read after the other, up to its end or to what
    /// stops the walk. Text may wait in the buffer then.
    pub(crate) fn walk<R, G, A, K>(
        &mut self,
        rt: &R,
        gate: &G,
        stream: &mut A,
        out: &mut K,
        buffer: &mut TextBuffer,
        packets: &mut PacketSource,
    ) -> WalkEnd
    where
        R: Threads + Sync,
        G: BandGate + Sync,
        A: Source,
        K: Sink,
        requires buffer { buffer.old ≡ record { waits = []; failed = false } }
        requires stands { HasPictured self.old [] [] }
        requires nothing { packets.old ≡ nothing_read }
        requires source { (now : Supplied) → HasGivenInHand now now packets.old [] }
        ensures same { IsSame self.old.receiving self.new.receiving }
        ensures end { IsEnd (HasPictured self.new) (reception self.old.receiving).pid
            (A.supplied stream.old)
            (A.supplied stream.new)
            (K.received out.old)
            (K.received out.new)
            buffer.new result }
    {
        loop {
            if let Err(end) = packets.fill(stream) {
                return WalkEnd::Stream(end);
            }
            let first = packets.first();
            if let Err(refused) = self.take_packets(
                rt,
                gate,
                out,
                buffer,
                first,
                packets.packets(),
            ) {
                return WalkEnd::Refused(refused);
            }
            if buffer.has_failed() {
                return WalkEnd::Unwritten;
            }
        }
    }

    /// Takes packets, the first of that place, up to one that cannot be taken.
    fn take_packets<R: Threads + Sync, G: BandGate + Sync, K: Sink>(
        &mut self,
        rt: &R,
        gate: &G,
        out: &mut K,
        buffer: &mut TextBuffer,
        first: u64,
        packets: &[[u8; 188]],
    ) -> Result<(), Refused>
        requires within { first + length packets.now ≤ STREAM_LIMIT }
        ensures same { IsSame self.old.receiving self.new.receiving }
        ensures tells { OnOk result (Tells HasPictured (reception self.old.receiving).pid
            (K.received out.old)
            (K.received out.new)
            self.old self.new buffer.old buffer.new first packets.now) }
        ensures refused { IfErr result (λ refused.
            (k : ℕ) × (k < length packets.now) × (refused.packet ≡ first + k)
            × (packet_fault (reception self.old.receiving).pid (slice_index_or packets.now k [])
            ≡ Some refused.fault)
            × Tells HasPictured (reception self.old.receiving).pid
            (K.received out.old)
            (K.received out.new)
            self.old self.new buffer.old buffer.new first (take k packets.now)) }
    {
        let mut place = first;
        for packet in packets {
            if let Err(fault) = self.take_packet(rt, gate, out, buffer, packet) {
                return Err(Refused {
                    packet: place,
                    fault,
                });
            }
            place += 1;
        }
        Ok(())
    }

    /// Takes the next packet, and puts out the texts of the sets that come with it. A packet that
    /// cannot be taken changes nothing.
    fn take_packet<R: Threads + Sync, G: BandGate + Sync, K: Sink>(
        &mut self,
        rt: &R,
        gate: &G,
        out: &mut K,
        buffer: &mut TextBuffer,
        packet: &[u8; 188],
    ) -> Result<(), PacketFault>
        ensures fault { MatchResult result
            (λ _. packet_fault (reception self.old.receiving).pid packet.now ≡ None)
            (λ fault. packet_fault (reception self.old.receiving).pid packet.now ≡ Some fault) }
        ensures same { IsSame self.old.receiving self.new.receiving }
        ensures told { OnOk result ((place : ℕ) → TellsOne HasPictured
            (K.received out.old)
            (K.received out.new)
            self.old self.new buffer.old buffer.new place packet.now) }
        ensures kept { OnErr result (StaysTold HasPictured
            (K.received out.old)
            (K.received out.new)
            self.old self.new buffer.old buffer.new) }
    {
        self.receiver.feed(packet)?;
        self.until = take_ready(
            rt,
            gate,
            self.bands,
            out,
            buffer,
            &mut self.receiver,
            self.until,
        );
        Ok(())
    }

    /// The stream has ended: puts out the texts of the sets that are left, and of the end of the
    /// last time-out.
    pub(crate) fn finish<R: Threads + Sync, G: BandGate + Sync, K: Sink>(
        &mut self,
        rt: &R,
        gate: &G,
        out: &mut K,
        buffer: &mut TextBuffer,
    )
        ensures { (packets : List (List ℕ)) (text : List ℕ) → HasPictured self.old packets text
            → (more : List ℕ) × pictures_tell self.old true packets (text ++ more)
            × PutsOut (K.received out.old) (K.received out.new) buffer.old buffer.new more }
    {
        self.receiver.finish();
        self.until = take_ready(
            rt,
            gate,
            self.bands,
            out,
            buffer,
            &mut self.receiver,
            self.until,
        );
        put_alone(out, buffer, &self.receiver, self.until);
    }
}

/// Takes the sets that are ready, one after the other, and puts out their texts. Answers when what
/// the last kept set shows is timed out.
fn take_ready<R: Threads + Sync, G: BandGate + Sync, K: Sink>(
    rt: &R,
    gate: &G,
    bands: u32,
    out: &mut K,
    buffer: &mut TextBuffer,
    receiver: &mut Receiver,
    until: Option<u64>,
) -> Option<u64>
    requires some { 1 ≤ bands }
    requires few { bands ≤ 64 }
    ensures pictures { PicturesOn
        (K.received out.old)
        (K.received out.new)
        receiver.old receiver.new until result buffer.old buffer.new }
    ensures none { ready_sets receiver.new.sets ≡ [] }
    ensures all { AllTaken receiver.new }
    ensures same { IsSame receiver.old receiver.new }
{
    let mut until = until;
    while let Some(_) = receiver.ready() {
        until = take_next(rt, gate, bands, out, buffer, receiver, until);
    }
    until
}

/// The same of one set.
fn take_next<R: Threads + Sync, G: BandGate + Sync, K: Sink>(
    rt: &R,
    gate: &G,
    bands: u32,
    out: &mut K,
    buffer: &mut TextBuffer,
    receiver: &mut Receiver,
    until: Option<u64>,
) -> Option<u64>
    requires some { 1 ≤ bands }
    requires few { bands ≤ 64 }
    requires ready { IsSome (first_ready (ready_sets receiver.old.sets)) }
    requires next { HasNext receiver.old }
    ensures pictures { PicturesOn
        (K.received out.old)
        (K.received out.new)
        receiver.old receiver.new until result buffer.old buffer.new }
    ensures left { ready_sets receiver.new.sets ≡ sets_behind (ready_sets receiver.old.sets) }
    ensures same { IsSame receiver.old receiver.new }
{
    let time = receiver.ready_at();
    put_end(out, buffer, receiver, time, until);
    let end = receiver.take(rt, bands, gate);
    put_alone(out, buffer, receiver, time);
    until_with(receiver.core(), until, time, end)
}

/// Puts out the text of the end of a time-out, where it comes before a set with that lifted time.
fn put_end<K: Sink>(
    out: &mut K,
    buffer: &mut TextBuffer,
    receiver: &Receiver,
    time: Option<u64>,
    until: Option<u64>,
)
    ensures { PutsTicks receiver.now
        (K.received out.old)
        (K.received out.new)
        buffer.old buffer.new (end_before time until) }
{
    if let Some(time) = time {
        put_sooner(out, buffer, receiver, time, until);
    }
}

/// The same before that time.
fn put_sooner<K: Sink>(
    out: &mut K,
    buffer: &mut TextBuffer,
    receiver: &Receiver,
    time: u64,
    until: Option<u64>,
)
    ensures { PutsTicks receiver.now
        (K.received out.old)
        (K.received out.new)
        buffer.old buffer.new (end_before (Some time) until) }
{
    if let Some(until) = until {
        if until < time {
            put_shown(out, buffer, receiver, until);
        }
    }
}

/// Puts out the text of a tick, where there is one.
fn put_alone<K: Sink>(out: &mut K, buffer: &mut TextBuffer, receiver: &Receiver, tick: Option<u64>)
    ensures { PutsTicks receiver.now
        (K.received out.old)
        (K.received out.new)
        buffer.old buffer.new (alone tick) }
{
    if let Some(tick) = tick {
        put_shown(out, buffer, receiver, tick);
    }
}

/// When what the last kept set shows is timed out, once a set with that lifted time and end was
/// taken: a set that is not kept changes nothing.
fn until_with(core: &Core, until: Option<u64>, time: Option<u64>, end: SetEnd) -> Option<u64>
    requires known { end ≡ Shown → core.now.known ≡ true }
    ensures { IsUntilWith core.now until time end result }
{
    match time {
        None => until,
        Some(_) => until_in(core, end),
    }
}

/// When what a kept set with that end shows is timed out.
fn until_in(core: &Core, end: SetEnd) -> Option<u64>
    requires known { end ≡ Shown → core.now.known ≡ true }
    ensures { IsUntilIn core.now end result }
{
    if let SetEnd::Shown = end {
        core.scene().until()
    } else {
        None
    }
}
