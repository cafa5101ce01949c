//! What tells of the sets and levels of a stream whose packets arrive by the samples of a clock.

use crate::anchored_meter::AnchoredMeter;
use crate::held::{HeldPacket, Run, hold_own};
use crate::packet_check::check_packet;
use command_text::TextBuffer;
use decoder_model::Pages;
use pcr_clock::{MOST_BETWEEN, NextSample, last_tick, tick_of_time, time_behind};
use std::alloc::Global;
use std::marker::Model;
use stream_syntax::PacketFault;
use sub_base::{NoMemory, Profile, Sink};

/// A receiver without pictures, with a meter of its coded data buffer, to which packets come by the
/// samples of a clock that some of them carry: evenly between two samples (ISO/IEC 13818-1,
/// 2.4.2.2). So packets wait until the next sample comes, or until it is too far for that: they are
/// counted, and those of the receiver's PID among them, which alone bring it anything, are held.
#[derive(Drop)]
pub struct ClockLevels {
    meter: AnchoredMeter,
    held: Vec<HeldPacket>,
    last: Option<u64>,
    since: u64,
    waiting: u64,
}

impl Model for ClockLevels {
    ghost use Rattle.std.specs.Prelude.{◌≤◌, vec_capacity};
    ghost use Rattle.pcr_clock.specs.declared.arrival.TheConstants.{MOST_BETWEEN};
    ghost use Rattle.level_text.specs.Clocking.{Clocking, IsClocking};

    ghost Value = { Clocking };

    ghost view = { λ c. record {
      meter = c.meter;
      held = c.held.items;
      last = c.last;
      since = c.since;
      waiting = c.waiting;
    } };

    ghost invariant = { λ c. IsClocking (record {
      meter = c.meter;
      held = c.held.items;
      last = c.last;
      since = c.since;
      waiting = c.waiting;
    })
        × (MOST_BETWEEN ≤ vec_capacity c.held) };
}

impl ClockLevels {
    ghost use Rattle.std.specs.Prelude.{◌≡◌, ◌+◌, ◌<◌, ◌≤◌, [], false};
    ghost use Rattle.std.specs.Prelude.{IfErr, IfOk, IfSome, MatchResult, None, OnErr, OnOk, Some};
    ghost use Rattle.command_text.specs.Putting.{PutsOut};
    ghost use Rattle.packet_source.specs.declared.limits.TheConstants.{STREAM_LIMIT};
    ghost use Rattle.pcr_clock.specs.declared.arrival.TheConstants.{MOST_BETWEEN};
    ghost use Rattle.pcr_clock.specs.declared.sample.TheConstants.{CLOCK_LIMIT};
    ghost use Rattle.stream_syntax.specs.TransportPackets.{packet_fault};
    ghost use Rattle.sub_base.specs.Profile.{IsProfile};
    ghost use Rattle.level_text.specs.Clocking.{FinishesClocked, HasClocked, Holds, TakesSampled};

    /// A receiver of a profile, with or without a step, for a PID and these pages, of a stream of
    /// which no packet came. Its lifted times begin when the first packet arrives. The memory for
    /// packets that are held is taken here, 12 MiB, and that of the receiver once the tick of the
    /// first packet is known.
    pub fn make(
        alloc: Global,
        profile: &Profile,
        pid: u16,
        pages: Pages,
    ) -> Result<ClockLevels, NoMemory>
        requires profile { IsProfile profile.now }
        ensures asked { IfOk result (λ levels. levels.meter.asked
            ≡ record { profile = profile.now; pid = pid; pages = pages; anchor = 0 }) }
        ensures nothing { IfOk result (λ levels. HasClocked levels [] [] []) }
    {
        Ok(ClockLevels {
            meter: AnchoredMeter::new(alloc, profile, pid, pages),
            held: Vec::with_capacity(alloc, MOST_BETWEEN as usize)?,
            last: None,
            since: 0,
            waiting: 0,
        })
    }

    /// The PID of the packets.
    pub(crate) fn pid(&self) -> u16
        ensures { result ≡ self.now.meter.asked.pid }
    {
        self.meter.pid()
    }

    /// Whether no memory was found for the receiver.
    pub fn is_wanting(&self) -> bool
        ensures { result ≡ self.now.meter.is_wanting }
    {
        self.meter.is_wanting()
    }

    /// Takes the next packet, with the sample of the clock that it carries, in units of 27 MHz, and
    /// puts out the lines of the sets that come with packets whose tick is known by it. A packet
    /// that cannot be taken changes nothing.
    pub fn take<K: Sink>(
        &mut self,
        out: &mut K,
        buffer: &mut TextBuffer,
        sample: Option<u64>,
        packet: &[u8; 188],
    ) -> Result<(), PacketFault>
        requires few { self.old.since + self.old.waiting < STREAM_LIMIT }
        requires sample { IfSome sample (λ sample. sample < CLOCK_LIMIT) }
        ensures fault { MatchResult result
            (λ _. packet_fault self.old.meter.asked.pid packet.now ≡ None)
            (λ fault. packet_fault self.old.meter.asked.pid packet.now ≡ Some fault) }
        ensures asked { self.new.meter.asked ≡ self.old.meter.asked }
        ensures told { OnOk result (TakesSampled
            (K.received out.old)
            (K.received out.new)
            self.old self.new buffer.old buffer.new sample packet.now) }
        ensures unchanged { IfErr result (λ _. self.new ≡ self.old) }
        ensures nothing { OnErr result (PutsOut
            (K.received out.old)
            (K.received out.new)
            buffer.old buffer.new []) }
    {
        check_packet(self.meter.pid(), packet)?;
        match sample {
            Some(sample) => self.take_sampled(out, buffer, sample, packet),
            None => self.take_unsampled(out, buffer, packet),
        }
        Ok(())
    }

    /// Takes a packet with a sample: with it the ticks of those that wait are known.
    fn take_sampled<K: Sink>(
        &mut self,
        out: &mut K,
        buffer: &mut TextBuffer,
        sample: u64,
        packet: &[u8; 188],
    )
        requires few { self.old.since + self.old.waiting < STREAM_LIMIT }
        requires sample { sample < CLOCK_LIMIT }
        requires faultless { packet_fault self.old.meter.asked.pid packet.now ≡ None }
        ensures asked { self.new.meter.asked ≡ self.old.meter.asked }
        ensures told { TakesSampled
            (K.received out.old)
            (K.received out.new)
            self.old self.new buffer.old buffer.new (Some sample) packet.now }
    {
        let next = NextSample {
            behind: self.since + self.waiting,
            time: time_behind(self.last, sample),
        };
        let run = Run {
            last: self.last,
            since: self.since,
            count: self.waiting,
            next: Some(next),
        };
        self.meter.take_run(out, buffer, run, &self.held);
        self.meter
            .take(out, buffer, tick_of_time(next.time), packet);
        self.held.clear();
        self.last = Some(next.time);
        self.since = 1;
        self.waiting = 0;
    }

    /// Takes a packet without a sample: it waits, where the next sample may be near enough.
    fn take_unsampled<K: Sink>(&mut self, out: &mut K, buffer: &mut TextBuffer, packet: &[u8; 188])
        requires few { self.old.since + self.old.waiting < STREAM_LIMIT }
        requires faultless { packet_fault self.old.meter.asked.pid packet.now ≡ None }
        ensures asked { self.new.meter.asked ≡ self.old.meter.asked }
        ensures told { TakesSampled
            (K.received out.old)
            (K.received out.new)
            self.old self.new buffer.old buffer.new None packet.now }
    {
        if self.since + self.waiting < MOST_BETWEEN {
            self.hold(packet);
        } else {
            self.take_far(out, buffer, packet);
        }
    }

    /// A packet without a sample waits, and is held where it is of the PID.
    fn hold(&mut self, packet: &[u8; 188])
        requires room { self.old.since + self.old.waiting < MOST_BETWEEN }
        requires faultless { packet_fault self.old.meter.asked.pid packet.now ≡ None }
        ensures asked { self.new.meter.asked ≡ self.old.meter.asked }
        ensures told { Holds self.old self.new packet.now }
    {
        let pid = self.meter.pid();
        hold_own(
            &mut self.held,
            pid,
            (self.since + self.waiting) as u32,
            packet,
        );
        self.waiting += 1;
    }

    /// Takes a packet without a sample behind which the next one is too far: it arrives with the
    /// last sample, and so do those that wait.
    fn take_far<K: Sink>(&mut self, out: &mut K, buffer: &mut TextBuffer, packet: &[u8; 188])
        requires few { self.old.since + self.old.waiting < STREAM_LIMIT }
        requires far { MOST_BETWEEN ≤ self.old.since + self.old.waiting }
        requires faultless { packet_fault self.old.meter.asked.pid packet.now ≡ None }
        ensures asked { self.new.meter.asked ≡ self.old.meter.asked }
        ensures told { TakesSampled
            (K.received out.old)
            (K.received out.new)
            self.old self.new buffer.old buffer.new None packet.now }
    {
        let run = Run {
            last: self.last,
            since: self.since,
            count: self.waiting,
            next: None,
        };
        self.meter.take_run(out, buffer, run, &self.held);
        self.meter.take(out, buffer, last_tick(self.last), packet);
        self.held.clear();
        self.since += self.waiting + 1;
        self.waiting = 0;
    }

    /// No packet comes any more: those that wait arrive with the last sample. Puts out the lines of
    /// the sets that come with them and, where the stream has ended, of the sets that are left, of
    /// the greatest level and of the first breach. Answers whether no memory was found for the
    /// receiver: nothing was put out then.
    pub fn finish<K: Sink>(self, out: &mut K, buffer: &mut TextBuffer, ended: bool) -> bool
        ensures { FinishesClocked ended
            (K.received out.old)
            (K.received out.new)
            self result buffer.old buffer.new }
    {
        let ClockLevels {
            mut meter,
            held,
            last,
            since,
            waiting,
        } = self;
        let run = Run {
            last,
            since,
            count: waiting,
            next: None,
        };
        meter.take_run(out, buffer, run, &held);
        meter.finish(out, buffer, ended);
        meter.is_wanting()
    }
}
