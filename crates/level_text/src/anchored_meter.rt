//! A receiver with a meter, whose lifted times begin when its first packet arrives.

ghost use Rattle.std.specs.Prelude.{◌≡◌, ℕ, min, IfOk, []};
ghost use Rattle.buffer_model.specs.Ticks.{by_ticks};
ghost use Rattle.check_text.specs.Checking.{HasMetered};
ghost use Rattle.set_receiver.specs.Receiving.{reception};
ghost use Rattle.sub_base.specs.Profile.{IsProfile};
ghost use Rattle.level_text.specs.declared.anchored_meter.TheConstants.{LATEST_ANCHOR};

use crate::held::{HeldPacket, Run, take_held};
use buffer_model::Levels;
use check_text::SetMeter;
use command_text::TextBuffer;
use decoder_model::Pages;
use pcr_clock::tick_between;
use std::alloc::Global;
use std::marker::Model;
use sub_base::{NoMemory, Profile, Sink};
use ts_packets::is_of_pid;

/// The latest tick at which lifted times may begin: clocks count ticks of 90 kHz in 33 bits.
pub const LATEST_ANCHOR: u64 = 8_589_934_591;

/// A receiver without pictures, with a meter of its coded data buffer, to which packets come by the
/// tick of 90 kHz. Its lifted times begin when its first packet arrives, so that it is made then;
/// where no memory is found for it, nothing can be told.
#[derive(Drop)]
pub(crate) struct AnchoredMeter {
    alloc: Global,
    profile: Profile,
    pid: u16,
    pages: Pages,
    sets: Option<SetMeter>,
    is_wanting: bool,
}

impl Model for AnchoredMeter {
    ghost use Rattle.level_text.specs.Anchoring.{Anchoring, IsAnchoring};

    ghost Value = { Anchoring };

    ghost view = { λ m. record {
      asked = record { profile = m.profile; pid = m.pid; pages = m.pages; anchor = 0 };
      sets = m.sets;
      is_wanting = m.is_wanting;
    } };

    ghost invariant = { λ m. IsAnchoring (record {
      asked = record { profile = m.profile; pid = m.pid; pages = m.pages; anchor = 0 };
      sets = m.sets;
      is_wanting = m.is_wanting;
    }) };
}

impl AnchoredMeter {
    ghost use Rattle.std.specs.Prelude.{◌≡◌, ◌+◌, ◌<◌, ◌≤◌, ◌^◌, ◌++◌, ℕ, List, [], ◌∷◌};
    ghost use Rattle.std.specs.Prelude.{IfSome, None, false, true};
    ghost use Rattle.pcr_clock.specs.Arrivals.{IsBehind, last_tick, ticks_of_run};
    ghost use Rattle.pcr_clock.specs.declared.sample.TheConstants.{CLOCK_LIMIT};
    ghost use Rattle.stream_syntax.specs.TransportPackets.{packet_fault};
    ghost use Rattle.sub_base.specs.Profile.{IsProfile};
    ghost use Rattle.level_text.specs.Anchoring.{FinishesTimed, HasBegun, HasTimed, TakesTimed, last_told};
    ghost use Rattle.level_text.specs.Held.{AreHeld, IsRun, end_tick};

    /// What is to be a receiver of a profile, with or without a step, for a PID and these pages, to
    /// which no packet came. Its memory is taken with the first.
    pub(crate) fn new(alloc: Global, profile: &Profile, pid: u16, pages: Pages) -> AnchoredMeter
        requires profile { IsProfile profile.now }
        ensures asked { result.asked
            ≡ record { profile = profile.now; pid = pid; pages = pages; anchor = 0 } }
        ensures sets { result.sets ≡ None }
        ensures found { result.is_wanting ≡ false }
    {
        AnchoredMeter {
            alloc,
            profile: *profile,
            pid,
            pages,
            sets: None,
            is_wanting: false,
        }
    }

    /// The PID of the packets.
    pub(crate) fn pid(&self) -> u16
        ensures { result ≡ self.now.asked.pid }
    {
        self.pid
    }

    /// Whether no memory was found for the receiver.
    pub(crate) fn is_wanting(&self) -> bool
        ensures { result ≡ self.now.is_wanting }
    {
        self.is_wanting
    }

    /// Takes the next packet, which can be taken and arrives at that tick, and puts out the lines
    /// of the sets that come with it. A packet of another PID brings nothing.
    pub(crate) fn take<K: Sink>(
        &mut self,
        out: &mut K,
        buffer: &mut TextBuffer,
        tick: u64,
        packet: &[u8; 188],
    )
        requires later { last_told self.old.sets ≤ tick }
        requires small { tick < 2 ^ 62 }
        requires faultless { packet_fault self.old.asked.pid packet.now ≡ None }
        ensures asked { self.new.asked ≡ self.old.asked }
        ensures last { last_told self.new.sets ≤ tick }
        ensures told { TakesTimed
            (K.received out.old)
            (K.received out.new)
            self.old self.new buffer.old buffer.new (tick ∷ []) (packet.now ∷ []) }
    {
        if is_of_pid(self.pid, packet) {
            self.take_own(out, buffer, tick, packet);
        } else {
            self.begin(tick);
        }
    }

    /// The same of a packet of whatever PID.
    fn take_own<K: Sink>(
        &mut self,
        out: &mut K,
        buffer: &mut TextBuffer,
        tick: u64,
        packet: &[u8; 188],
    )
        requires later { last_told self.old.sets ≤ tick }
        requires small { tick < 2 ^ 62 }
        requires faultless { packet_fault self.old.asked.pid packet.now ≡ None }
        ensures asked { self.new.asked ≡ self.old.asked }
        ensures last { last_told self.new.sets ≤ tick }
        ensures told { TakesTimed
            (K.received out.old)
            (K.received out.new)
            self.old self.new buffer.old buffer.new (tick ∷ []) (packet.now ∷ []) }
    {
        self.begin(tick);
        if let Some(mut sets) = self.sets.take() {
            let _taken = sets.take(out, buffer, tick, packet);
            self.sets = Some(sets);
        }
    }

    /// Takes the packets of a run, of which those of the PID are held, and puts out the lines of
    /// the sets that come with them.
    pub(crate) fn take_run<K: Sink>(
        &mut self,
        out: &mut K,
        buffer: &mut TextBuffer,
        run: Run,
        held: &[HeldPacket],
    )
        requires last { IfSome run.last (λ time. time < CLOCK_LIMIT) }
        requires next { IfSome run.next (λ next. next.time < CLOCK_LIMIT) }
        requires behind { IsBehind run.last run.next }
        requires within { IfSome run.next (λ next. run.since + run.count ≤ next.behind) }
        requires held { AreHeld self.old.asked.pid run.since (run.since + run.count) held.now }
        requires later { last_told self.old.sets ≤ last_tick run.last }
        ensures asked { self.new.asked ≡ self.old.asked }
        ensures last { last_told self.new.sets ≤ end_tick run.last run.next }
        ensures told { (packets : List (List ℕ))
            → IsRun self.old.asked.pid run.since run.count held.now packets
            → TakesTimed
            (K.received out.old)
            (K.received out.new)
            self.old self.new buffer.old buffer.new
            (ticks_of_run run.last run.since run.count run.next) packets }
    {
        if run.count == 0 {
            return;
        }
        self.begin(tick_between(run.last, run.since, run.next));
        if let Some(mut sets) = self.sets.take() {
            take_held(out, buffer, &mut sets, run, held);
            self.sets = Some(sets);
        }
    }

    /// No packet comes any more: where the stream has ended, puts out the lines of the sets that
    /// are left, of the greatest level and of the first breach.
    pub(crate) fn finish<K: Sink>(&mut self, out: &mut K, buffer: &mut TextBuffer, ended: bool)
        ensures asked { self.new.asked ≡ self.old.asked }
        ensures told { FinishesTimed ended
            (K.received out.old)
            (K.received out.new)
            self.old self.new buffer.old buffer.new }
    {
        if ended {
            self.finish_sets(out, buffer);
        }
    }

    /// The same where the stream has ended.
    fn finish_sets<K: Sink>(&mut self, out: &mut K, buffer: &mut TextBuffer)
        ensures asked { self.new.asked ≡ self.old.asked }
        ensures told { FinishesTimed true
            (K.received out.old)
            (K.received out.new)
            self.old self.new buffer.old buffer.new }
    {
        self.begin(0);
        if let Some(mut sets) = self.sets.take() {
            sets.finish(out, buffer);
            self.sets = Some(sets);
        }
    }

    /// Makes the receiver for lifted times from that tick on, where no packet came before.
    fn begin(&mut self, tick: u64)
        ensures asked { self.new.asked ≡ self.old.asked }
        ensures last { last_told self.new.sets ≤ last_told self.old.sets }
        ensures begun { (known : List ℕ) (taken : List (List ℕ)) (text : List ℕ)
            → HasTimed known self.old taken text
            → HasBegun (known ++ tick ∷ []) self.new taken text }
    {
        if self.sets.is_none() && !self.is_wanting {
            match make_sets(self.alloc, &self.profile, self.pid, self.pages, tick) {
                Ok(sets) => self.sets = Some(sets),
                Err(_) => self.is_wanting = true,
            }
        }
    }
}

/// A receiver of a profile for a PID and these pages, by the tick, whose lifted times begin at that
/// tick, or at the latest at which they may.
fn make_sets(
    alloc: Global,
    profile: &Profile,
    pid: u16,
    pages: Pages,
    tick: u64,
) -> Result<SetMeter, NoMemory>
    requires profile { IsProfile profile.now }
    ensures made { IfOk result (λ sets. reception sets.receiving ≡ record {
      profile = profile.now;
      pid = pid;
      pages = pages;
      anchor = min LATEST_ANCHOR tick;
    }) }
    ensures pace { IfOk result (λ sets. sets.meter.pace ≡ by_ticks profile.now) }
    ensures last { IfOk result (λ sets. sets.meter.last ≡ 0) }
    ensures nothing { IfOk result (λ sets. (slot_of : ℕ → ℕ) → HasMetered slot_of sets [] []) }
{
    let levels = Levels::by_ticks(alloc, profile)?;
    SetMeter::make(alloc, profile, tick.min(LATEST_ANCHOR), pid, pages, levels)
}
