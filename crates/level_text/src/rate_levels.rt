//! What tells of the sets and levels of a stream that is sent at an even rate.

use crate::rate_clock::RateClock;
use buffer_model::Levels;
use check_text::SetMeter;
use command_text::TextBuffer;
use decoder_model::Pages;
use packet_walk::PacketTeller;
use std::alloc::Global;
use std::marker::Model;
use stream_syntax::PacketFault;
use sub_base::{NoMemory, Profile, Sink};

/// A receiver without pictures, with a meter of its coded data buffer, to which packets come at an
/// even rate.
#[derive(Drop)]
pub struct RateLevels {
    sets: SetMeter,
    clock: RateClock,
}

impl Model for RateLevels {
    ghost use Rattle.level_text.specs.Levelling.{IsLevelling, Levelling};

    ghost Value = { Levelling };

    ghost view = { λ l. record { sets = l.sets; rate = l.clock.rate } };

    ghost invariant = { λ l. IsLevelling (record { sets = l.sets; rate = l.clock.rate }) };
}

impl RateLevels {
    ghost use Rattle.std.specs.Prelude.{◌≡◌, ◌<◌, ◌≤◌, ◌^◌, ◌++◌, ℕ, true, List, []};
    ghost use Rattle.std.specs.Prelude.{IfOk, MatchResult, None, OnErr, OnOk, Some};
    ghost use Rattle.command_text.specs.Putting.{PutsOut};
    ghost use Rattle.packet_source.specs.declared.limits.TheConstants.{STREAM_LIMIT};
    ghost use Rattle.packet_walk.specs.Told.{HasTaken, StaysTold, TellsOne};
    ghost use Rattle.set_receiver.specs.Receiving.{IsSameReception, reception};
    ghost use Rattle.stream_syntax.specs.TransportPackets.{packet_fault};
    ghost use Rattle.sub_base.specs.Profile.{IsProfile};
    ghost use Rattle.level_text.specs.Levelling.{HasLevelled, levels_tell};
    ghost use Rattle.level_text.specs.declared.rate_clock.TheConstants.{GREATEST_RATE, LEAST_RATE};

    /// A receiver of a profile, with or without a step, for a PID and these pages, whose lifted
    /// times begin at 0, of a stream of so many bits a second. The first packet arrives at tick 0.
    /// All memory is taken here.
    pub fn make(
        alloc: Global,
        profile: &Profile,
        pid: u16,
        pages: Pages,
        rate: u64,
    ) -> Result<RateLevels, NoMemory>
        requires profile { IsProfile profile.now }
        requires least { LEAST_RATE ≤ rate }
        requires most { rate ≤ GREATEST_RATE }
        ensures made { IfOk result (λ levels. reception levels.sets.receiving
            ≡ record { profile = profile.now; pid = pid; pages = pages; anchor = 0 }) }
        ensures rate { IfOk result (λ levels. levels.rate ≡ rate) }
        ensures nothing { IfOk result (λ levels. HasLevelled levels [] []) }
    {
        let levels = Levels::by_ticks(alloc, profile)?;
        Ok(RateLevels {
            sets: SetMeter::make(alloc, profile, 0, pid, pages, levels)?,
            clock: RateClock { rate },
        })
    }

    /// Takes the packet of that place, and puts out the lines of the sets that come with it. A
    /// packet that cannot be taken changes nothing.
    fn take<K: Sink>(
        &mut self,
        out: &mut K,
        buffer: &mut TextBuffer,
        place: u64,
        packet: &[u8; 188],
    ) -> Result<(), PacketFault>
        requires place { place < STREAM_LIMIT }
        requires taken { HasTaken HasLevelled self.old place }
        ensures fault { MatchResult result
            (λ _. packet_fault (reception self.old.sets.receiving).pid packet.now ≡ None)
            (λ fault. packet_fault (reception self.old.sets.receiving).pid packet.now
            ≡ Some fault) }
        ensures same { IsSameReception self.old.sets.receiving self.new.sets.receiving }
        ensures rate { self.new.rate ≡ self.old.rate }
        ensures told { OnOk result (TellsOne HasLevelled
            (K.received out.old)
            (K.received out.new)
            self.old self.new buffer.old buffer.new place packet.now) }
        ensures kept { OnErr result (StaysTold HasLevelled
            (K.received out.old)
            (K.received out.new)
            self.old self.new buffer.old buffer.new) }
    {
        let tick = self.clock.tick(place);
        self.sets.take(out, buffer, tick, packet)
    }

    /// The stream has ended: puts out the lines of the sets that are left, of the greatest level
    /// and of the first breach.
    pub fn finish<K: Sink>(&mut self, out: &mut K, buffer: &mut TextBuffer)
        ensures { (packets : List (List ℕ)) (text : List ℕ) → HasLevelled self.old packets text
            → (more : List ℕ) × levels_tell self.old true packets (text ++ more)
            × PutsOut (K.received out.old) (K.received out.new) buffer.old buffer.new more }
    {
        self.sets.finish(out, buffer);
    }
}

impl PacketTeller for RateLevels {
    ghost use Rattle.std.specs.Prelude.{ℕ};
    ghost use Rattle.decoder_model.specs.Received.{Reception};
    ghost use Rattle.set_receiver.specs.Receiving.{reception};
    ghost use Rattle.level_text.specs.Levelling.{HasLevelled};

    ghost pid = { λ levels. (reception levels.sets.receiving).pid };

    ghost stands = { HasLevelled };

    ghost Kept = { Reception × ℕ };

    ghost kept = { λ levels. (reception levels.sets.receiving, levels.rate) };

    fn take_packet<K: Sink>(
        &mut self,
        out: &mut K,
        buffer: &mut TextBuffer,
        place: u64,
        packet: &[u8; 188],
    ) -> Result<(), PacketFault> {
        self.take(out, buffer, place, packet)
    }
}
