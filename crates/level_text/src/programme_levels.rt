//! What tells of the sets and levels of a stream whose packets arrive by the clock of a programme.

ghost use Rattle.std.specs.Prelude.{◌≡◌, ◌<◌, IfSome};
ghost use Rattle.pcr_clock.specs.declared.sample.TheConstants.{CLOCK_LIMIT};
ghost use Rattle.level_text.specs.ProgrammeClock.{sample_by as sample_by_clock};

use crate::clock_levels::ClockLevels;
use crate::packet_check::check_packet;
use command_text::TextBuffer;
use decoder_model::Pages;
use packet_walk::PacketTeller;
use pcr_clock::sample_of;
use service_tables::Programmes;
use std::alloc::Global;
use std::marker::Model;
use stream_syntax::PacketFault;
use sub_base::{NoMemory, Profile, Sink};

/// A receiver without pictures, with a meter of its coded data buffer, to which packets come by the
/// clock of the programme that lists their PID, as the stream's tables tell it. Where no memory is
/// found for what a table lists, no packet more is looked at.
#[derive(Drop)]
pub struct ProgrammeLevels {
    levels: ClockLevels,
    programmes: Programmes,
    clock: Option<u16>,
}

impl Model for ProgrammeLevels {
    ghost use Rattle.level_text.specs.Following.{Following};

    ghost Value = { Following };

    ghost view = { λ p. record { levels = p.levels; programmes = p.programmes; clock = p.clock } };
}

impl ProgrammeLevels {
    ghost use Rattle.std.specs.Prelude.{◌≡◌, ◌<◌, ℕ, List, [], false, IfOk, MatchResult, None, OnErr, OnOk, Some};
    ghost use Rattle.std.specs.Option.{option_or};
    ghost use Rattle.packet_source.specs.declared.limits.TheConstants.{STREAM_LIMIT};
    ghost use Rattle.packet_walk.specs.Told.{HasTaken, StaysTold, TellsOne};
    ghost use Rattle.service_tables.specs.Clock.{clock_pid};
    ghost use Rattle.service_tables.specs.Reading.{HasRead};
    ghost use Rattle.stream_syntax.specs.TransportPackets.{packet_fault};
    ghost use Rattle.sub_base.specs.Profile.{IsProfile};
    ghost use Rattle.level_text.specs.Following.{FinishesFollowing, HasFollowed, is_wanting as is_wanting_of};

    /// A receiver of a profile, with or without a step, for a PID and these pages, of a stream of
    /// which no packet came. The memory for packets that are held is taken here, that of the
    /// receiver with the first packet whose tick is known, and that of a programme once the PAT has
    /// come.
    pub fn make(
        alloc: Global,
        profile: &Profile,
        pid: u16,
        pages: Pages,
    ) -> Result<ProgrammeLevels, NoMemory>
        requires profile { IsProfile profile.now }
        ensures asked { IfOk result (λ followed. followed.levels.meter.asked
            ≡ record { profile = profile.now; pid = pid; pages = pages; anchor = 0 }) }
        ensures nothing { IfOk result (λ followed. HasFollowed followed [] []) }
    {
        let levels = ClockLevels::make(alloc, profile, pid, pages)?;
        let programmes = Programmes::make(alloc)?;
        let clock = programmes.clock_pid_of(pid);
        Ok(ProgrammeLevels {
            levels,
            programmes,
            clock,
        })
    }

    /// Whether no memory was found for the receiver, or for what a table lists.
    pub fn is_wanting(&self) -> bool
        ensures { result ≡ is_wanting_of self.now }
    {
        self.programmes.is_wanting() || self.levels.is_wanting()
    }

    /// Takes the packet of that place, and puts out the lines of the sets that come with packets
    /// whose tick is known by it. A packet that cannot be taken changes nothing.
    fn take<K: Sink>(
        &mut self,
        out: &mut K,
        buffer: &mut TextBuffer,
        place: u64,
        packet: &[u8; 188],
    ) -> Result<(), PacketFault>
        requires place { place < STREAM_LIMIT }
        requires taken { HasTaken HasFollowed self.old place }
        ensures fault { MatchResult result
            (λ _. packet_fault self.old.levels.meter.asked.pid packet.now ≡ None)
            (λ fault. packet_fault self.old.levels.meter.asked.pid packet.now ≡ Some fault) }
        ensures asked { self.new.levels.meter.asked ≡ self.old.levels.meter.asked }
        ensures told { OnOk result (TellsOne HasFollowed
            (K.received out.old)
            (K.received out.new)
            self.old self.new buffer.old buffer.new place packet.now) }
        ensures kept { OnErr result (StaysTold HasFollowed
            (K.received out.old)
            (K.received out.new)
            self.old self.new buffer.old buffer.new) }
    {
        if self.programmes.is_wanting() {
            return check_packet(self.levels.pid(), packet);
        }
        let sample = sample_by(self.clock, packet);
        self.levels.take(out, buffer, sample, packet)?;
        if self.programmes.feed(packet) {
            self.look_for_clock();
        }
        Ok(())
    }

    /// Asks for the clock of the PID, where none is known: a walk over the PMTs, so that it is done
    /// only where another table has come.
    fn look_for_clock(&mut self)
        ensures levels { self.new.levels ≡ self.old.levels }
        ensures programmes { self.new.programmes ≡ self.old.programmes }
        ensures clock { (packets : List (List ℕ)) → self.old.programmes.is_wanting ≡ false
            → HasRead self.old.programmes packets
            → self.new.clock
            ≡ option_or self.old.clock (clock_pid packets self.old.levels.meter.asked.pid) }
    {
        if self.clock.is_none() {
            self.clock = self.programmes.clock_pid_of(self.levels.pid());
        }
    }

    /// No packet comes any more: those that are held arrive with the last sample. Puts out the
    /// lines of the sets that come with them and, where the stream has ended, of the sets that are
    /// left, of the greatest level and of the first breach. Answers whether no memory was found for
    /// the receiver: nothing was put out then.
    pub fn finish<K: Sink>(self, out: &mut K, buffer: &mut TextBuffer, ended: bool) -> bool
        requires { self.programmes.is_wanting ≡ false }
        ensures { FinishesFollowing ended
            (K.received out.old)
            (K.received out.new)
            self result buffer.old buffer.new }
    {
        let ProgrammeLevels {
            levels,
            programmes: _programmes,
            clock: _clock,
        } = self;
        levels.finish(out, buffer, ended)
    }
}

impl PacketTeller for ProgrammeLevels {
    ghost use Rattle.decoder_model.specs.Received.{Reception};
    ghost use Rattle.level_text.specs.Following.{HasFollowed};

    ghost pid = { λ followed. followed.levels.meter.asked.pid };

    ghost stands = { HasFollowed };

    ghost Kept = { Reception };

    ghost kept = { λ followed. followed.levels.meter.asked };

    fn take_packet<K: Sink>(
        &mut self,
        out: &mut K,
        buffer: &mut TextBuffer,
        place: u64,
        packet: &[u8; 188],
    ) -> Result<(), PacketFault> {
        self.take(out, buffer, place, packet)
    }
}

/// The sample of the clock that a packet carries, where the PID of the clock is known.
fn sample_by(clock: Option<u16>, packet: &[u8; 188]) -> Option<u64>
    ensures sample { result ≡ sample_by_clock clock packet.now }
    ensures small { IfSome result (λ sample. sample < CLOCK_LIMIT) }
{
    match clock {
        None => None,
        Some(pid) => sample_of(pid, packet),
    }
}
