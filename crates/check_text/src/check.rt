//! What tells of the sets and levels of a stream that was compiled.

use crate::set_meter::SetMeter;
use buffer_model::Levels;
use command_text::TextBuffer;
use decoder_model::Pages;
use packet_walk::PacketTeller;
use std::alloc::Global;
use std::marker::Model;
use stream_syntax::PacketFault;
use sub_base::{NoMemory, Profile, Sink};

/// A receiver without pictures, with a meter of its coded data buffer. The packet of each place
/// arrives in the slot of that number.
#[derive(Drop)]
pub struct Check {
    sets: SetMeter,
}

impl Model for Check {
    ghost use Rattle.check_text.specs.Checking.{Checking, IsSlow};

    ghost Value = { Checking };

    ghost view = { λ c. c.sets };

    ghost invariant = { λ c. IsSlow c.sets.meter.pace };
}

impl Check {
    ghost use Rattle.std.specs.Prelude.{◌≡◌, ◌<◌, ◌^◌, ◌++◌, ℕ, true, List, []};
    ghost use Rattle.std.specs.Prelude.{IfOk, MatchResult, None, OnErr, OnOk, Some};
    ghost use Rattle.command_text.specs.Putting.{PutsOut};
    ghost use Rattle.packet_source.specs.declared.limits.TheConstants.{STREAM_LIMIT};
    ghost use Rattle.packet_walk.specs.Told.{HasTaken, StaysTold, TellsOne};
    ghost use Rattle.set_receiver.specs.Receiving.{IsSameReception, reception};
    ghost use Rattle.stream_syntax.specs.TransportPackets.{packet_fault};
    ghost use Rattle.sub_base.specs.Pace.{IsSending};
    ghost use Rattle.check_text.specs.CheckText.{IsCheckText, IsPeak};
    ghost use Rattle.check_text.specs.Checking.{HasChecked};

    /// A receiver of a profile with a step, for a PID and these pages, whose lifted times begin at
    /// the origin, a tick of 90 kHz. The first packet arrives then. All memory is taken here.
    pub fn make(
        alloc: Global,
        profile: &Profile,
        origin: u64,
        pid: u16,
        pages: Pages,
    ) -> Result<Check, NoMemory>
        requires profile { IsSending profile.now }
        requires origin { origin < 2 ^ 33 }
        ensures made { IfOk result (λ check. reception check.receiving
            ≡ record { profile = profile.now; pid = pid; pages = pages; anchor = origin }) }
        ensures nothing { IfOk result (λ check. HasChecked check [] []) }
    {
        let levels = Levels::make(alloc, profile, origin)?;
        Ok(Check {
            sets: SetMeter::make(alloc, profile, origin, pid, pages, levels)?,
        })
    }

    /// Takes the packet of that place, and puts out the lines of the sets that come with it. A
    /// packet that cannot be taken changes nothing.
    fn take<K: Sink>(
        &mut self,
        out: &mut K,
        buffer: &mut TextBuffer,
        place: u64,
        packet: &[u8; 188],
    ) -> Result<(), PacketFault>
        requires place { place < STREAM_LIMIT }
        requires taken { HasTaken HasChecked self.old place }
        ensures fault { MatchResult result
            (λ _. packet_fault (reception self.old.receiving).pid packet.now ≡ None)
            (λ fault. packet_fault (reception self.old.receiving).pid packet.now ≡ Some fault) }
        ensures same { IsSameReception self.old.receiving self.new.receiving }
        ensures told { OnOk result (TellsOne HasChecked
            (K.received out.old)
            (K.received out.new)
            self.old self.new buffer.old buffer.new place packet.now) }
        ensures kept { OnErr result (StaysTold HasChecked
            (K.received out.old)
            (K.received out.new)
            self.old self.new buffer.old buffer.new) }
    {
        self.sets.take(out, buffer, place, packet)
    }

    /// The greatest level of the coded data buffer so far, in bytes.
    pub fn peak(&self) -> u64
        ensures { (packets : List (List ℕ)) (text : List ℕ) → HasChecked self.now packets text
            → IsPeak (reception self.now.receiving) packets result }
    {
        self.sets.peak()
    }

    /// The stream has ended: puts out the lines of the sets that are left, of the greatest level
    /// and of the first breach.
    pub fn finish<K: Sink>(&mut self, out: &mut K, buffer: &mut TextBuffer)
        ensures { (packets : List (List ℕ)) (text : List ℕ) → HasChecked self.old packets text
            → (more : List ℕ)
            × IsCheckText (reception self.old.receiving) true packets (text ++ more)
            × PutsOut (K.received out.old) (K.received out.new) buffer.old buffer.new more }
    {
        self.sets.finish(out, buffer);
    }
}

impl PacketTeller for Check {
    ghost use Rattle.decoder_model.specs.Received.{Reception};
    ghost use Rattle.set_receiver.specs.Receiving.{reception};
    ghost use Rattle.check_text.specs.Checking.{HasChecked};

    ghost pid = { λ check. (reception check.receiving).pid };

    ghost stands = { HasChecked };

    ghost Kept = { Reception };

    ghost kept = { λ check. reception check.receiving };

    fn take_packet<K: Sink>(
        &mut self,
        out: &mut K,
        buffer: &mut TextBuffer,
        place: u64,
        packet: &[u8; 188],
    ) -> Result<(), PacketFault> {
        self.take(out, buffer, place, packet)
    }
}
