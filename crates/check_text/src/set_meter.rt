//! What tells of the sets and levels of packets, whenever these arrive.

ghost use Rattle.std.specs.Prelude.{◌≡◌};
ghost use Rattle.check_text.specs.Checking.{PutsEnd};

use crate::calls::{take_calls, take_ready};
use crate::lines::{breach_line, peak_line};
use buffer_model::Levels;
use command_text::{TextBuffer, put};
use decoder_model::Pages;
use set_receiver::SetReceiver;
use std::alloc::Global;
use std::marker::Model;
use stream_syntax::PacketFault;
use sub_base::{NoMemory, Profile, Sink};

/// A receiver without pictures, with a meter of its coded data buffer. Who hands it packets says in
/// which slot each of them arrives.
#[derive(Drop)]
pub struct SetMeter {
    receiver: SetReceiver,
    levels: Levels,
}

impl Model for SetMeter {
    ghost use Rattle.check_text.specs.Checking.{Checking, IsChecking};

    ghost Value = { Checking };

    ghost view = { λ m. record { receiving = m.receiver; meter = m.levels } };

    ghost invariant = { λ m. IsChecking (record { receiving = m.receiver; meter = m.levels }) };
}

impl SetMeter {
    ghost use Rattle.std.specs.Prelude.{◌≡◌, ◌<◌, ◌≤◌, ◌^◌, ◌++◌, ℕ, true, List, []};
    ghost use Rattle.std.specs.Prelude.{IfErr, IfOk, MatchResult, None, OnErr, OnOk, Some};
    ghost use Rattle.buffer_model.specs.Calls.{greatest};
    ghost use Rattle.buffer_model.specs.Meters.{IsMeterOf};
    ghost use Rattle.received_level_laws.specs.ToldSets.{calls_told};
    ghost use Rattle.command_text.specs.Putting.{PutsOut};
    ghost use Rattle.packet_walk.specs.Told.{TellsOne};
    ghost use Rattle.set_receiver.specs.Receiving.{IsSameReception, reception};
    ghost use Rattle.stream_syntax.specs.TransportPackets.{packet_fault};
    ghost use Rattle.sub_base.specs.Pace.{tick_of};
    ghost use Rattle.sub_base.specs.declared.profile.TheConstants.{LARGEST_BUFFER};
    ghost use Rattle.check_text.specs.Checking.{HasMetered};
    ghost use Rattle.check_text.specs.Courses.{IsTextBy};

    /// A receiver of a profile, for a PID and these pages, whose lifted times begin at the anchor,
    /// a tick of 90 kHz, with that meter, which was told nothing.
    pub fn make(
        alloc: Global,
        profile: &Profile,
        anchor: u64,
        pid: u16,
        pages: Pages,
        levels: Levels,
    ) -> Result<SetMeter, NoMemory>
        requires coded { profile.now.coded ≤ LARGEST_BUFFER }
        requires nodes { profile.now.nodes < 2 ^ 31 }
        requires anchor { anchor < 2 ^ 33 }
        requires new { IsMeterOf [] levels }
        ensures made { IfOk result (λ sets. reception sets.receiving
            ≡ record { profile = profile.now; pid = pid; pages = pages; anchor = anchor }) }
        ensures meter { IfOk result (λ sets. sets.meter ≡ levels) }
        ensures nothing { IfOk result (λ sets. (slot_of : ℕ → ℕ) → HasMetered slot_of sets [] []) }
    {
        Ok(SetMeter {
            receiver: SetReceiver::make(alloc, profile, pid, pages, anchor)?,
            levels,
        })
    }

    /// Takes the next packet, which arrives in that slot, and puts out the lines of the sets that
    /// come with it. A packet that cannot be taken changes nothing.
    pub fn take<K: Sink>(
        &mut self,
        out: &mut K,
        buffer: &mut TextBuffer,
        slot: u64,
        packet: &[u8; 188],
    ) -> Result<(), PacketFault>
        requires later { self.old.meter.last ≤ slot }
        requires tick { tick_of self.old.meter.pace slot < 2 ^ 63 }
        ensures fault { MatchResult result
            (λ _. packet_fault (reception self.old.receiving).pid packet.now ≡ None)
            (λ fault. packet_fault (reception self.old.receiving).pid packet.now ≡ Some fault) }
        ensures same { IsSameReception self.old.receiving self.new.receiving }
        ensures pace { self.new.meter.pace ≡ self.old.meter.pace }
        ensures last { self.new.meter.last ≤ slot }
        ensures told { OnOk result ((slot_of : ℕ → ℕ) (place : ℕ) → slot_of place ≡ slot
            → TellsOne (HasMetered slot_of)
            (K.received out.old)
            (K.received out.new)
            self.old self.new buffer.old buffer.new place packet.now) }
        ensures unchanged { IfErr result (λ _. self.new ≡ self.old) }
        ensures nothing { OnErr result (PutsOut
            (K.received out.old)
            (K.received out.new)
            buffer.old buffer.new []) }
    {
        let event = self.receiver.feed(packet)?;
        let arrival = self.receiver.arrival();
        take_calls(
            out,
            buffer,
            &mut self.receiver,
            &mut self.levels,
            slot,
            event,
            arrival,
        );
        Ok(())
    }

    /// The greatest level of the coded data buffer so far, in bytes.
    pub fn peak(&self) -> u64
        ensures { (slot_of : ℕ → ℕ) (packets : List (List ℕ)) (text : List ℕ)
            → (has : HasMetered slot_of self.now packets text)
            → result ≡ greatest self.now.meter.pace (calls_told has.told) }
    {
        self.levels.peak()
    }

    /// The stream has ended: puts out the lines of the sets that are left, of the greatest level
    /// and of the first breach.
    pub fn finish<K: Sink>(&mut self, out: &mut K, buffer: &mut TextBuffer)
        ensures same { IsSameReception self.old.receiving self.new.receiving }
        ensures pace { self.new.meter.pace ≡ self.old.meter.pace }
        ensures told { (slot_of : ℕ → ℕ) (packets : List (List ℕ)) (text : List ℕ)
            → HasMetered slot_of self.old packets text
            → (more : List ℕ)
            × IsTextBy (record { slot_of = slot_of; pace = self.old.meter.pace })
            (reception self.old.receiving) true packets (text ++ more)
            × PutsOut (K.received out.old) (K.received out.new) buffer.old buffer.new more }
    {
        self.receiver.finish();
        take_ready(out, buffer, &mut self.receiver, &mut self.levels);
        put_end(out, buffer, &self.levels);
    }
}

/// Puts out the lines of the greatest level and of the first breach.
fn put_end<K: Sink>(out: &mut K, buffer: &mut TextBuffer, levels: &Levels)
    ensures { PutsEnd levels.now
        (K.received out.old)
        (K.received out.new)
        buffer.old buffer.new }
{
    put(out, buffer, peak_line(levels.peak()).as_bytes());
    put(out, buffer, breach_line(levels.first_breach()).as_bytes());
}
