//! What tells of the faults of a stream.

ghost use Rattle.std.specs.Prelude.{◌≡◌, List};
ghost use Rattle.fault_text.specs.Faulting.{known_behind};
ghost use Rattle.set_definitions.specs.Knowing.{Knows};
ghost use Rattle.set_definitions.specs.declared.definition.Definition.{Definition};

use crate::kept::KeptSet;
use crate::sets::put_tally;
use crate::taking::take_ready;
use crate::tally::Tally;
use command_text::TextBuffer;
use decoder_model::Pages;
use packet_walk::PacketTeller;
use set_definitions::Known;
use set_receiver::SetReceiver;
use std::alloc::Global;
use std::marker::Model;
use stream_syntax::PacketFault;
use sub_base::{NoMemory, Profile, Sink};

/// A receiver without pictures, which counts what becomes of the sets.
#[derive(Drop)]
pub struct Faults {
    receiver: SetReceiver,
    tally: Tally,
    known: Known,
    kept: KeptSet,
}

impl Model for Faults {
    ghost use Rattle.fault_text.specs.Faulting.{Faulting, IsFaulting};

    ghost Value = { Faulting };

    ghost view = { λ f. record {
      receiving = f.receiver;
      tally = f.tally;
      known = f.known;
      room = f.kept.room;
    } };

    ghost invariant = { λ f. IsFaulting (record {
      receiving = f.receiver;
      tally = f.tally;
      known = f.known;
      room = f.kept.room;
    }) };
}

impl Faults {
    ghost use Rattle.std.specs.Prelude.{◌≡◌, ◌<◌, ◌^◌, ◌++◌, ℕ, true, List, []};
    ghost use Rattle.std.specs.Prelude.{IfOk, MatchResult, None, OnErr, OnOk, Some};
    ghost use Rattle.command_text.specs.Putting.{PutsOut};
    ghost use Rattle.fault_text.specs.Faulting.{HasFaulted, faults_tell};
    ghost use Rattle.packet_source.specs.declared.limits.TheConstants.{STREAM_LIMIT};
    ghost use Rattle.packet_walk.specs.Told.{HasTaken, StaysTold, TellsOne};
    ghost use Rattle.set_receiver.specs.Receiving.{IsSameReception, reception};
    ghost use Rattle.stream_syntax.specs.TransportPackets.{packet_fault};

    /// A receiver of a profile for a PID and these pages, whose lifted times begin at 0. All memory
    /// is taken here.
    pub fn make(
        alloc: Global,
        profile: &Profile,
        pid: u16,
        pages: Pages,
    ) -> Result<Faults, NoMemory>
        requires coded { profile.now.coded < 2 ^ 32 }
        requires nodes { profile.now.nodes < 2 ^ 31 }
        ensures made { IfOk result (λ faults. reception faults.receiving
            ≡ record { profile = profile.now; pid = pid; pages = pages; anchor = 0 }) }
        ensures nothing { IfOk result (λ faults. HasFaulted faults [] []) }
    {
        Ok(Faults {
            receiver: SetReceiver::make(alloc, profile, pid, pages, 0)?,
            tally: Tally::nothing(),
            known: Known::make(alloc)?,
            kept: KeptSet::make(alloc, profile.coded as usize)?,
        })
    }

    /// Takes the packet of that place, and puts out what is told of the sets that come with it. A
    /// packet that cannot be taken changes nothing.
    fn take<K: Sink>(
        &mut self,
        out: &mut K,
        buffer: &mut TextBuffer,
        place: u64,
        packet: &[u8; 188],
    ) -> Result<(), PacketFault>
        requires place { place < STREAM_LIMIT }
        requires taken { HasTaken HasFaulted self.old place }
        ensures fault { MatchResult result
            (λ _. packet_fault (reception self.old.receiving).pid packet.now ≡ None)
            (λ fault. packet_fault (reception self.old.receiving).pid packet.now ≡ Some fault) }
        ensures same { IsSameReception self.old.receiving self.new.receiving }
        ensures told { OnOk result (TellsOne HasFaulted
            (K.received out.old)
            (K.received out.new)
            self.old self.new buffer.old buffer.new place packet.now) }
        ensures kept { OnErr result (StaysTold HasFaulted
            (K.received out.old)
            (K.received out.new)
            self.old self.new buffer.old buffer.new) }
    {
        // Most packets of a stream are such, and need no more than this.
        if self.receiver.is_other(packet) {
            return Ok(());
        }
        let came = self.receiver.feed_counting(packet)?;
        self.tally.lose(came.losses);
        forget_behind(&mut self.known, came.losses);
        take_ready(
            out,
            buffer,
            &mut self.receiver,
            &mut self.tally,
            &mut self.known,
            &mut self.kept,
        );
        Ok(())
    }

    /// The stream has ended: puts out what is told of the sets that are left, and how many sets
    /// came to each end. The sets that come with the end are counted in that line alone, and
    /// nothing is to be taken then.
    pub fn finish<K: Sink>(&mut self, out: &mut K, buffer: &mut TextBuffer)
        ensures { (packets : List (List ℕ)) (text : List ℕ) → HasFaulted self.old packets text
            → (more : List ℕ) × faults_tell self.old true packets (text ++ more)
            × PutsOut (K.received out.old) (K.received out.new) buffer.old buffer.new more }
    {
        let mut tally = self.tally;
        self.receiver.finish();
        take_ready(
            out,
            buffer,
            &mut self.receiver,
            &mut tally,
            &mut self.known,
            &mut self.kept,
        );
        put_tally(out, buffer, tally);
    }
}

impl PacketTeller for Faults {
    ghost use Rattle.fault_text.specs.Faulting.{HasFaulted};
    ghost use Rattle.set_receiver.specs.Receiving.{reception};
    ghost use Rattle.decoder_model.specs.Received.{Reception};

    ghost pid = { λ faults. (reception faults.receiving).pid };

    ghost stands = { HasFaulted };

    ghost Kept = { Reception };

    ghost kept = { λ faults. reception faults.receiving };

    #[inline(always)]
    fn take_packet<K: Sink>(
        &mut self,
        out: &mut K,
        buffer: &mut TextBuffer,
        place: u64,
        packet: &[u8; 188],
    ) -> Result<(), PacketFault> {
        self.take(out, buffer, place, packet)
    }
}

/// Forgets what is known, where anything was lost.
fn forget_behind(known: &mut Known, losses: u32)
    ensures { (earlier : List Definition) → Knows known.old earlier
        → Knows known.new (known_behind losses earlier) }
{
    if losses != 0 {
        known.forget();
    }
}
