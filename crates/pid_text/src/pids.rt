//! All PIDs of a stream.

ghost use Rattle.std.specs.Prelude.{◌≡◌, ◌<◌, ℕ, IfOk, length, MatchResult, None, Some, slice_index_or};
ghost use Rattle.command_text.specs.Putting.{PutsOut};
ghost use Rattle.stream_syntax.specs.TransportPackets.{packet_fault};
ghost use Rattle.pid_text.specs.PidText.{NO_PID};
ghost use Rattle.pid_text.specs.Private.Telling.{slots_text};
ghost use Rattle.pid_text.specs.declared.watch.Slot.{Slot};

use crate::begins::pid_in;
use crate::texts::put_slot;
use crate::watch::Slot;
use command_text::TextBuffer;
use packet_walk::PacketTeller;
use std::alloc::Global;
use std::marker::Model;
use stream_syntax::{PacketFault, SYNC_BYTE};
use sub_base::{NoMemory, Sink};

/// PIDs are numbers of 13 bits.
const PIDS: usize = 8_192;

/// What tells of the PIDs of a stream: it takes the packets, and puts out the text of them all once
/// it is asked to.
///
/// A PID takes memory of a fixed size with its first packet with which a PES packet of private
/// stream 1 may begin. Where none is found, the text cannot be told.
#[derive(Drop)]
pub struct Pids {
    alloc: Global,
    slots: Vec<Slot>,
    is_wanting: bool,
}

impl Model for Pids {
    ghost use Rattle.std.specs.Prelude.{◌≡◌, length};
    ghost use Rattle.pid_text.specs.Watched.{PidsWatched};

    ghost Value = { PidsWatched };

    ghost view = { λ p. record { slots = p.slots.items; is_wanting = p.is_wanting } };

    ghost invariant = { λ p. length p.slots.items ≡ 8192 };
}

impl Pids {
    ghost use Rattle.std.specs.Prelude.{◌≡◌, ℕ, [], ◌∷◌, ◌++◌, IfOk, List, false};
    ghost use Rattle.command_text.specs.Putting.{PutsOut};
    ghost use Rattle.pid_text.specs.PidText.{IsPidsText};
    ghost use Rattle.pid_text.specs.Watched.{AreWatched, HasWatched};

    /// What took no packet yet.
    pub fn make(alloc: Global) -> Result<Pids, NoMemory>
        ensures { IfOk result (λ pids. HasWatched pids [] []) }
    {
        Ok(Pids {
            alloc,
            slots: empty_slots(alloc)?,
            is_wanting: false,
        })
    }

    /// Whether no memory was found for a PID.
    pub fn is_wanting(&self) -> bool
        ensures { result ≡ self.now.is_wanting }
    {
        self.is_wanting
    }

    /// Takes the next packet.
    fn take(&mut self, packet: &[u8; 188])
        ensures { (packets : List (List ℕ)) → AreWatched packets self.old
            → AreWatched (packets ++ packet.now ∷ []) self.new }
    {
        let pid = pid_in(packet);
        let slot = &mut self.slots[usize::from(pid)];
        if slot.take(self.alloc, pid, packet).is_err() {
            self.is_wanting = true;
        }
    }

    /// Puts out the text of the packets so far, where no memory was wanting.
    pub fn put_text<K: Sink>(&self, out: &mut K, buffer: &mut TextBuffer)
        requires { self.now.is_wanting ≡ false }
        ensures { (packets : List (List ℕ)) (text : List ℕ) → HasWatched self.now packets text
            → (more : List ℕ) × IsPidsText packets (text ++ more) × PutsOut
            (K.received out.old)
            (K.received out.new)
            buffer.old buffer.new more }
    {
        put_slots(out, buffer, &self.slots);
    }
}

impl PacketTeller for Pids {
    ghost use Rattle.pid_text.specs.PidText.{NO_PID};
    ghost use Rattle.pid_text.specs.Watched.{HasWatched};

    // A packet is refused for its sync byte alone.
    ghost pid = { λ _. NO_PID };

    ghost stands = { HasWatched };

    ghost kept = { λ _. tt };

    fn take_packet<K: Sink>(
        &mut self,
        _out: &mut K,
        _buffer: &mut TextBuffer,
        _place: u64,
        packet: &[u8; 188],
    ) -> Result<(), PacketFault> {
        check_sync(packet)?;
        self.take(packet);
        Ok(())
    }
}

/// Whether the packet begins with the sync byte. It has no PID of more than 13 bits, so that it is
/// refused for nothing else.
fn check_sync(packet: &[u8; 188]) -> Result<(), PacketFault>
    ensures { MatchResult result (λ _. packet_fault NO_PID packet.now ≡ None)
        (λ fault. packet_fault NO_PID packet.now ≡ Some fault) }
{
    if packet[0] == SYNC_BYTE {
        Ok(())
    } else {
        Err(PacketFault::NoSync)
    }
}

/// A slot for each PID, none of which is watched.
fn empty_slots(alloc: Global) -> Result<Vec<Slot>, NoMemory>
    ensures all { IfOk result (λ slots. length slots.items ≡ 8192) }
    ensures empty { IfOk result (λ slots. (k : ℕ) (d : Slot) → k < 8192
        → slice_index_or slots.items k d ≡ record { watch = None }) }
{
    let mut slots = Vec::with_capacity(alloc, PIDS)?;
    for pid in 0..PIDS {
        slots.push_reserved(Slot { watch: None });
    }
    Ok(slots)
}

/// Puts out the texts of the PIDs, in rising order.
fn put_slots<K: Sink>(out: &mut K, buffer: &mut TextBuffer, slots: &[Slot])
    ensures { PutsOut
        (K.received out.old)
        (K.received out.new)
        buffer.old buffer.new (slots_text slots.now) }
{
    for (pid, slot) in slots.iter().enumerate() {
        put_slot(out, buffer, pid as u64, slot);
    }
}
