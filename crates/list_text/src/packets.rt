ghost use Rattle.std.specs.Prelude.{◌≡◌, ℕ, List, [], None, Some, OnOk, OnErr, IfOk, MatchResult};
ghost use Rattle.std.specs.Option.{option_copied};
ghost use Rattle.stream_syntax.specs.TransportPackets.{packet_fault};
ghost use Rattle.packet_walk.specs.Told.{StaysTold, TellsOne};
ghost use Rattle.command_text.specs.Putting.{PutsOut};
ghost use Rattle.list_text.specs.ListLines.{loss_line as loss_line_of};
ghost use Rattle.list_text.specs.Listing.{IsListed};
ghost use Rattle.list_text.specs.ListText.{AreEndLines};

use crate::lines::loss_line;
use crate::units::list_unit;
use command_text::{TextBuffer, put};
use packet_walk::PacketTeller;
use std::alloc::Global;
use stream_syntax::{Event, PacketFault};
use sub_base::{LARGEST_BUFFER, NoMemory, Sink};
use ts_packets::Demux;

/// What tells of the losses, units and segments of a PID.
#[derive(Drop)]
pub struct Lister {
    demux: Demux,
}

impl Lister {
    /// What took no packet yet. All memory is taken here.
    pub fn make(alloc: Global, pid: u16) -> Result<Lister, NoMemory>
        ensures pid { IfOk result (λ lister. lister.demux.pid ≡ pid) }
        ensures nothing { IfOk result (λ lister. IsListed lister.demux [] []) }
    {
        Ok(Lister {
            // Units that need more bytes than any receiver has are dropped.
            demux: Demux::make(alloc, pid, LARGEST_BUFFER)?,
        })
    }
}

impl PacketTeller for Lister {
    ghost pid = { λ lister. lister.demux.pid };

    ghost stands = { λ lister. IsListed lister.demux };

    ghost kept = { λ _. tt };

    #[inline(always)]
    fn take_packet<K: Sink>(
        &mut self,
        out: &mut K,
        buffer: &mut TextBuffer,
        place: u64,
        packet: &[u8; 188],
    ) -> Result<(), PacketFault> {
        list_packet(out, buffer, &mut self.demux, place, packet)
    }
}

/// Takes the packet of that place, and puts out its lines; or finds why it cannot be taken.
// In the loop over packets itself, as what it calls but for the lines of a unit.
#[inline(always)]
fn list_packet<K: Sink>(
    sink: &mut K,
    buffer: &mut TextBuffer,
    demux: &mut Demux,
    place: u64,
    packet: &[u8; 188],
) -> Result<(), PacketFault>
    ensures fault { MatchResult result (λ _. packet_fault demux.old.pid packet.now ≡ None)
        (λ fault. packet_fault demux.old.pid packet.now ≡ Some fault) }
    ensures pid { demux.new.pid ≡ demux.old.pid }
    ensures lists { OnOk result (TellsOne IsListed
        (K.received sink.old)
        (K.received sink.new)
        demux.old demux.new buffer.old buffer.new place packet.now) }
    ensures kept { OnErr result (StaysTold IsListed
        (K.received sink.old)
        (K.received sink.new)
        demux.old demux.new buffer.old buffer.new) }
{
    // Most packets of a stream are such, and need no more than this.
    if demux.is_other(packet) {
        return Ok(());
    }
    let fed = demux.feed(packet)?;
    // The loss came before the unit that ends with this packet.
    list_loss(sink, buffer, place, fed.event);
    list_end(sink, buffer, place, fed.unit);
    Ok(())
}

/// Puts out the line of the event, where it is a loss.
#[inline(always)]
fn list_loss<K: Sink>(sink: &mut K, buffer: &mut TextBuffer, place: u64, event: Event)
    ensures { PutsOut
        (K.received sink.old)
        (K.received sink.new)
        buffer.old buffer.new (loss_line_of place event) }
{
    match event {
        Event::Followed | Event::Other | Event::NoPayload | Event::Double | Event::Dropped => {}
        loss => {
            let line = loss_line(place, loss);
            put(sink, buffer, line.as_bytes());
        }
    }
}

/// Puts out the lines of the unit that ends with the packet of that place, where one does.
#[inline(always)]
fn list_end<K: Sink>(sink: &mut K, buffer: &mut TextBuffer, place: u64, unit: Option<&[u8]>)
    ensures { (lines : List ℕ) × AreEndLines place (option_copied unit.entry) lines × PutsOut
        (K.received sink.old)
        (K.received sink.new)
        buffer.old buffer.new lines }
{
    if let Some(unit) = unit {
        list_unit(sink, buffer, place, unit);
    }
}
