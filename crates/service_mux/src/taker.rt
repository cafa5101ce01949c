ghost use Rattle.std.specs.Prelude.{◌≡◌, ◌<◌, ℕ, [], IfOk, MatchResult, Some, None};
ghost use Rattle.stream_syntax.specs.TransportPackets.{packet_fault};
ghost use Rattle.packet_walk.specs.Told.{TellsOne};
ghost use Rattle.service_mux.specs.Private.Taking.{IsTaking, TakesIn, has_found as has_found_in, no_pid};
ghost use Rattle.service_mux.specs.declared.taker.Phase.TheVariants as Phase;

use crate::sought::Sought;
use crate::table_reader::TableReader;
use command_text::{TextBuffer, put};
use packet_walk::PacketTeller;
use std::alloc::Global;
use stream_syntax::{PacketFault, SYNC_BYTE};
use sub_base::{NoMemory, Sink};
use ts_packets::is_of_pid;

/// The PID of the PAT (ISO/IEC 13818-1, table 2-3).
const TABLE_PID: u16 = 0;

/// Where the search for a service's subtitles stands.
#[derive(Clone, Copy)]
pub enum Phase {
    /// No PAT has listed the service.
    BeforeTable,
    /// A PAT has given the PID of the service's PMT, and no PMT has named subtitles.
    BehindTable,
    /// A PMT has named this PID of the subtitles.
    BehindMap(u16),
}

/// Takes the packets of a service's subtitles out of a stream: those of their PID, behind the PMT
/// that names it.
#[derive(Drop)]
pub struct Taker {
    service: u16,
    phase: Phase,
    reader: TableReader,
}

impl Taker {
    /// A taker that was fed no packet. All memory is taken here.
    pub fn make(alloc: Global, service: u16) -> Result<Taker, NoMemory>
        ensures service { IfOk result (λ taker. taker.service ≡ service) }
        ensures nothing { IfOk result (λ taker. IsTaking taker [] []) }
    {
        Ok(Taker {
            service,
            phase: Phase::BeforeTable,
            reader: TableReader::make(alloc, TABLE_PID, Sought::Table(service))?,
        })
    }

    /// Takes a packet while no PAT has listed the service.
    fn look_for_table(&mut self, packet: &[u8; 188])
        requires { self.old.phase ≡ Phase.BeforeTable }
        ensures { TakesIn self.old self.new packet.now }
    {
        if let Some(pid) = self.reader.feed(packet) {
            self.reader.restart(pid, Sought::Subtitles(self.service));
            self.phase = Phase::BehindTable;
        }
    }

    /// Takes a packet while no PMT has named the subtitles.
    fn look_for_subtitles(&mut self, packet: &[u8; 188])
        requires { self.old.phase ≡ Phase.BehindTable }
        ensures { TakesIn self.old self.new packet.now }
    {
        if let Some(pid) = self.reader.feed(packet) {
            self.phase = Phase::BehindMap(pid);
        }
    }

    /// Whether a PMT has named the subtitles.
    pub fn has_found(&self) -> bool
        ensures { result ≡ has_found_in self.now.phase }
    {
        match self.phase {
            Phase::BehindMap(_) => true,
            Phase::BeforeTable | Phase::BehindTable => false,
        }
    }
}

impl PacketTeller for Taker {
    // A packet is refused for its sync byte alone.
    ghost pid = { λ taker. no_pid taker.service };

    ghost stands = { IsTaking };

    ghost kept = { λ _. tt };

    fn take_packet<K: Sink>(
        &mut self,
        out: &mut K,
        buffer: &mut TextBuffer,
        _place: u64,
        packet: &[u8; 188],
    ) -> Result<(), PacketFault> {
        check_sync(packet)?;
        feed(out, buffer, self, packet);
        Ok(())
    }
}

/// Whether the packet begins with the sync byte. It has none of the PIDs from 8,192 on, so that it
/// is refused for nothing else.
fn check_sync(packet: &[u8; 188]) -> Result<(), PacketFault>
    ensures { MatchResult result
        (λ _. (service : ℕ) → packet_fault (no_pid service) packet.now ≡ None)
        (λ fault. (service : ℕ) → packet_fault (no_pid service) packet.now ≡ Some fault) }
{
    if packet[0] == SYNC_BYTE {
        Ok(())
    } else {
        Err(PacketFault::NoSync)
    }
}

/// Takes the next packet, and puts it out where it is one of the subtitles.
fn feed<K: Sink>(out: &mut K, buffer: &mut TextBuffer, taker: &mut Taker, packet: &[u8; 188])
    ensures service { taker.new.service ≡ taker.old.service }
    ensures tells { (place : ℕ) → TellsOne IsTaking
        (K.received out.old)
        (K.received out.new)
        taker.old taker.new buffer.old buffer.new place packet.now }
{
    match taker.phase {
        Phase::BeforeTable => taker.look_for_table(packet),
        Phase::BehindTable => taker.look_for_subtitles(packet),
        Phase::BehindMap(pid) => {
            if is_of_pid(pid, packet) {
                put(out, buffer, packet);
            }
        }
    }
}
