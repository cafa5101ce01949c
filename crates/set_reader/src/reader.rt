//! The reader of sets.

ghost use Rattle.std.specs.Prelude.{◌≡◌};

use crate::arrival::Arrival;
use crate::feeding::feed;
use decoder_model::Pages;
use display_sets::{Gathering, Ready};
use std::alloc::Global;
use std::marker::Model;
use stream_syntax::{Event, PacketFault};
use sub_base::NoMemory;
use ts_packets::Demux;

/// Reads the display sets and losses of one service out of the transport packets of one PID: of its
/// composition page and, where it has one, of its ancillary page. Losses are told as they come, and
/// sets are ready until they are given.
#[derive(Drop)]
pub struct SetReader {
    demux: Demux,
    sets: Gathering,
    arrival: Arrival,
}

/// What came of a packet.
#[derive(Clone, Copy, Debug, PartialEq, Eq)]
pub struct Came {
    /// What became of it.
    pub event: Event,
    /// How many losses it means, 0 to 2: its own, and that of a unit that is refused. They come
    /// before the sets that it makes ready.
    pub losses: u32,
}

impl Model for SetReader {
    ghost use Rattle.set_reader.specs.Arrived.{arrival_value};
    ghost use Rattle.set_reader.specs.Collecting.{Collecting, IsCollecting};

    ghost Value = { Collecting };

    ghost view = { λ r. record {
      demux = r.demux;
      sets = r.sets;
      arrival = arrival_value r.arrival;
    } };

    ghost invariant = { λ r. IsCollecting (record {
      demux = r.demux;
      sets = r.sets;
      arrival = arrival_value r.arrival;
    }) };
}

impl SetReader {
    ghost use Rattle.std.specs.Prelude.{◌≡◌, ◌<◌, ◌≤◌, ◌^◌, ◌==◌, ◌↔◌, ℕ, Bool, true, false};
    ghost use Rattle.std.specs.Prelude.{List, [], ◌∷◌, ◌++◌, length, None, Some, option_map};
    ghost use Rattle.std.specs.Prelude.{IfErr, IfOk, IsTrue, MatchResult, OnOk};
    ghost use Rattle.std.specs.Option.{ForSome};
    ghost use Rattle.stream_syntax.specs.TransportPackets.{packet_fault, pid_of};
    ghost use Rattle.stream_syntax.specs.Units.{event_at};
    ghost use Rattle.stream_syntax.specs.declared.wire.TheConstants.{PAYLOAD_LENGTH};
    ghost use Rattle.decoder_model.specs.PacketArrivals.{packet_arrival};
    ghost use Rattle.decoder_model.specs.Sets.{Delivery};
    ghost use Rattle.display_sets.specs.Gathered.{HasFewBytes, first_ready, ready_sets, sets_behind};
    ghost use Rattle.display_sets.specs.Lent.{lent};
    ghost use Rattle.display_sets.specs.Standing.{IsFirst};
    ghost use Rattle.set_reader.specs.Arrived.{arrival_value};
    ghost use Rattle.set_reader.specs.Collecting.{IsNextRead, IsSameReader, IsReaderOf, losses};
    ghost use Rattle.set_reader.specs.Collecting.{sets_read};

    /// A reader for a PID and these pages that was fed nothing. Units, and the segments of a set,
    /// of more than `coded` bytes are refused. All memory is taken here.
    pub fn make(alloc: Global, pid: u16, pages: Pages, coded: u32) -> Result<SetReader, NoMemory>
        ensures stands { IfOk result (IsReaderOf false [] []) }
        ensures pid { IfOk result (λ reader. reader.demux.pid ≡ pid) }
        ensures pages { IfOk result (λ reader. reader.sets.pages ≡ pages) }
        ensures coded { IfOk result (λ reader. reader.sets.coded ≡ coded) }
        ensures none { IfOk result (λ reader. ready_sets reader.sets ≡ []) }
    {
        Ok(SetReader {
            demux: Demux::make(alloc, pid, u64::from(coded))?,
            sets: Gathering::make(alloc, pages, coded)?,
            arrival: Arrival {
                bytes: 0,
                before: false,
                dropped: false,
            },
        })
    }

    /// Takes the next packet, where no set is ready. A packet that cannot be taken leaves the
    /// reader as it was.
    pub fn feed(&mut self, packet: &[u8; 188]) -> Result<Came, PacketFault>
        requires none { ready_sets self.old.sets ≡ [] }
        ensures fault { MatchResult result
            (λ _. packet_fault self.old.demux.pid packet.now ≡ None)
            (λ fault. packet_fault self.old.demux.pid packet.now ≡ Some fault) }
        ensures unchanged { IfErr result (λ _. self.new ≡ self.old) }
        ensures stands { IfOk result (λ came.
            (fed : List (List ℕ)) (given : List (Delivery (List ℕ)))
            → IsReaderOf false fed given self.old
            → IsReaderOf false (fed ++ packet.now ∷ []) (given ++ losses came.losses) self.new) }
        ensures event { IfOk result (λ came.
            (fed : List (List ℕ)) (given : List (Delivery (List ℕ)))
            → IsReaderOf false fed given self.old
            → came.event ≡ event_at self.old.demux.pid self.old.sets.coded fed packet.now) }
        ensures arrival { OnOk result ((fed : List (List ℕ)) (given : List (Delivery (List ℕ)))
            → IsReaderOf false fed given self.old
            → self.new.arrival ≡ packet_arrival self.old.sets.coded self.old.demux.pid
            self.old.sets.pages fed packet.now) }
        ensures few { IfOk result (λ came. came.losses ≤ 2) }
        ensures same { IsSameReader self.old self.new }
    {
        let outcome = feed(&mut self.demux, &mut self.sets, packet)?;
        let brought = self.demux.brought(outcome.event, packet);
        self.arrival = Arrival::of(brought, outcome.end);
        Ok(Came {
            event: outcome.event,
            losses: outcome.losses,
        })
    }

    /// Whether a packet can be taken and is of another PID, as most packets of a stream are. To
    /// feed it would bring no loss and no set, so that a walk that asks for no arrivals need not do
    /// it.
    #[inline(always)]
    pub fn is_other(&self, packet: &[u8; 188]) -> bool
        ensures other { IsTrue result ↔ (packet_fault self.now.demux.pid packet.now ≡ None)
            × ((pid_of packet.now == self.now.demux.pid) ≡ false) }
        ensures stands { IsTrue result
            → (fed : List (List ℕ)) (given : List (Delivery (List ℕ)))
            → IsReaderOf false fed given self.now
            → IsReaderOf false (fed ++ packet.now ∷ []) given self.now }
    {
        self.demux.is_other(packet)
    }

    /// The stream has ended: a set in hand without its end is ready as it stands.
    pub fn finish(&mut self)
        requires none { ready_sets self.old.sets ≡ [] }
        ensures stands { (fed : List (List ℕ)) (given : List (Delivery (List ℕ)))
            → IsReaderOf false fed given self.old → IsReaderOf true fed given self.new }
        ensures arrival { self.new.arrival ≡ self.old.arrival }
        ensures same { IsSameReader self.old self.new }
    {
        self.sets.finish();
    }

    /// The first set that is ready and was not given: its presentation time in ticks of 90 kHz, as
    /// read, the bytes of its units, and the bytes of its segments or why it is refused.
    pub fn ready(&self) -> Option<Ready<'_>>
        ensures first { option_map lent result ≡ first_ready (ready_sets self.now.sets) }
        ensures none { result ≡ None → ready_sets self.now.sets ≡ [] }
        ensures timely { ForSome result (λ ready. ready.time < 2 ^ 33) }
        ensures small { ForSome result (λ ready. HasFewBytes self.now.sets.coded ready.size) }
        ensures within { ForSome result
            (λ ready. IfOk ready.segments (λ bytes. length bytes.now < 2 ^ 32)) }
        ensures delivery { (fed : List (List ℕ)) (ended : Bool)
            (given : List (Delivery (List ℕ)))
            → IsReaderOf ended fed given self.now
            → IsFirst (sets_read self.now ended fed) given (option_map lent result) }
    {
        self.sets.ready()
    }

    /// The first set that is ready was taken; those behind it are left. Where none is ready nothing
    /// changes.
    pub fn give(&mut self)
        ensures stands { (ended : Bool) (fed : List (List ℕ))
            (given rest : List (Delivery (List ℕ))) (delivery : Delivery (List ℕ))
            → IsReaderOf ended fed given self.old
            → IsNextRead ended fed given delivery rest self.old
            → IsReaderOf ended fed (given ++ delivery ∷ []) self.new }
        ensures left { ready_sets self.new.sets ≡ sets_behind (ready_sets self.old.sets) }
        ensures arrival { self.new.arrival ≡ self.old.arrival }
        ensures same { IsSameReader self.old self.new }
    {
        self.sets.give();
    }

    /// What the last packet brought to the coded data buffer.
    pub fn arrival(&self) -> Arrival
        ensures arrival { arrival_value result ≡ self.now.arrival }
        ensures short { result.bytes ≤ PAYLOAD_LENGTH }
    {
        self.arrival
    }
}
