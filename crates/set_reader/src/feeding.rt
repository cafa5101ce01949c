//! A packet goes through the demultiplexer, and the unit that it ends to the sets.

ghost use Rattle.std.specs.Prelude.{◌≡◌, ℕ, ◌≤◌, false, List, [], ◌++◌, None, Some, IfOk, IfErr, MatchResult, OnOk, if◌then◌else◌};
ghost use Rattle.stream_syntax.specs.TransportPackets.{packet_fault};
ghost use Rattle.stream_syntax.specs.Units.{event_at};
ghost use Rattle.ts_packets.specs.Demuxing as packets;
ghost use Rattle.ts_packets.specs.Demuxing.{DemuxesOn};
ghost use Rattle.decoder_model.specs.Arrivals.{Arrival, arrivals_at};
ghost use Rattle.decoder_model.specs.Sets.{Delivery};
ghost use Rattle.display_sets.specs.Gathered.{ready_sets};
ghost use Rattle.display_sets.specs.Standing.{HasGathered};
ghost use Rattle.set_reader.specs.Collecting.{losses};
ghost use Rattle.set_reader.specs.Private.Ends.{IsEndBehind};

use crate::units::{is_loss, lose_where, take_ended};
use display_sets::{Gathering, UnitEnd};
use stream_syntax::{Event, PacketFault};
use ts_packets::Demux;

/// What became of a packet, of the unit that it ended, and how many losses that means.
#[derive(Clone, Copy)]
pub(crate) struct Outcome {
    pub event: Event,
    pub end: Option<UnitEnd>,
    pub losses: u32,
}

/// Takes a packet: what it lost is given up, and the unit that it ends goes to the sets.
pub(crate) fn feed(
    demux: &mut Demux,
    sets: &mut Gathering,
    packet: &[u8; 188],
) -> Result<Outcome, PacketFault>
    requires none { ready_sets sets.old ≡ [] }
    ensures fault { MatchResult result (λ _. packet_fault demux.old.pid packet.now ≡ None)
        (λ fault. packet_fault demux.old.pid packet.now ≡ Some fault) }
    ensures unchanged { IfErr result
        (λ fault. (demux.new ≡ demux.old) × (sets.new ≡ sets.old)) }
    ensures goes_on { OnOk result (DemuxesOn demux.old demux.new packet.now) }
    ensures event { IfOk result
        (λ outcome. (before : List (List ℕ)) → packets.HasDemuxed demux.old before
        → outcome.event ≡ event_at demux.old.pid demux.old.size before packet.now) }
    ensures gathers { IfOk result
        (λ outcome. (before : List (List ℕ)) (arrivals : List Arrival)
        (given : List (Delivery (List ℕ)))
        → packets.HasDemuxed demux.old before → HasGathered arrivals false given sets.old
        → HasGathered (arrivals
        ++ arrivals_at demux.old.size demux.old.pid sets.old.pages before packet.now)
        false (given ++ losses outcome.losses) sets.new) }
    ensures end { IfOk result
        (λ outcome. (before : List (List ℕ)) (arrivals : List Arrival)
        (given : List (Delivery (List ℕ)))
        → packets.HasDemuxed demux.old before → HasGathered arrivals false given sets.old
        → IsEndBehind sets.old.coded demux.old.size demux.old.pid sets.old.pages before packet.now
        arrivals outcome.end) }
    ensures few { IfOk result (λ outcome. outcome.losses ≤ 2) }
    ensures pages { sets.new.pages ≡ sets.old.pages }
    ensures coded { sets.new.coded ≡ sets.old.coded }
{
    let fed = demux.feed(packet)?;
    let event = fed.event;
    let lost = is_loss(event);
    lose_where(lost, sets);
    let ended = take_ended(fed.unit, sets);
    Ok(Outcome {
        event,
        end: ended.end,
        losses: one_where(lost) + one_where(ended.lost),
    })
}

/// One loss, or none.
fn one_where(lost: bool) -> u32
    ensures count { result ≡ (if lost then 1 else 0) }
    ensures few { result ≤ 1 }
{
    u32::from(lost)
}
