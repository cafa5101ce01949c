//! What becomes of the units and the losses of packets.

ghost use Rattle.std.specs.Prelude.{◌≡◌, ℕ, ◌≤◌, true, false, List, [], ◌∷◌, ◌++◌, Some, None, length, reverse};
ghost use Rattle.std.specs.Option.{ForSome, option_copied};
ghost use Rattle.stream_syntax.specs.Units.{is_loss as means_loss};
ghost use Rattle.ts_packets.specs.Fates.{longest_unit};
ghost use Rattle.decoder_model.specs.Arrivals.{Arrival, arrival_of_unit, losses_at, units_at, is_passed_over as passes_over};
ghost use Rattle.decoder_model.specs.PacketArrivals.{last_run};
ghost use Rattle.decoder_model.specs.Sets.{Delivery};
ghost use Rattle.display_sets.specs.Gathered.{ready_sets};
ghost use Rattle.display_sets.specs.Standing.{IsUnitEnd, HasGathered};
ghost use Rattle.set_reader.specs.Private.Ends.{IsEndOf, end_drops, end_parts, lost_where};

use display_sets::{Gathering, UnitEnd};
use pes_packets::read_pes;
use stream_syntax::{Event, PesFault};

/// What became of the unit that a packet ended, where it ended one, and whether it is a loss.
#[derive(Clone, Copy)]
pub(crate) struct Ended {
    pub end: Option<UnitEnd>,
    pub lost: bool,
}

/// Whether what becomes of a packet means a loss.
pub(crate) fn is_loss(event: Event) -> bool
    ensures { result ≡ means_loss event }
{
    match event {
        Event::Gap { .. } | Event::ErrorFlag | Event::Short { .. } | Event::TooLong { .. } => true,
        Event::Followed | Event::Other | Event::NoPayload | Event::Double | Event::Dropped => false,
    }
}

/// Something was lost: a set in hand that has not ended is given up.
pub(crate) fn lose_where(lost: bool, sets: &mut Gathering)
    requires none { ready_sets sets.old ≡ [] }
    ensures gathers { (event : Event) (arrivals : List Arrival) (given : List (Delivery (List ℕ)))
        → lost ≡ means_loss event
        → HasGathered arrivals false given sets.old
        → HasGathered (arrivals ++ losses_at event) false (given ++ lost_where lost) sets.new }
    ensures none { ready_sets sets.new ≡ [] }
    ensures pages { sets.new.pages ≡ sets.old.pages }
    ensures coded { sets.new.coded ≡ sets.old.coded }
{
    if lost {
        sets.lose();
    }
}

/// Takes the unit that a packet ended, where it ended one.
pub(crate) fn take_ended(unit: Option<&[u8]>, sets: &mut Gathering) -> Ended
    requires none { ready_sets sets.old ≡ [] }
    requires short { ForSome unit (λ bytes. length bytes.now ≤ longest_unit) }
    ensures gathers { (arrivals : List Arrival) (given : List (Delivery (List ℕ))) (place : ℕ)
        → HasGathered arrivals false given sets.old
        → HasGathered (arrivals ++ units_at sets.old.pages place (option_copied unit.entry)) false
        (given ++ lost_where result.lost) sets.new }
    ensures end { (arrivals : List Arrival) (given : List (Delivery (List ℕ))) (place : ℕ)
        → HasGathered arrivals false given sets.old
        → IsEndOf sets.old.coded sets.old.pages place (last_run (reverse arrivals))
        (option_copied unit.entry) result.end }
    ensures pages { sets.new.pages ≡ sets.old.pages }
    ensures coded { sets.new.coded ≡ sets.old.coded }
{
    match unit {
        None => Ended {
            end: None,
            lost: false,
        },
        Some(bytes) => take_unit(bytes, sets),
    }
}

/// Takes a unit that was handed out: as a PES packet, or as a loss where it is refused as one.
fn take_unit(unit: &[u8], sets: &mut Gathering) -> Ended
    requires none { ready_sets sets.old ≡ [] }
    requires short { length unit.now ≤ longest_unit }
    ensures gathers { (arrivals : List Arrival) (given : List (Delivery (List ℕ))) (place : ℕ)
        → HasGathered arrivals false given sets.old
        → HasGathered (arrivals ++ arrival_of_unit sets.old.pages place unit.now ∷ []) false
        (given ++ lost_where result.lost) sets.new }
    ensures end { (arrivals : List Arrival) (given : List (Delivery (List ℕ))) (place : ℕ)
        → HasGathered arrivals false given sets.old
        → (end : UnitEnd) × (result.end ≡ Some end)
        × IsUnitEnd sets.old.coded (last_run (reverse arrivals))
        (arrival_of_unit sets.old.pages place unit.now) end }
    ensures pages { sets.new.pages ≡ sets.old.pages }
    ensures coded { sets.new.coded ≡ sets.old.coded }
{
    match read_pes(unit) {
        Ok(pes) => Ended {
            end: Some(sets.take_unit(pes.pts, unit.len() as u32, pes.segments)),
            lost: false,
        },
        Err(fault) => {
            if is_passed_over(fault) {
                return Ended {
                    end: Some(UnitEnd::Aside),
                    lost: false,
                };
            }
            sets.lose();
            Ended {
                end: Some(UnitEnd::Dropped),
                lost: true,
            }
        }
    }
}

/// Whether a unit that is refused as a PES packet of subtitles is one of something else.
fn is_passed_over(fault: PesFault) -> bool
    ensures { result ≡ passes_over fault }
{
    match fault {
        PesFault::OtherStream(_) => true,
        PesFault::OtherField(_) => true,
        PesFault::NoPrefix
        | PesFault::BadHeader
        | PesFault::Scrambled
        | PesFault::NoPts
        | PesFault::BadMarker => false,
    }
}

/// Whether the unit that a packet ended is dropped.
pub(crate) fn drops(end: Option<UnitEnd>) -> bool
    ensures { result ≡ end_drops end }
{
    matches!(end, Some(UnitEnd::Aside | UnitEnd::Dropped))
}

/// Whether the unit that a packet ended makes the set in hand ready before it.
pub(crate) fn parts(end: Option<UnitEnd>) -> bool
    ensures { result ≡ end_parts end }
{
    matches!(end, Some(UnitEnd::Parted))
}
