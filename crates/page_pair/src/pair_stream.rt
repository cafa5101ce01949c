//! The stream of two scripts.

ghost use Rattle.std.specs.Prelude.{◌≡◌, ◌<◌, All, IfErr, IfOk, OnOk};
ghost use Rattle.std.specs.Io.KnownBytes.{Appends, Keeps};
ghost use Rattle.page_epoch.specs.Sendable.{IsOfItsEpoch};
ghost use Rattle.shown_stream.specs.Compiled.{IsCompiledFor};
ghost use Rattle.slot_stream.specs.SlotStream.{IsPiece, all_pieces};
ghost use Rattle.stream_syntax.specs.declared.wire.TheConstants.{NULL_PID};
ghost use Rattle.sub_base.specs.Counts.{HasRisen};
ghost use Rattle.sub_base.specs.Endpoints.{AppendsPrefix};
ghost use Rattle.page_pair.specs.PairStream.{ArePairPlans, IsPairedTo};
ghost use Rattle.page_pair.specs.Private.Sending.{AreShort, IsStreamStop, pair_bytes};

use crate::pages::TwoPages;
use crate::pair_fault::PairFault;
use crate::pair_stop::{PairStop, first_refused, second_refused, slots_refused, units_refused};
use crate::planned::plan_of;
use crate::slots::slots_of;
use crate::timing::{first_uneven, other_head};
use crate::units::pair_units;
use cue_list::Script;
use page_epoch::PlannedSet;
use schedule::Schedule;
use slot_stream::{Piece, StreamFault, push_units, write_stream};
use std::alloc::Global;
use std::marker::Model;
use sub_base::{Items, NoMemory, ProfileName, Sink};

/// All that is sent of two scripts: a PES packet for the sets at each place of their plans, and the
/// slots of the transport packets.
#[derive(Drop)]
pub(crate) struct PairStream {
    pid: u16,
    written: Vec<Items<u8>>,
    schedule: Schedule,
}

impl Model for PairStream {
    ghost use Rattle.page_pair.specs.Private.Sending.{CanBeSent, SentPair};

    ghost Value = { SentPair };

    ghost view = { λ s. record { pid = s.pid; units = s.written.items; table = s.schedule } };

    ghost invariant = { λ s. CanBeSent s.pid s.written.items s.schedule };
}

impl PairStream {
    /// The stream of two scripts for receivers of a profile, on a PID and the pages: the sets of
    /// their plans in the earliest slots from their origin on. Or the first reason why they are
    /// not sent: their heads differ, one has no plan, the plans are uneven, sets are too long, or
    /// the schedule refuses them.
    pub(crate) fn make(
        alloc: Global,
        profile: ProfileName,
        pid: u16,
        pages: TwoPages,
        first: &Script,
        second: &Script,
    ) -> Result<PairStream, PairStop>
        requires pid { pid < NULL_PID }
        requires profile { IsCompiledFor profile }
        ensures paired { IfOk result
            (λ sent. IsPairedTo (record { profile = profile; pid = pid; pages = pages })
            first.now second.now (pair_bytes sent)) }
        ensures stop { IfErr result (IsStreamStop profile pages first.now second.now) }
    {
        if let Some(row) = other_head(first, second) {
            return Err(PairStop::Refused(PairFault::Heads { row }));
        }
        let one = match plan_of(alloc, profile, first) {
            Ok(plan) => plan,
            Err(stop) => return Err(first_refused(stop)),
        };
        let two = match plan_of(alloc, profile, second) {
            Ok(plan) => plan,
            Err(stop) => return Err(second_refused(stop)),
        };
        let one_sets = one.sets.as_slice();
        let two_sets = two.sets.as_slice();
        if let Some(set) = first_uneven(one_sets, two_sets) {
            return Err(PairStop::Refused(PairFault::Uneven { set }));
        }
        PairStream::of_plans(
            alloc, profile, pid, pages, first, second, one_sets, two_sets,
        )
    }

    /// The same, of two plans that are even.
    fn of_plans(
        alloc: Global,
        profile: ProfileName,
        pid: u16,
        pages: TwoPages,
        first: &Script,
        second: &Script,
        one: &[PlannedSet],
        two: &[PlannedSet],
    ) -> Result<PairStream, PairStop>
        requires pid { pid < NULL_PID }
        requires profile { IsCompiledFor profile }
        requires plans { ArePairPlans profile first.now second.now one.now two.now }
        requires first_sets { All (IsOfItsEpoch first.now) one.now }
        requires second_sets { All (IsOfItsEpoch second.now) two.now }
        ensures paired { IfOk result
            (λ sent. IsPairedTo (record { profile = profile; pid = pid; pages = pages })
            first.now second.now (pair_bytes sent)) }
        ensures stop { IfErr result (IsStreamStop profile pages first.now second.now) }
    {
        let units = match pair_units(alloc, pages, first, second, one, two) {
            Ok(units) => units,
            Err(stop) => return Err(units_refused(stop)),
        };
        let schedule = match slots_of(alloc, profile, first.origin, one, units.loads.as_slice()) {
            Ok(schedule) => schedule,
            Err(stop) => return Err(slots_refused(stop)),
        };
        Ok(PairStream {
            pid,
            written: units.written,
            schedule,
        })
    }

    /// Writes the packets of all slots up to the last used one. All memory is taken before the
    /// first byte is written.
    pub(crate) fn write<K: Sink>(&self, alloc: Global, out: &mut K) -> Result<(), StreamFault>
        ensures all { OnOk result (Appends (K.received out.old).written (K.received out.new).written
            (pair_bytes self.now)) }
        ensures front { IfErr result (λ fault. fault ≡ StreamFault.Write
            → AppendsPrefix (K.received out.old).written (K.received out.new).written
            (pair_bytes self.now)) }
        ensures nothing { IfErr result (λ fault. fault ≡ StreamFault.Memory
            → Keeps (K.received out.old).written (K.received out.new).written) }
        ensures cause { IfErr result (λ fault. fault ≡ StreamFault.Write
            → HasRisen (K.received out.old).faults (K.received out.new).faults) }
    {
        let Ok(pieces) = pieces_of(alloc, self.written.as_slice()) else {
            return Err(StreamFault::Memory);
        };
        write_stream(
            alloc,
            out,
            self.pid,
            pieces.as_slice(),
            self.schedule.all_slots(),
        )
    }
}

/// The pieces of PES packets, in order.
fn pieces_of<'a>(alloc: Global, units: &'a [Items<u8>]) -> Result<Vec<Piece<'a>>, NoMemory>
    requires { AreShort units.now }
    ensures pieces { IfOk result (λ pieces. pieces.items ≡ all_pieces units.now) }
    ensures each { IfOk result (λ pieces. All IsPiece pieces.items) }
{
    let mut pieces = Vec::new(alloc);
    for unit in units {
        push_units(&[unit.len() as u32], unit.as_slice(), &mut pieces)?;
    }
    Ok(pieces)
}
