ghost use Rattle.std.specs.Prelude.{◌≡◌, ◌≤◌, [], ◌∷◌, ◌++◌, All, IfErr, IfOk, OnOk, length};
ghost use Rattle.std.specs.List.{AllZip};
ghost use Rattle.page_epoch.specs.Sendable.{IsOfItsEpoch};
ghost use Rattle.set_coder.specs.KeptBlocks.{AreCoded};
ghost use Rattle.sub_base.specs.declared.load.TheConstants.{UNIT_ROOM};
ghost use Rattle.page_pair.specs.PairStream.{IsEven};
ghost use Rattle.page_pair.specs.Private.Units.{AreUnitsOf, IsLoadOf, IsPairStop, IsPairUnit, IsStopAt, IsUnitsStop, IsWrittenPair, packet_of, stop_at as stop_of};

use crate::pages::TwoPages;
use crate::pair_set::{SetStop, pair_set};
use crate::set_object::Language;
use crate::written::Written;
use cue_list::Script;
use page_epoch::PlannedSet;
use pes_packets::{OTHER_BYTES, write_unit};
use set_coder::{KeptBlocks, painted_in};
use std::alloc::Global;
use stream_syntax::TIME_ROUND;
use sub_base::{Items, NoMemory, SetLoad, WriteLoad};

/// What sending the sets of both scripts takes, and the PES packet of each pair of sets.
#[derive(Drop)]
pub(crate) struct PairUnits {
    pub(crate) loads: Vec<WriteLoad>,
    pub(crate) written: Vec<Items<u8>>,
}

/// Why the sets of both have no PES packets.
#[derive(Clone, Copy, Debug, PartialEq, Eq)]
pub(crate) enum UnitsStop {
    /// No memory was found.
    Memory,
    /// The sets at this place, from 0, are the first that have no room in one PES packet, which
    /// would have so many bytes.
    TooLong { set: u64, size: u64 },
}

/// What sending the sets of both at one place takes, and their PES packet.
#[derive(Drop)]
pub(crate) struct PairUnit {
    load: WriteLoad,
    bytes: Items<u8>,
}

/// A script, with the blocks that are kept of its pictures.
#[derive(Clone, Copy)]
struct CodedScript<'a> {
    script: &'a Script,
    kept: &'a KeptBlocks,
}

/// What sending the sets of two plans takes, set by set in one PES packet for both. The pictures of
/// each script are coded once for all its sets.
pub(crate) fn pair_units(
    alloc: Global,
    pages: TwoPages,
    first: &Script,
    second: &Script,
    one: &[PlannedSet],
    two: &[PlannedSet],
) -> Result<PairUnits, UnitsStop>
    requires first_sets { All (IsOfItsEpoch first.now) one.now }
    requires second_sets { All (IsOfItsEpoch second.now) two.now }
    requires even { AllZip IsEven one.now two.now }
    ensures made { IfOk result (AreUnitsOf pages first.now second.now one.now two.now) }
    ensures stop { IfErr result (IsUnitsStop pages first.now second.now one.now two.now) }
{
    let Ok(first_kept) = KeptBlocks::of_script(alloc, first) else {
        return Err(UnitsStop::Memory);
    };
    let Ok(second_kept) = KeptBlocks::of_script(alloc, second) else {
        return Err(UnitsStop::Memory);
    };
    let first_coded = CodedScript {
        script: first,
        kept: &first_kept,
    };
    let second_coded = CodedScript {
        script: second,
        kept: &second_kept,
    };
    match units_of(alloc, pages, &first_coded, &second_coded, one, two) {
        Ok(made) => Ok(made),
        Err(stop) => Err(stop),
    }
}

/// What sending the sets of two plans takes, with the blocks that are kept. Sets are measured one
/// after the other; the first that is too long ends the call.
fn units_of(
    alloc: Global,
    pages: TwoPages,
    first: &CodedScript<'_>,
    second: &CodedScript<'_>,
    one: &[PlannedSet],
    two: &[PlannedSet],
) -> Result<PairUnits, UnitsStop>
    requires first { AreCoded first.now.script.now.pictures first.now.kept.now.coded.items }
    requires second { AreCoded second.now.script.now.pictures second.now.kept.now.coded.items }
    requires first_sets { All (IsOfItsEpoch first.now.script.now) one.now }
    requires second_sets { All (IsOfItsEpoch second.now.script.now) two.now }
    requires even { AllZip IsEven one.now two.now }
    ensures made { IfOk result
        (AreUnitsOf pages first.now.script.now second.now.script.now one.now two.now) }
    ensures stop { IfErr result
        (IsUnitsStop pages first.now.script.now second.now.script.now one.now two.now) }
{
    let mut made = PairUnits::new(alloc);
    for place in 0..one.len() {
        let unit = match pair_unit(
            alloc,
            pages,
            first,
            second,
            &one[place],
            &two[place],
            place as u64,
        ) {
            Ok(unit) => unit,
            Err(stop) => return Err(stop),
        };
        let Ok(()) = made.push(unit) else {
            return Err(UnitsStop::Memory);
        };
    }
    Ok(made)
}

impl PairUnits {
    /// No set.
    fn new(alloc: Global) -> PairUnits
        ensures loads { result.loads.items ≡ [] }
        ensures written { result.written.items ≡ [] }
    {
        PairUnits {
            loads: Vec::new(alloc),
            written: Vec::new(alloc),
        }
    }

    /// Puts a pair of sets last.
    fn push(&mut self, unit: PairUnit) -> Result<(), NoMemory>
        ensures loads { OnOk result
            (self.new.loads.items ≡ self.old.loads.items ++ unit.load ∷ []) }
        ensures written { OnOk result
            (self.new.written.items ≡ self.old.written.items ++ unit.bytes ∷ []) }
    {
        self.loads.push(unit.load)?;
        self.written.push(unit.bytes)?;
        Ok(())
    }
}

/// What sending the sets of both at a place takes, and their PES packet.
fn pair_unit(
    alloc: Global,
    pages: TwoPages,
    first: &CodedScript<'_>,
    second: &CodedScript<'_>,
    one: &PlannedSet,
    two: &PlannedSet,
    place: u64,
) -> Result<PairUnit, UnitsStop>
    requires first { AreCoded first.now.script.now.pictures first.now.kept.now.coded.items }
    requires second { AreCoded second.now.script.now.pictures second.now.kept.now.coded.items }
    requires first_set { IsOfItsEpoch first.now.script.now one.now }
    requires second_set { IsOfItsEpoch second.now.script.now two.now }
    ensures unit { IfOk result
        (IsPairUnit pages first.now.script.now second.now.script.now one.now two.now) }
    ensures stop { IfErr result
        (IsStopAt pages first.now.script.now second.now.script.now one.now two.now place) }
{
    let written = match written_pair(alloc, pages, first, second, one, two) {
        Ok(written) => written,
        Err(stop) => return Err(stop_at(place, stop)),
    };
    let painted = painted_in(first.script, one) + painted_in(second.script, two);
    match unit_of(alloc, one.pts, painted, &written) {
        Ok(unit) => Ok(unit),
        Err(_) => Err(UnitsStop::Memory),
    }
}

/// The stop of the sets at a place.
fn stop_at(place: u64, stop: SetStop) -> UnitsStop
    ensures { result ≡ stop_of place stop }
{
    match stop {
        SetStop::Memory => UnitsStop::Memory,
        SetStop::TooLong { size } => UnitsStop::TooLong { set: place, size },
    }
}

/// The segments of the sets of both at a place, where they have room in one PES packet.
fn written_pair(
    alloc: Global,
    pages: TwoPages,
    first: &CodedScript<'_>,
    second: &CodedScript<'_>,
    one: &PlannedSet,
    two: &PlannedSet,
) -> Result<Written, SetStop>
    requires first { AreCoded first.now.script.now.pictures first.now.kept.now.coded.items }
    requires second { AreCoded second.now.script.now.pictures second.now.kept.now.coded.items }
    requires first_set { IsOfItsEpoch first.now.script.now one.now }
    requires second_set { IsOfItsEpoch second.now.script.now two.now }
    ensures written { IfOk result
        (IsWrittenPair pages first.now.script.now second.now.script.now one.now two.now) }
    ensures stop { IfErr result
        (IsPairStop pages first.now.script.now second.now.script.now one.now two.now) }
{
    let Ok(own) = Language::of(alloc, first.script, first.kept, one) else {
        return Err(SetStop::Memory);
    };
    let Ok(other) = Language::of(alloc, second.script, second.kept, two) else {
        return Err(SetStop::Memory);
    };
    match pair_set(alloc, pages, &own, &other) {
        Ok(written) => Ok(written),
        Err(stop) => Err(stop),
    }
}

/// What sending written segments in one PES packet takes, at that tick and with so long a painting;
/// and the packet.
fn unit_of(alloc: Global, time: u64, painted: u64, written: &Written) -> Result<PairUnit, NoMemory>
    requires short { length written.now.bytes.items ≤ UNIT_ROOM }
    ensures load { IfOk result (λ unit. IsLoadOf time painted written.now unit.load) }
    ensures bytes { IfOk result
        (λ unit. unit.bytes ≡ packet_of time written.now.bytes.items) }
{
    let size = OTHER_BYTES + written.bytes.len() as u64;
    let mut units = Vec::new(alloc);
    units.push(size as u32)?;
    let mut bytes = Vec::new(alloc);
    // A PES packet has 33 bits for its time.
    write_unit(time % TIME_ROUND, written.bytes.as_slice(), &mut bytes)?;
    Ok(PairUnit {
        load: WriteLoad {
            load: SetLoad {
                pts: time,
                size,
                painted,
            },
            longest: written.longest as u64,
            units: Items::new(alloc, units),
        },
        bytes: Items::new(alloc, bytes),
    })
}
