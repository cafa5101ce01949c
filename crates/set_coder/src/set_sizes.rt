ghost use Rattle.std.specs.Prelude.{◌≡◌, ℕ, ◌+◌, ◌*◌, ◌^◌, ◌<◌, ◌≤◌, List, [], ◌∷◌, ◌++◌, length, sum, sum_by, All, IfOk, OnOk, option_to_list};
ghost use Rattle.cue_records.specs.declared.limits.TheConstants.{MOST_REGIONS};
ghost use Rattle.pes_packets.specs.Units.{IsSegmentLength, AreUnitLengths};
ghost use Rattle.page_epoch.specs.Sendable.{IsOfItsEpoch, IsSendableRegion};
ghost use Rattle.set_coder.specs.KeptBlocks.{AreCoded};
ghost use Rattle.set_coder.specs.SetSizes.{sent_painting, AreUnitSizes, IsSetSize, IsLongestSegment, IsLoadAnswer, IsPaintedIn};
ghost use Rattle.set_coder.specs.Private.Measuring.{IsMeasured, CanTake};

use crate::coded_picture::{BlockLookup, KeptBlocks};
use crate::named::{epoch_of, epoch_region};
use crate::segment_sizes::SegmentSizes;
use cue_list::{Epoch, Script};
use page_epoch::{PlannedSet, SentRegion};
use pes_packets::OpenUnit;
use std::alloc::Global;
use sub_base::{Items, NoMemory, SetLoad, WriteLoad};

/// How many bytes the PES packets of a set have together. No memory is taken: the blocks of its
/// objects are measured, and not written.
pub fn size_of(script: &Script, set: &PlannedSet) -> u64
    requires { IsOfItsEpoch script.now set.now }
    ensures size { IsSetSize script.now set.now result }
    ensures some { 1 ≤ result }

    // No other size is that of the set.
    ensures only_size { (size : ℕ) → IsSetSize script.now set.now size → result ≡ size }
{
    let nothing = BlockLookup::nothing();
    let mut segments = SegmentSizes::of_set(script, &nothing, set);
    let mut unit = OpenUnit::new();
    let mut size = 0;
    while let Some(segment) = segments.next_size() {
        size += u64::from(unit.take(segment).unwrap_or(0));
    }
    size + u64::from(unit.length().unwrap_or(0))
}

/// What sending a set takes: when it is shown, the bytes of each of its PES packets and of all
/// together, the ticks that painting its regions takes, and the bytes of its longest segment.
pub fn load_of(alloc: Global, script: &Script, set: &PlannedSet) -> Result<WriteLoad, NoMemory>
    requires { IsOfItsEpoch script.now set.now }
    ensures { IfOk result (IsLoadAnswer script.now set.now) }
{
    load_with(alloc, &BlockLookup::nothing(), script, set)
}

impl KeptBlocks {
    /// What `load_of` says of a set of the script whose blocks these are.
    pub fn load_of(&self, script: &Script, set: &PlannedSet) -> Result<WriteLoad, NoMemory>
        requires kept { AreCoded script.now.pictures self.now.coded.items }
        requires set { IsOfItsEpoch script.now set.now }
        ensures { IfOk result (IsLoadAnswer script.now set.now) }
    {
        load_with(*self.coded.allocator(), &self.lookup(), script, set)
    }
}

/// What sending a set takes, by the blocks that are kept.
pub(crate) fn load_with(
    alloc: Global,
    kept: &BlockLookup<'_>,
    script: &Script,
    set: &PlannedSet,
) -> Result<WriteLoad, NoMemory>
    requires kept { AreCoded script.now.pictures kept.now.coded.now }
    requires set { IsOfItsEpoch script.now set.now }
    ensures { IfOk result (IsLoadAnswer script.now set.now) }
{
    let measured = measure(alloc, kept, script, set)?;
    Ok(WriteLoad {
        load: SetLoad {
            pts: set.pts,
            size: measured.size,
            painted: painted_in(script, set),
        },
        longest: measured.longest,
        units: Items::new(alloc, measured.units),
    })
}

/// The units of a set, as its segments are measured one after the other.
#[derive(Drop)]
struct Measured {
    unit: OpenUnit,
    /// The bytes of each unit that is closed.
    units: Vec<u32>,
    /// The bytes of all of them.
    size: u64,
    /// The bytes of the longest segment.
    longest: u64,
}

/// Measures the segments of a set.
fn measure(
    alloc: Global,
    kept: &BlockLookup<'_>,
    script: &Script,
    set: &PlannedSet,
) -> Result<Measured, NoMemory>
    requires kept { AreCoded script.now.pictures kept.now.coded.now }
    requires set { IsOfItsEpoch script.now set.now }
    ensures units { IfOk result
        (λ measured. AreUnitSizes script.now set.now measured.units.items) }
    ensures size { IfOk result (λ measured. measured.size ≡ sum measured.units.items) }
    ensures longest { IfOk result
        (λ measured. IsLongestSegment script.now set.now measured.longest) }
{
    let mut segments = SegmentSizes::of_set(script, kept, set);
    let mut measured = Measured::new(alloc);
    while let Some(segment) = segments.next_size() {
        measured.take(segment)?;
    }
    measured.finish()?;
    Ok(measured)
}

impl Measured {
    /// No segment so far.
    fn new(alloc: Global) -> Measured
        ensures measured { IsMeasured [] result }
        ensures few { CanTake result 0 }
    {
        Measured {
            unit: OpenUnit::new(),
            units: Vec::new(alloc),
            size: 0,
            longest: 0,
        }
    }

    /// Takes the bytes of the next segment.
    fn take(&mut self, segment: u32) -> Result<(), NoMemory>
        requires segment { IsSegmentLength segment }
        requires few { (count : ℕ) × CanTake self.old count × (count ≤ 5000) }
        ensures measured { OnOk result
            ((sizes : List ℕ) → IsMeasured sizes self.old
            → IsMeasured (sizes ++ segment ∷ []) self.new) }
        ensures few { OnOk result
            ((count : ℕ) → CanTake self.old count → CanTake self.new (count + 1)) }
    {
        self.longest = self.longest.max(u64::from(segment));
        let closed = self.unit.take(segment);
        self.close(closed)
    }

    /// Closes the last unit, after the last segment.
    fn finish(&mut self) -> Result<(), NoMemory>
        requires few { (count : ℕ) × CanTake self.old count × (count ≤ 5000) }
        ensures units { OnOk result
            ((sizes : List ℕ) → IsMeasured sizes self.old
            → AreUnitLengths sizes self.new.units.items) }
        ensures size { OnOk result
            ((sizes : List ℕ) → IsMeasured sizes self.old
            → self.new.size ≡ sum self.new.units.items) }
        ensures longest { self.new.longest ≡ self.old.longest }
    {
        let last = self.unit.length();
        self.close(last)
    }

    /// Keeps the length of a unit that is closed, where one is.
    fn close(&mut self, closed: Option<u32>) -> Result<(), NoMemory>
        requires { self.old.size < 2 ^ 63 }
        ensures units { OnOk result
            (self.new.units.items ≡ self.old.units.items ++ option_to_list closed) }
        ensures size { OnOk result (self.new.size ≡ self.old.size + sum (option_to_list closed)) }
        ensures longest { self.new.longest ≡ self.old.longest }
        ensures unit { self.new.unit ≡ self.old.unit }
    {
        if let Some(length) = closed {
            self.units.push(length)?;
            self.size += u64::from(length);
        }
        Ok(())
    }
}

/// The ticks that painting the regions of a set takes.
pub fn painted_in(script: &Script, set: &PlannedSet) -> u64
    requires { IsOfItsEpoch script.now set.now }
    ensures painted { IsPaintedIn script.now set.now result }
    ensures short { result ≤ 274877906944 }
{
    let epoch = epoch_of(script, set);
    painting_of_regions(epoch, set.regions.as_slice())
}

/// The ticks that painting regions takes.
fn painting_of_regions(epoch: &Epoch, regions: &[SentRegion]) -> u64
    requires few { length regions.now ≤ MOST_REGIONS }
    requires each { All (IsSendableRegion epoch.now) regions.now }
    ensures painted { result ≡ sum_by (sent_painting epoch.now) regions.now }
    ensures short { result ≤ 274877906944 }
{
    let mut painted = 0;
    for sent in regions {
        painted += painting_of_region(epoch, sent);
    }
    painted
}

/// The ticks that painting a region takes: 64 pixels a tick.
fn painting_of_region(epoch: &Epoch, sent: &SentRegion) -> u64
    requires { IsSendableRegion epoch.now sent.now }
    ensures painted { result ≡ sent_painting epoch.now sent.now }
    ensures short { result ≤ 4294967296 }
{
    let region = epoch_region(epoch, sent.id);
    (u64::from(region.width) * u64::from(region.height) + 63) / 64
}
