//! The regions of a set in the page memory.

ghost use Rattle.std.specs.Prelude.{◌≡◌, ◌-◌, [], List, filter};
ghost use Rattle.decoder_model.specs.Nodes.{pixels_used};
ghost use Rattle.decoder_model.specs.Readings.{Content};
ghost use Rattle.decoder_model.specs.Taken.{taken_of};
ghost use Rattle.page_core.specs.Handed.{AreContents};
ghost use Rattle.page_core.specs.Memory.{HoldsSegments};
ghost use Rattle.page_core.specs.Private.RegionSteps.{AreRegionsValid, KeepsButRegions, with_regions_of};
ghost use Rattle.page_core.specs.Private.RegionTests.{AreApart};
ghost use Rattle.page_core.specs.Private.Walks.{is_region};

use super::Core;
use crate::region_taking::{clear_renewed, take_all};

impl Core {
    /// Takes the region segments of a set.
    pub(super) fn take_regions(&mut self, bytes: &[u8])
        ensures holds { (older set : List Content) → HoldsSegments older self.old
            → AreContents set bytes.now → AreApart [] (filter is_region set)
            → AreRegionsValid older set self.old
            → HoldsSegments (with_regions_of older set) self.new }
        ensures pixels { (older set : List Content) → HoldsSegments older self.old
            → AreContents set bytes.now → AreApart [] (filter is_region set)
            → AreRegionsValid older set self.old
            → self.new.store.free
            ≡ self.new.profile.pixels - pixels_used (taken_of (with_regions_of older set)) }
        ensures rest { KeepsButRegions self.old self.new }
    {
        clear_renewed(&mut self.composition, bytes);
        take_all(&mut self.composition, &mut self.store, bytes);
    }
}
