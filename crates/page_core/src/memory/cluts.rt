//! The CLUT segments of a set, taken into a core.

ghost use Rattle.std.specs.Prelude.{◌++◌, List, filter, reverse};
ghost use Rattle.decoder_model.specs.Readings.{Content};
ghost use Rattle.page_core.specs.Private.ClutSteps.{HasRoomForCluts, KeepsButColours};
ghost use Rattle.page_core.specs.Handed.{AreContents};
ghost use Rattle.page_core.specs.Memory.{HoldsSegments};
ghost use Rattle.page_core.specs.Private.Walks.{is_clut};

use crate::cluts::take_cluts;
use crate::memory::Core;

impl Core {
    /// Takes the CLUT segments of a set.
    pub(crate) fn take_cluts(&mut self, bytes: &[u8])
        ensures holds { (older set : List Content) → HoldsSegments older self.old
            → AreContents set bytes.now → HasRoomForCluts older set self.old
            → HoldsSegments (reverse (filter is_clut set) ++ older) self.new }
        ensures rest { KeepsButColours self.old self.new }
    {
        take_cluts(
            &mut self.composition,
            &mut self.inks,
            &mut self.marks,
            bytes,
        );
    }
}
