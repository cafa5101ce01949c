//! The fault of a set that needs more nodes than there are.

ghost use Rattle.std.specs.Prelude.{◌≡◌, ◌∷◌, ◌<◌, ◌^◌, List, Some, min};
ghost use Rattle.decoder_model.specs.Contents.{page_in_set};
ghost use Rattle.decoder_model.specs.Faults.{composition_fault};
ghost use Rattle.decoder_model.specs.Nodes.{nodes_of};
ghost use Rattle.decoder_model.specs.Readings.{Content};
ghost use Rattle.decoder_model.specs.Taken.{segments_of, taken_of};
ghost use Rattle.segments.specs.Contents.{page_value};
ghost use Rattle.page_core.specs.Private.Accepted.{IsBefore};
ghost use Rattle.page_core.specs.Private.Counting.{kept_need};
ghost use Rattle.page_core.specs.Private.Sound.{IsSound};

use crate::counting::{clut_nodes, region_nodes};
use crate::memory::Core;
use decoder_model::SetFault;
use segments::PageSeg;

impl Core {
    /// The fault of a set that needs more nodes than there are. Nothing is changed.
    pub(crate) fn nodes_fault(&mut self, page: &PageSeg<'_>, bytes: &[u8]) -> Option<SetFault>
        ensures answer { (before : List (List Content)) (set : List Content)
            → IsBefore before self.old → IsSound set bytes.now
            → page_in_set set ≡ Some (page_value page.now)
            → result ≡ composition_fault self.old.profile
            (taken_of (segments_of (set ∷ before))) (page_value page.now) }
        ensures same { self.new ≡ self.old }
    {
        let need = self.nodes_needed(page, bytes);
        if need <= u64::from(self.profile.nodes) {
            return None;
        }
        Some(SetFault::CompositionFull {
            size: narrowed(need),
        })
    }

    // How many nodes the epoch needs with a set: those that are taken but for the entries of the
    // page, and what the set changes.
    fn nodes_needed(&mut self, page: &PageSeg<'_>, bytes: &[u8]) -> u64
        ensures needed { (before : List (List Content)) (set : List Content)
            → IsBefore before self.old → IsSound set bytes.now
            → page_in_set set ≡ Some (page_value page.now)
            → result ≡ nodes_of (taken_of (segments_of (set ∷ before)))
            (page_value page.now) }
        ensures few { (before : List (List Content)) (set : List Content)
            → IsBefore before self.old → IsSound set bytes.now
            → page_in_set set ≡ Some (page_value page.now) → result < 2 ^ 32 }
        ensures same { self.new ≡ self.old }
    {
        let regions = region_nodes(&self.composition, bytes);
        let cluts = clut_nodes(&self.composition, &mut self.marks, bytes);
        self.marks.forget_counted();
        u64::from(self.kept_nodes())
            .saturating_add(page.count() as u64)
            .saturating_add(regions.added)
            .saturating_sub(regions.gone)
            .saturating_add(cluts)
    }

    // How many nodes are taken, but for those of the entries of the page.
    fn kept_nodes(&self) -> u32
        ensures { result ≡ kept_need self.now.composition }
    {
        self.profile.nodes - self.composition.free() - self.composition.entry_count()
    }
}

// The number, and the greatest one of 32 bits where it is greater.
fn narrowed(number: u64) -> u32
    ensures { result ≡ min number 4294967295 }
{
    number.min(u64::from(u32::MAX)) as u32
}
