//! The objects of a set, taken into the page memory one after another (EN 300 743, clause 7.2.5).

ghost use Rattle.std.specs.Prelude.{◌≡◌, ◌∷◌, ◌++◌, List, None, filter, option_map, reverse};
ghost use Rattle.decoder_model.specs.Faults.{object_too_deep};
ghost use Rattle.decoder_model.specs.Readings.{AreObjectFields, Content};
ghost use Rattle.decoder_model.specs.declared.set_fault.SetFault.{SetFault as Fault};
ghost use Rattle.segments.specs.Contents.{object_value};
ghost use Rattle.stream_syntax.specs.Segments.{of_object};
ghost use Rattle.page_core.specs.Handed.{AreContents, HasFieldSizes};
ghost use Rattle.page_core.specs.Memory.{HoldsSegments};
ghost use Rattle.page_core.specs.Private.RegionTests.{first_in};
ghost use Rattle.page_core.specs.Private.SetSteps.{KeepsButObjects};
ghost use Rattle.page_core.specs.Private.Walks.{is_object};

use super::Core;
use crate::walking::next_object;
use decoder_model::SetFault;
use segments::{ObjectSeg, SegmentFault};

impl Core {
    /// Takes the object segments of a set, one after another; the first that has a fault ends it.
    pub(crate) fn take_objects(&mut self, bytes: &[u8]) -> Option<SetFault>
        ensures fault { (older set : List Content) → HoldsSegments older self.old
            → AreContents set bytes.now
            → result ≡ first_in object_too_deep older (filter is_object set) }
        ensures taken { (older set : List Content) → HoldsSegments older self.old
            → AreContents set bytes.now
            → result ≡ None
            → HoldsSegments (reverse (filter is_object set) ++ older) self.new }
        ensures rest { KeepsButObjects self.old self.new }
    {
        let mut rest = bytes;
        while let Some(next) = next_object(rest) {
            if let Some(fault) = self.take_object(&next.segment) {
                return Some(fault);
            }
            rest = next.rest;
        }
        None
    }

    /// Paints an object through all listings that it paints, or answers its fault; what it has
    /// painted then is of no use.
    fn take_object(&mut self, object: &ObjectSeg<'_>) -> Option<SetFault>
        requires fields { HasFieldSizes (of_object (object_value object.now)) }
        ensures fault { (older : List Content) (content : Content) → HoldsSegments older self.old
            → of_object (object_value object.now) ≡ content.value
            → AreObjectFields content.value content.top content.bottom
            → result ≡ object_too_deep older content }
        ensures taken { (older : List Content) (content : Content) → HoldsSegments older self.old
            → of_object (object_value object.now) ≡ content.value
            → AreObjectFields content.value content.top content.bottom → result ≡ None
            → HoldsSegments (content ∷ older) self.new }
        ensures rest { KeepsButObjects self.old self.new }
    {
        in_segment(self.composition.paint_everywhere(object, &mut self.store))
    }
}

// The fault of a segment, as that of its set.
fn in_segment(fault: Option<SegmentFault>) -> Option<SetFault>
    ensures { result ≡ option_map Fault.Segment fault }
{
    match fault {
        None => None,
        Some(fault) => Some(SetFault::Segment(fault)),
    }
}
