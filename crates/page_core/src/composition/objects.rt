//! The regions in which an object paints, and its fault in them (EN 300 743, clause 7.2.5).

ghost use Rattle.std.specs.Prelude.{◌≡◌, option_map};
ghost use Rattle.page_core.specs.Private.Listings.{painter_of};
ghost use Rattle.page_core.specs.Private.ObjectFaults.{lesser, told};

use crate::composition::listings::Painter;
use segments::ObjectSeg;
use stream_syntax::SegmentFault;

/// The fault of an object in the region of that id.
#[derive(Clone, Copy)]
pub(crate) struct RegionFault {
    pub(crate) region: u8,
    pub(crate) fault: SegmentFault,
}

/// The fault alone.
pub(crate) fn fault_of(found: Option<RegionFault>) -> Option<SegmentFault>
    ensures { result ≡ option_map (λ found. found.fault) found }
{
    match found {
        None => None,
        Some(found) => Some(found.fault),
    }
}

/// By what an object is painted.
pub(crate) fn painter(object: &ObjectSeg<'_>) -> Painter
    ensures { result ≡ painter_of object.now }
{
    Painter {
        object: object.object,
        version: object.version,
        see_through: object.see_through,
    }
}

/// The one of the lesser id.
pub(crate) fn lesser(one: Option<RegionFault>, other: Option<RegionFault>) -> Option<RegionFault>
    ensures { option_map told result ≡ lesser (option_map told one) (option_map told other) }
{
    match (one, other) {
        (None, other) => other,
        (Some(one), None) => Some(one),
        (Some(one), Some(other)) => Some(if other.region < one.region {
            other
        } else {
            one
        }),
    }
}
