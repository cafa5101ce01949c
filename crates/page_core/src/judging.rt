//! The tests of a set by its epoch (EN 300 743, clauses 5.1, 5.2 and 7.2), in the order of
//! `epoch_fault`: the standard names what is wrong, and no order.

ghost use Rattle.std.specs.Prelude.{◌-◌, ◌≡◌, ◌++◌, List, None, option_and_then, option_map, reverse, slice_index_or, false, ◌<◌};
ghost use Rattle.std.specs.Option.{is_none};
ghost use Rattle.decoder_model.specs.Contents.{in_order};
ghost use Rattle.decoder_model.specs.Faults.{display_fault as fault_of_display, page_fault as fault_of_page};
ghost use Rattle.decoder_model.specs.Readings.{Content};
ghost use Rattle.decoder_model.specs.Taken.{last_region};
ghost use Rattle.segments.specs.Contents.{display_value, page_value};
ghost use Rattle.decoder_model.specs.Nodes.{pixels_used};
ghost use Rattle.decoder_model.specs.Taken.{segments_of, taken_of};
ghost use Rattle.page_core.specs.Private.Judging.{AreDefined, KnowsRegions, fault_before_nodes as first_of_tests};
ghost use Rattle.page_core.specs.Private.RegionTests.{HasHeads};
ghost use Rattle.page_core.specs.Private.Seen.{IsFound};
ghost use Rattle.page_core.specs.Private.Sound.{IsSound};

use crate::composition::CompositionMemory;
use crate::region_tests::{changed_region, full_pixels};
use crate::seen::Found;
use decoder_model::SetFault;
use segments::{DisplaySeg, PageSeg};
use sub_base::Profile;

/// The first fault of a set by its display, by the regions of its page, and by its own regions, in
/// this order. `free` is how many bytes of pixels are free before the set.
pub(crate) fn fault_before_nodes(
    profile: &Profile,
    composition: &CompositionMemory,
    free: u64,
    found: &Found<'_>,
    page: &PageSeg<'_>,
    bytes: &[u8],
) -> Option<SetFault>
    ensures fault { (set : List Content) (before : List (List Content))
        → free ≡ profile.now.pixels - pixels_used (taken_of (segments_of before))
        → HasHeads (segments_of before) composition.now
        → IsFound set found.now → IsSound set bytes.now
        → result ≡ first_of_tests profile.now before set (page_value page.now) }
    ensures display { result ≡ None
        → option_and_then (fault_of_display profile.now)
        (option_map display_value found.now.display) ≡ None }
{
    if let Some(fault) = display_fault(profile, found.display) {
        return Some(fault);
    }
    if let Some(fault) = page_fault(composition, &found.regions, page) {
        return Some(fault);
    }
    if let Some(fault) = changed_region(composition, bytes) {
        return Some(fault);
    }
    full_pixels(composition, free, bytes)
}

/// The display that a set defines is larger than the profile's.
pub(crate) fn display_fault(profile: &Profile, display: Option<DisplaySeg>) -> Option<SetFault>
    ensures { result
        ≡ option_and_then (fault_of_display profile.now) (option_map display_value display) }
{
    let DisplaySeg { width, height, .. } = display?;
    if profile.width < width || profile.height < height {
        Some(SetFault::DisplayTooLarge { width, height })
    } else {
        None
    }
}

/// The first region that the page of a set shows, and neither the epoch nor the set defines.
pub(crate) fn page_fault(
    composition: &CompositionMemory,
    defined: &[bool; 256],
    page: &PageSeg<'_>,
) -> Option<SetFault>
    ensures { (set older : List Content) → KnowsRegions older composition.now
        → AreDefined set defined.now
        → result ≡ fault_of_page (reverse (in_order set) ++ older) (page_value page.now) }
{
    for i in 0..page.count() {
        let id = page.entry(i).region;
        if is_unknown(composition, defined, id) {
            return Some(SetFault::NoSuchRegion { id });
        }
    }
    None
}

fn is_unknown(composition: &CompositionMemory, defined: &[bool; 256], id: u8) -> bool
    ensures { (set older : List Content) → KnowsRegions older composition.now
        → AreDefined set defined.now
        → result ≡ is_none (last_region id (reverse (in_order set) ++ older)) }
{
    !is_flagged(defined, id) && composition.region(id).is_none()
}

fn is_flagged(flags: &[bool; 256], id: u8) -> bool
    ensures flag { result ≡ slice_index_or flags.now id false }
    ensures byte { id < 256 }
{
    flags[usize::from(id)]
}
