ghost use Rattle.std.specs.Prelude.{◌≡◌, Some, slice_get};
ghost use Rattle.page_epoch.specs.Live.{cue_at};
ghost use Rattle.page_epoch.specs.SentCluts.{row_at};
ghost use Rattle.page_epoch.specs.Sendable.{HasRegion, HasCue, HasColour, IsOfItsEpoch, IsSendableIn};
ghost use Rattle.set_coder.specs.SetSegments.{epoch_region};
ghost use Rattle.set_coder.specs.Usable.{IsUsable, AreDrawable};

use cue_list::{ColourRow, Cue, Epoch, Region, Script, region_with};
use page_epoch::PlannedSet;

/// The epoch of a set.
pub fn epoch_of<'a>(script: &'a Script, set: &PlannedSet) -> &'a Epoch
    requires { IsOfItsEpoch script.now set.now }
    ensures found { slice_get script.now.epochs set.now.epoch ≡ Some result.now }
    ensures usable { IsUsable result.now }
    ensures drawable { AreDrawable script.now.pictures result.now }
    ensures carried { IsSendableIn result.now set.now }
{
    &script.epochs.as_slice()[set.epoch as usize]
}

/// The region of that number.
pub(crate) fn epoch_region(epoch: &Epoch, id: u8) -> Region
    requires { HasRegion epoch.now id }
    ensures { result ≡ epoch_region epoch.now id }
{
    // A plan names regions of its epoch alone.
    region_with(epoch.regions.as_slice(), id).unwrap()
}

/// The cue at that place.
pub(crate) fn cue_at(epoch: &Epoch, place: u32) -> Cue
    requires { HasCue epoch.now place }
    ensures { result ≡ cue_at epoch.now.cues place }
{
    epoch.cues.as_slice()[place as usize]
}

/// The colour row at that place.
pub(crate) fn colour_at(epoch: &Epoch, place: u32) -> ColourRow
    requires { HasColour epoch.now place }
    ensures { result ≡ row_at epoch.now.colours place }
{
    epoch.colours.as_slice()[place as usize]
}
