//! The colours that a new epoch finds.

ghost use Rattle.std.specs.Prelude.{◌≡◌, []};
ghost use Rattle.page_core.specs.Private.Marks.{AreMarked};
ghost use Rattle.page_core.specs.Memory.{AreInks};

use crate::composition::CompositionMemory;
use crate::inks::Inks;
use crate::marks::{Mark, Marks};
use sub_base::default_colour;

/// Gives the table entries that are set their default colours again, and none is set.
pub(crate) fn reset_colours(composition: &mut CompositionMemory, inks: &mut Inks, marks: &mut Marks)
    requires inks { AreInks composition.old.set_entries inks.old }
    requires marks { AreMarked composition.old.set_entries [] marks.old }
    ensures inks { AreInks [] inks.new }
    ensures marks { AreMarked [] [] marks.new }
    ensures size { composition.new.size ≡ composition.old.size }
{
    while let Some(place) = composition.take_colour() {
        let colour = default_colour(place.depth, place.entry);
        inks.set(place.clut, place.depth, place.entry, colour);
        marks.put(place, Mark::Unset);
    }
}
