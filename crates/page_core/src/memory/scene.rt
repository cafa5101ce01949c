ghost use Rattle.std.specs.Prelude.{◌≡◌, ◌<◌, List, Some, true, length, option_map};
ghost use Rattle.decoder_model.specs.Readings.{Reading};
ghost use Rattle.decoder_model.specs.Sets.{Delivery};
ghost use Rattle.decoder_model.specs.Shown.{Standing, standing_after};
ghost use Rattle.page_core.specs.Edges.{is_outside_in};
ghost use Rattle.page_core.specs.Memory.{IsDisplayOf, IsMemoryAfter};
ghost use Rattle.page_core.specs.Rows.{IsLineLent, listed_in, row_in};
ghost use Rattle.page_core.specs.Scenes.{ShowsStanding, until_in};

use super::Core;
use crate::composition::Entries;
use crate::{edges, rows};
use std::marker::Model;
use stream_syntax::PageEntry;
use sub_base::{Colour, SECOND};

/// The page that a core shows. Contracts see it as what the core keeps. It can be read by several
/// threads at a time.
#[derive(Drop)]
pub struct Scene<'a> {
    core: &'a Core,
}

impl<'a> Model for Scene<'a> {
    ghost use Rattle.page_core.specs.Memory.{Memory};

    ghost Value = { Memory };

    ghost view = { λ s. s.core.now };
}

impl Core {
    /// The page that is shown: that of the last set that was kept, which was shown, and nothing was
    /// lost since.
    pub fn scene(&self) -> Scene<'_>
        requires { self.now.known ≡ true }
        ensures same { result ≡ self.now }
        ensures display { IsDisplayOf self.now.profile self.now.display }
        ensures shown { (past : List (Delivery Reading)) → IsMemoryAfter past self.now
            → (standing : Standing)
            × (standing_after self.now.profile self.now.anchor past ≡ Some standing)
            × ShowsStanding standing self.now }
    {
        let _ = &self.known; // The invariant is wanted.
        Scene { core: self }
    }
}

impl Scene<'_> {
    /// The columns of the display.
    pub fn width(&self) -> u32
        ensures { result ≡ self.now.display.width }
    {
        let core = self.core;
        core.display.width
    }

    /// The rows of the display.
    pub fn height(&self) -> u32
        ensures { result ≡ self.now.display.height }
    {
        let core = self.core;
        core.display.height
    }

    /// The lifted time at which the page is timed out. `None` exactly for a time-out of 0, which is
    /// never over.
    pub fn until(&self) -> Option<u64>
        ensures { result ≡ until_in self.now }
    {
        let core = self.core;
        if core.time_out == 0 {
            None
        } else {
            Some(core.last.unwrap_or(0) + SECOND * u64::from(core.time_out))
        }
    }

    /// The entries of the page, in order.
    pub fn entries(&self) -> Entries<'_>
        ensures { result ≡ self.now.composition.entries }
    {
        let core = self.core;
        core.composition.entries()
    }

    /// Whether the region that an entry of the page lists does not lie inside the window of the
    /// display: what passes its edges is not seen. A region that is not defined passes none.
    pub fn is_outside(&self, entry: PageEntry) -> bool
        ensures { result ≡ is_outside_in self.now entry }
    {
        let core = self.core;
        edges::is_outside(&core.composition, core.display, entry)
    }

    /// Makes a row the row y of the picture.
    pub fn row_into(&self, y: u32, row: &mut [Colour])
        requires y { y < self.now.display.height }
        requires row { length row.old ≡ self.now.display.width }
        ensures { row.new ≡ row_in self.now y }
    {
        let core = self.core;
        rows::row_into(
            &core.composition,
            &core.store,
            &core.inks,
            core.display,
            y,
            row,
        );
    }

    /// Lends the packed bytes of a line of a region. `None` exactly where the page lists no region
    /// of that id or the line is not below the region's height.
    pub fn packed_row(&self, id: u8, line: u16) -> Option<&[u8]>
        ensures { IsLineLent self.now (listed_in self.now id) line
            (option_map (λ bytes. bytes.now) result) }
    {
        let core = self.core;
        rows::packed_row(&core.composition, &core.store, id, line)
    }
}
