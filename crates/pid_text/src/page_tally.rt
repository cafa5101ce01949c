//! What is counted of one page.

ghost use Rattle.std.specs.Prelude.{◌≡◌};
ghost use Rattle.pid_text.specs.Private.Listing.{closed, fresh, with_segment};

use stream_syntax::{CLUT_DEFINITION, OBJECT_DATA, PAGE_COMPOSITION};

/// What the PES packets of a PID have of one page. A count stays at the greatest number of 64 bits.
#[derive(Clone, Copy, Debug)]
pub(crate) struct PageTally {
    /// The page id.
    pub page: u16,
    /// How many PES packets have a page composition of it.
    pub compositions: u64,
    /// How many CLUT definitions and object data of it stand in other PES packets.
    pub ancillaries: u64,
    /// How many of these the PES packet in hand has so far.
    pub waiting: u64,
    /// Whether the PES packet in hand has a page composition of it.
    pub is_composed: bool,
}

impl PageTally {
    /// A page of which nothing was counted.
    pub(crate) fn new(page: u16) -> PageTally
        ensures { result ≡ fresh page }
    {
        PageTally {
            page,
            compositions: 0,
            ancillaries: 0,
            waiting: 0,
            is_composed: false,
        }
    }

    /// Counts a segment of the page, of that kind (segment_type), in the PES packet in hand.
    pub(crate) fn note(&mut self, kind: u8)
        ensures { self.new ≡ with_segment kind self.old }
    {
        match kind {
            PAGE_COMPOSITION => self.is_composed = true,
            CLUT_DEFINITION | OBJECT_DATA => self.waiting = self.waiting.saturating_add(1),
            _ => {}
        }
    }

    /// The PES packet in hand has ended.
    pub(crate) fn close(&mut self)
        ensures { self.new ≡ closed self.old }
    {
        if self.is_composed {
            self.compositions = self.compositions.saturating_add(1);
        } else {
            self.ancillaries = self.ancillaries.saturating_add(self.waiting);
        }
        self.waiting = 0;
        self.is_composed = false;
    }
}
