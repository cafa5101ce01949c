//! What is counted of the PES packets of one PID.

ghost use Rattle.std.specs.Prelude.{[], ◌∷◌, ◌++◌, IfOk, List};
ghost use Rattle.pid_text.specs.PidUnits.{SubtitleUnit, heads_of, subtitles_in};
ghost use Rattle.pid_text.specs.Private.Listing.{IsListing};
ghost use Rattle.pid_text.specs.Private.Tallying.{HasTallied, with_one};

use crate::page_list::PageList;
use pes_packets::{Pes, read_pes};
use segments::frames;
use std::alloc::Global;
use sub_base::NoMemory;

/// The PES packets of subtitles of a PID. The count stays at the greatest number of 64 bits.
#[derive(Drop)]
pub(crate) struct PidTally {
    /// How many there are.
    pub units: u64,
    /// The presentation time of the first, in ticks of 90 kHz.
    pub first: u64,
    /// That of the last.
    pub last: u64,
    /// The pages of their segments.
    pub pages: PageList,
}

impl PidTally {
    /// What was counted of no PES packet. All memory is taken here.
    pub(crate) fn make(alloc: Global) -> Result<PidTally, NoMemory>
        ensures { IfOk result (HasTallied []) }
    {
        Ok(PidTally {
            units: 0,
            first: 0,
            last: 0,
            pages: PageList::make(alloc)?,
        })
    }

    /// Counts a unit, where it is a PES packet of subtitles.
    pub(crate) fn take_unit(&mut self, unit: &[u8])
        ensures { (units : List SubtitleUnit) → HasTallied units self.old
            → HasTallied (with_one units (subtitles_in unit.now)) self.new }
    {
        if let Ok(pes) = read_pes(unit) {
            self.take_pes(pes);
        }
    }

    /// Counts a PES packet of subtitles.
    fn take_pes(&mut self, pes: Pes<'_>)
        ensures { (units : List SubtitleUnit) → HasTallied units self.old
            → HasTallied
            (units ++ (record { time = pes.entry.pts; heads = heads_of pes.entry.segments.now })
            ∷ [])
            self.new }
    {
        if self.units == 0 {
            self.first = pes.pts;
        }
        self.units = self.units.saturating_add(1);
        self.last = pes.pts;
        note_field(&mut self.pages, pes.segments);
        self.pages.close();
    }
}

/// Counts the segments that stand in a field, up to bytes that begin none.
fn note_field(pages: &mut PageList, field: &[u8])
    ensures { (units : List SubtitleUnit) → IsListing units [] pages.old
        → IsListing units (heads_of field.now) pages.new }
{
    for head in frames(field) {
        match head {
            Ok(frame) => pages.note(frame.kind, frame.page),
            // Where a head is faulty, nothing says where the next segment begins.
            Err(_) => return,
        }
    }
}
