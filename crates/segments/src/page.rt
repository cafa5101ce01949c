ghost use Rattle.std.specs.Prelude.{◌≡◌, ◌<◌, length, slice_get, Some};
ghost use Rattle.segments.specs.Contents.{page_value};
ghost use Rattle.segments.specs.Reading.{GivesReading, page_at};

use crate::fault::bad_length;
use crate::word::{bits, read_word};
use stream_syntax::{PageEntry, SegmentFault, SegmentKind, State};

/// The bytes of a body before the entries.
pub(crate) const FIXED: usize = 2;

/// The bytes of an entry.
pub(crate) const ENTRY: usize = 6;

/// A page: the regions that it lists, and its page state (EN 300 743, page composition segment).
#[derive(Clone, Copy, Debug, PartialEq, Eq)]
pub struct PageSeg<'a> {
    /// The seconds after which the page is no longer shown (page_time_out).
    pub time_out: u8,
    /// The version, 0 to 15 (page_version_number). The page memory does not look at it.
    pub version: u8,
    /// Whether a receiver can begin at the set (page_state).
    pub state: State,
    /// The entries, as bytes: region_id, region_horizontal_address, region_vertical_address.
    pub entries: &'a [u8],
}

impl PageSeg<'_> {
    /// How many regions the page shows.
    #[tactic(auto, using(crate::proofs::Sixes::length_by_six))]
    pub fn count(&self) -> usize
        ensures { result ≡ length (page_value self.now).entries }
    {
        self.entries.len() / ENTRY
    }

    /// The entry at a place below the count.
    #[tactic(auto, using(crate::proofs::Sixes::length_by_six))]
    pub fn entry(&self, i: usize) -> PageEntry
        requires { i < length (page_value self.now).entries }
        ensures { slice_get (page_value self.now).entries i ≡ Some result }
    {
        let place = ENTRY * i;
        PageEntry {
            region: self.entries[place],
            x: read_word(self.entries, place + 2),
            y: read_word(self.entries, place + 4),
        }
    }
}

/// Reads the body of a page.
pub(crate) fn page_of(body: &[u8]) -> Result<PageSeg<'_>, SegmentFault>
    ensures { GivesReading page_value result (page_at body.now) }
{
    if body.len() % ENTRY != FIXED {
        return Err(bad_length());
    }
    let state = match bits(body[1], 2, 2) {
        0 => State::Normal,
        1 => State::Acquisition,
        2 => State::ModeChange,
        _ => {
            return Err(SegmentFault {
                place: 7,
                kind: SegmentKind::ReservedState,
            });
        }
    };
    Ok(PageSeg {
        time_out: body[0],
        version: body[1] >> 4,
        state,
        entries: &body[FIXED..],
    })
}
