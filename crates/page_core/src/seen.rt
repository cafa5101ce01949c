ghost use Rattle.std.specs.Prelude.{◌≡◌, ◌<◌, List, ℕ, true, length, slice_set, false, slice_index_or, None, Option, Some, [], if◌then◌else◌, ◌∷◌, option_map, OnOk};
ghost use Rattle.decoder_model.specs.Faults.{contents_in, twice_among};
ghost use Rattle.decoder_model.specs.Readings.{Content, Reading};
ghost use Rattle.segments.specs.Contents.{contents, page_value, display_value};
ghost use Rattle.decoder_model.specs.declared.set_fault.SetFault.TheVariants.{TwiceInSet};
ghost use Rattle.decoder_model.specs.Received.{AreRead};
ghost use Rattle.page_core.specs.Handed.{Matches};
ghost use Rattle.page_core.specs.Private.Sound.{IsSound};
ghost use Rattle.page_core.specs.Private.Seen.{AreFlags, Sees, Scanned, page_with, display_with};

use crate::front::{cut_front, read_one};
use decoder_model::SetFault;
use segments::{DisplaySeg, PageSeg, Segment, SegmentFault};
use stream_syntax::{DISPLAY_DEFINITION, PAGE_COMPOSITION, REGION_COMPOSITION};

/// What a walk over the segments of a set remembers of those that it has passed.
#[derive(Drop)]
pub(crate) struct Seen {
    pub page: bool,
    pub display: bool,
    pub regions: [bool; 256],
}

impl Seen {
    fn nothing() -> Seen
        ensures { AreFlags [] result }
    {
        let regions = no_flags();
        Seen {
            page: false,
            display: false,
            regions,
        }
    }

    /// The fault of a segment that stands a second time in its set, behind what was passed; the
    /// segment is passed then.
    fn pass(&mut self, segment: &Segment<'_>) -> Option<SetFault>
        ensures fault { (before : List Content) → AreFlags before self.old
            → result ≡ twice_among before (contents segment.now) }
        ensures flags { (before : List Content) (content : Content) → AreFlags before self.old
            → contents segment.now ≡ content.value → AreFlags (content ∷ before) self.new }
    {
        match segment {
            Segment::Page(_) => {
                let twice = self.page;
                self.page = true;
                second(twice, PAGE_COMPOSITION, 0)
            }
            Segment::Display(_) => {
                let twice = self.display;
                self.display = true;
                second(twice, DISPLAY_DEFINITION, 0)
            }
            Segment::Region(region) => {
                let twice = raise(&mut self.regions, region.region);
                second(twice, REGION_COMPOSITION, region.region)
            }
            _ => None,
        }
    }
}

fn no_flags() -> [bool; 256]
    ensures { (id : ℕ) → id < 256 → slice_index_or result id false ≡ false }
{
    [false; 256]
}

/// Raises the flag of an id, and tells whether it was up.
fn raise(flags: &mut [bool; 256], id: u8) -> bool
    ensures was { result ≡ slice_index_or flags.old id false }
    ensures now { flags.new ≡ slice_set flags.old id true }
    ensures byte { id < 256 }
    ensures whole { length flags.old ≡ 256 }
{
    let was = flags[usize::from(id)];
    flags[usize::from(id)] = true;
    was
}

fn second(twice: bool, kind: u8, id: u8) -> Option<SetFault>
    ensures { result ≡ (if twice then Some (TwiceInSet kind id) else None) }
{
    if twice {
        Some(SetFault::TwiceInSet { kind, id })
    } else {
        None
    }
}

/// The segment that was read behind those that were passed, unless it is refused.
fn see<'a>(
    seen: &mut Seen,
    reading: Result<Segment<'a>, SegmentFault>,
) -> Result<Segment<'a>, SetFault>
    ensures { (before : List Reading) (next : Reading) → AreFlags (contents_in before) seen.old
        → Matches reading.entry next → Sees result before next seen.new }
{
    match reading {
        Err(fault) => Err(SetFault::Segment(fault)),
        Ok(segment) => match seen.pass(&segment) {
            Some(fault) => Err(fault),
            None => Ok(segment),
        },
    }
}

fn with_page<'a>(page: Option<PageSeg<'a>>, segment: &Segment<'a>) -> Option<PageSeg<'a>>
    ensures { option_map page_value result
        ≡ page_with (option_map page_value page.entry) (contents segment.now) }
{
    match (page, segment) {
        (None, Segment::Page(found)) => Some(*found),
        _ => page,
    }
}

fn with_display(display: Option<DisplaySeg>, segment: &Segment<'_>) -> Option<DisplaySeg>
    ensures { option_map display_value result
        ≡ display_with (option_map display_value display) (contents segment.now) }
{
    match (display, segment) {
        (None, Segment::Display(found)) => Some(*found),
        _ => display,
    }
}

/// What is found in a set: its page, its display, and which regions it defines, by their ids.
#[derive(Drop)]
pub(crate) struct Found<'a> {
    pub page: Option<PageSeg<'a>>,
    pub display: Option<DisplaySeg>,
    pub regions: [bool; 256],
}

/// Tests the segments of a set one by one, and looks what the set has; or the first fault of a
/// segment.
pub(crate) fn scan(bytes: &[u8]) -> Result<Found<'_>, SetFault>
    ensures found { (readings : List Reading) → AreRead readings bytes.now
        → Scanned result readings }
    ensures sound { (readings : List Reading) → AreRead readings bytes.now
        → OnOk result (IsSound (contents_in readings) bytes.now) }
{
    let mut seen = Seen::nothing();
    let mut page = None;
    let mut display = None;
    let mut rest = bytes;
    while let Some(front) = cut_front(rest) {
        match see(&mut seen, read_one(&front.frame)) {
            Ok(segment) => {
                page = with_page(page, &segment);
                display = with_display(display, &segment);
            }
            Err(fault) => return Err(fault),
        }
        rest = front.rest;
    }
    Ok(Found {
        page,
        display,
        regions: seen.regions,
    })
}
