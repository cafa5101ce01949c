ghost use Rattle.std.specs.Prelude.{◌≡◌, ◌<◌, ◌≤◌, ◌^◌, ◌+◌, false, IfNone};
ghost use Rattle.std.specs.List.{list_any};
ghost use Rattle.cue_list.specs.Past.{region_with as region_with_of, is_close as is_close_of};
ghost use Rattle.cue_list.specs.RowFaults.{is_misplaced as is_misplaced_of, is_full as is_full_of, is_used as is_used_of, epoch_count, regions_of, starts_before, lasts_past, is_early as is_early_of, are_too_many as are_too_many_of, epoch_fault as epoch_fault_of, region_fault as region_fault_of, colour_fault as colour_fault_of, span_fault as span_fault_of};
ghost use Rattle.cue_records.specs.Regions.{share_row};
ghost use Rattle.cue_list.specs.Private.State.{past_of};
ghost use Rattle.cue_list.specs.Private.Ticks.{near_by};
ghost use Rattle.std.specs.Prelude.{nat_lt, nat_le};

use crate::epoch::Cue;
use crate::reader::Reader;
use crate::ticks::is_close;
use cue_records::{
    ColourRow, LONGEST_CUE, MOST_CODES, MOST_COLOURS, MOST_CUES, MOST_EPOCHS, MOST_PICTURES,
    MOST_REGIONS, PictureHead, PlaceRow, Region, RowKind, ScriptKind, area,
};

impl Reader {
    /// Whether a record of that kind may not stand here.
    pub(crate) fn is_misplaced(&self, kind: RowKind) -> bool
        ensures { result ≡ is_misplaced_of (past_of self.now) kind }
    {
        match kind {
            RowKind::Origin => self.rows != 0,
            RowKind::Display => self.rows != 1,
            RowKind::Refresh => self.rows != 2,
            RowKind::Epoch | RowKind::Picture => self.rows < 3,
            RowKind::Region => self.epoch.is_none() || self.is_used(),
            RowKind::Colour | RowKind::Place | RowKind::Cue => self.epoch.is_none(),
            RowKind::Other => false,
        }
    }

    /// Whether a colour, place or cue stands in the last epoch.
    fn is_used(&self) -> bool
        ensures { result ≡ is_used_of self.now.epoch }
    {
        match &self.epoch {
            None => false,
            Some(epoch) => epoch.colours.len() > 0 || epoch.cues.len() > 0,
        }
    }

    /// Whether one more of that kind would be too many.
    pub(crate) fn is_full(&self, kind: RowKind) -> bool
        ensures { result ≡ is_full_of (past_of self.now) kind }
    {
        match kind {
            RowKind::Epoch => self.epoch_count() >= MOST_EPOCHS,
            RowKind::Region => self.regions().len() >= MOST_REGIONS,
            RowKind::Colour => self.colours >= MOST_COLOURS,
            RowKind::Picture => self.named >= MOST_PICTURES,
            RowKind::Place | RowKind::Cue => self.cues >= MOST_CUES,
            RowKind::Origin | RowKind::Display | RowKind::Refresh | RowKind::Other => false,
        }
    }

    fn epoch_count(&self) -> usize
        ensures { result ≡ epoch_count (past_of self.now) }
    {
        if self.epoch.is_some() {
            self.ended.len() + 1
        } else {
            self.ended.len()
        }
    }

    /// The regions of the last epoch.
    pub(crate) fn regions(&self) -> &[Region]
        ensures { result.now ≡ regions_of self.now.epoch }
    {
        match &self.epoch {
            None => &[],
            Some(epoch) => epoch.regions.as_slice(),
        }
    }

    /// What is wrong with an epoch that starts at that tick.
    #[tactic(auto, unfolding(crate::specs::RowFaults::epoch_fault))]
    pub(crate) fn epoch_fault(&self, start: u64) -> Option<ScriptKind>
        requires { start < 2 ^ 63 }
        ensures fault { result ≡ epoch_fault_of (past_of self.now) start }
        ensures apart { IfNone result (near_by self.now.ticks start ≡ false) }
    {
        if !self.starts_before(start) {
            return Some(ScriptKind::Order);
        }
        if self.lasts_past(start) {
            return Some(ScriptKind::OutsideEpoch);
        }
        if self.ticks.is_near(start) {
            return Some(ScriptKind::TooClose);
        }
        None
    }

    fn starts_before(&self, tick: u64) -> bool
        ensures { result ≡ starts_before tick self.now.epoch }
    {
        match &self.epoch {
            None => true,
            Some(epoch) => epoch.start < tick,
        }
    }

    fn lasts_past(&self, tick: u64) -> bool
        ensures { result ≡ lasts_past tick self.now.epoch }
    {
        match &self.epoch {
            None => false,
            Some(epoch) => {
                // A cue may end where the next epoch starts, but a colour at that tick would belong
                // to the next one.
                any_ends_after(epoch.cues.as_slice(), tick)
                    || any_from(epoch.colours.as_slice(), tick)
            }
        }
    }

    /// What is wrong with a region.
    #[tactic(auto, unfolding(crate::specs::RowFaults::region_fault))]
    pub(crate) fn region_fault(&self, region: Region) -> Option<ScriptKind>
        ensures { result ≡ region_fault_of (past_of self.now) region }
    {
        let regions = self.regions();
        if region_with(regions, region.id).is_some() {
            return Some(ScriptKind::DoubleRegion);
        }
        if !region.lies_on(self.width, self.height) {
            return Some(ScriptKind::RegionOutside);
        }
        if any_shares_row(regions, region) {
            return Some(ScriptKind::RegionsMeet);
        }
        None
    }

    fn is_early(&self, tick: u64) -> bool
        ensures { result ≡ is_early_of tick self.now.epoch }
    {
        match &self.epoch {
            None => false,
            Some(epoch) => tick < epoch.start,
        }
    }

    /// What is wrong with a colour.
    #[tactic(auto, unfolding(crate::specs::RowFaults::colour_fault))]
    pub(crate) fn colour_fault(&self, row: ColourRow) -> Option<ScriptKind>
        requires { row.tick < 2 ^ 63 }
        ensures fault { result ≡ colour_fault_of (past_of self.now) row }
        ensures apart { IfNone result (near_by self.now.ticks row.tick ≡ false) }
    {
        if u16::from(row.entry) >= row.depth.code_count() {
            return Some(ScriptKind::CodeRange);
        }
        if self.is_early(row.tick) {
            return Some(ScriptKind::OutsideEpoch);
        }
        if self.ticks.is_near(row.tick) {
            return Some(ScriptKind::TooClose);
        }
        None
    }

    /// Whether the pictures would have too many codes with one more of these sides.
    pub(crate) fn are_too_many(&self, head: PictureHead) -> bool
        requires { self.now.codes ≤ MOST_CODES }
        ensures { result ≡ are_too_many_of (past_of self.now) head }
    {
        self.codes + area(head) > MOST_CODES
    }

    /// What is wrong with a span of ticks.
    #[tactic(auto, unfolding(crate::specs::RowFaults::span_fault))]
    pub(crate) fn span_fault(&self, start: u64, end: u64) -> Option<ScriptKind>
        requires start { start < 2 ^ 62 }
        requires end { end < 2 ^ 62 }
        ensures fault { result ≡ span_fault_of (past_of self.now) start end }
        ensures start { IfNone result (near_by self.now.ticks start ≡ false) }
        ensures end { IfNone result (near_by self.now.ticks end ≡ false) }
        ensures apart { IfNone result (is_close_of start end ≡ false) }
    {
        if self.is_early(start) {
            return Some(ScriptKind::OutsideEpoch);
        }
        if end <= start {
            return Some(ScriptKind::EmptySpan);
        }
        if start + LONGEST_CUE < end {
            return Some(ScriptKind::TooLong);
        }
        if self.ticks.is_near(start) || self.ticks.is_near(end) || is_close(start, end) {
            return Some(ScriptKind::TooClose);
        }
        None
    }
}

fn any_ends_after(cues: &[Cue], tick: u64) -> bool
    ensures { result ≡ list_any (λ cue. nat_lt tick cue.end) cues.now }
{
    cues.iter().any(|cue| tick < cue.end)
}

fn any_from(colours: &[ColourRow], tick: u64) -> bool
    ensures { result ≡ list_any (λ row. nat_le tick row.tick) colours.now }
{
    colours.iter().any(|row| tick <= row.tick)
}

/// The first region of that number, where there is one.
pub fn region_with(regions: &[Region], id: u8) -> Option<Region>
    ensures { result ≡ region_with_of id regions.now }
{
    for region in regions {
        if region.id == id {
            return Some(*region);
        }
    }
    None
}

fn any_shares_row(regions: &[Region], region: Region) -> bool
    ensures { result ≡ list_any (share_row region) regions.now }
{
    regions.iter().any(|other| region.shares_row_with(other))
}
