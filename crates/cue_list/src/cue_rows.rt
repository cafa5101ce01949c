ghost use Rattle.cue_records.specs.declared.limits.TheConstants.{MOST_CODES, MOST_CUES, MOST_HEIGHT, MOST_WIDTH};
ghost use Rattle.std.specs.Prelude.{◌≡◌, ◌≤◌, ◌<◌, ◌+◌, ◌^◌, ◌∷◌, [], true, false, None, Some, chars, map, option_map, IfNone, OnOk, OnErr, IfOk, IfErr};
ghost use Rattle.csv.specs.Records.{fields_of};
ghost use Rattle.cue_records.specs.CellFaults.{first_of, is_text_row, value_at, place_cells as place_cells_of, cue_cells as cue_cells_of, IsRecordFault};
ghost use Rattle.cue_records.specs.Cells.{cell_at};
ghost use Rattle.cue_records.specs.RowValues.{area as area_of_head, placing_in};
ghost use Rattle.cue_list.specs.Past.{region_with as region_with_of, is_close};
ghost use Rattle.cue_list.specs.RowFaults.{place_fault as place_fault_of, placed_fault as placed_fault_of, head_at as head_at_of, cue_fault as cue_fault_of, text_fault as text_fault_of, regions_of};
ghost use Rattle.cue_list.specs.Private.State.{IsReader, past_of, head_of as head_of_picture, IsTaken, place_next, cue_next};
ghost use Rattle.cue_list.specs.Setting.{IsTextPicture, IsTextOf};
ghost use Rattle.cue_list.specs.TextSizes.{text_head};
ghost use Rattle.cue_list.specs.Private.Ticks.{near_by};

use crate::epoch::Cue;
use crate::reader::Reader;
use crate::row_steps::add_cue;
use crate::row_tests::region_with;
use crate::setting::head_of;
use bitmap_font::Font;
use csv::ByteRecord;
use cue_records::{
    CueCells, PictureHead, PlaceRow, RecordFault, Region, ScriptKind, area, cue_cells, place_cells,
    text_cell,
};
use indexed_picture::Indexed;

impl Reader {
    /// The depth and the sides of the picture at that place.
    fn head_at(&self, place: Option<u32>) -> Option<PictureHead>
        ensures { result ≡ head_at_of (past_of self.now).heads place }
    {
        let place = place? as usize;
        if place < self.pictures.len() {
            Some(head_of(&self.pictures[place]))
        } else {
            None
        }
    }

    /// What is wrong with a picture at a place of a region.
    fn placed_fault(
        &self,
        placing: PlaceRow,
        region: Option<Region>,
        head: Option<PictureHead>,
    ) -> Option<ScriptKind>
        requires start { placing.start < 2 ^ 62 }
        requires end { placing.end < 2 ^ 62 }
        ensures fault { result ≡ placed_fault_of (past_of self.now) placing region head }
        ensures start { IfNone result (near_by self.now.ticks placing.start ≡ false) }
        ensures end { IfNone result (near_by self.now.ticks placing.end ≡ false) }
        ensures apart { IfNone result (is_close placing.start placing.end ≡ false) }
    {
        let Some(region) = region else {
            return Some(ScriptKind::NoRegion);
        };
        let Some(head) = head else {
            return Some(ScriptKind::NoPicture);
        };
        // A map table gives the codes of a shallower picture in a deeper region; there is none the
        // other way.
        if region.depth.bits() < head.depth.bits() {
            return Some(ScriptKind::CodeRange);
        }
        if !region.has_room_at(placing.x, placing.y, head) {
            return Some(ScriptKind::CueOutside);
        }
        self.span_fault(placing.start, placing.end)
    }

    /// Takes a picture that is placed.
    #[tactic(auto, unfolding(crate::specs::RowFaults::place_fault, cue_records::specs::RowValues::placing_in))]
    pub(crate) fn take_place(&mut self, number: u64, row: &ByteRecord) -> Result<(), RecordFault>
        requires reader { IsReader self.old }
        requires text { is_text_row (fields_of row.now) ≡ true }
        requires few { self.old.cues < MOST_CUES }
        ensures taken { OnOk result
            (IsTaken (first_of
            (place_cells_of self.old.origin (fields_of row.now)
            ∷ place_fault_of (past_of self.old) (placing_in (fields_of row.now))
            (cell_at (fields_of row.now) 7) ∷ []))
            (place_next (past_of self.old) number (fields_of row.now)) self.new) }
        ensures pictures { self.new.pictures ≡ self.old.pictures }
        ensures refused { IfErr result
            (IsRecordFault
            (first_of
            (place_cells_of self.old.origin (fields_of row.now)
            ∷ place_fault_of (past_of self.old) (placing_in (fields_of row.now))
            (cell_at (fields_of row.now) 7) ∷ []))) }
    {
        let place = place_cells(row, self.origin)?;
        let found = self.names.place(text_cell(row, 7));
        let region = region_with(self.regions(), place.placing.region);
        let head = self.head_at(found);
        if let Some(kind) = self.placed_fault(place.placing, region, head) {
            return Err(RecordFault::Wrong(kind));
        }
        // Kept behind all tests, so that each of them is about the records before.
        self.ticks.add_both(place.placing.start, place.placing.end)?;
        // None was refused above.
        let cue = match found {
            Some(picture) => Some(cue_with(place.placing, number, picture, place.see_through)),
            None => None,
        };
        add_cue(&mut self.epoch, cue)?;
        self.cues += 1;
        Ok(())
    }

    /// What is wrong with a text's picture at a place of a region.
    fn text_fault(&self, placing: PlaceRow, region: Region, head: PictureHead) -> Option<ScriptKind>
        requires start { placing.start < 2 ^ 62 }
        requires end { placing.end < 2 ^ 62 }
        requires wide { (1 ≤ head.width) × (head.width ≤ MOST_WIDTH) }
        requires high { head.height ≤ MOST_HEIGHT }
        requires few { self.now.codes ≤ MOST_CODES }
        ensures fault { result ≡ text_fault_of (past_of self.now) placing region head }
        ensures start { IfNone result (near_by self.now.ticks placing.start ≡ false) }
        ensures end { IfNone result (near_by self.now.ticks placing.end ≡ false) }
        ensures apart { IfNone result (is_close placing.start placing.end ≡ false) }
        ensures room { IfNone result (self.now.codes + area_of_head head ≤ MOST_CODES) }
    {
        if !region.has_room_at(placing.x, placing.y, head) {
            return Some(ScriptKind::CueOutside);
        }
        if let Some(kind) = self.span_fault(placing.start, placing.end) {
            return Some(kind);
        }
        if self.are_too_many(head) {
            return Some(ScriptKind::TooMany);
        }
        None
    }

    /// The picture of a cue that passes its tests.
    #[tactic(auto, unfolding(crate::specs::RowFaults::cue_fault))]
    fn cue_picture(&self, font: &Font, cue: CueCells, text: &str) -> Result<Indexed, RecordFault>
        requires start { cue.placing.start < 2 ^ 62 }
        requires end { cue.placing.end < 2 ^ 62 }
        requires few { self.now.codes ≤ MOST_CODES }
        ensures valid { OnOk result
            (cue_fault_of font.now (past_of self.now) cue.placing cue.ink cue.paper (chars text.now)
            ≡ None) }
        ensures set { IfOk result
            (IsTextPicture font.now (regions_of self.now.epoch) cue.placing.region cue.ink cue.paper
            (chars text.now)) }
        ensures head { IfOk result
            (λ picture. option_map (λ region. text_head font.now region.depth (chars text.now))
            (region_with_of cue.placing.region (regions_of self.now.epoch))
            ≡ Some (head_of_picture picture)) }
        ensures start { OnOk result (near_by self.now.ticks cue.placing.start ≡ false) }
        ensures end { OnOk result (near_by self.now.ticks cue.placing.end ≡ false) }
        ensures apart { OnOk result (is_close cue.placing.start cue.placing.end ≡ false) }
        ensures room { IfOk result
            (λ picture. self.now.codes + area_of_head (head_of_picture picture) ≤ MOST_CODES) }
        ensures refused { IfErr result
            (IsRecordFault
            (cue_fault_of font.now (past_of self.now) cue.placing cue.ink cue.paper
            (chars text.now))) }
    {
        let Some(region) = region_with(self.regions(), cue.placing.region) else {
            return Err(RecordFault::Wrong(ScriptKind::NoRegion));
        };
        if u16::from(cue.ink) >= region.depth.code_count()
            || u16::from(cue.paper) >= region.depth.code_count()
        {
            return Err(RecordFault::Wrong(ScriptKind::CodeRange));
        }
        // Set before its place is tested: only then are its sides known.
        let picture = self.set_text(font, text, cue, region)?;
        let head = head_of(&picture);
        if let Some(kind) = self.text_fault(cue.placing, region, head) {
            return Err(RecordFault::Wrong(kind));
        }
        Ok(picture)
    }

    /// Takes a text that is shown.
    #[tactic(auto, unfolding(cue_records::specs::RowValues::placing_in))]
    pub(crate) fn take_cue(
        &mut self,
        font: &Font,
        number: u64,
        row: &ByteRecord,
    ) -> Result<(), RecordFault>
        requires reader { IsReader self.old }
        requires text { is_text_row (fields_of row.now) ≡ true }
        requires few { self.old.cues < MOST_CUES }
        ensures taken { OnOk result
            (IsTaken (first_of
            (cue_cells_of self.old.origin (fields_of row.now)
            ∷ cue_fault_of font.now (past_of self.old) (placing_in (fields_of row.now))
            (value_at (fields_of row.now) 6) (value_at (fields_of row.now) 7)
            (chars (cell_at (fields_of row.now) 8)) ∷ []))
            (cue_next font.now (past_of self.old) number (fields_of row.now)) self.new) }
        ensures set { OnOk result
            (IsTextOf font.now (regions_of self.old.epoch) (fields_of row.now)
            self.old.pictures.items self.new.pictures.items) }
        ensures refused { IfErr result
            (IsRecordFault
            (first_of
            (cue_cells_of self.old.origin (fields_of row.now)
            ∷ cue_fault_of font.now (past_of self.old) (placing_in (fields_of row.now))
            (value_at (fields_of row.now) 6) (value_at (fields_of row.now) 7)
            (chars (cell_at (fields_of row.now) 8)) ∷ []))) }
        ensures kept { OnErr result (self.new.pictures.items ≡ self.old.pictures.items) }
    {
        let cue = cue_cells(row, self.origin)?;
        let picture = self.cue_picture(font, cue, text_cell(row, 8))?;
        self.ticks.add_both(cue.placing.start, cue.placing.end)?;
        // Limits keep the pictures at 8,192 at most.
        let place = self.pictures.len() as u32;
        add_cue(
            &mut self.epoch,
            Some(cue_with(cue.placing, number, place, false)),
        )?;
        self.codes += area(head_of(&picture));
        self.pictures.push(picture)?;
        self.cues += 1;
        Ok(())
    }
}

/// The cue that is placed so, with the picture at that place of the list.
fn cue_with(placing: PlaceRow, number: u64, picture: u32, see_through: bool) -> Cue
    ensures { result
        ≡ record {
          start = placing.start;
          end = placing.end;
          row = number;
          region = placing.region;
          x = placing.x;
          y = placing.y;
          picture = picture;
          see_through = see_through;
        } }
{
    Cue {
        start: placing.start,
        end: placing.end,
        row: number,
        region: placing.region,
        x: placing.x,
        y: placing.y,
        picture,
        see_through,
    }
}
