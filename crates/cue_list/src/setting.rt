ghost use Rattle.std.specs.Prelude.{◌≡◌, ◌≤◌, ◌<◌, ◌∷◌, [], None, chars, IfOk, IfErr, OnOk};
ghost use Rattle.bitmap_font.specs.Setting.{IsSetting};
ghost use Rattle.sub_base.specs.Depth.{code_count};
ghost use Rattle.sub_base.specs.Picture.{IsPicture};
ghost use Rattle.cue_records.specs.declared.limits.TheConstants.{MOST_HEIGHT, MOST_WIDTH};
ghost use Rattle.cue_list.specs.RowFaults.{text_fault, glyph_fault};
ghost use Rattle.cue_records.specs.CellFaults.{first_of, IsRecordFault};
ghost use Rattle.cue_list.specs.Private.State.{past_of, head_of as head_of_picture};
ghost use Rattle.cue_list.specs.TextSizes.{text_head, missing_glyph};
ghost use Rattle.cue_list.specs.Setting.{record_fault_of as row_fault_of_set};

use crate::reader::Reader;
use bitmap_font::{Font, SetFault};
use cue_records::{CueCells, PictureHead, RecordFault, Region, ScriptKind};
use indexed_picture::Indexed;

/// The depth and the sides of a picture.
pub(crate) fn head_of(picture: &Indexed) -> PictureHead
    ensures { result ≡ head_of_picture picture.now }
{
    PictureHead {
        depth: picture.depth(),
        width: picture.width(),
        height: picture.height(),
    }
}

impl Reader {
    /// The picture of a cue's text, at its region's depth.
    pub(crate) fn set_text(
        &self,
        font: &Font,
        text: &str,
        cue: CueCells,
        region: Region,
    ) -> Result<Indexed, RecordFault>
        requires ink { cue.ink < code_count region.depth }
        requires paper { cue.paper < code_count region.depth }
        ensures glyphs { OnOk result (missing_glyph font.now (chars text.now) ≡ None) }
        ensures head { IfOk result
            (λ picture. text_head font.now region.depth (chars text.now)
            ≡ head_of_picture picture) }
        ensures setting { IfOk result
            (IsSetting font.now (chars text.now) cue.ink cue.paper region.depth) }
        ensures picture { IfOk result IsPicture }
        ensures small { IfOk result
            (λ picture. (picture.width ≤ MOST_WIDTH) × (picture.height ≤ MOST_HEIGHT)) }
        ensures refused { IfErr result
            (IsRecordFault
            (first_of
            (glyph_fault (missing_glyph font.now (chars text.now))
            ∷ text_fault (past_of self.now) cue.placing region
            (text_head font.now region.depth (chars text.now)) ∷ []))) }
    {
        match font.set(text, cue.ink, cue.paper, region.depth) {
            Ok(picture) => Ok(picture),
            Err(fault) => Err(record_fault_of(fault)),
        }
    }
}

/// The fault of a record whose text cannot be set.
fn record_fault_of(fault: SetFault) -> RecordFault
    ensures { result ≡ row_fault_of_set fault }
{
    match fault {
        SetFault::Memory => RecordFault::Memory,
        SetFault::MissingGlyph(character) => RecordFault::Wrong(ScriptKind::Glyph(character)),
        SetFault::Empty => RecordFault::Wrong(ScriptKind::Range),
        // Wider or higher than any display, so no region holds it.
        SetFault::TooWide => RecordFault::Wrong(ScriptKind::CueOutside),
    }
}
