ghost use Rattle.std.specs.Prelude.{◌≡◌, ◌≤◌, length};
ghost use Rattle.dvbsub_cmd.specs.KindNames.{font_kind_name as name_of_font_kind};

use bitmap_font::FontKind;

/// The name of what is wrong with a line of a font.
pub fn font_kind_name(kind: FontKind) -> &'static str
    ensures name { result.now ≡ name_of_font_kind kind }
    ensures short { length result.now ≤ 15 }
{
    match kind {
        FontKind::NotBdf => "NotBdf",
        FontKind::BadNumber => "BadNumber",
        FontKind::BadRow => "BadRow",
        FontKind::DoubleGlyph => "DoubleGlyph",
        FontKind::Truncated => "Truncated",
        FontKind::TooLarge => "TooLarge",
    }
}
