ghost use Rattle.std.specs.Prelude.{◌≡◌, ◌≤◌, length};
ghost use Rattle.cue_records.specs.KindNames.{kind_name};

use thiserror::Error;

/// What is wrong with a record of a script.
#[derive(Clone, Copy, Debug, PartialEq, Eq, Error)]
pub enum ScriptKind {
    /// A cell is not UTF-8.
    #[error("NotUtf8")]
    NotUtf8,
    /// The first cell names no record, or the mode is neither `solid` nor `through`.
    #[error("Unknown")]
    Unknown,
    /// The record has another number of cells, or CODES another number of digits.
    #[error("Count")]
    Count,
    /// A cell is no number of 1 to 11 digits, or a character of CODES is no hexadecimal digit.
    #[error("Number")]
    Number,
    /// A number or a name is outside its range, or a text has an empty picture.
    #[error("Range")]
    Range,
    /// The record may not stand here, or an epoch starts no later than the one before.
    #[error("Order")]
    Order,
    /// The epoch has a region of that number.
    #[error("DoubleRegion")]
    DoubleRegion,
    /// The region shares a row of the display with another one of its epoch.
    #[error("RegionsMeet")]
    RegionsMeet,
    /// The region does not lie inside the display.
    #[error("RegionOutside")]
    RegionOutside,
    /// The epoch has no region of that number.
    #[error("NoRegion")]
    NoRegion,
    /// No picture of that name stands before.
    #[error("NoPicture")]
    NoPicture,
    /// A code is not below 2 to the depth, or a picture is deeper than its region.
    #[error("CodeRange")]
    CodeRange,
    /// The picture does not lie inside the region.
    #[error("CueOutside")]
    CueOutside,
    /// A tick lies before its epoch, or something of the epoch before lasts past this start.
    #[error("OutsideEpoch")]
    OutsideEpoch,
    /// The end is not behind the start.
    #[error("EmptySpan")]
    EmptySpan,
    /// Two different ticks are 3,600 ticks apart or less.
    #[error("TooClose")]
    TooClose,
    /// The span has more than 54,000,000 ticks.
    #[error("TooLong")]
    TooLong,
    /// A limit of scripts is passed.
    #[error("TooMany")]
    TooMany,
    /// The font has no glyph for that character.
    #[error("Glyph {}", u32::from(*.0))]
    Glyph(char),
}

impl ScriptKind {
    /// The kind's name, as texts show it.
    pub fn name(self) -> &'static str
        ensures name { result.now ≡ kind_name self }
        ensures short { length result.now ≤ 13 }
    {
        match self {
            ScriptKind::NotUtf8 => "NotUtf8",
            ScriptKind::Unknown => "Unknown",
            ScriptKind::Count => "Count",
            ScriptKind::Number => "Number",
            ScriptKind::Range => "Range",
            ScriptKind::Order => "Order",
            ScriptKind::DoubleRegion => "DoubleRegion",
            ScriptKind::RegionsMeet => "RegionsMeet",
            ScriptKind::RegionOutside => "RegionOutside",
            ScriptKind::NoRegion => "NoRegion",
            ScriptKind::NoPicture => "NoPicture",
            ScriptKind::CodeRange => "CodeRange",
            ScriptKind::CueOutside => "CueOutside",
            ScriptKind::OutsideEpoch => "OutsideEpoch",
            ScriptKind::EmptySpan => "EmptySpan",
            ScriptKind::TooClose => "TooClose",
            ScriptKind::TooLong => "TooLong",
            ScriptKind::TooMany => "TooMany",
            ScriptKind::Glyph(_) => "Glyph",
        }
    }
}
