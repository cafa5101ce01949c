use cue_list::ScriptKind;
use cue_records::RowKind;

/// What the test asks that a record fails by a fault of that kind.
pub(crate) fn rule_of(kind: ScriptKind, word: RowKind) -> &'static str {
    match kind {
        ScriptKind::NotUtf8 => "every cell of a script is text in UTF-8",
        ScriptKind::Unknown => match word {
            RowKind::Place => "the mode of a place is solid or through",
            _ => {
                "a record begins with origin, display, refresh, epoch, region, colour, picture, \
                 place or cue"
            }
        },
        ScriptKind::Count => match word {
            RowKind::Picture => {
                "a picture has six cells, and CODES as many codes as the picture has pixels"
            }
            _ => "each record has as many cells as its word asks",
        },
        ScriptKind::Number => match word {
            RowKind::Picture => {
                "a number has 1 to 11 decimal digits, without sign and leading zeros, and CODES \
                 has hexadecimal digits, or runs COUNT*CODE parted by one space each"
            }
            _ => "a number has 1 to 11 decimal digits, without sign and leading zeros",
        },
        ScriptKind::Range => range_rule(word),
        ScriptKind::Order => order_rule(word),
        ScriptKind::DoubleRegion => "each region of an epoch has an ID of its own",
        ScriptKind::RegionsMeet => "the regions of an epoch share no row of the display",
        ScriptKind::RegionOutside => "a region lies inside the display",
        ScriptKind::NoRegion => "REGION is the ID of a region of the same epoch",
        ScriptKind::NoPicture => "NAME is that of a picture in a record before",
        ScriptKind::CodeRange => code_rule(word),
        ScriptKind::CueOutside => match word {
            RowKind::Cue => "the picture of a text lies inside its region",
            _ => "a picture lies inside its region",
        },
        ScriptKind::OutsideEpoch => match word {
            RowKind::Epoch => {
                "what an epoch shows and sets ends before the next one starts: no cue ends behind \
                 its START, and no colour is at or behind it"
            }
            _ => "nothing is shown or set before its epoch starts",
        },
        ScriptKind::EmptySpan => "END is behind START",
        ScriptKind::TooClose => {
            "two different ticks of a script lie more than 3600 ticks apart: two frames of 25 Hz, \
             as one frame has 3600"
        }
        ScriptKind::TooLong => "a cue lasts at most 54000000 ticks, which are ten minutes",
        ScriptKind::TooMany => limit_rule(word),
        ScriptKind::Glyph('\r') => {
            "the font has a glyph for each character of the text: this one is a carriage return, \
             and the lines of a text are parted by line feeds alone"
        }
        ScriptKind::Glyph(_) => "the font has a glyph for each character of the text",
    }
}

fn range_rule(word: RowKind) -> &'static str {
    match word {
        RowKind::Picture => "NAME has 1 to 64 bytes, and each number lies in its range",
        RowKind::Cue => "TEXT has a picture with pixels, and each number lies in its range",
        _ => "each number lies in its range",
    }
}

fn order_rule(word: RowKind) -> &'static str {
    match word {
        RowKind::Origin => "origin is the first record, and stands once",
        RowKind::Display => "display is the second record, and stands once",
        RowKind::Refresh => "refresh is the third record, and stands once",
        RowKind::Epoch => "an epoch stands behind refresh, and starts behind the epoch before",
        RowKind::Region => "a region stands in an epoch, before its colours, places and cues",
        RowKind::Picture => "a picture stands behind refresh",
        RowKind::Colour | RowKind::Place | RowKind::Cue => {
            "colours, places and cues stand in an epoch"
        }
        RowKind::Other => "a script has an epoch",
    }
}

fn code_rule(word: RowKind) -> &'static str {
    match word {
        RowKind::Colour => "ENTRY is below 2 to the power of DEPTH",
        RowKind::Picture => "each code of CODES is below 2 to the power of DEPTH",
        RowKind::Cue => "FG and BG are below 2 to the power of the region's depth",
        _ => "a picture is no deeper than its region",
    }
}

fn limit_rule(word: RowKind) -> &'static str {
    match word {
        RowKind::Epoch => "a script has at most 512 epochs",
        RowKind::Region => "an epoch has at most 64 regions",
        RowKind::Colour => "a script has at most 8192 colours",
        RowKind::Picture => {
            "a script has at most 4096 picture records, those whose name is used again with them, \
             and at most 268435456 codes in all pictures and set texts together"
        }
        _ => {
            "a script has at most 4096 places and cues together, and at most 268435456 codes in \
             all pictures and set texts together"
        }
    }
}
