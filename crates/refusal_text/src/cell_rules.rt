use cue_list::{LATEST_ORIGIN, LONGEST_SCRIPT, MOST_HEIGHT, MOST_WIDTH};
use cue_records::RowKind;

/// What a cell of a record may hold, where it holds a number.
#[derive(Clone, Copy)]
pub(crate) struct CellRule {
    /// What the cell is called.
    pub(crate) name: &'static str,
    pub(crate) range: Range,
}

/// The numbers that a cell may hold.
#[derive(Clone, Copy)]
pub(crate) enum Range {
    /// A tick from the origin on.
    Tick,
    /// From the one to the other.
    Between(u64, u64),
    /// 2, 4 or 8.
    Depth,
}

impl Range {
    /// The least and the greatest number of a range.
    pub(crate) fn ends(self, origin: u64) -> Ends {
        match self {
            Range::Tick => Ends {
                least: origin,
                most: origin.saturating_add(LONGEST_SCRIPT),
            },
            Range::Between(least, most) => Ends { least, most },
            Range::Depth => Ends { least: 2, most: 8 },
        }
    }

    pub(crate) fn has(self, number: u64, origin: u64) -> bool {
        match self {
            Range::Depth => number == 2 || number == 4 || number == 8,
            _ => {
                let ends = self.ends(origin);
                ends.least <= number && number <= ends.most
            }
        }
    }
}

/// The ends of a range.
#[derive(Clone, Copy)]
pub(crate) struct Ends {
    pub(crate) least: u64,
    pub(crate) most: u64,
}

const BYTE: Range = Range::Between(0, 255);

const COLUMN: Range = Range::Between(0, MOST_WIDTH as u64 - 1);

const ROW: Range = Range::Between(0, MOST_HEIGHT as u64 - 1);

const WIDTH: Range = Range::Between(1, MOST_WIDTH as u64);

const HEIGHT: Range = Range::Between(1, MOST_HEIGHT as u64);

/// What the cell at that place of a record may hold, where it holds a number. Places are counted
/// from 0, and the first cell is the record's word.
pub(crate) fn cell_rule(word: RowKind, place: usize) -> Option<CellRule> {
    match (word, place) {
        (RowKind::Origin, 1) => rule("TICK", Range::Between(0, LATEST_ORIGIN)),
        (RowKind::Display, 1) => rule("WIDTH", WIDTH),
        (RowKind::Display, 2) => rule("HEIGHT", HEIGHT),
        (RowKind::Refresh, 1) => rule("SECONDS", Range::Between(1, 60)),
        (RowKind::Epoch, 1) => rule("START", Range::Tick),
        (RowKind::Region, 1) => rule("ID", BYTE),
        (RowKind::Region, 2) => rule("X", COLUMN),
        (RowKind::Region, 3) => rule("Y", ROW),
        (RowKind::Region, 4) => rule("WIDTH", WIDTH),
        (RowKind::Region, 5) => rule("HEIGHT", HEIGHT),
        (RowKind::Region, 6) => rule("DEPTH", Range::Depth),
        (RowKind::Region, 7) => rule("CLUT", BYTE),
        (RowKind::Colour, 1) => rule("TICK", Range::Tick),
        (RowKind::Colour, 2) => rule("CLUT", BYTE),
        (RowKind::Colour, 3) => rule("DEPTH", Range::Depth),
        (RowKind::Colour, 4) => rule("ENTRY", BYTE),
        (RowKind::Colour, 5) => rule("Y", BYTE),
        (RowKind::Colour, 6) => rule("CR", BYTE),
        (RowKind::Colour, 7) => rule("CB", BYTE),
        (RowKind::Colour, 8) => rule("T", BYTE),
        (RowKind::Picture, 2) => rule("DEPTH", Range::Depth),
        (RowKind::Picture, 3) => rule("WIDTH", WIDTH),
        (RowKind::Picture, 4) => rule("HEIGHT", HEIGHT),
        (RowKind::Place | RowKind::Cue, 1) => rule("START", Range::Tick),
        (RowKind::Place | RowKind::Cue, 2) => rule("END", Range::Tick),
        (RowKind::Place | RowKind::Cue, 3) => rule("REGION", BYTE),
        (RowKind::Place | RowKind::Cue, 4) => rule("X", COLUMN),
        (RowKind::Place | RowKind::Cue, 5) => rule("Y", ROW),
        (RowKind::Cue, 6) => rule("FG", BYTE),
        (RowKind::Cue, 7) => rule("BG", BYTE),
        _ => None,
    }
}

fn rule(name: &'static str, range: Range) -> Option<CellRule> {
    Some(CellRule { name, range })
}
