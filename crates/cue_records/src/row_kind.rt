ghost use Rattle.std.specs.Prelude.{◌≡◌};
ghost use Rattle.cue_records.specs.Records.{kind_of, cells_of};

use crate::cells::is_text;

/// What a record of a script says, by its first cell.
#[derive(Clone, Copy, Debug, PartialEq, Eq)]
pub enum RowKind {
    /// `origin`: the tick from which packets are sent.
    Origin,
    /// `display`: its sides.
    Display,
    /// `refresh`: the seconds from one refresh to the next.
    Refresh,
    /// `epoch`: the tick at which one starts.
    Epoch,
    /// `region`: a region of the last epoch.
    Region,
    /// `colour`: a colour of a CLUT's entry.
    Colour,
    /// `picture`: a picture with a name.
    Picture,
    /// `place`: a picture that is shown in a region.
    Place,
    /// `cue`: a text that is shown in a region.
    Cue,
    /// No word that a record can begin with.
    Other,
}

impl RowKind {
    /// The kind that a record's first cell names.
    pub fn of(word: &[u8]) -> RowKind
        ensures { result ≡ kind_of word.now }
    {
        if is_text(word, "origin") {
            RowKind::Origin
        } else if is_text(word, "display") {
            RowKind::Display
        } else if is_text(word, "refresh") {
            RowKind::Refresh
        } else if is_text(word, "epoch") {
            RowKind::Epoch
        } else if is_text(word, "region") {
            RowKind::Region
        } else if is_text(word, "colour") {
            RowKind::Colour
        } else if is_text(word, "picture") {
            RowKind::Picture
        } else if is_text(word, "place") {
            RowKind::Place
        } else if is_text(word, "cue") {
            RowKind::Cue
        } else {
            RowKind::Other
        }
    }

    /// How many cells a record of the kind has, its first one among them.
    pub fn cells(self) -> usize
        ensures { result ≡ cells_of self }
    {
        match self {
            RowKind::Origin | RowKind::Refresh | RowKind::Epoch => 2,
            RowKind::Display => 3,
            RowKind::Picture => 6,
            RowKind::Region | RowKind::Place => 8,
            RowKind::Colour | RowKind::Cue => 9,
            // Refused before its cells are counted.
            RowKind::Other => 0,
        }
    }
}
