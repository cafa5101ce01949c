use cue_records::RowKind;

/// The first cell of a record of that kind, and what a record of none is called.
pub(crate) fn kind_name(kind: RowKind) -> &'static str {
    match kind {
        RowKind::Origin => "origin",
        RowKind::Display => "display",
        RowKind::Refresh => "refresh",
        RowKind::Epoch => "epoch",
        RowKind::Region => "region",
        RowKind::Colour => "colour",
        RowKind::Picture => "picture",
        RowKind::Place => "place",
        RowKind::Cue => "cue",
        RowKind::Other => "record",
    }
}
