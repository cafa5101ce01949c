ghost use Rattle.std.specs.Prelude.{◌≡◌};

use crate::units::{drops, parts};
use display_sets::UnitEnd;
use ts_packets::Brought;

/// What a packet brought to the coded data buffer of a receiver.
#[derive(Clone, Copy, Debug, PartialEq, Eq)]
pub struct Arrival {
    /// Its payload bytes, where it begins or continues a unit.
    pub bytes: u32,
    /// Whether its unit has another time than the set in hand, which is ready by that: this set
    /// stands before the bytes.
    pub before: bool,
    /// Whether its unit is dropped behind these bytes: it is too long, refused, passed over, or
    /// stands behind the end of its set.
    pub dropped: bool,
}

impl Arrival {
    ghost use Rattle.std.specs.Prelude.{◌≡◌, ◌||◌};
    ghost use Rattle.set_reader.specs.Arrived.{arrival_value};
    ghost use Rattle.set_reader.specs.Private.Ends.{end_drops, end_parts};

    /// What a packet brought, by that and by what became of the unit that it ended.
    pub(crate) fn of(brought: Brought, end: Option<UnitEnd>) -> Arrival
        ensures arrival { arrival_value result ≡ record {
          bytes = brought.bytes;
          before = end_parts end;
          dropped = brought.too_long || end_drops end;
        } }
        ensures bytes { result.bytes ≡ brought.bytes }
    {
        Arrival {
            bytes: brought.bytes,
            before: parts(end),
            dropped: brought.too_long || drops(end),
        }
    }
}
