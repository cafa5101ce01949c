//! The display sets that are sent, one after the other.

ghost use Rattle.std.specs.Prelude.{◌≡◌, ◌<◌, ◌^◌, ◌∷◌, [], ◌++◌, All, IfOk, List, OnOk, length, ℕ};
ghost use Rattle.sub_base.specs.Lists.{all_of};
ghost use Rattle.sent_sets.specs.RawSets.{RawSet};
ghost use Rattle.slot_stream.specs.SlotStream.{IsPiece, all_pieces};
ghost use Rattle.splice.specs.SplicedSets.{ArePaintedIn};
ghost use Rattle.splice.specs.Private.JoinedSets.{AreCut, IsJoinedOf, IsLastTime};
ghost use Rattle.splice.specs.Private.Sendings.{IsSendingOf};

use crate::sending::Sending;
use slot_stream::{Piece, push_units};
use std::alloc::Global;
use sub_base::{Items, NoMemory, SetLoad, WriteLoad};

/// What sending each set takes, and the PES packets of each, one after the other.
#[derive(Drop)]
pub(crate) struct Joined {
    pub loads: Vec<WriteLoad>,
    pub written: Vec<Items<u8>>,
}

impl Joined {
    /// No set.
    pub fn new(alloc: Global) -> Joined
        ensures { IsJoinedOf [] result }
    {
        Joined {
            loads: Vec::new(alloc),
            written: Vec::new(alloc),
        }
    }

    /// Puts a set last, at that tick, which is painted in so many ticks.
    pub fn push(
        &mut self,
        alloc: Global,
        time: u64,
        painted: u64,
        sending: Sending,
    ) -> Result<(), NoMemory>
        ensures { OnOk result ((sets : List RawSet) (set : RawSet) → IsJoinedOf sets self.old
            → IsSendingOf set sending → set.time ≡ time → time < 2 ^ 62
            → ArePaintedIn set.segments painted → painted < 2 ^ 62
            → IsJoinedOf (sets ++ set ∷ []) self.new) }
    {
        self.loads.push(WriteLoad {
            load: SetLoad {
                pts: time,
                size: sending.size,
                painted,
            },
            longest: sending.longest,
            units: Items::new(alloc, sending.units),
        })?;
        self.written.push(Items::new(alloc, sending.bytes))?;
        Ok(())
    }

    /// The time of the last set, in ticks.
    pub fn last_time(&self) -> Option<u64>
        ensures { (sets : List RawSet) → IsJoinedOf sets self.now → IsLastTime sets result }
    {
        match self.loads.as_slice() {
            [] => None,
            [.., last] => Some(last.load.pts),
        }
    }
}

/// The pieces of all PES packets of all sets, in order, where each set has as many packets of such
/// lengths as its load says.
pub(crate) fn pieces_of<'a>(
    alloc: Global,
    loads: &[WriteLoad],
    written: &'a [Items<u8>],
) -> Result<Vec<Piece<'a>>, NoMemory>
    requires many { length loads.now ≡ length written.now }
    requires cut { (units : List (List (List ℕ))) × AreCut loads.now written.now units }
    ensures pieces { IfOk result (λ pieces. (units : List (List (List ℕ)))
        → AreCut loads.now written.now units → pieces.items ≡ all_pieces (all_of units)) }
    ensures each { IfOk result (λ pieces. All IsPiece pieces.items) }
{
    let mut pieces = Vec::new(alloc);
    for i in 0..written.len() {
        push_units(
            loads[i].units.as_slice(),
            written[i].as_slice(),
            &mut pieces,
        )?;
    }
    Ok(pieces)
}
