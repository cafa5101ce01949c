//! The display set that a receiver has ready, before it takes it.

ghost use Rattle.std.specs.Prelude.{◌≡◌, ◌<◌, ◌^◌, IfOk, IfSome, List, None, Some, false, length, option_map, ℕ};
ghost use Rattle.std.specs.Option.{ForSome};
ghost use Rattle.decoder_model.specs.Sets.{Delivery, whole};
ghost use Rattle.display_sets.specs.Filling.{AreBytes};
ghost use Rattle.display_sets.specs.Gathered.{ReadySet};
ghost use Rattle.display_sets.specs.Lent.{lent};
ghost use Rattle.display_sets.specs.Standing.{IsReady};
ghost use Rattle.splice.specs.Private.Parts.{cut_of};
ghost use Rattle.splice.specs.Private.Surveys.{IsPlacedAt, IsPreparedOf};

use crate::found::Glimpse;
use crate::part::Part;
use crate::segment_walk::is_mode_change;
use crate::sending::{Sending, sending_of};
use display_sets::Ready;
use std::alloc::Global;
use sub_base::NoMemory;

/// How a set is sent, and when, in ticks.
#[derive(Drop)]
pub(crate) struct Placed {
    pub time: u64,
    pub sending: Sending,
}

/// What is known of a set before it is taken, and how it is sent, where it is.
#[derive(Drop)]
pub(crate) struct Prepared {
    pub glimpse: Glimpse,
    pub placed: Option<Placed>,
}

/// What is known of the set that is ready, which has that lifted time, in a stream whose first set
/// that is kept begins at that tick.
pub(crate) fn prepare(
    alloc: Global,
    part: Part,
    begin: Option<u64>,
    lifted: Option<u64>,
    ready: Option<Ready<'_>>,
) -> Result<Prepared, NoMemory>
    requires cut { cut_of part < 2 ^ 34 }
    requires lifted { IfSome lifted (λ time. time < 2 ^ 62) }
    requires within { ForSome ready
        (λ set. IfOk set.segments (λ bytes. length bytes.now < 2 ^ 32)) }
    ensures { IfOk result (λ next. (delivery : Delivery (List ℕ)) (set : ReadySet)
        → option_map lent ready.entry ≡ Some set → IsReady delivery set
        → IsPreparedOf part begin lifted delivery next) }
{
    match ready {
        Some(set) => match set.segments {
            Ok(bytes) => prepare_whole(alloc, part, begin, lifted, bytes),
            Err(_) => Ok(not_sent(lifted)),
        },
        None => Ok(not_sent(lifted)),
    }
}

/// A set with that lifted time that is refused.
fn not_sent(lifted: Option<u64>) -> Prepared
    ensures lifted { result.glimpse.lifted ≡ lifted }
    ensures kept { result.glimpse.kept ≡ None }
    ensures anew { result.glimpse.anew ≡ false }
    ensures placed { result.placed ≡ None }
{
    Prepared {
        glimpse: Glimpse {
            lifted,
            kept: None,
            anew: false,
        },
        placed: None,
    }
}

/// What is known of a set with these segments.
fn prepare_whole(
    alloc: Global,
    part: Part,
    begin: Option<u64>,
    lifted: Option<u64>,
    bytes: &[u8],
) -> Result<Prepared, NoMemory>
    requires cut { cut_of part < 2 ^ 34 }
    requires lifted { IfSome lifted (λ time. time < 2 ^ 62) }
    requires within { length bytes.now < 2 ^ 32 }
    ensures { IfOk result (λ next. (time size : ℕ) (segments : List (List ℕ))
        → AreBytes segments bytes.now
        → IsPreparedOf part begin lifted (whole time size segments) next) }
{
    let time = match lifted {
        Some(lifted) => part.time_of(begin, lifted),
        None => None,
    };
    Ok(Prepared {
        glimpse: Glimpse {
            lifted,
            kept: lifted,
            anew: is_mode_change(bytes),
        },
        placed: placed_at(alloc, time, bytes)?,
    })
}

/// How a set with these segments is sent, where it is sent at a time.
fn placed_at(alloc: Global, time: Option<u64>, bytes: &[u8]) -> Result<Option<Placed>, NoMemory>
    requires within { length bytes.now < 2 ^ 32 }
    ensures { IfOk result (λ placed. (segments : List (List ℕ))
        → AreBytes segments bytes.now → IsPlacedAt time segments placed) }
{
    match time {
        None => Ok(None),
        Some(time) => Ok(Some(Placed {
            time,
            sending: sending_of(alloc, time, bytes)?,
        })),
    }
}
