//! A set that is ready goes to the page memory.

ghost use Rattle.std.specs.Prelude.{◌≡◌, ◌<◌, ◌^◌, ◌∷◌, ℕ, true, IfOk, List, Some, length, unwrap_or};
ghost use Rattle.decoder_model.specs.Painting.{painting_by, set_load};
ghost use Rattle.decoder_model.specs.Readings.{IsDeliveryRead, Reading};
ghost use Rattle.decoder_model.specs.Received.{AreRead};
ghost use Rattle.decoder_model.specs.Sets.{Delivery};
ghost use Rattle.decoder_model.specs.Verdict.{verdict_of};
ghost use Rattle.decoder_model.specs.declared.set_end.SetEnd.TheVariants.{NotLater, Shown};
ghost use Rattle.display_sets.specs.Gathered.{HasFewBytes};
ghost use Rattle.display_sets.specs.Lent.{lent};
ghost use Rattle.display_sets.specs.Standing.{IsReady};
ghost use Rattle.page_core.specs.Memory.{IsSameReceiver};
ghost use Rattle.set_receiver.specs.Receiving.{IsBoundedLoad};
ghost use Rattle.page_core.specs.Memory.{IsMemoryAfter};
ghost use Rattle.set_receiver.specs.Private.Verdicts.{IsVerdictOf};

use display_sets::Ready;
use page_core::{Core, SetEnd, SetFault, painting_time};
use sub_base::SetLoad;

/// What became of a set, and what it asked of the receiver.
#[derive(Clone, Copy)]
pub(crate) struct Taken {
    pub end: SetEnd,
    pub load: SetLoad,
}

/// Takes a set that is ready.
pub(crate) fn take(ready: Ready<'_>, core: &mut Core) -> Taken
    requires time { ready.time < 2 ^ 33 }
    requires within { IfOk ready.segments (λ bytes. length bytes.now < 2 ^ 32) }
    requires small { HasFewBytes core.old.profile.coded ready.size }
    ensures stands { (past : List (Delivery Reading)) (delivery : Delivery (List ℕ))
        (one : Delivery Reading)
        → IsReady delivery (lent ready.entry) → IsDeliveryRead delivery one
        → IsMemoryAfter past core.old
        → IsMemoryAfter (one ∷ past) core.new }
    ensures answer { (past : List (Delivery Reading)) (delivery : Delivery (List ℕ))
        (one : Delivery Reading)
        → IsReady delivery (lent ready.entry) → IsDeliveryRead delivery one
        → IsMemoryAfter past core.old
        → Some result.end ≡ verdict_of core.old.profile core.old.anchor past one }
    ensures load { (past : List (Delivery Reading)) (delivery : Delivery (List ℕ))
        (one : Delivery Reading)
        → IsReady delivery (lent ready.entry) → IsDeliveryRead delivery one
        → IsMemoryAfter past core.old
        → Some result.load ≡ set_load core.old.profile core.old.anchor past one }
    ensures known { result.end ≡ Shown → core.new.known ≡ true }
    ensures unchanged { (last : ℕ) → result.end ≡ NotLater last → core.new ≡ core.old }
    ensures bounded { IsBoundedLoad core.old.profile.coded result.load }
    ensures same { IsSameReceiver core.old core.new }
{
    let pts = core.lift(ready.time).unwrap_or(ready.time);
    let size = ready.size;
    match ready.segments {
        Ok(bytes) => {
            let end = core.take_set(ready.time, bytes);
            let painted = painted(end, bytes);
            Taken {
                end,
                load: SetLoad { pts, size, painted },
            }
        }
        Err(fault) => Taken {
            end: core.refuse_set(ready.time, fault),
            load: SetLoad {
                pts,
                size,
                painted: 0,
            },
        },
    }
}

/// The time that a set takes to be painted, by what became of it: none where it is broken or not
/// kept.
fn painted(end: SetEnd, bytes: &[u8]) -> u64
    requires { length bytes.now < 2 ^ 32 }
    ensures painting { (readings : List Reading) → AreRead readings bytes.now
        → IsVerdictOf readings end → result ≡ painting_by readings (Some end) }
    ensures few { result < 2 ^ 62 }
{
    match end {
        SetEnd::Shown => painting_time(bytes),
        SetEnd::Waiting => painting_time(bytes),
        SetEnd::Broken(_) => 0,
        SetEnd::NotLater { last: _ } => 0,
    }
}
