//! Lifted times: presentation times go round at 2 to the 33, lifted ones do not.

ghost use Rattle.std.specs.Prelude.{◌≡◌, ◌<◌, ◌^◌, IfSome};
ghost use Rattle.decoder_model.specs.Kept.{ahead_of as ticks_ahead, lift_by as lifted_by, lifted_behind as lifted};

use stream_syntax::{HALF_ROUND, TICK_LIMIT, TIME_ROUND};

/// The lifted time of a set behind sets of which that is the greatest lifted time; none where the
/// set is not kept.
pub(crate) fn lifted_behind(anchor: u64, last: Option<u64>, time: u64) -> Option<u64>
    requires anchor { anchor < 2 ^ 34 }
    requires last { IfSome last (λ lifted. lifted < 2 ^ 62) }
    requires time { time < 2 ^ 33 }
    ensures lifted { result ≡ lifted anchor last time }
    ensures bounded { IfSome result (λ lifted. lifted < 2 ^ 62) }
{
    match last {
        None => Some(anchor + ahead_of(anchor, time)),
        Some(last) => lift_by(last, ahead_of(last, time)),
    }
}

fn lift_by(last: u64, ticks: u64) -> Option<u64>
    requires last { last < 2 ^ 62 }
    requires ticks { ticks < 2 ^ 33 }
    ensures lifted { result ≡ lifted_by last ticks }
    ensures bounded { IfSome result (λ lifted. lifted < 2 ^ 62) }
{
    if 1 <= ticks && ticks < HALF_ROUND && last + ticks < TICK_LIMIT {
        Some(last + ticks)
    } else {
        None
    }
}

// How many ticks a presentation time is ahead of a lifted one, modulo 2 to the 33.
fn ahead_of(from: u64, time: u64) -> u64
    requires from { from < 2 ^ 62 }
    requires time { time < 2 ^ 33 }
    ensures ahead { result ≡ ticks_ahead from time }
    ensures bounded { result < 2 ^ 33 }
{
    (time + (TIME_ROUND - from % TIME_ROUND)) % TIME_ROUND
}
