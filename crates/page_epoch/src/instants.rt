ghost use Rattle.std.specs.Prelude.{◌<◌, ◌≤◌, ◌^◌, All, IfOk, OnOk};
ghost use Rattle.page_epoch.specs.Instants.{named_ticks};
ghost use Rattle.page_epoch.specs.Private.Showing.{AreLasting};
ghost use Rattle.page_epoch.specs.Private.RecordedInstants.{HasRefreshes, AreRecordedInstants};

use crate::cue_ticks::CueTicks;
use crate::events::{Event, least_events_of};
use cue_list::Epoch;
use std::alloc::{AllocError, Global};

/// How many ticks a refresh keeps from the next named tick: a set that comes so soon refreshes the
/// page itself.
pub const REFRESH_ROOM: u64 = 3_600;

/// An instant at which a display set is shown.
#[derive(Clone, Copy, Debug)]
pub struct Instant {
    /// The presentation time of its set.
    pub tick: u64,
    /// The record that brings it.
    pub row: u64,
    /// Whether a record names it. Else it is a refresh.
    pub named: bool,
}

/// Appends the refreshes between a named tick and the next one.
fn push_refreshes(
    instants: &mut Vec<Instant>,
    event: Event,
    next: u64,
    refresh: u64,
) -> Result<(), AllocError>
    requires some { 1 ≤ refresh }
    requires small { (event.tick < 2 ^ 40) }
    requires next { next < 2 ^ 40 }
    requires refresh { refresh < 2 ^ 40 }
    ensures { OnOk result
        (HasRefreshes instants.old.items instants.new.items event.tick event.row next refresh) }
{
    let mut tick = event.tick + refresh;
    while tick + REFRESH_ROOM < next {
        instants.push(Instant {
            tick,
            row: event.row,
            named: false,
        })?;
        tick += refresh;
    }
    Ok(())
}

/// The instants of a script.
pub fn instants_of(
    alloc: Global,
    epochs: &[Epoch],
    refresh: u64,
) -> Result<Vec<Instant>, AllocError>
    requires some { 1 ≤ refresh }
    requires refresh { refresh < 2 ^ 40 }
    requires small { All (λ tick. tick < 2 ^ 40) (named_ticks epochs.now) }
    requires lasting { AreLasting epochs.now }
    ensures { IfOk result (λ instants. AreRecordedInstants epochs.now refresh instants.items) }
{
    let events = least_events_of(alloc, epochs)?;
    let cues = CueTicks::of(alloc, epochs)?;
    let mut instants = Vec::new(alloc);
    for (i, event) in events.iter().enumerate() {
        instants.push(Instant {
            tick: event.tick,
            row: event.row,
            named: true,
        })?;
        // A page without a cue shows nothing that a late receiver misses. No cue is live at the
        // last tick, as it would end later.
        if i + 1 < events.len() && cues.shows_cue(event.tick) {
            push_refreshes(&mut instants, *event, events[i + 1].tick, refresh)?;
        }
    }
    Ok(instants)
}
