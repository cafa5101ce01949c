ghost use Rattle.std.specs.Prelude.{◌≡◌, ℕ, ◌==◌, ◌++◌, map, IfOk, OnOk, Some, if◌then◌else◌};
ghost use Rattle.std.specs.Ordering.{nat_cmp};
ghost use Rattle.std.specs.BTreeMap.{get, IsOrdered};
ghost use Rattle.std.specs.List.{flat_map};
ghost use Rattle.page_epoch.specs.Rows.{events_of as events_of_epoch, events_of_cue, event, least_of, Noted, AreLeastEvents, least_event};

use cue_list::Epoch;
use std::alloc::{AllocError, Global};
use std::collections::BTreeMap;

/// A tick that a record of the script names.
#[derive(Clone, Copy, Debug)]
pub struct Event {
    /// The tick.
    pub tick: u64,
    /// The record.
    pub row: u64,
}

/// Appends the ticks that the records of an epoch name, each with its record.
fn push_events(events: &mut Vec<Event>, epoch: &Epoch) -> Result<(), AllocError>
    ensures { OnOk result (events.new.items ≡ events.old.items ++ events_of_epoch epoch.now) }
{
    events.push(Event {
        tick: epoch.start,
        row: epoch.row,
    })?;
    push_colour_events(events, epoch)?;
    push_cue_events(events, epoch)
}

/// Appends the ticks of an epoch's colour rows.
fn push_colour_events(events: &mut Vec<Event>, epoch: &Epoch) -> Result<(), AllocError>
    ensures { OnOk result
        (events.new.items ≡ events.old.items
        ++ map (λ row. event row.tick row.row) epoch.now.colours) }
{
    for colour in epoch.colours.as_slice() {
        events.push(Event {
            tick: colour.tick,
            row: colour.row,
        })?;
    }
    Ok(())
}

/// Appends the ticks of an epoch's cues.
fn push_cue_events(events: &mut Vec<Event>, epoch: &Epoch) -> Result<(), AllocError>
    ensures { OnOk result
        (events.new.items ≡ events.old.items ++ flat_map events_of_cue epoch.now.cues) }
{
    for cue in epoch.cues.as_slice() {
        events.push(Event {
            tick: cue.start,
            row: cue.row,
        })?;
        events.push(Event {
            tick: cue.end,
            row: cue.row,
        })?;
    }
    Ok(())
}

/// The ticks that the records of a script name, each with its record.
fn all_events(alloc: Global, epochs: &[Epoch]) -> Result<Vec<Event>, AllocError>
    ensures { IfOk result (λ events. events.items ≡ flat_map events_of_epoch epochs.now) }
{
    let mut events = Vec::new(alloc);
    for epoch in epochs {
        push_events(&mut events, epoch)?;
    }
    Ok(events)
}

/// Notes that a record names a tick: the least one stays.
fn note(rows: &mut BTreeMap<u64, u64>, tick: u64, row: u64) -> Result<(), AllocError>
    ensures { OnOk result
        ((other : ℕ)
        → get nat_cmp rows.new other
        ≡ (if other == tick then Some (least_of (get nat_cmp rows.old tick) row)
        else get nat_cmp rows.old other)) }
{
    // A refusal names the least record of its tick, so that one tick has one name.
    let least = match rows.get(&tick) {
        Some(known) => row.min(*known),
        None => row,
    };
    rows.insert(tick, least)?;
    Ok(())
}

/// The ticks that events name, each once and in order, and the least record of each.
fn least_rows(alloc: Global, events: &[Event]) -> Result<BTreeMap<u64, u64>, AllocError>
    ensures { IfOk result (λ rows. Noted events.now (get nat_cmp rows)) }
{
    let mut rows = BTreeMap::new(alloc);
    for event in events {
        note(&mut rows, event.tick, event.row)?;
    }
    Ok(rows)
}

/// The events of a map's entries.
fn in_order(alloc: Global, rows: &BTreeMap<u64, u64>) -> Result<Vec<Event>, AllocError>
    ensures ordered { IsOrdered nat_cmp rows.now }
    ensures events { IfOk result (λ events. events.items ≡ map least_event rows.now.entries) }
{
    rows.iter()
        .map(|(tick, row)| Event {
            tick: *tick,
            row: *row,
        })
        .collect(alloc)
}

/// The ticks that the records of a script name, each once and in order, and the least record of
/// each.
pub fn least_events_of(alloc: Global, epochs: &[Epoch]) -> Result<Vec<Event>, AllocError>
    ensures { IfOk result (λ events. AreLeastEvents epochs.now events.items) }
{
    let events = all_events(alloc, epochs)?;
    let rows = least_rows(alloc, &events)?;
    in_order(alloc, &rows)
}
