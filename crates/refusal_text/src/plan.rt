use crate::record::Record;
use crate::script::font_of;
use cue_list::Script;
use page_epoch::{Plan, PlanFault};
use schedule::ScheduleFault;
use sentence_text::{Part, Text};
use std::alloc::Global;
use sub_base::{NoMemory, Profile};

/// The sentence on a script that has no plan for a receiver of the profile.
pub fn plan_refusal(
    alloc: Global,
    text: Option<&[u8]>,
    profile: &Profile,
    fault: PlanFault,
) -> Result<Text, NoMemory> {
    match fault {
        PlanFault::Memory => Err(NoMemory),
        PlanFault::DisplayTooLarge { row } => {
            let mut told = record_text(alloc, text, row)?;
            told.say(&[
                Part::Words("a display has at most the "),
                Part::Number(u64::from(profile.width)),
                Part::Words(" by "),
                Part::Number(u64::from(profile.height)),
                Part::Words(" pixels of the profile"),
            ])?;
            Ok(told)
        }
        PlanFault::PixelFull { row, need } => {
            let mut told = record_text(alloc, text, row)?;
            told.say(&[
                Part::Words("the regions of its epoch need "),
                Part::Number(need),
                Part::Words(" bytes of pixels, and the profile's pixel buffer has "),
                Part::Number(profile.pixels),
            ])?;
            Ok(told)
        }
        PlanFault::CompositionFull { row, need } => {
            let mut told = record_text(alloc, text, row)?;
            told.say(&[
                Part::Words("the page of its set needs "),
                Part::Number(need),
                Part::Words(" nodes for regions, objects and colours, and the profile has "),
                Part::Number(u64::from(profile.nodes)),
            ])?;
            Ok(told)
        }
    }
}

/// The sentence on a script whose sets have no schedule for the profile, at the set that the record
/// brings. Without the text of the script it has no quotation, and does not tell of the set before.
pub fn schedule_refusal(
    alloc: Global,
    text: Option<&[u8]>,
    font: Option<&[u8]>,
    profile: &Profile,
    row: u64,
    fault: ScheduleFault,
) -> Result<Text, NoMemory> {
    match fault {
        ScheduleFault::Memory => Err(NoMemory),
        ScheduleFault::CodedFull { size, .. } => {
            let mut told = record_text(alloc, text, row)?;
            told.say(&[
                Part::Words("its set has "),
                Part::Number(size),
                Part::Words(" bytes, and the profile's coded data buffer holds "),
                Part::Number(profile.coded),
            ])?;
            Ok(told)
        }
        ScheduleFault::SegmentFull { longest, .. } => {
            let mut told = record_text(alloc, text, row)?;
            told.say(&[
                Part::Words("its set has a segment of "),
                Part::Number(longest),
                Part::Words(" bytes, and a PES packet has room for 65524: its picture is to be "),
                Part::Words("parted into smaller ones"),
            ])?;
            Ok(told)
        }
        ScheduleFault::Late { set, done, pts } => {
            let mut told = record_text(alloc, text, row)?;
            told.say(&[
                Part::Words("its set is to be shown at "),
                Part::Number(pts),
                Part::Words(", and a receiver has it ready at "),
                Part::Number(done),
                Part::Words(", "),
                Part::Number(done.saturating_sub(pts)),
                Part::Words(" ticks too late"),
            ])?;
            match set_before(alloc, text, font, profile, set) {
                Some(before) => put_before(&mut told, before)?,
                None => told.put_words(": it needs a later tick, or an earlier origin")?,
            }
            Ok(told)
        }
    }
}

/// The record that a refusal names, as it stands.
fn record_text(alloc: Global, text: Option<&[u8]>, row: u64) -> Result<Text, NoMemory> {
    let mut told = Text::new(alloc);
    told.say(&[Part::Words("record "), Part::Number(row)])?;
    if let Some(text) = text {
        if let Some(record) = Record::find(alloc, text, row)? {
            told.say(&[Part::Words(", "), Part::Quoted(record.bytes(text))])?;
        }
    }
    told.put_words(": ")?;
    Ok(told)
}

/// The set before one that is late.
#[derive(Clone, Copy)]
struct SetBefore {
    pts: u64,
    is_refresh: bool,
}

/// The set before that one, where the script is there and has one.
fn set_before(
    alloc: Global,
    text: Option<&[u8]>,
    font: Option<&[u8]>,
    profile: &Profile,
    set: u64,
) -> Option<SetBefore> {
    let font = font_of(alloc, font);
    let script = Script::read(alloc, text?, &font).ok()?;
    let plan = Plan::make(alloc, &script, profile).ok()?;
    let place = usize::try_from(set.checked_sub(1)?).ok()?;
    let before = plan.sets.as_slice().get(place)?;
    Some(SetBefore {
        pts: before.pts,
        is_refresh: !is_named(&script, before.pts),
    })
}

/// Whether a record of the script names the tick.
fn is_named(script: &Script, tick: u64) -> bool {
    for epoch in script.epochs.as_slice() {
        if epoch.start == tick {
            return true;
        }
        for colour in epoch.colours.as_slice() {
            if colour.tick == tick {
                return true;
            }
        }
        for cue in epoch.cues.as_slice() {
            if cue.start == tick || cue.end == tick {
                return true;
            }
        }
    }
    false
}

fn put_before(told: &mut Text, before: SetBefore) -> Result<(), NoMemory> {
    if before.is_refresh {
        told.say(&[
            Part::Words(": it is painted from "),
            Part::Number(before.pts),
            Part::Words(" on, when the set before is shown, a refresh: another number of seconds "),
            Part::Words("in the record refresh moves it, or leaves it out"),
        ])
    } else {
        told.say(&[
            Part::Words(": it is painted from "),
            Part::Number(before.pts),
            Part::Words(" on, when the set before is shown, and then all that comes before it is "),
            Part::Words("received: more ticks between the two make room"),
        ])
    }
}
