use crate::cell_facts::{put_cell_facts, put_code_facts, put_free_cell};
use crate::kind_name::kind_name;
use crate::record::{Record, last_picture};
use bitmap_font::Font;
use cue_list::{CLOSE_TICKS, Epoch, MOST_DIGITS, Region, Script, ScriptKind, region_with};
use cue_records::{RowKind, cell};
use sentence_text::{Part, Text};
use std::alloc::Global;
use sub_base::{Depth, NoMemory, decimal_number};

/// A record that is refused, and what stands before it.
#[derive(Drop)]
pub(crate) struct Case<'a> {
    pub(crate) alloc: Global,
    pub(crate) text: &'a [u8],
    pub(crate) origin: u64,
    /// The script of the records before, where they make one.
    pub(crate) before: Option<Script>,
    pub(crate) font: Font,
    pub(crate) record: Record,
    pub(crate) word: RowKind,
}

impl Case<'_> {
    /// The number in the cell at that place.
    pub(crate) fn number(&self, place: usize) -> Option<u64> {
        decimal_number(self.record.cell(place), MOST_DIGITS)
    }

    /// The epoch that the record stands in.
    fn epoch(&self) -> Option<&Epoch> {
        match &self.before {
            Some(script) => script.epochs.as_slice().last(),
            None => None,
        }
    }

    /// The region of that number in the epoch.
    pub(crate) fn region(&self, id: u64) -> Option<Region> {
        let id = u8::try_from(id).ok()?;
        region_with(self.epoch()?.regions.as_slice(), id)
    }
}

/// Puts the numbers that a record fails by behind what is asked of it, where there are any.
pub(crate) fn put_facts(
    told: &mut Text,
    kind: ScriptKind,
    case: &Case<'_>,
) -> Result<(), NoMemory> {
    match kind {
        ScriptKind::Count => put_count(told, case),
        ScriptKind::Number => {
            put_cell_facts(told, case)?;
            Ok(())
        }
        ScriptKind::Range => {
            if put_cell_facts(told, case)? {
                return Ok(());
            }
            put_free_cell(told, case)
        }
        ScriptKind::CodeRange => put_code_facts(told, case),
        ScriptKind::Order | ScriptKind::OutsideEpoch => put_start(told, case),
        ScriptKind::RegionOutside => put_region_ends(told, case),
        ScriptKind::RegionsMeet => put_meeting_region(told, case),
        ScriptKind::CueOutside => put_room(told, case),
        ScriptKind::EmptySpan | ScriptKind::TooLong => put_span(told, case),
        ScriptKind::TooClose => put_neighbour(told, case),
        ScriptKind::Glyph(character) => told.say(&[
            Part::Words("; it has none for the character "),
            Part::Number(u64::from(u32::from(character))),
        ]),
        _ => Ok(()),
    }
}

fn put_count(told: &mut Text, case: &Case<'_>) -> Result<(), NoMemory> {
    let cells = case.record.cells.len();
    if cells != case.word.cells() {
        return told.say(&[
            Part::Words("; this one has "),
            Part::Number(cells as u64),
            Part::Words(" cells, and "),
            Part::Words(kind_name(case.word)),
            Part::Words(" asks "),
            Part::Number(case.word.cells() as u64),
        ]);
    }
    match (case.number(3), case.number(4)) {
        (Some(width), Some(height)) => told.say(&[
            Part::Words("; it has "),
            Part::Number(width.saturating_mul(height)),
            Part::Words(" pixels"),
        ]),
        _ => Ok(()),
    }
}

/// Where the epoch starts that the record stands in, or that an epoch stands behind.
fn put_start(told: &mut Text, case: &Case<'_>) -> Result<(), NoMemory> {
    match case.epoch() {
        Some(epoch) => told.say(&[
            Part::Words("; the epoch of record "),
            Part::Number(epoch.row),
            Part::Words(" starts at "),
            Part::Number(epoch.start),
        ])?,
        None => return Ok(()),
    }
    match (case.word, last_end(case)) {
        (RowKind::Epoch, Some(end)) => told.say(&[
            Part::Words(", and record "),
            Part::Number(end.row),
            Part::Words(" reaches to "),
            Part::Number(end.tick),
        ]),
        _ => Ok(()),
    }
}

/// A tick, and the record that names it.
#[derive(Clone, Copy)]
struct NamedTick {
    tick: u64,
    row: u64,
}

/// The latest tick that a cue of the epoch ends at or a colour of it is set at.
fn last_end(case: &Case<'_>) -> Option<NamedTick> {
    let epoch = case.epoch()?;
    let mut last = None;
    for cue in epoch.cues.as_slice() {
        last = later(last, cue.end, cue.row);
    }
    for colour in epoch.colours.as_slice() {
        last = later(last, colour.tick, colour.row);
    }
    last
}

fn later(last: Option<NamedTick>, tick: u64, row: u64) -> Option<NamedTick> {
    match last {
        Some(last) if last.tick >= tick => Some(last),
        _ => Some(NamedTick { tick, row }),
    }
}

fn put_region_ends(told: &mut Text, case: &Case<'_>) -> Result<(), NoMemory> {
    let Some(script) = &case.before else {
        return Ok(());
    };
    match (
        case.number(2),
        case.number(3),
        case.number(4),
        case.number(5),
    ) {
        (Some(x), Some(y), Some(width), Some(height)) => told.say(&[
            Part::Words("; it needs "),
            Part::Number(x.saturating_add(width)),
            Part::Words(" columns and "),
            Part::Number(y.saturating_add(height)),
            Part::Words(" rows, and the display has "),
            Part::Number(u64::from(script.width)),
            Part::Words(" by "),
            Part::Number(u64::from(script.height)),
        ]),
        _ => Ok(()),
    }
}

fn put_meeting_region(told: &mut Text, case: &Case<'_>) -> Result<(), NoMemory> {
    let (Some(y), Some(height)) = (case.number(3), case.number(5)) else {
        return Ok(());
    };
    let Some(epoch) = case.epoch() else {
        return Ok(());
    };
    for region in epoch.regions.as_slice() {
        let top = u64::from(region.y);
        let below = top + u64::from(region.height);
        if y < below && top < y.saturating_add(height) {
            return told.say(&[
                Part::Words("; region "),
                Part::Number(u64::from(region.id)),
                Part::Words(" has the rows from "),
                Part::Number(top),
                Part::Words(" to "),
                Part::Number(below - 1),
            ]);
        }
    }
    Ok(())
}

/// The sides of a picture, in pixels.
#[derive(Clone, Copy)]
struct Sides {
    width: u64,
    height: u64,
}

fn put_room(told: &mut Text, case: &Case<'_>) -> Result<(), NoMemory> {
    let (Some(id), Some(x), Some(y)) = (case.number(3), case.number(4), case.number(5)) else {
        return Ok(());
    };
    let Some(region) = case.region(id) else {
        return Ok(());
    };
    let Some(sides) = sides_of(case)? else {
        return Ok(());
    };
    told.say(&[
        Part::Words("; it has "),
        Part::Number(sides.width),
        Part::Words(" by "),
        Part::Number(sides.height),
        Part::Words(" pixels, and region "),
        Part::Number(id),
        Part::Words(" has "),
        Part::Number(u64::from(region.width).saturating_sub(x)),
        Part::Words(" by "),
        Part::Number(u64::from(region.height).saturating_sub(y)),
        Part::Words(" from its place on"),
    ])
}

/// The sides of the picture that a place names, or of a cue's text.
fn sides_of(case: &Case<'_>) -> Result<Option<Sides>, NoMemory> {
    if case.word == RowKind::Cue {
        Ok(text_sides(case))
    } else {
        picture_sides(case)
    }
}

fn text_sides(case: &Case<'_>) -> Option<Sides> {
    let text = std::str::from_utf8(case.record.cell(8)).ok()?;
    let picture = case.font.set(text, 0, 0, Depth::Eight).ok()?;
    Some(Sides {
        width: u64::from(picture.width()),
        height: u64::from(picture.height()),
    })
}

/// The sides of the last picture of the name that a place has, before it.
fn picture_sides(case: &Case<'_>) -> Result<Option<Sides>, NoMemory> {
    let name = case.record.cell(7);
    let picture = last_picture(case.alloc, case.record.before(case.text), name)?;
    let Some(picture) = picture else {
        return Ok(None);
    };
    let width = decimal_number(cell(&picture, 3), MOST_DIGITS);
    let height = decimal_number(cell(&picture, 4), MOST_DIGITS);
    match (width, height) {
        (Some(width), Some(height)) => Ok(Some(Sides { width, height })),
        _ => Ok(None),
    }
}

fn put_span(told: &mut Text, case: &Case<'_>) -> Result<(), NoMemory> {
    match (case.number(1), case.number(2)) {
        (Some(start), Some(end)) if start < end => told.say(&[
            Part::Words("; this one lasts "),
            Part::Number(end - start),
        ]),
        (Some(start), Some(end)) if start == end => told.put_words("; the two are one tick"),
        (Some(start), Some(end)) => told.say(&[
            Part::Words("; it lies "),
            Part::Number(start.saturating_sub(end)),
            Part::Words(" ticks before it"),
        ]),
        _ => Ok(()),
    }
}

/// The first tick of the records before that lies too close to one of the record's.
fn put_neighbour(told: &mut Text, case: &Case<'_>) -> Result<(), NoMemory> {
    for place in 1..3 {
        let is_tick = place == 1 || case.word == RowKind::Place || case.word == RowKind::Cue;
        if let (true, Some(tick)) = (is_tick, case.number(place)) {
            if let Some(other) = neighbour(case, tick) {
                return told.say(&[
                    Part::Words("; "),
                    Part::Number(tick),
                    Part::Words(" lies "),
                    Part::Number(tick.abs_diff(other.tick)),
                    Part::Words(" ticks from "),
                    Part::Number(other.tick),
                    Part::Words(" of record "),
                    Part::Number(other.row),
                ]);
            }
        }
    }
    put_span(told, case)
}

fn neighbour(case: &Case<'_>, tick: u64) -> Option<NamedTick> {
    let Some(script) = &case.before else {
        return None;
    };
    for epoch in script.epochs.as_slice() {
        if is_close(tick, epoch.start) {
            return Some(NamedTick {
                tick: epoch.start,
                row: epoch.row,
            });
        }
        if let Some(other) = close_in(epoch, tick) {
            return Some(other);
        }
    }
    None
}

/// A tick of a colour or a cue of the epoch that is close to that one.
fn close_in(epoch: &Epoch, tick: u64) -> Option<NamedTick> {
    for colour in epoch.colours.as_slice() {
        if is_close(tick, colour.tick) {
            return Some(NamedTick {
                tick: colour.tick,
                row: colour.row,
            });
        }
    }
    for cue in epoch.cues.as_slice() {
        for other in [cue.start, cue.end] {
            if is_close(tick, other) {
                return Some(NamedTick {
                    tick: other,
                    row: cue.row,
                });
            }
        }
    }
    None
}

fn is_close(tick: u64, other: u64) -> bool {
    tick != other && tick.abs_diff(other) <= CLOSE_TICKS
}
