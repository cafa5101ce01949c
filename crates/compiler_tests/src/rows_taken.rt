use crate::same::same;
use bitmap_font::Font;
use csv::ByteRecord;
use cue_list::{OnlyRow, RecordFault, ScriptKind, ScriptReader, is_tick_row, only_row};
use std::alloc::Global;
use std::process::Abort;

/// Rows that come one after another, and what is wrong with each.
const ROWS: [(&str, Option<ScriptKind>); 12] = [
    ("display,40,30\n", Some(ScriptKind::Order)),
    ("origin,0\n", None),
    ("display,40,30\n", None),
    ("display,40,30\n", Some(ScriptKind::Order)),
    ("refresh,5\n", None),
    ("epoch,90000\n", None),
    ("region,0,0,0,20,20,4,0\n", None),
    (
        "place,90000,93601,0,0,0,solid,a\n",
        Some(ScriptKind::NoPicture),
    ),
    ("picture,a,4,2,1,3f\n", None),
    ("place,90000,93601,0,0,0,solid,a\n", None),
    (
        "place,93602,180000,0,0,0,solid,a\n",
        Some(ScriptKind::TooClose),
    ),
    ("place,93601,180000,0,0,0,solid,a", None),
];

#[test]
fn rows_are_tested_by_those_that_were_taken(rt: HostRuntime) {
    let alloc = rt.alloc();
    let font = Font::empty(alloc);
    let mut reader = ScriptReader::new(alloc);
    for (text, wanted) in &ROWS {
        let Some(row) = row_of(alloc, text) else {
            panic!(&rt; "{text} is one record");
        };
        same(&rt, fault_of(alloc, &mut reader, &font, &row), *wanted);
    }
}

/// Rows of which each is taken, taken back, and taken again: none leaves a trace.
const AGAIN: [&str; 8] = [
    "origin,0\n",
    "display,40,30\n",
    "refresh,5\n",
    "picture,a,4,2,1,3f\n",
    "epoch,90000\n",
    "region,0,0,0,20,20,4,0\n",
    "colour,93601,0,4,1,81,90,240,0\n",
    "place,97202,180000,0,0,0,solid,a\n",
];

#[test]
fn a_row_that_is_taken_back_can_come_again(rt: HostRuntime) {
    let alloc = rt.alloc();
    let font = Font::empty(alloc);
    let mut reader = ScriptReader::new(alloc);
    for text in &AGAIN {
        let Some(row) = row_of(alloc, text) else {
            panic!(&rt; "{text} is one record");
        };
        let Ok(before) = reader.take(alloc, &font, &row) else {
            panic!(&rt; "{text} is right");
        };
        reader.go_back(before);
        same(&rt, fault_of(alloc, &mut reader, &font, &row), None);
    }
}

/// Tick rows behind an origin at 7 and a last tick at 100, and what is wrong with each.
const TICKS: [(&str, Option<ScriptKind>); 6] = [
    ("tick,101", None),
    ("tick,100", Some(ScriptKind::Order)),
    ("tick,6", Some(ScriptKind::Range)),
    ("tick,x", Some(ScriptKind::Number)),
    ("tick", Some(ScriptKind::Count)),
    ("tick,1,1", Some(ScriptKind::Count)),
];

#[test]
fn ticks_rise_behind_the_origin(rt: HostRuntime) {
    let alloc = rt.alloc();
    let font = Font::empty(alloc);
    let mut reader = ScriptReader::new(alloc);
    for (text, wanted) in &TICKS {
        let Some(row) = row_of(alloc, text) else {
            panic!(&rt; "{text} is one record");
        };
        assert!(&rt; is_tick_row(&row));
        let first = match wanted {
            Some(ScriptKind::Count) => Some(ScriptKind::Count),
            _ => Some(ScriptKind::Order),
        };
        same(&rt, reader.tick(&row, Some(100)).err(), first);
    }
    let Some(origin) = row_of(alloc, "origin,7") else {
        panic!(&rt; "that is one record");
    };
    same(&rt, fault_of(alloc, &mut reader, &font, &origin), None);
    for (text, wanted) in &TICKS {
        let Some(row) = row_of(alloc, text) else {
            panic!(&rt; "{text} is one record");
        };
        same(&rt, reader.tick(&row, Some(100)).err(), *wanted);
    }
}

#[test]
fn a_text_has_one_record_or_another_number(rt: HostRuntime) {
    let alloc = rt.alloc();
    for (text, wanted) in &[("", 0), ("\n", 0), ("a\nb", 2), ("\"a\nb\"\n", 1)] {
        let count = match only_row(alloc, text.as_bytes()) {
            Ok(OnlyRow::Row(_)) => 1,
            Ok(OnlyRow::Many { count }) => count,
            Err(_) => panic!(&rt; "there is memory"),
        };
        same(&rt, count, *wanted);
    }
}

/// The one record of a text.
fn row_of(alloc: Global, text: &str) -> Option<ByteRecord> {
    match only_row(alloc, text.as_bytes()) {
        Ok(OnlyRow::Row(row)) => Some(row),
        _ => None,
    }
}

/// What is wrong with a record; one that is valid is taken.
fn fault_of(
    alloc: Global,
    reader: &mut ScriptReader,
    font: &Font,
    row: &ByteRecord,
) -> Option<ScriptKind> {
    match reader.take(alloc, font, row) {
        Err(RecordFault::Wrong(kind)) => Some(kind),
        _ => None,
    }
}
