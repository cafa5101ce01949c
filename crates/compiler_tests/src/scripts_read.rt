use crate::same::same;
use crate::texts::{FONT, PICTURE_HEAD};
use bitmap_font::Font;
use cue_list::{Epoch, Script, ScriptFault, ScriptKind};
use std::panic::Expect;
use std::process::Abort;
use sub_base::CLEAR;

const HEAD: &str = "origin,0\ndisplay,40,30\nrefresh,5\n";

/// Each script, and its first faulty record with the first test that fails.
const WRONG: [(&str, &str, u64, ScriptKind); 81] = [
    ("", "", 1, ScriptKind::Order),
    (HEAD, "", 4, ScriptKind::Order),
    ("", "display,40,30\n", 1, ScriptKind::Order),
    ("origin,0\norigin,0\n", "", 2, ScriptKind::Order),
    ("origin,0,0\n", "", 1, ScriptKind::Count),
    ("start,0\n", "", 1, ScriptKind::Unknown),
    ("Origin,0\n", "", 1, ScriptKind::Unknown),
    ("origin,\n", "", 1, ScriptKind::Number),
    ("origin,01\n", "", 1, ScriptKind::Number),
    ("origin,+1\n", "", 1, ScriptKind::Number),
    ("origin,123456789012\n", "", 1, ScriptKind::Number),
    ("origin,12345678901\n", "", 1, ScriptKind::Range),
    ("origin,8589934592\n", "", 1, ScriptKind::Range),
    ("origin,0\ndisplay,0,1\n", "", 2, ScriptKind::Range),
    ("origin,0\ndisplay,1920,1081\n", "", 2, ScriptKind::Range),
    ("origin,0\ndisplay,1921,x\n", "", 2, ScriptKind::Range),
    (
        "origin,0\ndisplay,1,1\nrefresh,61\n",
        "",
        3,
        ScriptKind::Range,
    ),
    (HEAD, "picture,a,4,1,1,3\n", 5, ScriptKind::Order),
    (HEAD, "region,0,0,0,1,1,4,0\n", 4, ScriptKind::Order),
    (HEAD, "colour,0,0,4,1,1,1,1,1\n", 4, ScriptKind::Order),
    (HEAD, "epoch,3240000001\n", 4, ScriptKind::Range),
    (HEAD, "epoch,5\nepoch,5\n", 5, ScriptKind::Order),
    (HEAD, "epoch,5\nepoch,3605\n", 5, ScriptKind::TooClose),
    (
        HEAD,
        "epoch,5\nregion,0,0,0,1,1,4,0,0\n",
        5,
        ScriptKind::Count,
    ),
    (
        HEAD,
        "epoch,5\nregion,256,0,0,1,1,4,0\n",
        5,
        ScriptKind::Range,
    ),
    (
        HEAD,
        "epoch,5\nregion,0,0,0,1,1,3,0\n",
        5,
        ScriptKind::Range,
    ),
    (
        HEAD,
        "epoch,5\nregion,0,0,0,1,1,x,0\n",
        5,
        ScriptKind::Number,
    ),
    (
        HEAD,
        "epoch,5\nregion,0,30,0,11,1,4,0\n",
        5,
        ScriptKind::RegionOutside,
    ),
    (
        EPOCH_HEAD,
        "region,0,0,0,1,1,4,0\n",
        6,
        ScriptKind::DoubleRegion,
    ),
    (
        EPOCH_HEAD,
        "region,1,0,19,1,1,4,0\n",
        6,
        ScriptKind::RegionsMeet,
    ),
    (
        EPOCH_HEAD,
        "region,1,0,20,1,11,4,0\n",
        6,
        ScriptKind::RegionOutside,
    ),
    (
        EPOCH_HEAD,
        "colour,90000,0,4,1,1,1,1,1\nregion,1,0,20,1,1,4,0\n",
        7,
        ScriptKind::Order,
    ),
    (
        EPOCH_HEAD,
        "colour,90000,0,4,16,1,1,1,1\n",
        6,
        ScriptKind::CodeRange,
    ),
    (
        EPOCH_HEAD,
        "colour,90000,0,2,4,1,1,1,1\n",
        6,
        ScriptKind::CodeRange,
    ),
    (
        EPOCH_HEAD,
        "colour,89999,0,4,1,1,1,1,1\n",
        6,
        ScriptKind::OutsideEpoch,
    ),
    (
        EPOCH_HEAD,
        "colour,93600,0,4,1,1,1,1,1\n",
        6,
        ScriptKind::TooClose,
    ),
    (
        EPOCH_HEAD,
        "colour,93601,0,4,1,1,1,1,1\nepoch,93601\n",
        7,
        ScriptKind::OutsideEpoch,
    ),
    (EPOCH_HEAD, "picture,,4,1,1,3\n", 6, ScriptKind::Range),
    (EPOCH_HEAD, "picture,a,4,1,1,33\n", 6, ScriptKind::Count),
    (EPOCH_HEAD, "picture,a,8,1,1,3\n", 6, ScriptKind::Count),
    (EPOCH_HEAD, "picture,a,4,2,1,3g\n", 6, ScriptKind::Number),
    (EPOCH_HEAD, "picture,a,2,3,1,4g0\n", 6, ScriptKind::Number),
    (EPOCH_HEAD, "picture,a,2,2,1,34\n", 6, ScriptKind::CodeRange),
    (
        EPOCH_HEAD,
        "picture,a,4,2,1,0*1 2*2\n",
        6,
        ScriptKind::Number,
    ),
    (EPOCH_HEAD, "picture,a,4,2,1,02*1\n", 6, ScriptKind::Number),
    (EPOCH_HEAD, "picture,a,4,2,1,2*\n", 6, ScriptKind::Number),
    (EPOCH_HEAD, "picture,a,8,2,1,2*1\n", 6, ScriptKind::Number),
    (EPOCH_HEAD, "picture,a,4,2,1,2*11\n", 6, ScriptKind::Number),
    (
        EPOCH_HEAD,
        "picture,a,4,2,1,1*1  1*2\n",
        6,
        ScriptKind::Number,
    ),
    (EPOCH_HEAD, "picture,a,4,2,1,2*1 \n", 6, ScriptKind::Number),
    (EPOCH_HEAD, "picture,a,4,2,1, 2*1\n", 6, ScriptKind::Number),
    (
        EPOCH_HEAD,
        "picture,a,4,4,1,2*1 11\n",
        6,
        ScriptKind::Number,
    ),
    (EPOCH_HEAD, "picture,a,4,2,1,2*1*\n", 6, ScriptKind::Number),
    (
        EPOCH_HEAD,
        "picture,a,4,2,1,5*1 1*g\n",
        6,
        ScriptKind::Number,
    ),
    (
        EPOCH_HEAD,
        "picture,a,4,1920,1080,2073601*1\n",
        6,
        ScriptKind::Number,
    ),
    (
        EPOCH_HEAD,
        "picture,a,4,2,1,1*1 2*2\n",
        6,
        ScriptKind::Count,
    ),
    (EPOCH_HEAD, "picture,a,4,2,1,1*1\n", 6, ScriptKind::Count),
    (EPOCH_HEAD, "picture,a,2,2,1,3*4\n", 6, ScriptKind::Count),
    (
        EPOCH_HEAD,
        "picture,a,2,2,1,1*1 1*4\n",
        6,
        ScriptKind::CodeRange,
    ),
    (
        EPOCH_HEAD,
        "place,90000,180000,1,0,0,solid,a\n",
        6,
        ScriptKind::NoRegion,
    ),
    (
        EPOCH_HEAD,
        "place,90000,180000,0,0,0,solid,a\n",
        6,
        ScriptKind::NoPicture,
    ),
    (
        EPOCH_HEAD,
        "place,90000,180000,0,0,0,clear,a\n",
        6,
        ScriptKind::Unknown,
    ),
    (
        EPOCH_HEAD,
        "picture,a,8,1,1,33\nplace,90000,180000,0,0,0,solid,a\n",
        7,
        ScriptKind::CodeRange,
    ),
    (
        EPOCH_HEAD,
        "picture,a,4,1,1,3\npicture,a,8,1,1,33\nplace,90000,180000,0,0,0,solid,a\n",
        8,
        ScriptKind::CodeRange,
    ),
    (
        PICTURE_HEAD,
        "place,90000,180000,0,19,0,solid,a\n",
        7,
        ScriptKind::CueOutside,
    ),
    (
        PICTURE_HEAD,
        "place,80000,80000,0,0,0,solid,a\n",
        7,
        ScriptKind::OutsideEpoch,
    ),
    (
        PICTURE_HEAD,
        "place,99000,99000,0,0,0,solid,a\n",
        7,
        ScriptKind::EmptySpan,
    ),
    (
        PICTURE_HEAD,
        "place,99000,98000,0,0,0,solid,a\n",
        7,
        ScriptKind::EmptySpan,
    ),
    (
        PICTURE_HEAD,
        "place,90000,54090001,0,0,0,solid,a\n",
        7,
        ScriptKind::TooLong,
    ),
    (
        PICTURE_HEAD,
        "place,90000,93600,0,0,0,solid,a\n",
        7,
        ScriptKind::TooClose,
    ),
    (
        PICTURE_HEAD,
        "place,93601,97201,0,0,0,solid,a\n",
        7,
        ScriptKind::TooClose,
    ),
    (
        PICTURE_HEAD,
        "place,90000,180000,0,0,0,through,a\nepoch,179999\n",
        8,
        ScriptKind::OutsideEpoch,
    ),
    (
        PICTURE_HEAD,
        "place,90000,180000,0,0,0,solid,b\n",
        7,
        ScriptKind::NoPicture,
    ),
    (
        EPOCH_HEAD,
        "cue,90000,180000,1,0,0,1,0,A\n",
        6,
        ScriptKind::NoRegion,
    ),
    (
        EPOCH_HEAD,
        "cue,90000,180000,0,0,0,16,0,A\n",
        6,
        ScriptKind::CodeRange,
    ),
    (
        EPOCH_HEAD,
        "cue,90000,180000,0,0,0,1,256,A\n",
        6,
        ScriptKind::Range,
    ),
    (
        EPOCH_HEAD,
        "cue,90000,180000,0,0,0,1,0,AB\n",
        6,
        ScriptKind::Glyph('B'),
    ),
    (
        EPOCH_HEAD,
        "cue,90000,180000,0,0,0,1,0,\n",
        6,
        ScriptKind::Range,
    ),
    (
        EPOCH_HEAD,
        "cue,90000,180000,0,18,0,1,0,A\n",
        6,
        ScriptKind::CueOutside,
    ),
    (
        EPOCH_HEAD,
        "cue,80000,180000,0,0,0,1,0,A\n",
        6,
        ScriptKind::OutsideEpoch,
    ),
    (
        EPOCH_HEAD,
        "cue,90000,93000,0,0,0,1,0,A\n",
        6,
        ScriptKind::TooClose,
    ),
];

const EPOCH_HEAD: &str =
    "origin,0\ndisplay,40,30\nrefresh,5\nepoch,90000\nregion,0,0,0,20,20,4,0\n";

#[test]
fn wrong_scripts_are_refused_at_their_first_wrong_record(rt: HostRuntime) {
    let alloc = rt.alloc();
    let Ok(font) = Font::read(alloc, FONT) else {
        panic!(&rt; "the font is read");
    };
    for (head, more, row, kind) in &WRONG {
        let mut text = String::from_str(alloc, head).expect(&rt, "memory");
        text.push_str(more).expect(&rt, "memory");
        match Script::read(alloc, text.as_bytes(), &font) {
            Err(fault) => same(
                &rt,
                fault,
                ScriptFault::Refused {
                    row: *row,
                    kind: *kind,
                },
            ),
            Ok(_) => panic!(&rt; "the script {text} is wrong"),
        }
    }
}

/// Scripts without a faulty record: what follows the head, and how many epochs, pictures and cues
/// there are.
const RIGHT: [(&str, usize, usize, usize); 6] = [
    ("epoch,90000\n", 1, 0, 0),
    ("epoch,90000\nepoch,93601\n", 2, 0, 0),
    (
        "epoch,90000\r\n\
         region,0,0,0,20,20,4,0\r\n\
         \r\n\
         picture,a,4,2,1,3f\r\n\
         place,93601,180000,0,18,19,solid,a",
        1,
        1,
        1,
    ),
    (
        "epoch,90000\nregion,0,0,0,20,20,4,0\ncue,90000,54090000,0,14,0,1,0,\"A\nAA\"\n",
        1,
        1,
        1,
    ),
    (
        "epoch,90000\n\
         region,0,0,0,20,20,4,0\n\
         colour,180000,0,4,15,0,1,1,1\n\
         colour,180000,0,4,15,1,1,1,1\n\
         epoch,183601\n",
        2,
        0,
        0,
    ),
    (
        "epoch,90000\nregion,7,0,20,20,10,8,0\nregion,0,0,0,20,20,4,0\n",
        1,
        0,
        0,
    ),
];

#[test]
fn right_scripts_are_read(rt: HostRuntime) {
    let alloc = rt.alloc();
    let Ok(font) = Font::read(alloc, FONT) else {
        panic!(&rt; "the font is read");
    };
    for (more, epochs, pictures, cues) in &RIGHT {
        let mut text = String::from_str(alloc, "\u{feff}").expect(&rt, "memory");
        text.push_str(HEAD).expect(&rt, "memory");
        text.push_str(more).expect(&rt, "memory");
        match Script::read(alloc, text.as_bytes(), &font) {
            Ok(script) => same(
                &rt,
                (
                    script.epochs.len(),
                    script.pictures.len(),
                    cue_count(script.epochs.as_slice()),
                ),
                (*epochs, *pictures, *cues),
            ),
            Err(fault) => panic!(&rt; "the script {text} is right: {fault}"),
        }
    }
}

#[test]
fn a_cue_shows_the_last_picture_of_a_name_before_it(rt: HostRuntime) {
    let alloc = rt.alloc();
    let font = Font::empty(alloc);
    let text = b"origin,7\n\
          display,40,30\n\
          refresh,5\n\
          epoch,90000\n\
          region,3,0,0,20,20,4,9\n\
          picture,a,4,1,1,3\n\
          picture,a,4,2,1,3F\n\
          place,90000,180000,3,1,2,through,a\n\
          picture,a,2,1,1,3\n\
          colour,90000,9,4,1,0,1,2,3\n";
    let Ok(script) = Script::read(alloc, text, &font) else {
        panic!(&rt; "the script is right");
    };
    same(
        &rt,
        (script.origin, script.width, script.height, script.refresh),
        (7, 40, 30, 450_000),
    );
    let Some(epoch) = script.epochs.as_slice().first() else {
        panic!(&rt; "an epoch was started");
    };
    same(&rt, (epoch.start, epoch.row), (90_000, 4));
    let Some(cue) = epoch.cues.as_slice().first() else {
        panic!(&rt; "a cue was placed");
    };
    same(
        &rt,
        (cue.start, cue.end, cue.row, cue.region),
        (90_000, 180_000, 8, 3),
    );
    same(
        &rt,
        (cue.x, cue.y, cue.picture, cue.see_through),
        (1, 2, 1, true),
    );
    let Some(row) = epoch.colours.as_slice().first() else {
        panic!(&rt; "a colour was set");
    };
    same(
        &rt,
        (row.tick, row.row, row.clut, row.entry),
        (90_000, 10, 9, 1),
    );
    same(&rt, row.colour, CLEAR);
    let Some(picture) = script.pictures.as_slice().get(1) else {
        panic!(&rt; "three pictures were named");
    };
    same(&rt, picture.codes(), [3, 15].as_slice());
}

/// Pictures in runs: depth, sides and runs, and the codes that they spell.
const RUNS: [(&str, &[u8]); 4] = [
    ("4,3,2,4*A 1*f 1*0", &[10, 10, 10, 10, 15, 0]),
    ("8,3,2,2*07 1*fF 3*80", &[7, 7, 255, 128, 128, 128]),
    ("2,4,1,1*3 3*0", &[3, 0, 0, 0]),
    ("4,2,1,1*1 1*1", &[1, 1]),
];

#[test]
fn runs_spell_codes(rt: HostRuntime) {
    let alloc = rt.alloc();
    let font = Font::empty(alloc);
    for (cells, codes) in &RUNS {
        let mut text = String::from_str(alloc, HEAD).expect(&rt, "memory");
        text.push_str("picture,a,").expect(&rt, "memory");
        text.push_str(cells).expect(&rt, "memory");
        text.push_str("\nepoch,90000\n").expect(&rt, "memory");
        let Ok(script) = Script::read(alloc, text.as_bytes(), &font) else {
            panic!(&rt; "the script {text} is right");
        };
        let Some(picture) = script.pictures.as_slice().first() else {
            panic!(&rt; "a picture was named");
        };
        same(&rt, picture.codes(), *codes);
    }
}

fn cue_count(epochs: &[Epoch]) -> usize {
    match epochs.first() {
        Some(epoch) => epoch.cues.len(),
        None => 0,
    }
}
