use crate::same::same;
use crate::texts::{FONT, PICTURE_HEAD};
use bitmap_font::FontKind;
use cue_list::ScriptKind;
use page_epoch::PlanFault;
use refusal_text::{
    FileFault, command_refusal, file_refusal, font_refusal, packet_refusal, plan_refusal,
    schedule_refusal, script_refusal,
};
use schedule::ScheduleFault;
use std::alloc::Global;
use std::panic::Expect;
use std::process::Abort;
use stream_syntax::PacketFault;
use sub_base::{Profile, ProfileName, Words};

/// Whether the sentence on a script that has these records behind the head ends with that text.
fn ends<R: Abort>(
    rt: &R,
    alloc: Global,
    records: &str,
    row: u64,
    kind: ScriptKind,
    wanted: &str,
) -> bool {
    let script = format!(in alloc; "{PICTURE_HEAD}{records}\n").expect(rt, "memory");
    let script = Some(script.as_str().as_bytes());
    let told = script_refusal(alloc, script, Some(FONT), row, kind).expect(rt, "memory");
    told.as_bytes().ends_with(wanted.as_bytes())
}

/// A record is quoted as it stands, and then comes what is asked of it.
#[test]
fn records_are_quoted(rt: HostRuntime) {
    let script = format!(in rt.alloc(); "{PICTURE_HEAD}cue,90000,180000,0,18,0,7,8,A\r\n").expect(
        &rt, "memory",
    );
    let script = Some(script.as_str().as_bytes());
    let font = Some(FONT);
    let told = script_refusal(rt.alloc(), script, font, 7, ScriptKind::CueOutside).expect(
        &rt, "memory",
    );
    let wanted = "record 7, cue,90000,180000,0,18,0,7,8,A: the picture of a text lies inside its \
                  region; it has 3 by 4 pixels, and region 0 has 2 by 20 from its place on";
    same(&rt, told.as_bytes(), wanted.as_bytes());
    let told = script_refusal(rt.alloc(), None, None, 7, ScriptKind::CueOutside).expect(
        &rt, "memory",
    );
    let wanted = "record 7 of the script: a picture lies inside its region";
    same(&rt, told.as_bytes(), wanted.as_bytes());
    let told = script_refusal(rt.alloc(), script, font, 8, ScriptKind::Order).expect(&rt, "memory");
    let wanted = "record 8, behind the last one of the script: a script has an epoch";
    same(&rt, told.as_bytes(), wanted.as_bytes());
}

/// A record, its kind of fault, and how the sentence ends.
#[test]
fn faults_of_cells_are_told(rt: HostRuntime) {
    let cases = [
        (
            "regions,1,0",
            ScriptKind::Unknown,
            "colour, picture, place or cue",
        ),
        (
            "place,90000,180000,0,0,0,clear,a",
            ScriptKind::Unknown,
            "is solid or through",
        ),
        (
            "epoch",
            ScriptKind::Count,
            "; this one has 1 cells, and epoch asks 2",
        ),
        ("picture,b,8,2,3,3", ScriptKind::Count, "; it has 6 pixels"),
        (
            "epoch,090000",
            ScriptKind::Number,
            "; START, cell 2, is \"090000\"",
        ),
        (
            "picture,b,4,2,1,3g",
            ScriptKind::Number,
            "COUNT*CODE parted by one space each",
        ),
        (
            "epoch,3240000001",
            ScriptKind::Range,
            "; START, cell 2, lies from 0 to 3240000000",
        ),
        (
            "region,1,0,20,10,10,3,0",
            ScriptKind::Range,
            "; DEPTH, cell 7, is 2, 4 or 8",
        ),
        (
            "region,1,0,20,0,10,4,0",
            ScriptKind::Range,
            "; WIDTH, cell 5, lies from 1 to 1920",
        ),
        ("picture,,4,1,1,3", ScriptKind::Range, "; NAME has 0 bytes"),
        (
            "cue,90000,180000,0,0,0,7,8,",
            ScriptKind::Range,
            "; the text has no pixels",
        ),
        (
            "colour,90000,0,4,16,16,128,128,0",
            ScriptKind::CodeRange,
            "; the depth is 4 bits",
        ),
        (
            "picture,b,2,2,1,34",
            ScriptKind::CodeRange,
            "; the depth is 2 bits",
        ),
        (
            "cue,90000,180000,0,0,0,16,8,A",
            ScriptKind::CodeRange,
            "; the depth is 4 bits",
        ),
    ];
    for (record, kind, wanted) in cases {
        assert!(rt; ends(&rt, rt.alloc(), record, 7, kind, wanted));
    }
}

#[test]
fn faults_of_places_are_told(rt: HostRuntime) {
    let cases = [
        (
            "refresh,5",
            ScriptKind::Order,
            "; the epoch of record 4 starts at 90000",
        ),
        (
            "region,0,0,20,20,10,4,0",
            ScriptKind::DoubleRegion,
            "has an ID of its own",
        ),
        (
            "region,1,0,20,41,10,4,0",
            ScriptKind::RegionOutside,
            "; it needs 41 columns and 30 rows, and the display has 40 by 30",
        ),
        (
            "region,1,20,19,20,10,4,0",
            ScriptKind::RegionsMeet,
            "; region 0 has the rows from 0 to 19",
        ),
        (
            "place,90000,180000,1,0,0,solid,a",
            ScriptKind::NoRegion,
            "of the same epoch",
        ),
        (
            "place,90000,180000,0,0,0,solid,b",
            ScriptKind::NoPicture,
            "in a record before",
        ),
        (
            "place,90000,180000,0,17,0,solid,a",
            ScriptKind::CueOutside,
            "; it has 2 by 1 pixels, and region 0 has 3 by 20 from its place on",
        ),
        (
            "cue,90000,180000,0,0,0,7,8,AB",
            ScriptKind::Glyph('B'),
            "for the character 66",
        ),
    ];
    for (record, kind, wanted) in cases {
        assert!(rt; ends(&rt, rt.alloc(), record, 7, kind, wanted));
    }
}

#[test]
fn faults_of_times_are_told(rt: HostRuntime) {
    let cases = [
        (
            "place,80000,180000,0,0,0,solid,a",
            ScriptKind::OutsideEpoch,
            "; the epoch of record 4 starts at 90000",
        ),
        (
            "place,180000,170000,0,0,0,solid,a",
            ScriptKind::EmptySpan,
            "; it lies 10000 ticks before it",
        ),
        (
            "place,180000,180000,0,0,0,solid,a",
            ScriptKind::EmptySpan,
            "; the two are one tick",
        ),
        (
            "place,90000,54090001,0,0,0,solid,a",
            ScriptKind::TooLong,
            "; this one lasts 54000001",
        ),
        (
            "place,90000,93600,0,0,0,solid,a",
            ScriptKind::TooClose,
            "from 90000 of record 4",
        ),
        (
            "place,99000,102000,0,0,0,solid,a",
            ScriptKind::TooClose,
            "; this one lasts 3000",
        ),
    ];
    for (record, kind, wanted) in cases {
        assert!(rt; ends(&rt, rt.alloc(), record, 7, kind, wanted));
    }
    let two = "place,90000,180000,0,0,0,solid,a\nepoch,179999";
    let wanted = "; the epoch of record 4 starts at 90000, and record 7 reaches to 180000";
    assert!(rt; ends(&rt, rt.alloc(), two, 8, ScriptKind::OutsideEpoch, wanted));
}

/// Which limit it is stands in the sentence.
#[test]
fn limits_are_told(rt: HostRuntime) {
    let cases = [
        ("epoch,1", "at most 512 epochs"),
        ("region,1", "at most 64 regions"),
        ("colour,1", "at most 8192 colours"),
        ("cue,1", "all pictures and set texts together"),
    ];
    for (record, wanted) in cases {
        assert!(rt; ends(&rt, rt.alloc(), record, 7, ScriptKind::TooMany, wanted));
    }
}

/// Long records are cut before a character, and control characters are not shown.
#[test]
fn quotations_are_short(rt: HostRuntime) {
    let alloc = rt.alloc();
    let mut record = String::from_str(alloc, "\u{1B}\u{9B}").expect(&rt, "memory");
    for _ in 0..58 {
        record.push_str("ä").expect(&rt, "memory");
    }
    record.push_str("äää").expect(&rt, "memory");
    let script = format!(in alloc; "{record}\n").expect(&rt, "memory");
    let script = Some(script.as_str().as_bytes());
    let told = script_refusal(alloc, script, None, 1, ScriptKind::Unknown).expect(&rt, "memory");
    let mut wanted = String::from_str(alloc, "record 1, ...").expect(&rt, "memory");
    for _ in 0..58 {
        wanted.push_str("ä").expect(&rt, "memory");
    }
    wanted
        .push_str("..: a record begins with")
        .expect(&rt, "memory");
    assert!(rt; told.as_bytes().starts_with(wanted.as_str().as_bytes()));
}

#[test]
fn fonts_are_told(rt: HostRuntime) {
    let cases = [
        (
            8,
            FontKind::BadRow,
            "line 8 of the font, 40: a row of a bitmap",
        ),
        (
            2,
            FontKind::BadNumber,
            "line 2 of the font, FONTBOUNDINGBOX 3 4 0 -1: a number",
        ),
        (
            12,
            FontKind::NotBdf,
            "line 12 of the font, ENDFONT: a font begins",
        ),
        (
            13,
            FontKind::Truncated,
            "line 13 of the font: a font ends with ENDFONT",
        ),
        (
            4,
            FontKind::DoubleGlyph,
            "line 4 of the font, ENCODING 65: a character has one",
        ),
        (
            3,
            FontKind::TooLarge,
            "line 3 of the font, STARTCHAR A: a font has at most 65536",
        ),
    ];
    for (line, kind, wanted) in cases {
        let told = font_refusal(rt.alloc(), Some(FONT), line, kind).expect(&rt, "memory");
        assert!(rt; told.as_bytes().starts_with(wanted.as_bytes()));
    }
}

#[test]
fn plans_are_told(rt: HostRuntime) {
    let sd = Profile::of(ProfileName::Sd);
    let cases = [
        (
            PlanFault::DisplayTooLarge { row: 2 },
            "record 2, display,40,30: a display has at most the 720 by 576 pixels of the profile",
        ),
        (
            PlanFault::PixelFull {
                row: 4,
                need: 103_680,
            },
            "record 4, epoch,90000: the regions of its epoch need 103680 bytes of pixels, and the \
             profile's pixel buffer has 81920",
        ),
        (
            PlanFault::CompositionFull { row: 4, need: 555 },
            "record 4, epoch,90000: the page of its set needs 555 nodes for regions, objects and \
             colours, and the profile has 512",
        ),
    ];
    for (fault, wanted) in cases {
        let told = plan_refusal(rt.alloc(), Some(PICTURE_HEAD.as_bytes()), &sd, fault).expect(
            &rt, "memory",
        );
        same(&rt, told.as_bytes(), wanted.as_bytes());
    }
}

#[test]
fn schedules_are_told(rt: HostRuntime) {
    let alloc = rt.alloc();
    let sd = Profile::of(ProfileName::Sd);
    let text = format!(in alloc; "{PICTURE_HEAD}place,90000,1200000,0,0,0,solid,a\n").expect(
        &rt, "memory",
    );
    let text = Some(text.as_str().as_bytes());
    let cases = [
        (
            ScheduleFault::CodedFull {
                set: 0,
                size: 24_577,
            },
            "; its set has 24577 bytes, and the profile's coded data buffer holds 24576",
        ),
        (
            ScheduleFault::SegmentFull {
                set: 0,
                longest: 65_614,
            },
            "parted into smaller ones",
        ),
        (
            ScheduleFault::Late {
                set: 0,
                done: 99,
                pts: 98,
            },
            ", 1 ticks too late: it needs a later tick, or an earlier origin",
        ),
        // The sets are those of 90000, 540000, 990000 and 1200000: two of them are refreshes.
        (
            ScheduleFault::Late {
                set: 1,
                done: 540_009,
                pts: 540_000,
            },
            "9 ticks too late: it is painted from 90000 on, when the set before is shown, and then \
             all that comes before it is received: more ticks between the two make room",
        ),
        (
            ScheduleFault::Late {
                set: 3,
                done: 1_200_001,
                pts: 1_200_000,
            },
            "1 ticks too late: it is painted from 990000 on, when the set before is shown, a \
             refresh: another number of seconds in the record refresh moves it, or leaves it out",
        ),
    ];
    for (fault, wanted) in cases {
        let told = schedule_refusal(alloc, text, None, &sd, 7, fault).expect(&rt, "memory");
        let wanted = wanted.strip_prefix("; ").unwrap_or(wanted);
        assert!(rt; told.as_bytes().ends_with(wanted.as_bytes()));
    }
}

#[test]
fn packets_and_files_are_told(rt: HostRuntime) {
    let told = packet_refusal(rt.alloc(), 2, PacketFault::NoSync).expect(&rt, "memory");
    assert!(rt;
        told.as_bytes()
            .starts_with(b"packet 2, at byte 376 of the stream: a transport")
    );
    let told = packet_refusal(rt.alloc(), 0, PacketFault::Scrambled).expect(&rt, "memory");
    assert!(rt; told.as_bytes().ends_with(b"are not scrambled"));
    let told = file_refusal(rt.alloc(), "a.ts", FileFault::Unread).expect(&rt, "memory");
    assert!(rt; told.as_bytes() == b"a.ts: it could not be opened or read".as_slice());
    let told = file_refusal(rt.alloc(), "a.ts", FileFault::IsInput).expect(&rt, "memory");
    assert!(rt; told.as_bytes().starts_with(b"a.ts: it is an input"));
}

/// A wrong command line, and how its sentence begins.
#[test]
fn wrong_words_are_told(rt: HostRuntime) {
    let cases = [
        (
            "lists 256 a b",
            "word 1, \"lists\": the commands are compile",
        ),
        (
            "--help",
            "word 1, \"--help\": no word is empty or begins with a minus sign",
        ),
        ("list 256 a", "list has 2 words behind it, and asks 3"),
        (
            "list 31 a b",
            "word 2, \"31\": PID is a decimal number without sign",
        ),
        ("list 8191 a b", "word 2, \"8191\": PID is a decimal"),
        (
            "compile wide 256 1 a b c",
            "word 2, \"wide\": PROFILE is sd, hd or large",
        ),
        ("compile sd 256 0 a b c", "word 4, \"0\": PAGE is a decimal"),
        (
            "dump SD 256 1 1 a b 0",
            "word 2, \"SD\": PROFILE is sd, hd, large or wide",
        ),
        (
            "dump sd 256 1 65 a b 0",
            "word 5, \"65\": BANDS is a decimal",
        ),
        (
            "dump sd 256 1 1 a b",
            "dump has 6 words behind it, and asks 6 and then 1 to 1000",
        ),
        (
            "dump sd 256 1 1 a b 5 05",
            "word 9, \"05\": TICK is a decimal",
        ),
        ("dump sd 256 1 1 a b 5 5", "word 9, \"5\": the ticks rise"),
        (
            "check sd 8589934592 256 1 a b",
            "word 3, \"8589934592\": ORIGIN is a decimal",
        ),
        ("expect a none b 7 6", "word 6, \"6\": the ticks rise"),
        ("gen 501 sd a", "word 2, \"501\": N is a decimal"),
        ("gen 5 large a", "word 3, \"large\": PROFILE is sd or hd"),
    ];
    for (line, wanted) in cases {
        let mut words = Words::make(rt.alloc());
        for word in line.split(' ') {
            words.push(word).expect(&rt, "memory");
        }
        let told = command_refusal(rt.alloc(), &words).expect(&rt, "memory");
        assert!(rt; told.as_bytes().starts_with(wanted.as_bytes()));
    }
    let told = command_refusal(rt.alloc(), &Words::make(rt.alloc())).expect(&rt, "memory");
    assert!(rt; told.as_bytes().starts_with(b"there is no word"));
}
