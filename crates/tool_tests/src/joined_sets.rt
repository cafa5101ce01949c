//! What becomes of the display sets of joined streams, and which words name such streams.

use crate::joined_streams::{
    AT_270000, AT_360000, CLEARING, SHOWING, join, packet_with, picture_stream,
};
use crate::same::{same, same_at};
use command_words::InputPlaces;
use samples::words_of;
use splice::{SpliceFault, splice_inputs};
use std::alloc::Global;
use std::panic::Expect;
use sub_base::{NoMemory, ToolStatus};

// PES packets of pages without regions, shown at 90000, that were worked out by hand from the
// tables of the standards.

/// A page that begins an epoch, and the end of its set.
const OPENING: [u8; 31] = [
    0x00, 0x00, 0x01, 0xBD, 0x00, 0x19, 0x84, 0x80, 0x05, 0x21, 0x00, 0x05, 0xBF, 0x21, 0x20, 0x00,
    0x0F, 0x10, 0x00, 0x01, 0x00, 0x02, 0x0C, 0x0B, 0x0F, 0x80, 0x00, 0x01, 0x00, 0x00, 0xFF,
];

/// The same with a page of the state acquisition point.
const ACQUIRED: [u8; 31] = [
    0x00, 0x00, 0x01, 0xBD, 0x00, 0x19, 0x84, 0x80, 0x05, 0x21, 0x00, 0x05, 0xBF, 0x21, 0x20, 0x00,
    0x0F, 0x10, 0x00, 0x01, 0x00, 0x02, 0x0C, 0x07, 0x0F, 0x80, 0x00, 0x01, 0x00, 0x00, 0xFF,
];

/// A page of the state normal and the end of its set, and behind them those of `OPENING`.
const BOTH: [u8; 45] = [
    0x00, 0x00, 0x01, 0xBD, 0x00, 0x27, 0x84, 0x80, 0x05, 0x21, 0x00, 0x05, 0xBF, 0x21, 0x20, 0x00,
    0x0F, 0x10, 0x00, 0x01, 0x00, 0x02, 0x0C, 0x13, 0x0F, 0x80, 0x00, 0x01, 0x00, 0x00, 0x0F, 0x10,
    0x00, 0x01, 0x00, 0x02, 0x0C, 0x0B, 0x0F, 0x80, 0x00, 0x01, 0x00, 0x00, 0xFF,
];

/// A second stream begins with a mode change, which is told from a page of another state, wherever
/// its page stands: first, or behind the display. A set ends with its end segment, whatever is
/// behind it.
#[test]
fn mode_changes(rt: HostRuntime) {
    let alloc = rt.alloc();
    let first = picture_stream();
    let unshown = ToolStatus::Refused(SpliceFault::NotShown {
        second: true,
        set: 0,
    });
    let other = ToolStatus::Refused(SpliceFault::NoModeChange);
    let cases = [
        ([packet_with(0, &OPENING, None)], 1, ToolStatus::Done),
        ([packet_with(0, &CLEARING, None)], 1, unshown),
        ([packet_with(0, &ACQUIRED, None)], 1, other),
        ([packet_with(0, &OPENING, None)], 0, other),
        ([packet_with(0, &SHOWING, None)], 1, ToolStatus::Done),
        ([packet_with(0, &BOTH, None)], 1, unshown),
    ];
    let text = "splice sd 256 1 0 270000 a b o";
    for (packets, count, status) in cases {
        let second = packets.get(..count).unwrap_or(&[]);
        let joined = join(&rt, alloc, text, &first, second, [0; 3]);
        same(&rt, joined.status, status);
    }
}

/// A set is sent in one PES packet with its new time: 270000 and 360000 ticks, and 2^33 more.
#[test]
fn packets_with_new_times(rt: HostRuntime) {
    let alloc = rt.alloc();
    let stream = [
        packet_with(0, &OPENING, None),
        packet_with(1, &CLEARING, None),
    ];
    let wanted = [
        packet_with(0, &OPENING, None),
        packet_with(1, &CLEARING, None),
        packet_with(2, &OPENING, Some(&AT_270000)),
        packet_with(3, &CLEARING, Some(&AT_360000)),
    ];
    for text in [
        "splice sd 256 1 0 270000 a a o",
        "splice sd 256 1 8589934591 8590204592 a a o",
    ] {
        let joined = join(&rt, alloc, text, &stream, &stream, [0; 3]);
        same_at(&rt, text, joined.status, ToolStatus::Done);
        same_at(&rt, text, joined.out.written(), wanted.as_flattened());
    }
}

/// Where the files of words stand that are parted by blanks.
fn places_of(alloc: Global, text: &str) -> Result<InputPlaces, NoMemory> {
    Ok(splice_inputs(&words_of(alloc, text)?))
}

/// The files stand behind the cut, and nowhere where a word is out of its range.
#[test]
fn files_among_the_words(rt: HostRuntime) {
    let alloc = rt.alloc();
    let places = InputPlaces {
        first: Some(6),
        second: Some(7),
        out: Some(8),
    };
    let nowhere = InputPlaces {
        first: None,
        second: None,
        out: None,
    };
    same(
        &rt,
        places_of(alloc, "splice sd 256 1 0 270000 a b o").expect(&rt, "memory"),
        places,
    );
    same(
        &rt,
        places_of(
            alloc,
            "splice large 8190 65535 8589934591 17179869183 a b o",
        )
        .expect(&rt, "memory"),
        places,
    );
    for text in [
        "splice wide 256 1 0 270000 a b o",
        "splice sd 31 1 0 270000 a b o",
        "splice sd 256 0 0 270000 a b o",
        "splice sd 256 1 8589934592 270000 a b o",
        "splice sd 256 1 0 17179869184 a b o",
        "splice sd 256 1 0 270000 a b o p",
        "splice sd 256 1 0 270000 a b",
        "pair sd 256 1 0 270000 a b o",
    ] {
        same_at(
            &rt,
            text,
            places_of(alloc, text).expect(&rt, "memory"),
            nowhere,
        );
    }
}
