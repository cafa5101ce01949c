//! What is wrong with the display sets of a stream.

use crate::same::same;
use samples::streams::set_packet;
use samples::{sink_of, source_of_packets, words_of};
use std::alloc::Global;
use std::panic::Expect;
use std::process::Abort;
use stream_report::{ReportFault, faults_top};
use stream_syntax::PacketFault;
use sub_base::{MemSink, ToolStatus, Which};

const FAULTS: &str = "faults sd 256 1 stream.ts faults.txt";

/// A display of four columns and two rows, filled by region 0; an epoch begins with it.
#[rattlefmt::skip]
const FILLED: [u8; 47] = [
    0x0F, 0x14, 0x00, 0x01, 0x00, 0x05, 0x07, 0x00, 0x03, 0x00, 0x01,
    0x0F, 0x10, 0x00, 0x01, 0x00, 0x08, 0x0C, 0x0B, 0x00, 0xFF, 0x00, 0x00, 0x00, 0x00,
    0x0F, 0x11, 0x00, 0x01, 0x00, 0x0A, 0x00, 0x0F, 0x00, 0x04, 0x00, 0x02, 0x6F, 0x00, 0x01, 0x03,
    0x0F, 0x80, 0x00, 0x01, 0x00, 0x00,
];

/// The same epoch goes on, and the region stands a column further to the right.
#[rattlefmt::skip]
const TO_THE_RIGHT: [u8; 20] = [
    0x0F, 0x10, 0x00, 0x01, 0x00, 0x08, 0x0C, 0x13, 0x00, 0xFF, 0x00, 0x01, 0x00, 0x00,
    0x0F, 0x80, 0x00, 0x01, 0x00, 0x00,
];

/// A page that lists the region twice: where it lies inside, and a row too low.
#[rattlefmt::skip]
const LISTED_TWICE: [u8; 26] = [
    0x0F, 0x10, 0x00, 0x01, 0x00, 0x0E, 0x0C, 0x13, 0x00, 0xFF, 0x00, 0x00, 0x00, 0x00,
    0x00, 0xFF, 0x00, 0x00, 0x00, 0x01,
    0x0F, 0x80, 0x00, 0x01, 0x00, 0x00,
];

/// A display of ten columns and rows with a window from (2, 3) to (5, 6), and in its corner region
/// 9 of four columns and rows; an epoch begins with it.
#[rattlefmt::skip]
const WINDOW: [u8; 55] = [
    0x0F, 0x14, 0x00, 0x01, 0x00, 0x0D, 0x0F, 0x00, 0x09, 0x00, 0x09,
    0x00, 0x02, 0x00, 0x05, 0x00, 0x03, 0x00, 0x06,
    0x0F, 0x10, 0x00, 0x01, 0x00, 0x08, 0x0C, 0x0B, 0x09, 0xFF, 0x00, 0x00, 0x00, 0x00,
    0x0F, 0x11, 0x00, 0x01, 0x00, 0x0A, 0x09, 0x0F, 0x00, 0x04, 0x00, 0x04, 0x6F, 0x00, 0x01, 0x03,
    0x0F, 0x80, 0x00, 0x01, 0x00, 0x00,
];

/// The same epoch goes on, and region 9 stands a row lower: inside the display, and not inside its
/// window.
#[rattlefmt::skip]
const BELOW_THE_WINDOW: [u8; 20] = [
    0x0F, 0x10, 0x00, 0x01, 0x00, 0x08, 0x0C, 0x13, 0x09, 0xFF, 0x00, 0x00, 0x00, 0x01,
    0x0F, 0x80, 0x00, 0x01, 0x00, 0x00,
];

/// A page without regions of state normal.
const NORMAL: [u8; 14] = [
    0x0F, 0x10, 0x00, 0x01, 0x00, 0x02, 0x0C, 0x13, 0x0F, 0x80, 0x00, 0x01, 0x00, 0x00,
];

/// A set of page 2.
const OTHER_PAGE: [u8; 14] = [
    0x0F, 0x10, 0x00, 0x02, 0x00, 0x02, 0x0C, 0x0B, 0x0F, 0x80, 0x00, 0x02, 0x00, 0x00,
];

/// A set that has an end and no page.
const NO_PAGE: [u8; 6] = [0x0F, 0x80, 0x00, 0x01, 0x00, 0x00];

/// An object whose top block has the end of a line, and then a sub-block of a type that there is
/// not, at byte 1 of the block and 14 of the segment.
#[rattlefmt::skip]
const UNKNOWN_TYPE: [u8; 29] = [
    0x0F, 0x10, 0x00, 0x01, 0x00, 0x02, 0x0C, 0x0B,
    0x0F, 0x13, 0x00, 0x01, 0x00, 0x09, 0x00, 0x05, 0x00, 0x00, 0x02, 0x00, 0x00, 0xF0, 0x55,
    0x0F, 0x80, 0x00, 0x01, 0x00, 0x00,
];

/// Two pages.
#[rattlefmt::skip]
const TWO_PAGES: [u8; 22] = [
    0x0F, 0x10, 0x00, 0x01, 0x00, 0x02, 0x0C, 0x0B,
    0x0F, 0x10, 0x00, 0x01, 0x00, 0x02, 0x0C, 0x0B,
    0x0F, 0x80, 0x00, 0x01, 0x00, 0x00,
];

/// A page that lists region 5, which is not defined.
#[rattlefmt::skip]
const NO_REGION: [u8; 20] = [
    0x0F, 0x10, 0x00, 0x01, 0x00, 0x08, 0x0C, 0x0B, 0x05, 0xFF, 0x00, 0x00, 0x00, 0x00,
    0x0F, 0x80, 0x00, 0x01, 0x00, 0x00,
];

/// A display of 721 by 576 pixels.
#[rattlefmt::skip]
const LARGE_DISPLAY: [u8; 25] = [
    0x0F, 0x14, 0x00, 0x01, 0x00, 0x05, 0x07, 0x02, 0xD0, 0x02, 0x3F,
    0x0F, 0x10, 0x00, 0x01, 0x00, 0x02, 0x0C, 0x0B,
    0x0F, 0x80, 0x00, 0x01, 0x00, 0x00,
];

/// A region of 720 by 576 pixels of 8 bits.
#[rattlefmt::skip]
const LARGE_REGION: [u8; 36] = [
    0x0F, 0x10, 0x00, 0x01, 0x00, 0x08, 0x0C, 0x0B, 0x00, 0xFF, 0x00, 0x00, 0x00, 0x00,
    0x0F, 0x11, 0x00, 0x01, 0x00, 0x0A, 0x00, 0x0F, 0x02, 0xD0, 0x02, 0x40, 0x6F, 0x00, 0x01, 0x03,
    0x0F, 0x80, 0x00, 0x01, 0x00, 0x00,
];

/// The epoch of FILLED goes on, with a region 0 of five columns under another version.
#[rattlefmt::skip]
const WIDER: [u8; 36] = [
    0x0F, 0x10, 0x00, 0x01, 0x00, 0x08, 0x0C, 0x13, 0x00, 0xFF, 0x00, 0x00, 0x00, 0x00,
    0x0F, 0x11, 0x00, 0x01, 0x00, 0x0A, 0x00, 0x1F, 0x00, 0x05, 0x00, 0x02, 0x6F, 0x00, 0x01, 0x03,
    0x0F, 0x80, 0x00, 0x01, 0x00, 0x00,
];

/// The epoch of FILLED goes on, with a display of five columns under the same version.
#[rattlefmt::skip]
const OTHER_DISPLAY: [u8; 25] = [
    0x0F, 0x14, 0x00, 0x01, 0x00, 0x05, 0x07, 0x00, 0x04, 0x00, 0x01,
    0x0F, 0x10, 0x00, 0x01, 0x00, 0x02, 0x0C, 0x13,
    0x0F, 0x80, 0x00, 0x01, 0x00, 0x00,
];

/// The same at an acquisition point.
#[rattlefmt::skip]
const ENTERED_THERE: [u8; 25] = [
    0x0F, 0x14, 0x00, 0x01, 0x00, 0x05, 0x07, 0x00, 0x04, 0x00, 0x01,
    0x0F, 0x10, 0x00, 0x01, 0x00, 0x02, 0x0C, 0x17,
    0x0F, 0x80, 0x00, 0x01, 0x00, 0x00,
];

/// The epoch of FILLED goes on, with a page without regions and a region of another CLUT, both
/// under the same versions.
#[rattlefmt::skip]
const OTHER_CLUT: [u8; 30] = [
    0x0F, 0x10, 0x00, 0x01, 0x00, 0x02, 0x0C, 0x03,
    0x0F, 0x11, 0x00, 0x01, 0x00, 0x0A, 0x00, 0x0F, 0x00, 0x04, 0x00, 0x02, 0x6F, 0x05, 0x01, 0x03,
    0x0F, 0x80, 0x00, 0x01, 0x00, 0x00,
];

/// The epoch of FILLED goes on, with the same definitions once more; the page is normal.
#[rattlefmt::skip]
const AGAIN: [u8; 47] = [
    0x0F, 0x14, 0x00, 0x01, 0x00, 0x05, 0x07, 0x00, 0x03, 0x00, 0x01,
    0x0F, 0x10, 0x00, 0x01, 0x00, 0x08, 0x0C, 0x03, 0x00, 0xFF, 0x00, 0x00, 0x00, 0x00,
    0x0F, 0x11, 0x00, 0x01, 0x00, 0x0A, 0x00, 0x0F, 0x00, 0x04, 0x00, 0x02, 0x6F, 0x00, 0x01, 0x03,
    0x0F, 0x80, 0x00, 0x01, 0x00, 0x00,
];

/// How a tool ended over a stream in memory.
#[derive(Drop)]
struct Outcome {
    status: ToolStatus<ReportFault>,
    out: MemSink,
    notes: MemSink,
}

/// Carries out `faults` over packets and more bytes, where the source and the sink fail at the
/// calls of these numbers.
fn run<R: Abort>(
    rt: &R,
    alloc: Global,
    text: &str,
    packets: &[[u8; 188]],
    more: &[u8],
    failing: [u64; 2],
) -> Outcome {
    let [bad_read, bad_write] = failing;
    let words = words_of(alloc, text).expect(rt, "memory");
    let mut stream = source_of_packets(alloc, packets, more, 100, bad_read).expect(rt, "memory");
    let mut out = sink_of(alloc, 1_000_000, bad_write).expect(rt, "memory");
    let mut notes = sink_of(alloc, 1_000_000, 0).expect(rt, "memory");
    let status = faults_top(alloc, &words, &mut stream, &mut out, &mut notes);
    Outcome { status, out, notes }
}

/// Two packets, and what is told of them.
#[derive(Drop)]
struct Row {
    packets: [[u8; 188]; 2],
    text: &'static str,
}

/// Carries out `faults` over the packets of each row.
fn tell_rows(rt: &impl Abort, alloc: Global, rows: &[Row]) {
    for row in rows {
        let told = run(rt, alloc, FAULTS, &row.packets, &[], [0, 0]);
        same(rt, told.status, ToolStatus::Done);
        same(rt, told.notes.written(), b"done\n".as_slice());
        same(rt, told.out.written(), row.text.as_bytes());
    }
}

/// What becomes of sets, by hand.
#[test]
fn ends_of_sets(rt: HostRuntime) {
    let alloc = rt.alloc();
    let rows = [
        // Nothing is told of sets that are shown.
        Row {
            packets: [
                set_packet(0, 90_000, &FILLED),
                set_packet(1, 180_000, &NORMAL),
            ],
            text: "sets 2 shown 2 waiting 0 broken 0 notlater 0 lost 0\n",
        },
        // A set that is a tick earlier is not kept, and is told at its time as read.
        Row {
            packets: [
                set_packet(0, 90_000, &FILLED),
                set_packet(1, 89_999, &NORMAL),
            ],
            text: "set 2 89999 notlater\nsets 2 shown 1 waiting 0 broken 0 notlater 1 lost 0\n",
        },
        // Neighbouring units of one time are one set, which has ended with the first of them.
        Row {
            packets: [
                set_packet(0, 90_000, &FILLED),
                set_packet(1, 90_000, &NORMAL),
            ],
            text: "sets 1 shown 1 waiting 0 broken 0 notlater 0 lost 0\n",
        },
        // A packet was lost between the two, and the second waits.
        Row {
            packets: [
                set_packet(0, 90_000, &FILLED),
                set_packet(2, 180_000, &NORMAL),
            ],
            text: "set 2 180000 waiting\nsets 2 shown 1 waiting 1 broken 0 notlater 0 lost 1\n",
        },
        // No epoch is known at first, and behind a set that is broken.
        Row {
            packets: [
                set_packet(0, 90_000, &NORMAL),
                set_packet(1, 180_000, &NO_PAGE),
            ],
            text: "set 1 90000 waiting\nset 2 180000 broken NoPage\n\
                sets 2 shown 0 waiting 1 broken 1 notlater 0 lost 0\n",
        },
        // Sets of another page alone are none.
        Row {
            packets: [
                set_packet(0, 90_000, &OTHER_PAGE),
                set_packet(1, 180_000, &OTHER_PAGE),
            ],
            text: "sets 0 shown 0 waiting 0 broken 0 notlater 0 lost 0\n",
        },
    ];
    tell_rows(&rt, alloc, &rows)
}

/// Why sets are broken, with their numbers.
#[test]
fn broken_sets(rt: HostRuntime) {
    let alloc = rt.alloc();
    let rows = [
        Row {
            packets: [
                set_packet(0, 90_000, &UNKNOWN_TYPE),
                set_packet(1, 180_000, &TWO_PAGES),
            ],
            text: "set 1 90000 broken Segment UnknownType 1 14\n\
                set 2 180000 broken TwiceInSet 10 0\n\
                sets 2 shown 0 waiting 0 broken 2 notlater 0 lost 0\n",
        },
        Row {
            packets: [
                set_packet(0, 90_000, &LARGE_DISPLAY),
                set_packet(1, 180_000, &NO_REGION),
            ],
            text: "set 1 90000 broken DisplayTooLarge 721 576\n\
                set 2 180000 broken NoSuchRegion 5\n\
                sets 2 shown 0 waiting 0 broken 2 notlater 0 lost 0\n",
        },
        // 720 * 576 bytes of pixels, and the receiver has 81,920.
        Row {
            packets: [
                set_packet(0, 90_000, &LARGE_REGION),
                set_packet(1, 180_000, &FILLED),
            ],
            text: "set 1 90000 broken PixelFull 414720 81920\n\
                sets 2 shown 1 waiting 0 broken 1 notlater 0 lost 0\n",
        },
        Row {
            packets: [
                set_packet(0, 90_000, &FILLED),
                set_packet(1, 180_000, &WIDER),
            ],
            text: "set 2 180000 broken RegionChanged 0\n\
                sets 2 shown 1 waiting 0 broken 1 notlater 0 lost 0\n",
        },
    ];
    tell_rows(&rt, alloc, &rows)
}

/// Regions of shown sets that pass an edge of the display, or of its window.
#[test]
fn regions_outside(rt: HostRuntime) {
    let alloc = rt.alloc();
    let rows = [
        Row {
            packets: [
                set_packet(0, 90_000, &FILLED),
                set_packet(1, 180_000, &TO_THE_RIGHT),
            ],
            text: "set 2 180000 shown\noutside 0\n\
                sets 2 shown 2 waiting 0 broken 0 notlater 0 lost 0\n",
        },
        Row {
            packets: [
                set_packet(0, 90_000, &FILLED),
                set_packet(1, 180_000, &LISTED_TWICE),
            ],
            text: "set 2 180000 shown\noutside 0\n\
                sets 2 shown 2 waiting 0 broken 0 notlater 0 lost 0\n",
        },
        Row {
            packets: [
                set_packet(0, 90_000, &WINDOW),
                set_packet(1, 180_000, &BELOW_THE_WINDOW),
            ],
            text: "set 2 180000 shown\noutside 9\n\
                sets 2 shown 2 waiting 0 broken 0 notlater 0 lost 0\n",
        },
    ];
    tell_rows(&rt, alloc, &rows)
}

/// Definitions of shown sets that say something else under the version that they had in the epoch.
#[test]
fn changed_definitions(rt: HostRuntime) {
    let alloc = rt.alloc();
    let none = "sets 2 shown 2 waiting 0 broken 0 notlater 0 lost 0\n";
    let rows = [
        Row {
            packets: [
                set_packet(0, 90_000, &FILLED),
                set_packet(1, 180_000, &OTHER_DISPLAY),
            ],
            text: "set 2 180000 shown\nsameversion 14 0\n\
                sets 2 shown 2 waiting 0 broken 0 notlater 0 lost 0\n",
        },
        Row {
            packets: [
                set_packet(0, 90_000, &FILLED),
                set_packet(1, 180_000, &OTHER_CLUT),
            ],
            text: "set 2 180000 shown\nsameversion 10 0\nsameversion 11 0\n\
                sets 2 shown 2 waiting 0 broken 0 notlater 0 lost 0\n",
        },
        Row {
            packets: [
                set_packet(0, 90_000, &FILLED),
                set_packet(1, 180_000, &AGAIN),
            ],
            text: none,
        },
        // An epoch begins.
        Row {
            packets: [
                set_packet(0, 90_000, &FILLED),
                set_packet(1, 180_000, &WINDOW),
            ],
            text: none,
        },
        // Something was lost, and the display is as if it were the first.
        Row {
            packets: [
                set_packet(0, 90_000, &FILLED),
                set_packet(2, 180_000, &ENTERED_THERE),
            ],
            text: "sets 2 shown 2 waiting 0 broken 0 notlater 0 lost 1\n",
        },
    ];
    tell_rows(&rt, alloc, &rows)
}

/// A packet without the sync byte ends the telling, with what was told before.
#[test]
fn what_ends_the_telling(rt: HostRuntime) {
    let alloc = rt.alloc();
    let first = set_packet(0, 90_000, &NO_PAGE);
    let broken = "set 1 90000 broken NoPage\n";
    let refused = run(&rt, alloc, FAULTS, &[first, [0; 188]], &[], [0, 0]);
    same(
        &rt,
        refused.status,
        ToolStatus::Refused(ReportFault::Stream {
            packet: 1,
            fault: PacketFault::NoSync,
        }),
    );
    same(&rt, refused.notes.written(), b"refused Stream\n".as_slice());
    same(&rt, refused.out.written(), broken.as_bytes());
    let unread = run(&rt, alloc, FAULTS, &[first], &[], [2, 0]);
    same(&rt, unread.status, ToolStatus::ReadFault(Which::First));
    let unwritten = run(&rt, alloc, FAULTS, &[first], &[], [0, 1]);
    same(&rt, unwritten.status, ToolStatus::WriteFault(Which::Out));
    let none = run(&rt, alloc, FAULTS, &[], &[0x47; 9], [0, 0]);
    same(&rt, none.status, ToolStatus::Done);
    let nothing = "sets 0 shown 0 waiting 0 broken 0 notlater 0 lost 0\n";
    same(&rt, none.out.written(), nothing.as_bytes());
}

/// Words that are no command.
#[test]
fn words_that_are_refused(rt: HostRuntime) {
    let alloc = rt.alloc();
    for text in [
        "faults ld 256 1 stream.ts faults.txt",
        "faults sd 31 1 stream.ts faults.txt",
        "faults sd 256 0 stream.ts faults.txt",
        "faults sd 256 1 stream.ts",
        "faults sd 256 1 stream.ts faults.txt 90000",
        "fault sd 256 1 stream.ts faults.txt",
        "faults sd 256 1 -stream.ts faults.txt",
    ] {
        let usage = run(&rt, alloc, text, &[], &[], [1, 1]);
        same(&rt, usage.status, ToolStatus::Usage);
        same(&rt, usage.notes.written(), b"usage\n".as_slice());
    }
}
