use crate::streams::{packet_of, stream_of};
use std::alloc::Global;
use sub_base::NoMemory;

/// One cue of one picture of 8 bits, from 90000 to 180000.
pub const SCRIPT: &str = "origin,0\n\
     display,4,2\n\
     refresh,5\n\
     epoch,90000\n\
     region,0,0,0,4,2,8,0\n\
     picture,a,8,4,2,0102020203030303\n\
     place,90000,180000,0,0,0,solid,a\n";

pub const COMPILE: &str = "compile sd 256 1 script.csv none out.ts";

pub const EXPECT: &str = "expect script.csv none out.txt 90000 180000";

pub const LIST: &str = "list 256 in.ts out.txt";

pub const DUMP: &str = "dump sd 256 1 2 in.ts out.txt 90000 180000";

pub const CHECK: &str = "check sd 0 256 1 in.ts out.txt";

/// The script's first set, which ends its packet.
#[rattlefmt::skip]
pub const FIRST_UNIT: [u8; 98] = [
    0x00, 0x00, 0x01, 0xBD, 0x00, 0x5C, 0x84, 0x80, 0x05, 0x21, 0x00, 0x05, 0xBF, 0x21, 0x20, 0x00,
    0x0F, 0x14, 0x00, 0x01, 0x00, 0x05, 0x07, 0x00, 0x03, 0x00, 0x01, 0x0F, 0x10, 0x00, 0x01, 0x00,
    0x08, 0x0C, 0x0B, 0x00, 0xFF, 0x00, 0x00, 0x00, 0x00, 0x0F, 0x11, 0x00, 0x01, 0x00, 0x10, 0x00,
    0x0F, 0x00, 0x04, 0x00, 0x02, 0x6F, 0x00, 0x00, 0x03, 0x00, 0x00, 0x00, 0x00, 0xF0, 0x00, 0x0F,
    0x13, 0x00, 0x01, 0x00, 0x16, 0x00, 0x00, 0x01, 0x00, 0x08, 0x00, 0x07, 0x12, 0x01, 0x00, 0x83,
    0x02, 0x00, 0x00, 0xF0, 0x12, 0x00, 0x84, 0x03, 0x00, 0x00, 0xF0, 0x0F, 0x80, 0x00, 0x01, 0x00,
    0x00, 0xFF,
];

/// Its second set: a page without regions.
#[rattlefmt::skip]
pub const SECOND_UNIT: [u8; 31] = [
    0x00, 0x00, 0x01, 0xBD, 0x00, 0x19, 0x84, 0x80, 0x05, 0x21, 0x00, 0x0B, 0x7E, 0x41, 0x20, 0x00,
    0x0F, 0x10, 0x00, 0x01, 0x00, 0x02, 0x0C, 0x13, 0x0F, 0x80, 0x00, 0x01, 0x00, 0x00, 0xFF,
];

pub const FIRST_HEAD: [u8; 6] = [0x47, 0x41, 0x00, 0x30, 0x55, 0x00];

pub const SECOND_HEAD: [u8; 6] = [0x47, 0x41, 0x00, 0x31, 0x98, 0x00];

/// The second packet with its counter raised by two.
pub const LATER_HEAD: [u8; 6] = [0x47, 0x41, 0x00, 0x33, 0x98, 0x00];

/// The second packet with another byte in place of its sync byte.
pub const UNSYNCED_HEAD: [u8; 6] = [0x48, 0x41, 0x00, 0x31, 0x98, 0x00];

/// The head of a packet of the unit that a usual encoder makes.
pub const ENCODER_HEAD: [u8; 6] = [0x47, 0x41, 0x00, 0x30, 0x63, 0x00];

/// The two packets that the script is compiled to.
pub fn stream(alloc: Global) -> Result<Vec<u8>, NoMemory> {
    let first = packet_of(&FIRST_HEAD, &FIRST_UNIT);
    let second = packet_of(&SECOND_HEAD, &SECOND_UNIT);
    stream_of(alloc, first, second, &[])
}

/// What is shown at both ticks.
pub const PICTURES: &str =
    "picture 90000 4 2\n1*51F05AC0 3*912236C0\n4*D29210C0\npicture 180000 clear\n";

/// What is shown at the first tick alone.
pub const PICTURE: &str = "picture 90000 4 2\n1*51F05AC0 3*912236C0\n4*D29210C0\n";

pub const CLEAR_PICTURES: &str = "picture 90000 clear\npicture 180000 clear\n";

/// The lines of the first packet.
pub const FIRST_LINES: &str = "unit 0 pts 90000 length 98\n\
     segment 2 14 1 5\n\
     segment 13 10 1 8\n\
     segment 27 11 1 16\n\
     segment 49 13 1 22\n\
     segment 77 80 1 0\n";

/// The lines of both.
pub const BOTH_LINES: &str = "unit 0 pts 90000 length 98\n\
     segment 2 14 1 5\n\
     segment 13 10 1 8\n\
     segment 27 11 1 16\n\
     segment 49 13 1 22\n\
     segment 77 80 1 0\n\
     unit 1 pts 180000 length 31\n\
     segment 2 10 1 2\n\
     segment 10 80 1 0\n";

/// The line of the first set.
pub const FIRST_SET: &str = "set 90000 shown 98 99\n";

/// The lines of both.
pub const BOTH_SETS: &str = "set 90000 shown 98 99\nset 180000 shown 31 90031\n";

/// All that is told of the first packet alone, and of both.
pub const FIRST_CHECKED: &str = "set 90000 shown 98 99\npeak 98\nbreach none\n";

pub const BOTH_CHECKED: &str =
    "set 90000 shown 98 99\nset 180000 shown 31 90031\npeak 98\nbreach none\n";

/// A font of one letter.
pub const FONT: &str = "STARTFONT 2.1\n\
     FONTBOUNDINGBOX 3 4 0 -1\n\
     STARTCHAR A\n\
     ENCODING 65\n\
     DWIDTH 3 0\n\
     BBX 2 3 0 0\n\
     BITMAP\n\
     40\n\
     C0\n\
     40\n\
     ENDCHAR\n\
     ENDFONT\n";

pub const COMPILE_WITH_FONT: &str = "compile sd 256 1 script.csv font.bdf out.ts";

pub const EXPECT_WITH_FONT: &str = "expect script.csv font.bdf out.txt 90000 180000";
