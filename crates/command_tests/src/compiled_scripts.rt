use crate::same::same;
use dvbsub_cmd::{Status, top};
use samples::first_run::{FIRST_UNIT, SECOND_UNIT};
use samples::words_of;
use std::alloc::Global;
use std::panic::Expect;
use std::process::Abort;
use std::thread::Threads;
use sub_base::{MemSink, MemSource, NoGate, NoMemory};

/// A font of the letter H, 10 by 20 pixels in a box of 12 by 24.
const LETTER_FONT: &str =
    "STARTFONT 2.1\nFONTBOUNDINGBOX 12 24 0 -4\nSTARTCHAR H\nENCODING 72\nDWIDTH 12 0\n\
     BBX 10 20 1 0\nBITMAP\nC0C0\nC0C0\nC0C0\nC0C0\nC0C0\nC0C0\nC0C0\nC0C0\nC0C0\nFFC0\nFFC0\n\
     C0C0\nC0C0\nC0C0\nC0C0\nC0C0\nC0C0\nC0C0\nC0C0\nC0C0\nENDCHAR\nENDFONT\n";

/// Two lines of thirty letters near the lower edge of the display, for four seconds.
const SIXTY_LETTERS: &str = "origin,0\n\
     display,720,576\n\
     refresh,5\n\
     epoch,900000\n\
     region,0,0,480,720,80,4,0\n\
     cue,900000,1260000,0,180,16,7,0,\"HHHHHHHHHHHHHHHHHHHHHHHHHHHHHH\n\
     HHHHHHHHHHHHHHHHHHHHHHHHHHHHHH\"\n";

/// Two epochs with the same cue.
pub(crate) const TWO_EPOCHS: &str = "origin,0\n\
     display,4,2\n\
     refresh,5\n\
     epoch,90000\n\
     region,0,0,0,4,2,8,0\n\
     picture,a,8,4,2,0102020203030303\n\
     place,90000,180000,0,0,0,solid,a\n\
     epoch,270000\n\
     region,0,0,0,4,2,8,0\n\
     place,270000,360000,0,0,0,solid,a\n";

/// A cue of forty seconds, whose page is sent again each five seconds.
pub(crate) const FORTY_SECONDS: &str = "origin,0\n\
     display,4,2\n\
     refresh,5\n\
     epoch,90000\n\
     region,0,0,0,4,2,8,0\n\
     picture,a,8,4,2,0102020203030303\n\
     place,90000,3690000,0,0,0,solid,a\n";

/// A cue whose start passes 33 bits.
const BEHIND_THE_WRAP: &str = "origin,8589844592\n\
     display,4,2\n\
     refresh,5\n\
     epoch,8589934592\n\
     region,0,0,0,4,2,8,0\n\
     picture,a,8,4,2,0102020203030303\n\
     place,8589934592,8590024592,0,0,0,solid,a\n";

/// What a source, the font's source and `out` hold.
#[derive(Drop)]
pub(crate) struct Outcome {
    pub status: Status,
    pub out: MemSink,
    pub notes: MemSink,
}

/// Runs the command over the script and the font.
pub(crate) fn run<R: Threads + Sync + Abort>(
    rt: &R,
    alloc: Global,
    line: &str,
    script: &str,
    font: &str,
) -> Outcome {
    let words = words_of(alloc, line).expect(rt, "memory");
    let text = Vec::from_slice(alloc, script.as_bytes()).expect(rt, "memory");
    let letters = Vec::from_slice(alloc, font.as_bytes()).expect(rt, "memory");
    let mut first = MemSource::make(alloc, text, 4_096, Vec::new(alloc));
    let mut second = MemSource::make(alloc, letters, 4_096, Vec::new(alloc));
    let mut out = MemSink::make(alloc, 65_536, Vec::new(alloc));
    let mut notes = MemSink::make(alloc, 64, Vec::new(alloc));
    let status = top(
        rt,
        alloc,
        &words,
        &mut first,
        &mut second,
        &mut out,
        &mut notes,
        &NoGate,
    );
    Outcome { status, out, notes }
}

/// The numbers of the first and the last packet of the PID 256, and how many there are.
fn packets_of_256(stream: &[u8]) -> (usize, usize, usize) {
    let (packets, _) = stream.as_chunks::<188>();
    let mut first = packets.len();
    let mut last = 0;
    let mut count = 0usize;
    for (number, packet) in packets.iter().enumerate() {
        if packet[1] % 32 == 1 && packet[2] == 0 {
            first = first.min(number);
            last = number;
            count = count.saturating_add(1);
        }
    }
    (first, last, count)
}

/// A script with its font is compiled in each profile: 28 packets as early as five seconds before
/// the cue, and one for its end.
#[test]
fn sixty_letters_in_each_profile(rt: HostRuntime) {
    let cases = [
        ("compile sd 256 1 script.csv font.bdf out.ts", 639, 1_149),
        ("compile hd 256 1 script.csv font.bdf out.ts", 1_250, 2_250),
    ];
    for (line, first, last) in cases {
        let done = run(&rt, rt.alloc(), line, SIXTY_LETTERS, LETTER_FONT);
        same(&rt, done.status, Status::Done { cut: 0 });
        same(&rt, done.notes.written(), b"done\n".as_slice());
        assert_eq!(rt; done.out.written().len(), 188 * (last + 1));
        same(&rt, packets_of_256(done.out.written()), (first, last, 29));
    }
}

/// The last bytes of the packet with that number, but with another presentation time in the unit.
fn ends_with(stream: &[u8], number: usize, unit: &[u8], time: [u8; 5]) -> bool {
    let (packets, _) = stream.as_chunks::<188>();
    let Some(packet) = packets.get(number) else {
        return false;
    };
    if unit.len() < 14 || unit.len() > 184 {
        return false;
    }
    let carried = &packet[188 - unit.len()..];
    let head = &carried[..9] == &unit[..9];
    let times = &carried[9..14] == time.as_slice();
    head && times && &carried[14..] == &unit[14..]
}

pub(crate) const COMPILE: &str = "compile sd 256 1 script.csv none out.ts";

/// The second epoch has the units of the first, but for their times and the versions of their
/// pages, which are 2 and 3: the highest four bits of the byte behind the time-out.
#[test]
fn epochs_follow_each_other(rt: HostRuntime) {
    let done = run(&rt, rt.alloc(), COMPILE, TWO_EPOCHS, "");
    same(&rt, done.status, Status::Done { cut: 0 });
    let stream = done.out.written();
    assert_eq!(rt; stream.len(), 4 * 188);
    assert!(rt; ends_with(stream, 0, &FIRST_UNIT, [0x21, 0x00, 0x05, 0xBF, 0x21]));
    assert!(rt; ends_with(stream, 1, &SECOND_UNIT, [0x21, 0x00, 0x0B, 0x7E, 0x41]));
    let (mut third, mut fourth) = (FIRST_UNIT, SECOND_UNIT);
    third[34] = 0x2B;
    fourth[23] = 0x33;
    assert!(rt; ends_with(stream, 2, &third, [0x21, 0x00, 0x11, 0x3D, 0x61]));
    assert!(rt; ends_with(stream, 3, &fourth, [0x21, 0x00, 0x15, 0xFC, 0x81]));
}

/// Nine sets: the start, a refresh each five seconds, and the end.
#[test]
fn long_cues_are_refreshed(rt: HostRuntime) {
    let done = run(&rt, rt.alloc(), COMPILE, FORTY_SECONDS, "");
    same(&rt, done.status, Status::Done { cut: 0 });
    assert_eq!(rt; done.out.written().len(), 4_597 * 188);
    same(&rt, packets_of_256(done.out.written()), (0, 4_596, 9));
}

/// The times of the packets are those of the script modulo 2^33.
#[test]
fn programmes_pass_33_bits(rt: HostRuntime) {
    let done = run(&rt, rt.alloc(), COMPILE, BEHIND_THE_WRAP, "");
    same(&rt, done.status, Status::Done { cut: 0 });
    let stream = done.out.written();
    assert_eq!(rt; stream.len(), 2 * 188);
    assert!(rt; ends_with(stream, 0, &FIRST_UNIT, [0x21, 0x00, 0x01, 0x00, 0x01]));
    assert!(rt; ends_with(stream, 1, &SECOND_UNIT, [0x21, 0x00, 0x05, 0xBF, 0x21]));
    let line = "expect script.csv none out.txt 8589934591 8589934592 8590024592";
    let shown = run(&rt, rt.alloc(), line, BEHIND_THE_WRAP, "");
    same(
        &rt,
        shown.out.written(),
        b"picture 8589934591 clear\n\
          picture 8589934592 4 2\n\
          1*51F05AC0 3*912236C0\n\
          4*D29210C0\n\
          picture 8590024592 clear\n"
            .as_slice(),
    );
}

/// The second picture lets code 1 be seen through.
pub(crate) const SEE_THROUGH: &str = "origin,0\n\
     display,4,1\n\
     refresh,5\n\
     epoch,90000\n\
     region,0,0,0,4,1,4,0\n\
     picture,a,4,4,1,2222\n\
     picture,b,4,4,1,1134\n\
     place,90000,270000,0,0,0,solid,a\n\
     place,135000,270000,0,0,0,through,b\n";

#[test]
fn authored_pictures(rt: HostRuntime) {
    let line = "expect script.csv none out.txt 90000 135000 270000";
    let shown = run(&rt, rt.alloc(), line, SEE_THROUGH, "");
    same(&rt, shown.status, Status::Done { cut: 0 });
    same(
        &rt,
        shown.out.written(),
        b"picture 90000 4 1\n\
          4*91223600\n\
          picture 135000 4 1\n\
          2*91223600 1*D2921000 1*296EF000\n\
          picture 270000 clear\n"
            .as_slice(),
    );
    let line = "expect script.csv none out.txt 90000 180000";
    let shown = run(&rt, rt.alloc(), line, TWO_EPOCHS, "");
    same(
        &rt,
        shown.out.written(),
        b"picture 90000 4 2\n1*51F05AC0 3*912236C0\n4*D29210C0\npicture 180000 clear\n".as_slice(),
    );
}

/// A font of the letter H, two by two pixels.
const SMALL_FONT: &str = "STARTFONT 2.1\n\
     FONTBOUNDINGBOX 2 2 0 0\n\
     STARTCHAR H\n\
     ENCODING 72\n\
     DWIDTH 2 0\n\
     BBX 2 2 0 0\n\
     BITMAP\n\
     80\n\
     C0\n\
     ENDCHAR\n\
     ENDFONT\n";

/// Two epochs of texts.
const TEXTS: &str = "origin,0\n\
     display,4,2\n\
     refresh,5\n\
     epoch,90000\n\
     region,0,0,0,4,2,8,0\n\
     cue,90000,180000,0,0,0,2,3,HH\n\
     epoch,270000\n\
     region,0,0,0,4,2,8,0\n\
     cue,270000,360000,0,0,0,3,2,HH\n";

/// The letters of both epochs, in their ink on their background.
#[test]
fn authored_texts(rt: HostRuntime) {
    let line = "expect script.csv font.bdf out.txt 90000 180000 270000";
    let shown = run(&rt, rt.alloc(), line, TEXTS, SMALL_FONT);
    same(&rt, shown.status, Status::Done { cut: 0 });
    same(
        &rt,
        shown.out.written(),
        b"picture 90000 4 2\n\
          1*912236C0 1*D29210C0 1*912236C0 1*D29210C0\n\
          4*912236C0\n\
          picture 180000 clear\n\
          picture 270000 4 2\n\
          1*D29210C0 1*912236C0 1*D29210C0 1*912236C0\n\
          4*D29210C0\n"
            .as_slice(),
    );
}

/// A script of two epochs with pictures, a colour and refreshes, and, where there is a font, a
/// text.
fn mixed_script(alloc: Global, has_font: bool) -> Result<String, NoMemory> {
    let mut script = String::from_str(
        alloc,
        "origin,450000\n\
         display,720,576\n\
         refresh,5\n\
         epoch,900000\n\
         region,0,0,480,720,80,4,3\n\
         region,1,0,100,8,2,8,0\n\
         picture,a,8,4,2,0102020203030303\n\
         place,900000,1800000,1,0,0,solid,a\n",
    )?;
    if has_font {
        script.push_str("cue,900000,1350000,0,180,16,7,0,HH\n")?;
    }
    script.push_str(
        "colour,900000,3,4,7,81,90,240,0\n\
         epoch,2700000\n\
         region,0,0,100,8,2,8,0\n\
         place,2700000,3150000,0,0,0,solid,a\n",
    )?;
    Ok(script)
}

/// In each profile, with a font and without one: five sets, each of which begins at the first slot
/// from five seconds before its time on. The second is the end of the text, and where there is no
/// font a refresh; in the pause before the second epoch none is sent.
#[test]
fn mixed_scripts_in_each_profile(rt: HostRuntime) {
    let alloc = rt.alloc();
    let cases = [
        ("sd", [0, 639, 1_277, 2_554, 3_192]),
        ("hd", [0, 1_250, 2_500, 5_000, 6_250]),
        ("large", [0, 5_000, 10_000, 20_000, 25_000]),
    ];
    for (profile, slots) in cases {
        for (font, text) in [("none", ""), ("font.bdf", LETTER_FONT)] {
            let line = format!(in alloc; "compile {profile} 256 1 script.csv {font} out.ts").expect(
                &rt, "memory",
            );
            let script = mixed_script(alloc, font != "none").expect(&rt, "memory");
            let done = run(&rt, alloc, &line, &script, text);
            same(&rt, done.status, Status::Done { cut: 0 });
            same(&rt, done.notes.written(), b"done\n".as_slice());
            same(
                &rt,
                unit_starts(alloc, done.out.written())
                    .expect(&rt, "memory")
                    .as_slice(),
                slots.as_slice(),
            );
        }
    }
}

/// A script that sets every entry of two CLUTs at its epoch's start.
fn script_of_colours(alloc: Global) -> Result<String, NoMemory> {
    let mut script = String::from_str(
        alloc,
        "origin,0\ndisplay,4,2\nrefresh,5\nepoch,900000\nregion,0,0,0,4,2,8,0\n",
    )?;
    for clut in 0..2 {
        for (depth, count) in [(2, 4), (4, 16), (8, 256)] {
            for entry in 0..count {
                let row = format!(in alloc; "colour,900000,{clut},{depth},{entry},16,128,128,0\n")?;
                script.push_str(&row)?;
            }
        }
    }
    Ok(script)
}

/// Scripts that a plan or a schedule refuses, and the lines that say so. Nothing is written.
#[test]
fn plans_and_schedules_that_are_refused(rt: HostRuntime) {
    let early = "origin,0\ndisplay,4,2\nrefresh,5\nepoch,58\nregion,0,0,0,4,2,8,0\n";
    let wide = "origin,0\ndisplay,720,576\nrefresh,5\nepoch,900000\nregion,0,0,0,720,576,2,0\n";
    let colours = script_of_colours(rt.alloc()).expect(&rt, "memory");
    let cases = [
        (early, "schedule Late 4 59 58\n"),
        (wide, "plan PixelFull 4 103680\n"),
        (colours.as_str(), "plan CompositionFull 4 555\n"),
    ];
    for (script, note) in cases {
        let refused = run(&rt, rt.alloc(), COMPILE, script, "");
        same(&rt, refused.notes.written(), note.as_bytes());
        same(&rt, refused.out.written(), b"".as_slice());
        same(&rt, refused.status.code(), 3);
    }
}

/// A script of full high definition that shows a picture of that height at each of these columns.
/// The picture's two codes change from pixel to pixel, so that each of its rows of 196 pixels has
/// 200 bytes.
fn script_of_large_pictures(
    alloc: Global,
    height: u16,
    columns: &[u16],
) -> Result<String, NoMemory> {
    let mut script = String::from_str(
        alloc,
        "origin,0\ndisplay,1920,1080\nrefresh,5\nepoch,500000\nregion,0,0,0,1920,1080,8,0\n",
    )?;
    script.push_str(&format!(in alloc; "picture,a,8,196,{height},")?)?;
    for y in 0..height {
        for x in 0..196u16 {
            script.push_str(if x % 2 == y % 2 { "01" } else { "02" })?;
        }
    }
    script.push_str("\n")?;
    for x in columns {
        script.push_str(&format!(in alloc; "place,500000,900000,0,{x},0,solid,a\n")?)?;
    }
    Ok(script)
}

/// The slots of the packets of a stream with which units of the PID 256 start.
fn unit_starts(alloc: Global, packets: &[u8]) -> Result<Vec<usize>, NoMemory> {
    let mut starts = Vec::new(alloc);
    for slot in 0..packets.len() / 188 {
        if packets[slot * 188 + 1] == 0x41 {
            starts.push(slot)?;
        }
    }
    Ok(starts)
}

/// Three objects of 60,014 bytes are sent in three PES packets of 327 packets each, and one of
/// 65,614 bytes in none.
#[test]
fn sets_of_several_packets(rt: HostRuntime) {
    let alloc = rt.alloc();
    let line = "compile large 256 1 script.csv none out.ts";
    let script = script_of_large_pictures(alloc, 300, &[0, 200, 400]).expect(&rt, "memory");
    let sent = run(&rt, alloc, line, &script, "");
    same(&rt, sent.status, Status::Done { cut: 0 });
    assert_eq!(rt; sent.out.written().len(), 5_001 * 188);
    same(
        &rt,
        unit_starts(alloc, sent.out.written())
            .expect(&rt, "memory")
            .as_slice(),
        [556, 883, 1_210, 5_000].as_slice(),
    );

    let script = script_of_large_pictures(alloc, 328, &[0]).expect(&rt, "memory");
    let refused = run(&rt, alloc, line, &script, "");
    same(
        &rt,
        refused.notes.written(),
        b"schedule SegmentFull 4 65614\n".as_slice(),
    );
    same(&rt, refused.out.written(), b"".as_slice());
    same(&rt, refused.status.code(), 3);
}
