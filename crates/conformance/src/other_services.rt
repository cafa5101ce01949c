use crate::failing_streams::whole_of;
use crate::running::{Asked, done, ends_as, reading, run, sound};
use crate::same::same;
use samples::first_run::{FIRST_UNIT, FONT, PICTURES, SCRIPT, SECOND_UNIT};
use samples::streams::packet_of;
use std::alloc::Global;
use std::panic::Expect;
use std::process::Abort;
use std::thread::Threads;
use sub_base::NoMemory;

// What the first run has for PID 256 and page 1, for services at the edges of what words may say.

/// A service: the PID of its packets and the page id of its segments.
#[derive(Clone, Copy)]
struct Service {
    pid: u16,
    page: u16,
}

const SERVICES: [Service; 3] = [
    Service { pid: 32, page: 1 },
    Service {
        pid: 8190,
        page: 65535,
    },
    Service {
        pid: 256,
        page: 65535,
    },
];

/// The unit with the page id in each of its segments, which begin at these places.
fn with_page<const N: usize>(mut unit: [u8; N], places: &[usize], page: u16) -> [u8; N] {
    for place in places {
        for (byte, given) in unit.iter_mut().skip(*place).skip(2).zip(page.to_be_bytes()) {
            *byte = given;
        }
    }
    unit
}

/// The two packets of the first run, as that service has them.
fn stream_of(alloc: Global, service: Service) -> Result<Vec<u8>, NoMemory> {
    let [high, low] = service.pid.to_be_bytes();
    let first = with_page(FIRST_UNIT, &[16, 27, 41, 63, 91], service.page);
    let second = with_page(SECOND_UNIT, &[16, 24], service.page);
    let first = packet_of(&[0x47, 0x40 | high, low, 0x30, 0x55, 0x00], &first);
    let second = packet_of(&[0x47, 0x40 | high, low, 0x31, 0x98, 0x00], &second);
    let mut stream = Vec::from_slice(alloc, &first)?;
    stream.extend_from_slice(&second)?;
    Ok(stream)
}

#[test]
fn a_script_is_compiled_for_any_service(rt: HostRuntime) {
    let alloc = rt.alloc();
    for service in SERVICES {
        let line = format!(in alloc;
            "compile sd {} {} script.csv none out.ts",
            service.pid, service.page
        )
        .expect(&rt, "memory");
        let asked = reading(line.as_str(), SCRIPT.as_bytes());
        let stream = stream_of(alloc, service).expect(&rt, "memory");
        ends_as(&rt, alloc, &asked, sound(1_000), done(stream.as_slice()));
    }
}

#[test]
fn a_stream_is_told_for_any_service(rt: HostRuntime) {
    let alloc = rt.alloc();
    for service in SERVICES {
        let Service { pid, page } = service;
        let stream = stream_of(alloc, service).expect(&rt, "memory");
        let list = format!(in alloc; "list {pid} in.ts out.txt").expect(&rt, "memory");
        let lines = format!(in alloc;
            "unit 0 pts 90000 length 98\n\
             segment 2 14 {page} 5\n\
             segment 13 10 {page} 8\n\
             segment 27 11 {page} 16\n\
             segment 49 13 {page} 22\n\
             segment 77 80 {page} 0\n\
             unit 1 pts 180000 length 31\n\
             segment 2 10 {page} 2\n\
             segment 10 80 {page} 0\n"
        )
        .expect(&rt, "memory");
        let dump = format!(in alloc; "dump sd {pid} {page} 2 in.ts out.txt 90000 180000").expect(
            &rt, "memory",
        );
        let check = format!(in alloc; "check sd 0 {pid} {page} in.ts out.txt").expect(
            &rt, "memory",
        );
        let checked = "set 90000 shown 98 99\nset 180000 shown 31 90031\npeak 98\nbreach none\n";
        for (line, text) in [
            (list.as_str(), lines.as_str()),
            (dump.as_str(), PICTURES),
            (check.as_str(), checked),
        ] {
            let asked = reading(line, stream.as_slice());
            ends_as(&rt, alloc, &asked, sound(1_000), done(text.as_bytes()));
        }
    }
}

/// A cue of two lines of text.
const SCRIPT_OF_TEXT: &str = "origin,0\n\
     display,20,8\n\
     refresh,5\n\
     epoch,90000\n\
     region,0,0,0,20,8,4,0\n\
     cue,90000,180000,0,0,0,1,0,\"A\nAA\"\n";

/// A page id that no service has, for what a pair of scripts sends for both.
const SHARED_PAGE: u16 = 65_000;

/// What is compiled of the script is what the tool puts out of it, as all its records are there at
/// once.
fn is_sent_live<R: Threads + Sync + Abort>(
    rt: &R,
    alloc: Global,
    words: &str,
    script: &str,
    font: &str,
) {
    let compile = format!(in alloc; "compile {words} out.ts").expect(rt, "memory");
    let live = format!(in alloc; "live {words} out.ts").expect(rt, "memory");
    let asked = Asked {
        line: compile.as_str(),
        first: script.as_bytes(),
        second: font.as_bytes(),
    };
    let compiled = run(rt, alloc, &asked, sound(100_000));
    same(rt, compiled.code, 0);
    let asked = Asked {
        line: live.as_str(),
        ..asked
    };
    ends_as(
        rt,
        alloc,
        &asked,
        sound(100_000),
        done(compiled.out.written()),
    )
}

#[test]
fn a_script_is_sent_live_for_any_service(rt: HostRuntime) {
    let alloc = rt.alloc();
    for profile in ["sd", "hd", "large"] {
        for Service { pid, page } in SERVICES {
            let words = format!(in alloc; "{profile} {pid} {page} script.csv none").expect(
                &rt, "memory",
            );
            is_sent_live(&rt, alloc, words.as_str(), SCRIPT, "");
        }
    }
    is_sent_live(
        &rt,
        alloc,
        "sd 256 1 script.csv font.bdf",
        SCRIPT_OF_TEXT,
        FONT,
    )
}

/// A stream joined with itself has its packets twice.
#[test]
fn streams_are_joined_for_any_service(rt: HostRuntime) {
    let alloc = rt.alloc();
    for (profile, service) in ["sd", "hd", "large"].into_iter().zip(SERVICES) {
        let Service { pid, page } = service;
        let line = format!(in alloc;
            "splice {profile} {pid} {page} 0 270000 a.ts a.ts out.ts"
        ).expect(&rt, "memory");
        let stream = stream_of(alloc, service).expect(&rt, "memory");
        let asked = Asked {
            line: line.as_str(),
            first: stream.as_slice(),
            second: stream.as_slice(),
        };
        let _ = whole_of(&rt, alloc, &asked, 752);
    }
}

/// Both scripts' sets are in the same two packets, whatever the service.
#[test]
fn scripts_are_paired_for_any_service(rt: HostRuntime) {
    let alloc = rt.alloc();
    for (profile, service) in ["sd", "hd", "large"].into_iter().zip(SERVICES) {
        let Service { pid, page } = service;
        let line = format!(in alloc;
            "pair {profile} {pid} {page} {} {SHARED_PAGE} a.csv b.csv out.ts",
            page.wrapping_add(2)
        )
        .expect(&rt, "memory");
        let asked = Asked {
            line: line.as_str(),
            first: SCRIPT.as_bytes(),
            second: SCRIPT.as_bytes(),
        };
        let _ = whole_of(&rt, alloc, &asked, 376);
    }
}

// Many sets, each with a picture of its own.

const MANY: u64 = 18;

/// The colours of the codes 1, 2 and 3 of 8 bits where no colour is sent.
const COLOURS: [&str; 3] = ["51F05AC0", "912236C0", "D29210C0"];

/// Four codes from 1 to 3: no two numbers below 81 have the same.
fn codes_of(number: u64) -> [u64; 4] {
    [
        number / 27 % 3 + 1,
        number / 9 % 3 + 1,
        number / 3 % 3 + 1,
        number % 3 + 1,
    ]
}

/// Puts out a run of so many pixels of a code, as a picture's text has it.
fn put_run(alloc: Global, text: &mut String, count: u64, code: u64) -> Result<(), NoMemory> {
    let colour = COLOURS
        .get(code.saturating_sub(1) as usize)
        .copied()
        .unwrap_or("");
    text.push_str(format!(in alloc; "{count}*{colour}")?.as_str())?;
    Ok(())
}

/// Puts out the row of these codes: runs of one colour, with a space between two of them.
fn put_row(alloc: Global, text: &mut String, codes: [u64; 4]) -> Result<(), NoMemory> {
    let mut last = 0;
    let mut count = 0u64;
    for code in &codes {
        if count > 0 && *code != last {
            put_run(alloc, text, count, last)?;
            text.push_str(" ")?;
            count = 0;
        }
        last = *code;
        count = count.saturating_add(1);
    }
    put_run(alloc, text, count, last)?;
    text.push_str("\n")?;
    Ok(())
}

#[test]
fn many_pictures_are_sent_and_shown(rt: HostRuntime) {
    let alloc = rt.alloc();
    let mut script = String::new(alloc);
    let mut places = String::new(alloc);
    let mut dump = String::new(alloc);
    let mut shown = String::new(alloc);
    script
        .push_str("origin,0\ndisplay,4,2\nrefresh,60\nepoch,90000\nregion,0,0,0,4,2,8,0\n")
        .expect(&rt, "memory");
    dump.push_str("dump large 256 1 2 in.ts out.txt")
        .expect(&rt, "memory");
    for number in 0..MANY {
        let codes = codes_of(number);
        let [a, b, c, d] = codes;
        let start = 90_000 + 270_000 * number;
        let end = start + 180_000;
        script
            .push_str(
                format!(in alloc; "picture,p{number},8,4,2,0{a}0{b}0{c}0{d}03030303\n")
                    .expect(&rt, "memory")
                    .as_str(),
            )
            .expect(&rt, "memory");
        places
            .push_str(
                format!(in alloc; "place,{start},{end},0,0,0,solid,p{number}\n")
                    .expect(&rt, "memory")
                    .as_str(),
            )
            .expect(&rt, "memory");
        dump.push_str(
            format!(in alloc; " {start} {end}")
                .expect(&rt, "memory")
                .as_str(),
        )
        .expect(&rt, "memory");
        shown
            .push_str(
                format!(in alloc; "picture {start} 4 2\n")
                    .expect(&rt, "memory")
                    .as_str(),
            )
            .expect(&rt, "memory");
        put_row(alloc, &mut shown, codes).expect(&rt, "memory");
        shown
            .push_str(
                format!(in alloc; "4*D29210C0\npicture {end} clear\n")
                    .expect(&rt, "memory")
                    .as_str(),
            )
            .expect(&rt, "memory");
    }
    script.push_str(places.as_str()).expect(&rt, "memory");
    let compile = reading(
        "compile large 256 1 script.csv none out.ts",
        script.as_bytes(),
    );
    let sent = run(&rt, alloc, &compile, sound(100_000));
    same(&rt, sent.notes.written(), b"done\n".as_slice());
    let asked = Asked {
        line: dump.as_str(),
        first: sent.out.written(),
        second: &[],
    };
    ends_as(&rt, alloc, &asked, sound(100_000), done(shown.as_bytes()))
}

// Numbers that another program, without any code of this one, reckoned of generated scripts.

#[test]
fn scripts_of_other_lengths_are_generated(rt: HostRuntime) {
    for (line, text) in [
        (
            "gen 17 hd entries.txt",
            "sets 34\npackets 3426\npeak 6106\n\
             entry 0 180000\nentry 1142 1080000\nentry 2284 1530000\n",
        ),
        (
            "gen 100 sd entries.txt",
            "sets 200\npackets 12563\npeak 6106\n\
             entry 0 180000\nentry 4187 3510000\nentry 8375 6390000\n",
        ),
    ] {
        ends_as(
            &rt,
            rt.alloc(),
            &reading(line, &[]),
            sound(100_000),
            done(text.as_bytes()),
        );
    }
}
