use crate::running::{done, ends_as, reading, run, sound};
use crate::same::same;
use samples::first_run::{CHECK, COMPILE};
use samples::streams::{ENCODER_UNIT, Sent, encoder_segments, put_unit};
use std::alloc::Global;
use std::panic::Expect;
use sub_base::NoMemory;

/// The encoder's unit so many times, with following counters.
fn one_unit_often(alloc: Global, count: u32) -> Result<Vec<u8>, NoMemory> {
    let mut sent = Sent::new(Vec::new(alloc));
    for _ in 0..count {
        sent.push(&ENCODER_UNIT)?;
    }
    Ok(sent.stream)
}

/// One set comes of a thousand units of one time: the others are behind its end, and their bytes
/// leave as they have come.
#[test]
fn one_time_a_thousand_times(rt: HostRuntime) {
    let alloc = rt.alloc();
    let stream = one_unit_often(alloc, 1_000).expect(&rt, "memory");
    let checked = done(b"set 90000 shown 84 85\npeak 84\nbreach none\n");
    ends_as(
        &rt,
        alloc,
        &reading(CHECK, stream.as_slice()),
        sound(10_000),
        checked,
    )
}

/// The encoder's set so many times, each a tick before the one before it.
fn times_back(alloc: Global, count: u32) -> Result<Vec<u8>, NoMemory> {
    let mut sent = Sent::new(Vec::new(alloc));
    let mut unit = Vec::new(alloc);
    for back in 0..u64::from(count) {
        put_unit(
            &mut unit,
            90_000u64.saturating_sub(back),
            encoder_segments(),
        )?;
        sent.push(unit.as_slice())?;
    }
    Ok(sent.stream)
}

/// The first set alone is kept. Each other one is told with the tick of its packet, as it is
/// dropped then.
#[test]
fn times_that_go_back(rt: HostRuntime) {
    let alloc = rt.alloc();
    let stream = times_back(alloc, 1_000).expect(&rt, "memory");
    let mut text = String::from_str(alloc, "set 90000 shown 84 85\n").expect(&rt, "memory");
    for back in 1..1_000u64 {
        let pts = 90_000u64.saturating_sub(back);
        let tick = back.saturating_mul(705);
        text.push_str(&format!(in alloc; "set {pts} notlater 84 {tick}\n").expect(&rt, "memory"))
            .expect(&rt, "memory");
    }
    text.push_str("peak 84\nbreach none\n")
        .expect(&rt, "memory");
    let asked = reading(CHECK, stream.as_slice());
    ends_as(&rt, alloc, &asked, sound(10_000), done(text.as_bytes()))
}

/// The tick at which the cue of a number starts.
fn start_of(number: u64) -> u64 {
    number.saturating_mul(90_000).saturating_add(90_000)
}

/// So many cues, each of a second, of two pictures in turn.
fn cues_in_turn(alloc: Global, count: u64) -> Result<String, NoMemory> {
    let mut script = String::from_str(
        alloc,
        "origin,0\n\
         display,4,1\n\
         refresh,60\n\
         epoch,90000\n\
         region,0,0,0,4,1,4,0\n\
         picture,a,4,4,1,2222\n\
         picture,b,4,4,1,1134\n",
    )?;
    for number in 0..count {
        let name = if number % 2 == 0 { "a" } else { "b" };
        let row = format!(in alloc;
            "place,{},{},0,0,0,solid,{name}\n",
            start_of(number),
            start_of(number.saturating_add(1))
        )?;
        script.push_str(&row)?;
    }
    Ok(script)
}

/// A `dump` at the start of each cue.
fn dump_of(alloc: Global, count: u64) -> Result<String, NoMemory> {
    let mut line = String::from_str(alloc, "dump sd 256 1 2 in.ts out.txt")?;
    for number in 0..count {
        line.push_str(&format!(in alloc; " {}", start_of(number))?)?;
    }
    Ok(line)
}

/// The two pictures in turn.
fn pictures_in_turn(alloc: Global, count: u64) -> Result<String, NoMemory> {
    let mut text = String::new(alloc);
    for number in 0..count {
        let row = if number % 2 == 0 {
            "4*91223600"
        } else {
            "2*51F05A00 1*D2921000 1*296EF000"
        };
        text.push_str(&format!(in alloc; "picture {} 4 1\n{row}\n", start_of(number))?)?;
    }
    Ok(text)
}

/// Forty sets of one epoch: the region's version passes 15 twice, and each is taken.
#[test]
fn versions_go_round(rt: HostRuntime) {
    let alloc = rt.alloc();
    let script = cues_in_turn(alloc, 40).expect(&rt, "memory");
    let asked_of = reading(COMPILE, script.as_bytes());
    let sent = run(&rt, alloc, &asked_of, sound(100_000));
    same(&rt, sent.code, 0);
    let line = dump_of(alloc, 40).expect(&rt, "memory");
    let text = pictures_in_turn(alloc, 40).expect(&rt, "memory");
    let shown = reading(line.as_str(), sent.out.written());
    ends_as(&rt, alloc, &shown, sound(100_000), done(text.as_bytes()))
}
