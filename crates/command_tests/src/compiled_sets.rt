//! What the sets of compiled scripts hold, read back out of the packets.
use crate::compiled_scripts::{COMPILE, FORTY_SECONDS, SEE_THROUGH, run};
use crate::same::same;
use pes_packets::read_pes;
use segments::{Segment, State, read_segment};
use std::alloc::Global;
use std::panic::Expect;
use std::process::Abort;
use sub_base::NoMemory;

/// Three cues of one region: the second and the third join, and stay as the first one ends.
const JOINED: &str = "origin,0\n\
     display,4,2\n\
     refresh,5\n\
     epoch,90000\n\
     region,0,0,0,4,2,8,0\n\
     picture,a,8,4,2,0102020203030303\n\
     place,90000,360000,0,0,0,solid,a\n\
     place,180000,450000,0,0,0,solid,a\n\
     place,270000,450000,0,0,0,solid,a\n";

/// A region of two cues with a pause between, beside a region whose cue stays.
const PAUSED: &str = "origin,0\n\
     display,4,2\n\
     refresh,2\n\
     epoch,90000\n\
     region,0,0,0,4,1,8,0\n\
     region,1,0,1,4,1,8,0\n\
     picture,a,8,4,1,01020203\n\
     place,90000,180000,0,0,0,solid,a\n\
     place,495000,585000,0,0,0,solid,a\n\
     place,90000,675000,1,0,0,solid,a\n";

/// What stands in a transport packet behind its head and its adaptation field.
fn payload_of(packet: &[u8; 188]) -> &[u8] {
    let start = if packet[3] / 32 % 2 == 1 {
        5 + packet[4] as usize
    } else {
        4
    };
    packet.get(start..).unwrap_or(&[])
}

fn name_of(state: State) -> &'static str {
    match state {
        State::Normal => "normal",
        State::Acquisition => "acquisition",
        State::ModeChange => "mode change",
    }
}

/// The time and the state of a set, and the regions that it sends: version, fill, and the objects
/// that are listed.
fn set_text<R: Abort>(rt: &R, alloc: Global, unit: &[u8], with_regions: bool) -> String {
    let pes = read_pes(unit).expect(rt, "a PES packet");
    let mut text = format!(in alloc; "{}", pes.pts).expect(rt, "memory");
    let mut rest = pes.segments;
    for _ in 0..16 {
        let Ok((segment, size)) = read_segment(rest) else {
            break;
        };
        if size > rest.len() {
            break;
        }
        put_segment(alloc, segment, with_regions, &mut text).expect(rt, "memory");
        rest = &rest[size..];
    }
    text.push_str("\n").expect(rt, "memory");
    text
}

fn put_segment(
    alloc: Global,
    segment: Segment<'_>,
    with_regions: bool,
    text: &mut String,
) -> Result<(), NoMemory> {
    match segment {
        Segment::Page(page) => {
            text.push_str(" ")?;
            text.push_str(name_of(page.state))?;
        }
        Segment::Region(region) if with_regions => {
            let fill = if region.fill { " fill" } else { "" };
            let head = format!(in alloc;
                "; region {} version {}{fill}",
                region.region, region.version
            )?;
            text.push_str(&head)?;
            for i in 0..region.count() {
                let listed = format!(in alloc; " {}", region.listing(i).object)?;
                text.push_str(&listed)?;
            }
        }
        _ => {}
    }
    Ok(())
}

/// The sets of a stream, each of which one packet of the PID 256 carries.
fn sets_of<R: Abort>(rt: &R, alloc: Global, stream: &[u8], with_regions: bool) -> String {
    let (packets, _) = stream.as_chunks::<188>();
    let mut text = String::new(alloc);
    for packet in packets {
        if packet[1] % 32 == 1 && packet[2] == 0 {
            let set = set_text(rt, alloc, payload_of(packet), with_regions);
            text.push_str(&set).expect(rt, "memory");
        }
    }
    text
}

/// A cue that is seen through is put on what stands, and is sent alone.
#[test]
fn a_later_cue_is_sent_alone(rt: HostRuntime) {
    let done = run(&rt, rt.alloc(), COMPILE, SEE_THROUGH, "");
    let sets = sets_of(&rt, rt.alloc(), done.out.written(), true);
    same(
        &rt,
        sets.as_str(),
        "90000 mode change; region 0 version 0 fill 0\n\
         135000 normal; region 0 version 1 1\n\
         270000 normal\n",
    );
}

/// Cues that join are sent alone; as one ends, those that stay are sent again behind a fill.
#[test]
fn cues_join_and_leave(rt: HostRuntime) {
    let done = run(&rt, rt.alloc(), COMPILE, JOINED, "");
    let sets = sets_of(&rt, rt.alloc(), done.out.written(), true);
    same(
        &rt,
        sets.as_str(),
        "90000 mode change; region 0 version 0 fill 0\n\
         180000 normal; region 0 version 1 1\n\
         270000 normal; region 0 version 2 2\n\
         360000 normal; region 0 version 3 fill 1 2\n\
         450000 normal\n",
    );
}

/// A set where an acquisition point is due is one, and a region that was empty is filled.
#[test]
fn acquisition_points_of_two_regions(rt: HostRuntime) {
    let done = run(&rt, rt.alloc(), COMPILE, PAUSED, "");
    let states = sets_of(&rt, rt.alloc(), done.out.written(), false);
    same(
        &rt,
        states.as_str(),
        "90000 mode change\n\
         180000 normal\n\
         360000 acquisition\n\
         495000 normal\n\
         585000 acquisition\n\
         675000 normal\n",
    );
    let sets = sets_of(&rt, rt.alloc(), done.out.written(), true);
    same(
        &rt,
        line_at(sets.as_str(), 3),
        Some("495000 normal; region 0 version 1 fill 1"),
    );
}

/// The line at a place, counted from 0.
fn line_at(text: &str, place: usize) -> Option<&str> {
    text.lines().nth(place)
}

/// The tick at which the cue at a place starts: a second from one to the next.
pub(crate) fn start_of(place: u64) -> u64 {
    place.saturating_mul(90_000).saturating_add(90_000)
}

/// A script of seventeen cues, one after another.
pub(crate) fn seventeen_cues(alloc: Global) -> Result<String, NoMemory> {
    let mut script = String::from_str(
        alloc,
        "origin,0\n\
         display,4,2\n\
         refresh,5\n\
         epoch,90000\n\
         region,0,0,0,4,2,8,0\n\
         picture,a,8,4,2,0102020203030303\n",
    )?;
    for k in 0..17u64 {
        let row = format!(in alloc; "place,{},{},0,0,0,solid,a\n", start_of(k), start_of(k + 1))?;
        script.push_str(&row)?;
    }
    Ok(script)
}

/// The version goes from 15 to 0, and each fifth second has an acquisition point.
#[test]
fn versions_go_round(rt: HostRuntime) {
    let alloc = rt.alloc();
    let script = seventeen_cues(alloc).expect(&rt, "memory");
    let done = run(&rt, alloc, COMPILE, script.as_str(), "");
    let mut expected = String::new(alloc);
    for k in 0..17u64 {
        let state = if k == 0 {
            "mode change"
        } else if k % 5 == 0 {
            "acquisition"
        } else {
            "normal"
        };
        let line = format!(in alloc;
            "{} {state}; region 0 version {} fill {k}\n",
            start_of(k),
            k % 16
        )
        .expect(&rt, "memory");
        expected.push_str(&line).expect(&rt, "memory");
    }
    expected.push_str("1620000 normal\n").expect(&rt, "memory");
    let sets = sets_of(&rt, alloc, done.out.written(), true);
    same(&rt, sets.as_str(), expected.as_str());
}

/// A cue of forty seconds has seven acquisition points, each with the whole page again. Its end is
/// the eighth.
#[test]
fn a_long_cue_is_sent_again(rt: HostRuntime) {
    let done = run(&rt, rt.alloc(), COMPILE, FORTY_SECONDS, "");
    let states = sets_of(&rt, rt.alloc(), done.out.written(), false);
    same(
        &rt,
        states.as_str(),
        "90000 mode change\n\
         540000 acquisition\n\
         990000 acquisition\n\
         1440000 acquisition\n\
         1890000 acquisition\n\
         2340000 acquisition\n\
         2790000 acquisition\n\
         3240000 acquisition\n\
         3690000 acquisition\n",
    );
}
