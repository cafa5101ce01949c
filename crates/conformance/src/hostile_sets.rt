ghost use Rattle.std.specs.Prelude.{◌≡◌, ◌*◌, length, OnOk};

use crate::running::{Wanted, done, ends_as, reading, sound};
use samples::first_run::{CHECK, LIST};
use samples::streams::{ENCODER_UNIT, Sent, packet_of, put_unit};
use std::alloc::Global;
use std::panic::Expect;
use sub_base::NoMemory;

const CHECK_LARGE: &str = "check large 0 256 1 in.ts out.txt";

const DUMP: &str = "dump sd 256 1 2 in.ts out.txt 90000";

const DUMP_WIDE: &str = "dump wide 256 1 2 in.ts out.txt 90000";

/// A page without regions that begins an epoch, and no end of its set.
const OPEN: [u8; 8] = [0x0F, 0x10, 0x00, 0x01, 0x00, 0x02, 0x0C, 0x0B];

/// The end of a set.
const END: [u8; 6] = [0x0F, 0x80, 0x00, 0x01, 0x00, 0x00];

/// So many units with a page each, at times that lie so far from each other.
fn pages(alloc: Global, count: u32, step: u32) -> Result<Vec<u8>, NoMemory> {
    let mut sent = Sent::new(Vec::new(alloc));
    let mut unit = Vec::new(alloc);
    let mut pts = 90_000u64;
    for _ in 0..count {
        put_unit(&mut unit, pts % (1 << 33), &OPEN)?;
        sent.push(unit.as_slice())?;
        pts = pts.saturating_add(u64::from(step));
    }
    Ok(sent.stream)
}

/// One set goes on for 4,000 units. With the 3,073rd it has more segments than the coded data
/// buffer has bytes: 24,584. Before, as the 984th comes, the buffer has 25 bytes of each.
#[test]
fn a_set_that_never_ends(rt: HostRuntime) {
    let alloc = rt.alloc();
    let stream = pages(alloc, 4_000, 0).expect(&rt, "memory");
    let stream = stream.as_slice();
    let checked = b"set 90000 broken 76825 2242585\npeak 24600\nbreach coded 983 24600\n";
    ends_as(
        &rt,
        alloc,
        &reading(CHECK, stream),
        sound(10_000),
        done(checked),
    );
    let shown = done(b"picture 90000 clear\n");
    ends_as(&rt, alloc, &reading(DUMP, stream), sound(10_000), shown)
}

/// Just as many segments as the buffer has bytes are a set that the end of the stream makes ready.
/// Its page is there twice.
#[test]
fn a_set_as_long_as_the_buffer(rt: HostRuntime) {
    let alloc = rt.alloc();
    let stream = pages(alloc, 3_072, 0).expect(&rt, "memory");
    let checked = b"set 90000 broken 76800 2241855\npeak 24600\nbreach coded 983 24600\n";
    let asked = reading(CHECK, stream.as_slice());
    ends_as(&rt, alloc, &asked, sound(10_000), done(checked))
}

/// No set has an end, and each is made ready by the next one; the last by the end of the stream. A
/// set is done 25 ticks after its last packet came, or the one before it was shown.
fn open_sets(alloc: Global, count: u32, step: u32) -> Result<String, NoMemory> {
    let mut text = String::new(alloc);
    let mut pts = 90_000u64;
    let mut shown = 0u64;
    let mut slot = 0u64;
    for _ in 0..count {
        let done = slot.saturating_mul(705).max(shown).saturating_add(25);
        text.push_str(&format!(in alloc; "set {pts} shown 25 {done}\n")?)?;
        shown = pts;
        pts = pts.saturating_add(u64::from(step));
        slot = slot.saturating_add(1);
    }
    Ok(text)
}

/// A hundred sets, each a slot's ticks behind the one before it.
#[test]
fn sets_without_an_end(rt: HostRuntime) {
    let alloc = rt.alloc();
    let stream = pages(alloc, 100, 705).expect(&rt, "memory");
    let mut text = open_sets(alloc, 100, 705).expect(&rt, "memory");
    // The first one leaves the buffer at once. All others wait for the time of the set before them,
    // which is behind the last packet.
    text.push_str("peak 2475\nbreach none\n")
        .expect(&rt, "memory");
    let asked = reading(CHECK, stream.as_slice());
    ends_as(&rt, alloc, &asked, sound(10_000), done(text.as_bytes()))
}

/// Regions of 4 by 2 pixels, so many from that one on, whose ids go round.
fn put_regions(segments: &mut Vec<u8>, first: u32, count: u32) -> Result<(), NoMemory>
    ensures { OnOk result (length segments.new.items ≡ 16 * count) }
{
    segments.clear();
    for place in 0..count {
        let id = (first.wrapping_add(place) % 256) as u8;
        segments.extend_from_slice(&[
            0x0F, 0x11, 0x00, 0x01, 0x00, 0x0A, id, 0x0F, 0x00, 0x04, 0x00, 0x02, 0x6F, 0x00, 0x00,
            0x03,
        ])?;
    }
    Ok(())
}

/// 65,535 regions in 17 units of one time: 4,095 in each, of 357 packets, and 15 in the last, of
/// two.
fn regions(alloc: Global) -> Result<Vec<u8>, NoMemory> {
    let mut sent = Sent::new(Vec::new(alloc));
    let mut unit = Vec::new(alloc);
    let mut segments = Vec::new(alloc);
    for place in 0..17u32 {
        let count = if place < 16 { 4_095 } else { 15 };
        put_regions(&mut segments, place.wrapping_mul(4_095), count)?;
        put_unit(&mut unit, 90_000, segments.as_slice())?;
        sent.push(unit.as_slice())?;
    }
    Ok(sent.stream)
}

/// The lines of a unit of so many regions, which ends with the packet of that number.
fn push_lines(
    alloc: Global,
    text: &mut String,
    number: u32,
    length: u32,
    count: u32,
) -> Result<(), NoMemory> {
    text.push_str(&format!(in alloc; "unit {number} pts 90000 length {length}\n")?)?;
    for place in 0..count {
        let byte = place.wrapping_mul(16).wrapping_add(2);
        text.push_str(&format!(in alloc; "segment {byte} 11 1 10\n")?)?;
    }
    Ok(())
}

/// The number of the last packet of a unit of 357 packets, of which so many came before.
fn last_packet(units: u32) -> u32 {
    units.wrapping_mul(357).wrapping_add(356)
}

#[test]
fn sixty_five_thousand_regions_are_listed(rt: HostRuntime) {
    let alloc = rt.alloc();
    let stream = regions(alloc).expect(&rt, "memory");
    let mut text = String::new(alloc);
    for place in 0..16u32 {
        push_lines(alloc, &mut text, last_packet(place), 65_537, 4_095).expect(&rt, "memory");
    }
    push_lines(alloc, &mut text, 5_713, 257, 15).expect(&rt, "memory");
    let asked = reading(LIST, stream.as_slice());
    ends_as(&rt, alloc, &asked, sound(100_000), done(text.as_bytes()))
}

/// With the fifth unit the set has more segments than the largest buffer has bytes. The buffer is
/// full with the last packet of the fourth unit: the level is then four units of 65,537 bytes.
#[test]
fn sixty_five_thousand_regions_are_checked(rt: HostRuntime) {
    let alloc = rt.alloc();
    let stream = regions(alloc).expect(&rt, "memory");
    let stream = stream.as_slice();
    let checked = b"set 90000 broken 327685 488245\npeak 262148\nbreach coded 1427 262148\n";
    ends_as(
        &rt,
        alloc,
        &reading(CHECK_LARGE, stream),
        sound(100_000),
        done(checked),
    );
    let shown = done(b"picture 90000 clear\n");
    ends_as(
        &rt,
        alloc,
        &reading(DUMP_WIDE, stream),
        sound(100_000),
        shown,
    )
}

/// A set of 257 regions, of which the last has the id of the first.
#[test]
fn a_region_that_comes_twice(rt: HostRuntime) {
    let alloc = rt.alloc();
    let mut segments = Vec::new(alloc);
    put_regions(&mut segments, 0, 257).expect(&rt, "memory");
    segments.extend_from_slice(&OPEN).expect(&rt, "memory");
    segments.extend_from_slice(&END).expect(&rt, "memory");
    let mut unit = Vec::new(alloc);
    put_unit(&mut unit, 90_000, segments.as_slice()).expect(&rt, "memory");
    let mut sent = Sent::new(Vec::new(alloc));
    sent.push(unit.as_slice()).expect(&rt, "memory");
    // 4,143 bytes in 23 packets, of which the last is in slot 22.
    let checked = b"set 90000 broken 4143 6123\npeak 4143\nbreach none\n";
    let asked = reading(CHECK_LARGE, sent.stream.as_slice());
    ends_as(&rt, alloc, &asked, sound(100_000), done(checked))
}

/// A set in a unit of 65,541 bytes, the greatest length of a PES packet: a page, 65,504 bytes of
/// stuffing in a segment, and the end.
fn greatest_unit(alloc: Global) -> Result<Vec<u8>, NoMemory> {
    let mut segments = Vec::from_slice(alloc, &OPEN)?;
    segments.extend_from_slice(&[0x0F, 0xFF, 0x00, 0x01, 0xFF, 0xE0])?;
    segments.resize(65_518, 0xAA)?;
    segments.extend_from_slice(&END)?;
    let mut unit = Vec::new(alloc);
    put_unit(&mut unit, 180_000, segments.as_slice())?;
    let mut sent = Sent::new(Vec::new(alloc));
    sent.push(unit.as_slice())?;
    Ok(sent.stream)
}

/// It is 357 packets long. The largest receivers take it; for `sd` it is too long, of which its
/// first packet tells.
#[test]
fn a_unit_of_the_greatest_length(rt: HostRuntime) {
    let alloc = rt.alloc();
    let stream = greatest_unit(alloc).expect(&rt, "memory");
    let stream = stream.as_slice();
    let rows: [(&str, &str); 3] = [
        (
            LIST,
            "unit 356 pts 180000 length 65541\n\
             segment 2 10 1 2\n\
             segment 10 FF 1 65504\n\
             segment 65520 80 1 0\n",
        ),
        (
            CHECK_LARGE,
            "set 180000 shown 65541 97581\npeak 65541\nbreach none\n",
        ),
        (CHECK, "peak 184\nbreach none\n"),
    ];
    for (line, text) in rows {
        ends_as(
            &rt,
            alloc,
            &reading(line, stream),
            sound(100_000),
            done(text.as_bytes()),
        );
    }
}

/// The encoder's unit with a PES header that would pass its end.
#[test]
fn a_header_that_passes_the_end(rt: HostRuntime) {
    let mut unit = ENCODER_UNIT;
    unit[8] = 0xFF;
    let packet = packet_of(&[0x47, 0x41, 0x00, 0x30, 0x63, 0x00], &unit);
    let rows = [
        (LIST, "pes 0 BadHeader\n"),
        (CHECK, "peak 84\nbreach none\n"),
        (DUMP, "picture 90000 clear\n"),
    ];
    for (line, text) in rows {
        let asked = reading(line, &packet);
        ends_as(&rt, rt.alloc(), &asked, sound(1_000), done(text.as_bytes()));
    }
}

/// A page whose length fits no entries, and a packet whose adaptation field passes its end.
#[test]
fn a_fault_in_a_segment_and_in_a_packet(rt: HostRuntime) {
    let alloc = rt.alloc();
    let mut unit = Vec::new(alloc);
    let page = [0x0F, 0x10, 0x00, 0x01, 0x00, 0x03, 0x05, 0x00, 0x00];
    put_unit(&mut unit, 90_000, &page).expect(&rt, "memory");
    let mut sent = Sent::new(Vec::new(alloc));
    sent.push(unit.as_slice()).expect(&rt, "memory");
    sent.stream
        .extend_from_slice(&packet_of(&[0x47, 0x01, 0x00, 0x31, 0xB8], &[]))
        .expect(&rt, "memory");
    let wanted = Wanted {
        code: 4,
        note: "stream 1 BadAdaptation\n",
        out: b"unit 0 pts 90000 length 26\nfault 6 BadLength\n",
    };
    ends_as(
        &rt,
        alloc,
        &reading(LIST, sent.stream.as_slice()),
        sound(1_000),
        wanted,
    )
}
