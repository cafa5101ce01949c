use crate::same::same;
use crate::sending::{END, FILLED, NORMAL, OPEN};
use crate::trial::{Seen, Trial};
use page_core::SetEnd;
use std::panic::Expect;
use std::process::Abort;
use std::thread::Threads;
use stream_syntax::{Event, PacketFault};
use sub_base::{CLEAR, Colour};

/// The same for the page id 2.
const OTHER_PAGE: [u8; 14] = [
    0x0F, 0x10, 0x00, 0x02, 0x00, 0x02, 0x0C, 0x13, 0x0F, 0x80, 0x00, 0x02, 0x00, 0x00,
];

/// The same display, and on page 2 a CLUT in which the code is white.
#[rattlefmt::skip]
const SHARED: [u8; 61] = [
    0x0F, 0x14, 0x00, 0x01, 0x00, 0x05, 0x07, 0x00, 0x03, 0x00, 0x01,
    0x0F, 0x10, 0x00, 0x01, 0x00, 0x08, 0x0C, 0x0B, 0x00, 0xFF, 0x00, 0x00, 0x00, 0x00,
    0x0F, 0x11, 0x00, 0x01, 0x00, 0x0A, 0x00, 0x0F, 0x00, 0x04, 0x00, 0x02, 0x6F, 0x00, 0x01, 0x03,
    0x0F, 0x12, 0x00, 0x02, 0x00, 0x08, 0x00, 0x1F, 0x01, 0x3F, 0xEB, 0x80, 0x80, 0x00,
    0x0F, 0x80, 0x00, 0x01, 0x00, 0x00,
];

/// The default colour of that code.
const RED: Colour = Colour {
    y: 81,
    cr: 240,
    cb: 90,
    t: 192,
};

const WHITE: Colour = Colour {
    y: 235,
    cr: 128,
    cb: 128,
    t: 0,
};

const FOLLOWED: Option<Result<Event, PacketFault>> = Some(Ok(Event::Followed));

#[test]
fn nothing_was_fed(rt: HostRuntime) {
    let trial = Trial::new(&rt, rt.alloc());
    same(&rt, trial.ready(), None);
    same(&rt, trial.ready_at(), None);
    same(&rt, trial.from(), 0);
    same(&rt, trial.seen_at(0), Seen::Clear);
    same(&rt, trial.free_nodes(), 512);
}

/// A set that ends with its packet is ready at once.
#[test]
fn set_is_ready_with_its_end(rt: HostRuntime) {
    let mut trial = Trial::new(&rt, rt.alloc());
    same(&rt, trial.send(90_000, &FILLED), FOLLOWED);
    same(&rt, trial.ready(), Some(90_000));
    same(&rt, trial.ready_at(), Some(90_000));
    same(&rt, trial.send(180_000, &NORMAL), None);
}

/// What a set asks: its time, its 64 bytes, and a tick for its eight pixels. In the page memory its
/// page entry and its region take a node each, and the pixels, of 8 bits, eight bytes.
#[test]
fn what_a_set_asks(rt: HostRuntime) {
    let mut trial = Trial::new(&rt, rt.alloc());
    same(&rt, trial.show_filled(&rt, 90_000), Some(SetEnd::Shown));
    let load = trial.load();
    same(&rt, (load.pts, load.size, load.painted), (90_000, 64, 1));
    same(&rt, trial.free_nodes(), 510);
    same(&rt, trial.free_pixels(), 81_912);
}

#[test]
fn set_is_shown_from_its_time_on(rt: HostRuntime) {
    let mut trial = Trial::new(&rt, rt.alloc());
    same(&rt, trial.show_filled(&rt, 90_000), Some(SetEnd::Shown));
    same(&rt, trial.ready(), None);
    same(&rt, trial.from(), 0);
    same(&rt, trial.seen_at(89_999), Seen::Clear);
    same(&rt, trial.seen_at(90_000), Seen::Picture(Some(RED)));
}

/// Up to the time of the next set the one before it is shown.
#[test]
fn set_is_shown_up_to_the_next_one(rt: HostRuntime) {
    let mut trial = Trial::new(&rt, rt.alloc());
    same(&rt, trial.show_filled(&rt, 90_000), Some(SetEnd::Shown));
    same(&rt, trial.send(180_000, &NORMAL), FOLLOWED);
    same(&rt, trial.take(&rt), Some(SetEnd::Shown));
    same(&rt, trial.from(), 90_000);
    same(&rt, trial.seen_at(89_999), Seen::TooEarly);
    same(&rt, trial.seen_at(179_999), Seen::Picture(Some(RED)));
    same(&rt, trial.seen_at(180_000), Seen::Picture(Some(CLEAR)));
}

/// Twelve seconds after its time a set is timed out.
#[test]
fn set_is_timed_out(rt: HostRuntime) {
    let mut trial = Trial::new(&rt, rt.alloc());
    same(&rt, trial.show_filled(&rt, 90_000), Some(SetEnd::Shown));
    same(&rt, trial.seen_at(1_169_999), Seen::Picture(Some(RED)));
    same(&rt, trial.seen_at(1_170_000), Seen::Clear);
}

/// A set without an end is ready with the first unit of another time, and the set of that one is
/// behind it.
#[test]
fn set_is_ready_with_another_time(rt: HostRuntime) {
    let mut trial = Trial::new(&rt, rt.alloc());
    same(&rt, trial.send(90_000, &OPEN), FOLLOWED);
    same(&rt, trial.ready(), None);
    same(&rt, trial.send(180_000, &FILLED), FOLLOWED);
    same(&rt, trial.ready(), Some(90_000));
    same(&rt, trial.take(&rt), Some(SetEnd::Shown));
    same(&rt, trial.load().size, 25);
    same(&rt, trial.ready(), Some(180_000));
}

/// The units of one time are one set, of 25 and 23 bytes.
#[test]
fn set_of_two_units(rt: HostRuntime) {
    let mut trial = Trial::new(&rt, rt.alloc());
    same(&rt, trial.send(90_000, &OPEN), FOLLOWED);
    same(&rt, trial.send(90_000, &END), FOLLOWED);
    same(&rt, trial.take(&rt), Some(SetEnd::Shown));
    same(&rt, trial.load().size, 48);
}

#[test]
fn set_is_ready_with_the_end_of_the_stream(rt: HostRuntime) {
    let mut trial = Trial::new(&rt, rt.alloc());
    same(&rt, trial.send(90_000, &OPEN), FOLLOWED);
    assert!(rt; trial.finish());
    same(&rt, trial.ready(), Some(90_000));
    same(&rt, trial.take(&rt), Some(SetEnd::Shown));
    same(&rt, trial.ready(), None);
}

/// Behind a lost packet the page memory is empty, no epoch is known, and a set of state normal
/// waits.
#[test]
fn nothing_is_known_behind_a_lost_packet(rt: HostRuntime) {
    let mut trial = Trial::new(&rt, rt.alloc());
    same(&rt, trial.show_filled(&rt, 90_000), Some(SetEnd::Shown));
    let _ = trial.next(135_000, &NORMAL);
    same(
        &rt,
        trial.send(180_000, &NORMAL),
        Some(Ok(Event::Gap {
            expected: 1,
            found: 2,
        })),
    );
    same(&rt, trial.free_nodes(), 512);
    same(&rt, trial.free_pixels(), 81_920);
    same(&rt, trial.take(&rt), Some(SetEnd::Waiting));
    same(&rt, trial.seen_at(179_999), Seen::Picture(Some(RED)));
    same(&rt, trial.seen_at(180_000), Seen::Clear);
}

/// A set in hand is given up with a lost packet.
#[test]
fn set_in_hand_is_lost(rt: HostRuntime) {
    let mut trial = Trial::new(&rt, rt.alloc());
    same(&rt, trial.send(90_000, &OPEN), FOLLOWED);
    let _ = trial.next(90_000, &END);
    let _ = trial.send(180_000, &OPEN);
    same(&rt, trial.ready(), None);
    assert!(rt; !trial.arrival().before);
}

/// A packet that cannot be taken changes nothing: the set in hand goes on behind it.
#[test]
fn refused_packet_changes_nothing(rt: HostRuntime) {
    let mut trial = Trial::new(&rt, rt.alloc());
    same(&rt, trial.send(90_000, &OPEN), FOLLOWED);
    same(&rt, trial.feed(&[0; 188]), Some(Err(PacketFault::NoSync)));
    same(&rt, trial.arrival().bytes, 25);
    same(&rt, trial.send(90_000, &END), FOLLOWED);
    same(&rt, trial.take(&rt), Some(SetEnd::Shown));
}

/// A set that is not later than the last one changes no picture.
#[test]
fn set_that_is_not_later(rt: HostRuntime) {
    let mut trial = Trial::new(&rt, rt.alloc());
    same(&rt, trial.show_filled(&rt, 90_000), Some(SetEnd::Shown));
    same(&rt, trial.send(45_000, &FILLED), FOLLOWED);
    same(&rt, trial.ready(), Some(45_000));
    same(&rt, trial.ready_at(), None);
    same(
        &rt,
        trial.take(&rt),
        Some(SetEnd::NotLater { last: 90_000 }),
    );
    same(&rt, trial.from(), 0);
    same(&rt, trial.seen_at(89_999), Seen::Clear);
}

/// What it asks: its time as read, its size, and no painting.
#[test]
fn load_of_a_set_that_is_not_later(rt: HostRuntime) {
    let mut trial = Trial::new(&rt, rt.alloc());
    same(&rt, trial.show_filled(&rt, 90_000), Some(SetEnd::Shown));
    same(
        &rt,
        trial.show_filled(&rt, 45_000),
        Some(SetEnd::NotLater { last: 90_000 }),
    );
    let load = trial.load();
    same(&rt, (load.pts, load.size, load.painted), (45_000, 64, 0));
}

/// A PES packet without a time is a loss.
#[test]
fn unit_without_a_time_is_a_loss(rt: HostRuntime) {
    let mut trial = Trial::new(&rt, rt.alloc());
    same(&rt, trial.show_filled(&rt, 90_000), Some(SetEnd::Shown));
    let mut packet = trial.next(180_000, &NORMAL);
    packet[164] = 0x00;
    same(&rt, trial.feed(&packet), FOLLOWED);
    assert!(rt; trial.arrival().dropped);
    same(&rt, trial.send(180_000, &NORMAL), FOLLOWED);
    same(&rt, trial.take(&rt), Some(SetEnd::Waiting));
}

/// A PES packet of another stream id is passed over.
#[test]
fn unit_of_another_stream_is_passed_over(rt: HostRuntime) {
    let mut trial = Trial::new(&rt, rt.alloc());
    same(&rt, trial.show_filled(&rt, 90_000), Some(SetEnd::Shown));
    let mut packet = trial.next(180_000, &NORMAL);
    packet[160] = 0xC0;
    same(&rt, trial.feed(&packet), FOLLOWED);
    assert!(rt; trial.arrival().dropped);
    same(&rt, trial.ready(), None);
    same(&rt, trial.send(180_000, &NORMAL), FOLLOWED);
    same(&rt, trial.take(&rt), Some(SetEnd::Shown));
}

/// A unit of another page neither counts nor makes the set in hand ready.
#[test]
fn unit_of_another_page_does_not_count(rt: HostRuntime) {
    let mut trial = Trial::new(&rt, rt.alloc());
    same(&rt, trial.send(90_000, &OPEN), FOLLOWED);
    same(&rt, trial.send(180_000, &OTHER_PAGE), FOLLOWED);
    assert!(rt; trial.arrival().dropped);
    same(&rt, trial.ready(), None);
    same(&rt, trial.send(90_000, &END), FOLLOWED);
    same(&rt, trial.ready(), Some(90_000));
}

/// What a receiver shows of the display with a CLUT on page 2.
fn shows_shared<R: Threads + Sync + Abort>(rt: &R, mut trial: Trial, colour: Colour) {
    same(rt, trial.send(90_000, &SHARED), FOLLOWED);
    same(rt, trial.take(rt), Some(SetEnd::Shown));
    same(rt, trial.seen_at(90_000), Seen::Picture(Some(colour)));
}

/// A CLUT of the ancillary page is as one of the page; a receiver of the page alone has its default
/// colours.
#[test]
fn clut_of_the_ancillary_page(rt: HostRuntime) {
    shows_shared(
        &rt,
        Trial::with_ancillary_page(rt.alloc()).expect(&rt, "memory"),
        WHITE,
    );
    shows_shared(&rt, Trial::new(&rt, rt.alloc()), RED);
}

/// A packet with the whole of a unit brings its bytes.
#[test]
fn bytes_of_a_unit_arrive(rt: HostRuntime) {
    let mut trial = Trial::new(&rt, rt.alloc());
    same(&rt, trial.send(90_000, &FILLED), FOLLOWED);
    let arrival = trial.arrival();
    same(
        &rt,
        (arrival.bytes, arrival.before, arrival.dropped),
        (64, false, false),
    );
}

/// A packet of another PID brings none.
#[test]
fn no_bytes_of_another_pid_arrive(rt: HostRuntime) {
    let mut trial = Trial::new(&rt, rt.alloc());
    let mut packet = trial.next(90_000, &FILLED);
    packet[2] = 0x01;
    same(&rt, trial.feed(&packet), Some(Ok(Event::Other)));
    let arrival = trial.arrival();
    same(
        &rt,
        (arrival.bytes, arrival.before, arrival.dropped),
        (0, false, false),
    );
}

/// A unit that needs more bytes than there are is dropped behind those that come.
#[test]
fn unit_that_is_too_long_is_dropped(rt: HostRuntime) {
    let mut trial = Trial::new(&rt, rt.alloc());
    let mut packet = trial.next(90_000, &FILLED);
    packet[128] = 0xF0;
    same(
        &rt,
        trial.feed(&packet),
        Some(Ok(Event::TooLong {
            need: 61_504,
            size: 24_576,
        })),
    );
    let arrival = trial.arrival();
    same(
        &rt,
        (arrival.bytes, arrival.before, arrival.dropped),
        (64, false, true),
    );
}

/// A unit of another time makes the set in hand ready before its bytes.
#[test]
fn set_stands_before_bytes_of_another_time(rt: HostRuntime) {
    let mut trial = Trial::new(&rt, rt.alloc());
    same(&rt, trial.send(90_000, &OPEN), FOLLOWED);
    same(&rt, trial.send(180_000, &FILLED), FOLLOWED);
    let arrival = trial.arrival();
    same(
        &rt,
        (arrival.bytes, arrival.before, arrival.dropped),
        (64, true, false),
    );
}

/// A unit behind the end of its set is dropped.
#[test]
fn unit_behind_its_set_is_dropped(rt: HostRuntime) {
    let mut trial = Trial::new(&rt, rt.alloc());
    same(&rt, trial.show_filled(&rt, 90_000), Some(SetEnd::Shown));
    same(&rt, trial.send(90_000, &OPEN), FOLLOWED);
    let arrival = trial.arrival();
    same(
        &rt,
        (arrival.bytes, arrival.before, arrival.dropped),
        (25, false, true),
    );
    same(&rt, trial.ready(), None);
}
