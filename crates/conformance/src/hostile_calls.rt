use crate::same::same;
use decoder_model::{SetEnd, SetFault};
use page_core::Core;
use receiver::Receiver;
use samples::streams::{ENCODER_UNIT, Sent, encoder_segments, put_unit};
use std::alloc::Global;
use std::panic::Expect;
use std::process::Abort;
use std::thread::Threads;
use stream_syntax::{Event, PacketFault};
use sub_base::{NoGate, Profile, ProfileName};

/// Hands the packet to the receiver; none where a set is ready.
fn feed(receiver: &mut Receiver, packet: &[u8; 188]) -> Option<Result<Event, PacketFault>> {
    match receiver.ready() {
        Some(_) => None,
        None => Some(receiver.feed(packet)),
    }
}

/// Takes the set that is ready; none where none is.
fn take<R: Threads + Sync>(rt: &R, receiver: &mut Receiver) -> Option<SetEnd> {
    match receiver.ready() {
        None => None,
        Some(_) => Some(receiver.take(rt, 2, &NoGate)),
    }
}

/// What becomes of the sets of a stream, and how many packets followed, one after the other.
fn ends_of<R: Threads + Sync + Abort>(
    rt: &R,
    alloc: Global,
    stream: &[u8],
) -> (Vec<SetEnd>, usize) {
    let mut receiver = Receiver::make(alloc, &Profile::of(ProfileName::Sd), 256, 1, 0).expect(
        rt, "memory",
    );
    let mut ends = Vec::new(alloc);
    let mut followed = 0usize;
    let (packets, _) = stream.as_chunks::<188>();
    for packet in packets {
        if feed(&mut receiver, packet) == Some(Ok(Event::Followed)) {
            followed = followed.saturating_add(1);
        }
        if let Some(end) = take(rt, &mut receiver) {
            ends.push(end).expect(rt, "memory");
        }
    }
    (ends, followed)
}

#[test]
fn one_unit_is_fed_a_thousand_times(rt: HostRuntime) {
    let mut sent = Sent::new(Vec::new(rt.alloc()));
    for _ in 0..1_000 {
        sent.push(&ENCODER_UNIT).expect(&rt, "memory");
    }
    let (ends, followed) = ends_of(&rt, rt.alloc(), sent.stream.as_slice());
    same(&rt, ends.as_slice(), [SetEnd::Shown].as_slice());
    same(&rt, followed, 1_000);
}

/// A page segment of eight bytes in each of 3,073 units of one time.
#[test]
fn a_set_of_too_many_bytes_is_broken(rt: HostRuntime) {
    let mut unit = Vec::new(rt.alloc());
    let page = [0x0F, 0x10, 0x00, 0x01, 0x00, 0x02, 0x0C, 0x0B];
    put_unit(&mut unit, 90_000, &page).expect(&rt, "memory");
    let mut sent = Sent::new(Vec::new(rt.alloc()));
    for _ in 0..3_073 {
        sent.push(unit.as_slice()).expect(&rt, "memory");
    }
    let (ends, followed) = ends_of(&rt, rt.alloc(), sent.stream.as_slice());
    let broken = SetEnd::Broken(SetFault::SetTooLong { size: 24_584 });
    same(&rt, ends.as_slice(), [broken].as_slice());
    same(&rt, followed, 3_073);
}

#[test]
fn one_set_is_taken_a_thousand_times(rt: HostRuntime) {
    let mut core = Core::make(rt.alloc(), &Profile::of(ProfileName::Sd), 1, 0).expect(
        &rt, "memory",
    );
    same(
        &rt,
        core.take_set(90_000, encoder_segments()),
        SetEnd::Shown,
    );
    for _ in 1..1_000 {
        let later = core.take_set(90_000, encoder_segments());
        same(&rt, later, SetEnd::NotLater { last: 90_000 });
    }
}
