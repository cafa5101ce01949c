use crate::same::same;
use decoder_model::{Pages, SetEnd};
use set_receiver::SetReceiver;
use std::panic::Expect;
use sub_base::{Profile, ProfileName, SetLoad};

/// A page without regions that begins an epoch, and the end of its set.
const OPENING: [u8; 14] = [
    0x0F, 0x10, 0x00, 0x01, 0x00, 0x02, 0x0C, 0x0B, 0x0F, 0x80, 0x00, 0x01, 0x00, 0x00,
];

/// The bytes of a PES packet before these 14 bytes of segments, at tick 90,000.
const HEAD: [u8; 16] = [
    0x00, 0x00, 0x01, 0xBD, 0x00, 0x19, 0x84, 0x80, 0x05, 0x21, 0x00, 0x05, 0xBF, 0x21, 0x20, 0x00,
];

/// A transport packet of PID 256 that holds the PES packet whole.
fn packet_of(counter: u8) -> [u8; 188] {
    let mut packet = [0xFF; 188];
    packet[..6].copy_from_slice(&[0x47, 0x41, 0x00, 0x30 + counter % 16, 152, 0x00]);
    packet[157..173].copy_from_slice(&HEAD);
    packet[173..187].copy_from_slice(&OPENING);
    packet
}

/// What becomes of the set that a packet makes ready, where one was not ready before and is then.
fn end_with(receiver: &mut SetReceiver, packet: &[u8; 188]) -> Option<SetEnd> {
    if receiver.ready().is_some() {
        return None;
    }
    receiver.feed(packet).ok()?;
    match receiver.ready() {
        None => None,
        Some(_) => Some(receiver.take()),
    }
}

/// A set is shown, and has its segments and its load; one at the same time is not later; and
/// nothing is left.
#[test]
fn what_becomes_of_sets(rt: HostRuntime) {
    let profile = Profile::of(ProfileName::Sd);
    let mut receiver = SetReceiver::make(rt.alloc(), &profile, 256, Pages::only(1), 0).expect(
        &rt, "memory",
    );
    let load = SetLoad {
        pts: 90_000,
        size: 31,
        painted: 0,
    };
    same(
        &rt,
        end_with(&mut receiver, &packet_of(0)),
        Some(SetEnd::Shown),
    );
    same(&rt, receiver.load(), load);
    let late = SetEnd::NotLater { last: 90_000 };
    same(&rt, end_with(&mut receiver, &packet_of(2)), Some(late));
    same(&rt, receiver.load(), load);
    same(&rt, receiver.ready_at(), None);
    assert!(rt; receiver.ready_set().is_none());
    same(&rt, receiver.core().free_nodes(), profile.nodes);
}
